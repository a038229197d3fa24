//! What is proved of residues and of the places of faults as such.

ghost use Rattle.ring.specs.Places.{PlacesAreNumbered};
ghost use Rattle.ring.specs.Residues.{ResidueLaws};

/// Every integer has one residue modulo q, for every q above 0.
#[tactic(auto, using(crate::proofs::ResidueLaws::residue_laws))]
pub fn residue_laws()
    ensures { ResidueLaws }
{}

/// Which number a wrong length of each argument is reported with: clauses name the constants of
/// `place`.
pub fn places_are_numbered()
    ensures { PlacesAreNumbered }
{}
