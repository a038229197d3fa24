//! What is proved of packing as such.

ghost use Rattle.packing.specs.PackingLaws.{PackingIsLawful};
ghost use Rattle.packing.specs.Refusals.{PackingRefusesTheFirst};

/// A packed list has as many bytes as its bits need; number i of w bits is at the bits
/// i w .. i w + w - 1, and the spare bits are zero; packing and unpacking undo each other.
#[tactic(auto, using(crate::proofs::Laws::packing_is_lawful))]
pub fn packing_is_lawful()
    ensures { PackingIsLawful }
{}

/// Each outcome of packing and unpacking says that all is right, or what is wrong first; and what
/// is right is accepted.
#[tactic(auto, using(crate::proofs::Refusals::packing_refuses_the_first))]
pub fn packing_refuses_the_first()
    ensures { PackingRefusesTheFirst }
{}
