//! What is proved of every derivation. A theorem stands on a function's contract, where the check
//! asks for its proof.

ghost use Rattle.byte_source.specs.Laws.{DerivationLaws, DerivationValues};

/// An element has n numbers, each below q, and more bytes than suffice change nothing. A refusal
/// says why there is no element, and what suffices is not refused.
#[tactic(auto, using(crate::proofs::Laws::derivation_laws))]
pub fn derivation_laws()
    ensures { DerivationLaws }
{}

/// How many bits and bytes a number takes in each number set, how many bytes SHAKE128 gives for a
/// seed, and an element that was worked out by hand.
pub fn derivation_values()
    ensures { DerivationValues }
{}
