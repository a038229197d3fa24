//! What is proved of the tests of a multiplication.

ghost use Rattle.multiplier.specs.Multipliers.{MultiplyAcceptsWhatFits, MultiplyRefusesTheFirst};

/// Multiplying accepts exactly the lists and buffers that fit, and refuses any others at the first
/// place where they do not.
#[tactic(auto, using(crate::proofs::Refusals::refusal_laws))]
pub fn multiply_refuses_the_first()
    ensures refuses { MultiplyRefusesTheFirst }
    ensures accepts { MultiplyAcceptsWhatFits }
{}
