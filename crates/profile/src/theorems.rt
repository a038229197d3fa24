//! What is proved of a profile's functions as such.

ghost use Rattle.profile.specs.OutcomeLaws.{FunctionsRefuseTheFirst};

/// Each outcome of rounding, recovering, reconciling and reading says that what was handed in is
/// in range, and is the value there, or says what is out of range first; and what is in range is
/// accepted.
#[tactic(auto, using(crate::proofs::OutcomeLaws::functions_refuse_the_first))]
pub fn functions_refuse_the_first()
    ensures { FunctionsRefuseTheFirst }
{}
