//! What is proved of codes as such.

ghost use Rattle.exports.specs.CodeLaws.{CodesTellOutcomes};

/// A fault's number and place are read back from its code, which is at least 2^56 and below that
/// of no call; and a signal and a key bit from theirs.
#[tactic(auto, using(crate::proofs::CodeLaws::codes_tell_outcomes))]
pub fn codes_tell_outcomes()
    ensures { CodesTellOutcomes }
{}
