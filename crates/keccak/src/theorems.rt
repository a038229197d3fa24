//! What is proved of the tables and of the output as a whole. A theorem stands on a function's
//! contract, where the check asks for its proof.

ghost use Rattle.keccak.specs.Laws.{OutputLaws};
ghost use Rattle.keccak.specs.Tables.{TablesFollowTheRules};

/// The round constants and the rotation offsets are those that the rules of FIPS 202 give.
pub fn tables_follow_the_rules()
    ensures { TablesFollowTheRules }
{}

/// An output has the length that is asked for, begins with every shorter output, and its bytes are
/// those of the blocks in order.
#[tactic(auto, using(crate::proofs::Streams::stream_laws))]
pub fn output_laws()
    ensures { OutputLaws }
{}
