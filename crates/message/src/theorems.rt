//! What is proved of messages as such.

ghost use Rattle.message.specs.MessageLaws.{MessageLaws};

/// A count has 2 bytes, a head 7 and a seed 16. A written message reads back to its parts; an
/// accepted one is what its parts are written as; messages of different kinds, profiles or rounds
/// differ; what is written of lawful parts is bytes. Each outcome of reading, of writing and of a
/// line says that everything fits or where it first does not.
#[tactic(auto, using(crate::proofs::Laws::message_laws))]
pub fn message_laws()
    ensures { MessageLaws }
{}
