//! A line of the input.

use crate::failure::Failure;
use message::Kind;
use std::alloc::Global;

/// The word for a kind.
pub fn word_of(kind: Kind) -> &'static str {
    match kind {
        Kind::Offer => "offer",
        Kind::Answer => "answer",
        Kind::Confirmation => "confirmation",
    }
}

/// The kind of this word.
fn kind_of(word: &str) -> Result<Kind, Failure> {
    match word {
        "offer" => Ok(Kind::Offer),
        "answer" => Ok(Kind::Answer),
        "confirmation" => Ok(Kind::Confirmation),
        _ => Err(Failure::Malformed),
    }
}

/// A message, and the kind that it is to be read as.
#[derive(Drop)]
pub struct Line {
    /// What the message is read as, whatever its head says.
    pub kind: Kind,
    /// Its bytes.
    pub message: Vec<u8>,
}

impl Line {
    /// Reads a word for the kind, a space, and the bytes in lower-case hexadecimal.
    pub fn read(alloc: Global, text: &str) -> Result<Line, Failure> {
        let (word, digits) = text.split_once(' ').ok_or(Failure::Malformed)?;
        if digits.bytes().any(|digit| digit.is_ascii_uppercase()) {
            return Err(Failure::Malformed);
        }
        let kind = kind_of(word)?;
        let message = hex::decode(alloc, digits)?;
        Ok(Line { kind, message })
    }
}
