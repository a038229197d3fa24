//! Why a line's message is not shown.

use hex::FromHexError;
use std::alloc::AllocError;
use std::io;

/// Only a message that is refused is told in the output; all others end the program.
#[derive(Debug, Drop)]
pub enum Failure {
    /// The line is not a kind, a space and lower-case hexadecimal.
    Malformed,
    /// Reading refuses the message.
    Refused(message::Fault),
    /// Unpacking or writing refuses what was read.
    RingFault(ring::Fault),
    /// Writing gives other bytes than were read.
    WrittenOtherwise,
    /// No memory was left.
    OutOfMemory,
    /// A line could not be read, or the output not written.
    Io(io::Error),
}

impl From<FromHexError> for Failure {
    fn from(error: FromHexError) -> Failure {
        match error {
            FromHexError::OutOfMemory => Failure::OutOfMemory,
            _ => Failure::Malformed,
        }
    }
}

impl From<message::Fault> for Failure {
    fn from(fault: message::Fault) -> Failure {
        Failure::Refused(fault)
    }
}

impl From<ring::Fault> for Failure {
    fn from(fault: ring::Fault) -> Failure {
        Failure::RingFault(fault)
    }
}

impl From<AllocError> for Failure {
    fn from(_error: AllocError) -> Failure {
        Failure::OutOfMemory
    }
}

impl From<io::Error> for Failure {
    fn from(error: io::Error) -> Failure {
        Failure::Io(error)
    }
}
