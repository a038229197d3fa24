//! Bytes made from a seed, and the ring element that they give.

#![tactic(auto)]

mod bits;
mod derivation;
mod group;
mod sampler;
mod shake;
mod source;
mod stream;
mod tape;
mod theorems;

pub use bits::bit_count;
pub use derivation::derive;
pub use shake::ShakeSource;
pub use source::ByteSource;
pub use stream::STREAM_LENGTH;
pub use tape::Tape;
pub use theorems::{derivation_laws, derivation_values};
