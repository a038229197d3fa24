//! A byte source that gives SHAKE128 of the seed.

ghost use Rattle.std.specs.Prelude.{◌≡◌, ℕ, List, []};
ghost use Rattle.byte_source.specs.Shakes.{expanded};
ghost use Rattle.byte_source.specs.Shakes.{shake_expansion, shake_stream, shake_position};

use crate::source::ByteSource;
use crate::stream::Stream;
use profile::SEED_LENGTH;

/// Expands a seed to the first `STREAM_LENGTH` bytes of its SHAKE128, 24 blocks, of which each is
/// squeezed when its first byte is asked for. Gives nothing before it begins.
#[derive(Drop)]
pub struct ShakeSource {
    stream: Option<Stream>,
}

impl ShakeSource {
    /// A source that has not begun.
    pub fn new() -> Self
        ensures expands { (seed : List ℕ) → shake_expansion result seed ≡ expanded seed }
        ensures unread { shake_stream result ≡ [] }
        ensures starts { shake_position result ≡ 0 }
    {
        ShakeSource { stream: None }
    }
}

impl ByteSource for ShakeSource {
    ghost expansion = { shake_expansion };

    ghost stream = { shake_stream };

    ghost position = { shake_position };

    fn begin(&mut self, seed: &[u8; SEED_LENGTH]) {
        self.stream = Some(Stream::of(seed));
    }

    fn next(&mut self) -> Option<u8> {
        self.stream.as_mut()?.next()
    }
}
