//! What gives bytes for a seed.

ghost use Rattle.std.specs.Prelude.{◌≡◌, ℕ, List};
ghost use Rattle.byte_source.specs.Sources.{Gives};

use profile::SEED_LENGTH;

/// Expands each seed to a finite stream of bytes, the same one each time. Gives the bytes of one
/// stream at a time, from its start on; nothing before it first begins.
pub trait ByteSource: Drop {
    // what each seed expands to
    ghost expansion: { Self → List ℕ → List ℕ };

    // the stream that is being given, with nothing in it before the first seed
    ghost stream: { Self → List ℕ };

    // how many bytes of it have been given
    ghost position: { Self → ℕ };

    /// Goes to the start of the seed's stream.
    fn begin(&mut self, seed: &[u8; SEED_LENGTH])
        ensures same_expansion { expansion self.new ≡ expansion self.old }
        ensures reads { stream self.new ≡ expansion self.old seed.now }
        ensures starts { position self.new ≡ 0 };

    /// The next byte of the stream, or nothing once it is used up.
    fn next(&mut self) -> Option<u8>
        ensures same_expansion { expansion self.new ≡ expansion self.old }
        ensures same_stream { stream self.new ≡ stream self.old }
        ensures gives { Gives (stream self.old) (position self.old) result (position self.new) };
}
