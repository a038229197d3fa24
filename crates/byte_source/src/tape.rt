//! The same bytes for every seed.

ghost use Rattle.std.specs.Prelude.{◌≡◌, ◌-◌, ℕ, List, [], length, drop};
ghost use Rattle.std.specs.Option.{ForSome};
ghost use Rattle.std.specs.Slice.Iter.{iter_rest};

use crate::source::ByteSource;
use profile::SEED_LENGTH;
use std::slice::Iter;

/// Expands every seed to the bytes that it was made from. Gives nothing before it begins.
#[derive(Drop)]
pub struct Tape<'a> {
    bytes: &'a [u8],
    ahead: Option<Iter<'a, u8>>,
    // what is ahead is an end of the bytes
    ghost is_end: { ForSome ahead (λ it.
        iter_rest it ≡ drop (length bytes.now - length (iter_rest it)) bytes.now) },
}

impl<'a> Tape<'a> {
    ghost use Rattle.byte_source.specs.Tapes.{tape_expansion, tape_stream, tape_position};

    /// A tape that has not begun.
    pub fn new(bytes: &'a [u8]) -> Self
        ensures expands { (seed : List ℕ) → tape_expansion result seed ≡ bytes.now }
        ensures unread { tape_stream result ≡ [] }
        ensures starts { tape_position result ≡ 0 }
    {
        Tape { bytes, ahead: None }
    }
}

impl<'a> ByteSource for Tape<'a> {
    ghost use Rattle.byte_source.specs.Tapes.{tape_expansion, tape_stream, tape_position};

    ghost expansion = { tape_expansion };

    ghost stream = { tape_stream };

    ghost position = { tape_position };

    fn begin(&mut self, _seed: &[u8; SEED_LENGTH]) {
        self.ahead = Some(self.bytes.iter());
    }

    #[tactic(auto, using(crate::proofs::Ends::end_more))]
    fn next(&mut self) -> Option<u8> {
        self.ahead.as_mut()?.next().copied()
    }
}
