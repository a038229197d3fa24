//! SHAKE128 of one seed, a block at a time.

ghost use Rattle.std.specs.Prelude.{◌≡◌, ◌-◌, ◌<◌, ◌≤◌};
ghost use Rattle.keccak.specs.Laws.{permuted};
ghost use Rattle.keccak.specs.Sponge.{absorbed, next_state, output_block};
ghost use Rattle.keccak.specs.declared.sponge.TheConstants.{RATE};
ghost use Rattle.byte_source.specs.declared.stream.TheConstants.{BLOCKS};

use keccak::{RATE, Shake128};
use profile::SEED_LENGTH;
use std::snapshot::Snapshot;

/// The blocks of a stream.
const BLOCKS: usize = 24;

/// The bytes of the stream that a `ShakeSource` expands a seed to: 24 blocks of `RATE` bytes.
pub const STREAM_LENGTH: usize = BLOCKS * RATE;

/// What a seed expands to. `left` blocks are still to be squeezed, and of the last one that was
/// squeezed the bytes from `offset` on are still to be given. Only clauses read `seed`.
#[derive(Drop)]
pub(crate) struct Stream {
    seed: Snapshot<[u8; SEED_LENGTH]>,
    sponge: Shake128,
    block: [u8; RATE],
    offset: usize,
    left: usize,
    ghost within: { left ≤ BLOCKS },
    ghost inside: { offset ≤ RATE },
    // before the first block is squeezed, nothing of `block` is to be given
    ghost unread: { left ≡ BLOCKS → offset ≡ RATE },
    // what the sponge gives next is the block after those that were squeezed
    ghost squeezed: { next_state sponge ≡ permuted (BLOCKS - left) (absorbed seed.value) },
    // and `block` holds the last of these
    ghost last: { left < BLOCKS
        → block ≡ output_block (permuted (BLOCKS - 1 - left) (absorbed seed.value)) },
}

impl Stream {
    ghost use Rattle.std.specs.Prelude.{MatchOption};
    ghost use Rattle.byte_source.specs.Sources.{Gives};
    ghost use Rattle.byte_source.specs.Shakes.{stream_position, stream_bytes};

    /// At the start: the seed is absorbed, and nothing is squeezed yet.
    #[tactic(auto, using(keccak::proofs::Streams::permuted_none))]
    pub(crate) fn of(seed: &[u8; SEED_LENGTH]) -> Self
        ensures seeded { result.seed.value ≡ seed.now }
        ensures starts { stream_position result ≡ 0 }
    {
        Stream {
            seed: Snapshot::of(seed),
            sponge: Shake128::absorb(seed),
            block: [0; RATE],
            offset: RATE,
            left: BLOCKS,
        }
    }

    /// Squeezes the next block, unless there is none left.
    #[tactic(auto, using(crate::proofs::Squeezing::squeezed_more))]
    fn squeeze(&mut self) -> Option<()>
        requires { self.old.offset ≡ RATE }
        ensures seeded { self.new.seed.value ≡ self.old.seed.value }
        ensures stays { stream_position self.new ≡ stream_position self.old }
        ensures fresh { MatchOption result (self.old.left ≡ 0) (λ _. self.new.offset ≡ 0) }
    {
        self.left = self.left.checked_sub(1)?;
        self.sponge.squeeze(&mut self.block);
        self.offset = 0;
        Some(())
    }

    /// The next byte, or nothing once the stream is used up.
    pub(crate) fn next(&mut self) -> Option<u8>
        ensures seeded { self.new.seed.value ≡ self.old.seed.value }
        ensures gives { let position = stream_position self.old in
            Gives (stream_bytes self.old) position result (stream_position self.new) }
    {
        if self.offset == RATE {
            self.squeeze()?;
        }
        let byte = self.block[self.offset];
        self.offset += 1;
        Some(byte)
    }
}
