//! The sponge of FIPS 202 over Keccak-f[1600] with 168 bytes to a block, as SHAKE128 uses it.

ghost use Rattle.std.specs.Prelude.{◌≡◌, ◌+◌, ◌-◌, ◌*◌, ◌<◌, ◌≤◌, ◌++◌, length};
ghost use Rattle.keccak.specs.Permutation.{keccak_f};
ghost use Rattle.keccak.specs.Sponge.{rate, padding, added, absorbed, output_block, next_state};

use crate::permutation::keccak_f;

/// The length of a block in bytes. A block is the part of a message that is absorbed, or of an
/// output that is squeezed, between two permutations of the state.
pub const RATE: usize = 168;

/// A sponge that has absorbed a message. It permutes when a block is asked for, and not after.
#[derive(Drop)]
pub struct Shake128 {
    lanes: [u64; 25],
}

impl Shake128 {
    /// The sponge after the whole message, padded as SHAKE128 has it.
    #[tactic(auto, using(crate::proofs::Absorbing::absorbing_steps))]
    pub fn absorb(message: &[u8]) -> Shake128
        ensures { next_state result ≡ absorbed message.now }
    {
        let mut lanes = [0; 25];
        let (blocks, rest) = message.as_chunks::<RATE>();
        for block in blocks {
            add_block(&mut lanes, block);
            keccak_f(&mut lanes);
        }
        add_block(&mut lanes, &last_block(rest));
        Shake128 { lanes }
    }

    /// Writes the next 168 bytes of the output into `block`.
    pub fn squeeze(&mut self, block: &mut [u8; RATE])
        ensures output { block.new ≡ output_block (next_state self.old) }
        ensures state { next_state self.new ≡ keccak_f (next_state self.old) }
    {
        keccak_f(&mut self.lanes);
        write_block(&self.lanes, block);
    }
}

/// Adds a block to the state, over its first 21 lanes: eight bytes to a lane, the low byte first.
#[tactic(auto, using(crate::proofs::Blocks::added_all))]
fn add_block(lanes: &mut [u64; 25], block: &[u8; RATE])
    ensures { lanes.new ≡ added lanes.old block.now }
{
    let (words, _) = block.as_chunks::<8>();
    for (i, word) in words.iter().enumerate() {
        lanes[i] ^= u64::from_le_bytes(*word);
    }
}

/// The last block of a message of which `rest` is left: the rest and its padding.
#[tactic(auto, using(crate::proofs::Padding::finished_is))]
fn last_block(rest: &[u8]) -> [u8; RATE]
    requires { length rest.now < rate }
    ensures { result ≡ rest.now ++ padding (rate - length rest.now) }
{
    let mut block = [0; RATE];
    let used = rest.len();
    block[..used].copy_from_slice(rest);
    block[used] = 0x1f;
    block[RATE - 1] ^= 0x80;
    block
}

/// Writes the first 168 bytes of a state.
#[tactic(auto, using(crate::proofs::Blocks::bytes_all))]
fn write_block(lanes: &[u64; 25], block: &mut [u8; RATE])
    ensures { block.new ≡ output_block lanes.now }
{
    for (i, lane) in lanes[..RATE / 8].iter().enumerate() {
        block[8 * i..8 * i + 8].copy_from_slice(&lane.to_le_bytes());
    }
}
