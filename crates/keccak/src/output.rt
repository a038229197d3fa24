//! SHAKE128 in one call.

ghost use Rattle.std.specs.Prelude.{◌≡◌, length};
ghost use Rattle.keccak.specs.Sponge.{shake128 as shake128_of};

use crate::sponge::{RATE, Shake128};

/// Fills `output` with the first bytes of SHAKE128 of `message`.
#[tactic(auto, using(crate::proofs::Squeezing::squeezed_none))]
pub fn shake128(message: &[u8], output: &mut [u8])
    ensures { output.new ≡ shake128_of message.now (length output.old) }
{
    let mut sponge = Shake128::absorb(message);
    let mut block = [0; RATE];
    for at in (0..output.len()).step_by(RATE) {
        sponge.squeeze(&mut block);
        let size = RATE.min(output.len() - at);
        output[at..at + size].copy_from_slice(&block[..size]);
    }
}
