//! Derived elements of the house profiles, and SHAKE128.

ghost use Rattle.std.specs.Prelude.{◌≡◌, [], length};
ghost use Rattle.keccak.specs.Sponge.{shake128 as shake128_of};
ghost use Rattle.byte_source.specs.Tapes.{tape_expansion};
ghost use Rattle.exports.specs.Elements.{derive_tape_code, derive_tape_output};
ghost use Rattle.exports.specs.Elements.{derive_seed_code, derive_seed_output};

use crate::by_index::by_index;
use crate::codes::{Coded, NO_CALL};
use byte_source::{ShakeSource, Tape, derive};
use keccak::shake128;
use profile::SEED_LENGTH;

/// A source that expands every seed to the tape's bytes; clauses ask for those of the empty one.
fn tape_source(tape: &[u8]) -> Tape<'_>
    ensures { tape_expansion result [] ≡ tape.now }
{
    Tape::new(tape)
}

/// Derives an element of the house profile of an index, from 0 to 5, from a tape.
pub fn exported_derive_tape(profile: u8, tape: &[u8], output: &mut [u32]) -> u64
    ensures code { result ≡ derive_tape_code profile tape.now output.old }
    ensures writes { output.new ≡ derive_tape_output profile tape.now output.old }
{
    let source = &mut tape_source(tape);
    let seed = [0; SEED_LENGTH];
    by_index!(profile, derive::<P, _>(source, &seed, output).code())
}

/// Derives an element of the house profile of an index, from 0 to 5, from the SHAKE128 of a seed
/// of 16 bytes.
pub fn exported_derive_shake(profile: u8, seed: &[u8], output: &mut [u32]) -> u64
    ensures code { result ≡ derive_seed_code profile seed.now output.old }
    ensures writes { output.new ≡ derive_seed_output profile seed.now output.old }
{
    let Ok(seed) = <[u8; SEED_LENGTH]>::try_from(seed) else {
        return NO_CALL;
    };
    let source = &mut ShakeSource::new();
    by_index!(profile, derive::<P, _>(source, &seed, output).code())
}

/// Fills the output with the first bytes of SHAKE128 of the message.
pub fn exported_shake128(message: &[u8], output: &mut [u8])
    ensures { output.new ≡ shake128_of message.now (length output.old) }
{
    shake128(message, output);
}
