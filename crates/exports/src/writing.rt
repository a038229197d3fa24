//! Messages written from their parts.

ghost use Rattle.std.specs.Prelude.{◌≡◌};
ghost use Rattle.message.specs.Messages.{answer, confirmation, offer};
ghost use Rattle.exports.specs.Codes.{no_call};
ghost use Rattle.exports.specs.Seeds.{if_seed};
ghost use Rattle.exports.specs.Writing.{write_code, write_output};

use crate::by_index::by_index;
use crate::codes::{Coded, NO_CALL};
use message::{Answer, Confirmation, Offer};
use profile::SEED_LENGTH;

/// Writes an offer of the house profile of an index, with a seed of 16 bytes and n rounded values.
pub fn exported_write_offer(
    profile: u8,
    round: u32,
    seed: &[u8],
    values: &[u32],
    output: &mut [u8],
) -> u64
    ensures code { let message = offer round seed.now values.now in
        result ≡ if_seed seed.now (write_code profile message output.old) no_call }
    ensures writes { let message = offer round seed.now values.now in
        output.new ≡ if_seed seed.now (write_output profile message output.old) output.old }
{
    let Ok(seed) = <[u8; SEED_LENGTH]>::try_from(seed) else {
        return NO_CALL;
    };
    let offer = Offer {
        round,
        seed: &seed,
        values,
    };
    by_index!(profile, offer.write::<P>(output).code())
}

/// Writes an answer of the house profile of an index, with n rounded values and n signals.
pub fn exported_write_answer(
    profile: u8,
    round: u32,
    values: &[u32],
    signals: &[u32],
    output: &mut [u8],
) -> u64
    ensures code { result ≡ write_code profile (answer round values.now signals.now) output.old }
    ensures writes { let message = answer round values.now signals.now in
        output.new ≡ write_output profile message output.old }
{
    let answer = Answer {
        round,
        values,
        signals,
    };
    by_index!(profile, answer.write::<P>(output).code())
}

/// Writes a confirmation of the house profile of an index.
pub fn exported_write_confirmation(profile: u8, round: u32, output: &mut [u8]) -> u64
    ensures code { result ≡ write_code profile (confirmation round) output.old }
    ensures writes { output.new ≡ write_output profile (confirmation round) output.old }
{
    let confirmation = Confirmation { round };
    by_index!(profile, confirmation.write::<P>(output).code())
}
