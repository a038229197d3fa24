//! Messages read back, and unpacked into buffers. Each section of an accepted message is as long
//! as its part asks, so that no step after reading can refuse.

ghost use Rattle.std.specs.Prelude.{◌≡◌, ◌==◌, length};
ghost use Rattle.ring.specs.Faults.{after_part};
ghost use Rattle.profile.specs.declared.seed.TheConstants.{SEED_LENGTH};
ghost use Rattle.exports.specs.Codes.{no_call};
ghost use Rattle.exports.specs.Seeds.{if_seed};
ghost use Rattle.exports.specs.Reading.{RoomMeans, room_outcome};
ghost use Rattle.exports.specs.Reading.{offer_read, answer_read, confirmation_read};
ghost use Rattle.exports.specs.Reading.{round_told, seed_of, values_of, signals_of};
ghost use Rattle.exports.specs.Reading.{read_offer_code, read_offer_seed, read_offer_values};
ghost use Rattle.exports.specs.Reading.{read_answer_code, read_answer_values, read_answer_signals};
ghost use Rattle.exports.specs.Reading.{read_confirmation_code};

use crate::by_index::by_index;
use crate::codes::{Coded, NO_CALL};
use crate::refusal::Refusal;
use message::{signals_width, values_width};
use profile::{Profile, SEED_LENGTH};
use ring::{Fault, place};

/// The round of an offer of the house profile of an index; the buffers then hold its seed, of 16
/// bytes, and its n rounded values. A refusal leaves them as they were.
pub fn exported_read_offer(profile: u8, message: &[u8], seed: &mut [u8], values: &mut [u32]) -> u64
    ensures code { let code = read_offer_code profile message.now values.old in
        result ≡ if_seed seed.old code no_call }
    ensures seed { let read = read_offer_seed profile message.now seed.old values.old in
        seed.new ≡ if_seed seed.old read seed.old }
    ensures values { let read = read_offer_values profile message.now values.old in
        values.new ≡ if_seed seed.old read values.old }
{
    if seed.len() != SEED_LENGTH {
        return NO_CALL;
    }
    by_index!(profile, read_offer::<P>(message, seed, values).code())
}

/// The round of an answer of the house profile of an index; the buffers then hold its n rounded
/// values and its n signals. A refusal leaves them as they were.
pub fn exported_read_answer(
    profile: u8,
    message: &[u8],
    values: &mut [u32],
    signals: &mut [u32],
) -> u64
    ensures code { result ≡ read_answer_code profile message.now values.old signals.old }
    ensures values { values.new ≡ read_answer_values profile message.now values.old signals.old }
    ensures signals { let read = read_answer_signals profile message.now values.old signals.old in
        signals.new ≡ read }
{
    by_index!(profile, read_answer::<P>(message, values, signals).code())
}

/// The round of a confirmation of the house profile of an index.
pub fn exported_read_confirmation(profile: u8, message: &[u8]) -> u64
    ensures { result ≡ read_confirmation_code profile message.now }
{
    by_index!(profile, read_confirmation::<P>(message).code())
}

/// The round of an offer, whose seed and rounded values the buffers then hold.
#[tactic(auto, unfolding(crate::specs::Reading::offer_read))]
fn read_offer<P: Profile>(
    message: &[u8],
    seed: &mut [u8],
    values: &mut [u32],
) -> Result<u32, Refusal>
    requires { length seed.old ≡ SEED_LENGTH }
    ensures outcome { result ≡ round_told (offer_read P.NUMBERS message.now (length values.old)) }
    ensures seed { let outcome = offer_read P.NUMBERS message.now (length values.old) in
        seed.new ≡ after_part seed_of outcome seed.old }
    ensures values { let outcome = offer_read P.NUMBERS message.now (length values.old) in
        values.new ≡ after_part values_of outcome values.old }
{
    check_room::<P>(values, place::VALUES)?;
    let offer = message::read_offer::<P>(message)?;
    values_width::<P>()
        .unpack(offer.values.bytes, values)
        .unwrap();
    seed.copy_from_slice(offer.seed.bytes);
    Ok(offer.round)
}

/// The round of an answer, whose rounded values and signals the buffers then hold.
#[tactic(auto, unfolding(crate::specs::Reading::answer_read))]
fn read_answer<P: Profile>(
    message: &[u8],
    values: &mut [u32],
    signals: &mut [u32],
) -> Result<u32, Refusal>
    ensures outcome { let outcome =
        answer_read P.NUMBERS message.now (length values.old) (length signals.old) in
        result ≡ round_told outcome }
    ensures values { let outcome =
        answer_read P.NUMBERS message.now (length values.old) (length signals.old) in
        values.new ≡ after_part values_of outcome values.old }
    ensures signals { let outcome =
        answer_read P.NUMBERS message.now (length values.old) (length signals.old) in
        signals.new ≡ after_part signals_of outcome signals.old }
{
    check_room::<P>(values, place::VALUES)?;
    check_room::<P>(signals, place::SIGNALS)?;
    let answer = message::read_answer::<P>(message)?;
    values_width::<P>()
        .unpack(answer.values.bytes, values)
        .unwrap();
    signals_width::<P>()
        .unpack(answer.signals.bytes, signals)
        .unwrap();
    Ok(answer.round)
}

/// The round of a confirmation.
#[tactic(auto, unfolding(crate::specs::Reading::confirmation_read))]
fn read_confirmation<P: Profile>(message: &[u8]) -> Result<u32, Refusal>
    ensures { result ≡ round_told (confirmation_read P.NUMBERS message.now) }
{
    Ok(message::read_confirmation::<P>(message)?.round)
}

/// That a buffer, which is that argument of a call, has room for n numbers and no more.
fn check_room<P: Profile>(numbers: &[u32], argument: usize) -> Result<(), Fault>
    ensures outcome { result ≡ room_outcome P.NUMBERS argument (length numbers.now) }
    ensures means { RoomMeans P.NUMBERS argument (length numbers.now) result }
{
    if numbers.len() != P::NUMBERS.n {
        return Err(Fault::WrongLength(argument));
    }
    Ok(())
}
