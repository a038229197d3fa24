//! Reading messages back to their sections.

ghost use Rattle.std.specs.Prelude.{◌≡◌, ◌+◌, ◌^◌, ◌<◌, ◌≤◌, IfOk, [], ◌∷◌, length};
ghost use Rattle.std.specs.Result.{result_err};
ghost use Rattle.ring.specs.Faults.{told};
ghost use Rattle.message.specs.Reading.{head_fault, reading, round_in, spare_bit_fault};
ghost use Rattle.message.specs.Reading.{parts_of_answer, parts_of_confirmation, parts_of_offer};
ghost use Rattle.message.specs.ReadingLaws.{ReadingMeans};
ghost use Rattle.message.specs.Shapes.{AreSections, IsStretch, section_fault, shape_fault};
ghost use Rattle.message.specs.declared.kind.Kind.TheVariants.{Offer, Answer, Confirmation};
ghost use Rattle.message.specs.Lengths.{signals_length};

use crate::fault::Fault;
use crate::fixed_lengths::{COUNT_LENGTH, HEAD_LENGTH};
use crate::kind::Kind;
use crate::lengths::{signals_length, values_length};
use crate::section::{AnswerSections, ConfirmationSections, OfferSections, Section};
use profile::{Profile, SEED_LENGTH};

/// Reads a message as an offer.
pub fn read_offer<P: Profile>(message: &[u8]) -> Result<OfferSections<'_>, Fault>
    ensures outcome { let k = P.NUMBERS in
        told (parts_of_offer k) result ≡ reading k Offer message.now }
    ensures means { let k = P.NUMBERS in
        ReadingMeans k Offer message.now (told (parts_of_offer k) result) }
    ensures sections { let Are = AreSections P.NUMBERS Offer message.entry 0 in
        IfOk result (λ o. Are (o.head ∷ o.seed ∷ o.values ∷ [])) }
{
    let (head, at) = read_section(message, 0, HEAD_LENGTH)?;
    let (seed, at) = read_section(message, at, SEED_LENGTH)?;
    let (values, at) = read_section(message, at, values_length::<P>())?;
    check_end(message, at)?;
    let round = read_head::<P>(Kind::Offer, head.bytes)?;
    Ok(OfferSections {
        round,
        head,
        seed,
        values,
    })
}

/// Reads a message as an answer.
pub fn read_answer<P: Profile>(message: &[u8]) -> Result<AnswerSections<'_>, Fault>
    ensures outcome { let k = P.NUMBERS in
        told (parts_of_answer k) result ≡ reading k Answer message.now }
    ensures means { let k = P.NUMBERS in
        ReadingMeans k Answer message.now (told (parts_of_answer k) result) }
    ensures sections { let Are = AreSections P.NUMBERS Answer message.entry 0 in
        IfOk result (λ a. Are (a.head ∷ a.values ∷ a.signals ∷ [])) }
{
    let (head, at) = read_section(message, 0, HEAD_LENGTH)?;
    let (values, at) = read_section(message, at, values_length::<P>())?;
    let (signals, at) = read_section(message, at, signals_length::<P>())?;
    check_end(message, at)?;
    let round = read_head::<P>(Kind::Answer, head.bytes)?;
    check_spare_bits::<P>(signals.offset, signals.bytes)?;
    Ok(AnswerSections {
        round,
        head,
        values,
        signals,
    })
}

/// Reads a message as a confirmation.
pub fn read_confirmation<P: Profile>(message: &[u8]) -> Result<ConfirmationSections<'_>, Fault>
    ensures outcome { let k = P.NUMBERS in
        told parts_of_confirmation result ≡ reading k Confirmation message.now }
    ensures means { let k = P.NUMBERS in
        ReadingMeans k Confirmation message.now (told parts_of_confirmation result) }
    ensures sections { let Are = AreSections P.NUMBERS Confirmation message.entry 0 in
        IfOk result (λ c. Are (c.head ∷ [])) }
{
    let (head, at) = read_section(message, 0, HEAD_LENGTH)?;
    check_end(message, at)?;
    let round = read_head::<P>(Kind::Confirmation, head.bytes)?;
    Ok(ConfirmationSections { round, head })
}

/// The section of so many bytes whose count is at `at`, and where it ends.
fn read_section<'m>(
    message: &'m [u8],
    at: usize,
    many: usize,
) -> Result<(Section<'m>, usize), Fault>
    requires { at ≤ length message.now }
    ensures fault { result_err result ≡ section_fault at many message.now }
    ensures stretch { IfOk result (λ s. IsStretch message.entry s.0 (at + COUNT_LENGTH) many) }
    ensures long { IfOk result (λ s. length s.0.bytes.now ≡ many) }
    ensures end { IfOk result (λ s. s.1 ≡ at + COUNT_LENGTH + many) }
{
    let [low, high, bytes @ ..] = &message[at..] else {
        return Err(Fault::WrongShape(at));
    };
    if usize::from(u16::from_le_bytes([*low, *high])) != many {
        return Err(Fault::WrongShape(at));
    }
    let offset = at + COUNT_LENGTH;
    if bytes.len() < many {
        return Err(Fault::WrongShape(offset));
    }
    let end = offset + many;
    let bytes = &message[offset..end];
    Ok((Section { offset, bytes }, end))
}

/// That nothing comes after the last section.
fn check_end(message: &[u8], at: usize) -> Result<(), Fault>
    ensures { result_err result ≡ shape_fault at [] message.now }
{
    if message.len() > at {
        return Err(Fault::WrongShape(at));
    }
    Ok(())
}

/// The round that the head tells, if its other bytes are those of the kind and the profile.
fn read_head<P: Profile>(kind: Kind, head: &[u8]) -> Result<u32, Fault>
    requires { length head.now ≡ HEAD_LENGTH }
    ensures fault { result_err result ≡ head_fault P.NUMBERS kind head.now }
    ensures round { IfOk result (λ round. round ≡ round_in head.now) }
{
    let [kind_byte, numbers_byte, reconciler_byte, r0, r1, r2, r3] = head else {
        unreachable!();
    };
    if *kind_byte != kind.byte() {
        return Err(Fault::WrongHead(COUNT_LENGTH));
    }
    if *numbers_byte != P::NUMBERS.numbers_byte {
        return Err(Fault::WrongHead(COUNT_LENGTH + 1));
    }
    if *reconciler_byte != P::NUMBERS.reconciler_byte {
        return Err(Fault::WrongHead(COUNT_LENGTH + 2));
    }
    Ok(u32::from_le_bytes([*r0, *r1, *r2, *r3]))
}

/// That no bit is set after those of n signals, which begin at an offset: the last byte may have
/// some.
fn check_spare_bits<P: Profile>(offset: usize, signals: &[u8]) -> Result<(), Fault>
    requires long { length signals.now ≡ signals_length P.NUMBERS }
    requires inside { offset + length signals.now < 2 ^ 64 }
    ensures { let k = P.NUMBERS in let many = signals_length k in
        result_err result ≡ spare_bit_fault k.n k.signal_width offset many signals.now }
{
    let last = signals.len() - 1;
    let used = P::NUMBERS.n * P::NUMBERS.signal_width as usize - 8 * last;
    if u32::from(signals[last]) >> used > 0 {
        return Err(Fault::SpareBit(offset + last));
    }
    Ok(())
}
