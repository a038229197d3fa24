//! What is printed of a message.

ghost use Rattle.std.specs.Prelude.{◌≡◌, IfOk};
ghost use Rattle.packing.specs.Packing.{unpacked};

use crate::failure::Failure;
use crate::line::{Line, word_of};
use crate::rewriting::{rewrite_answer, rewrite_confirmation, rewrite_offer};
use message::{
    Answer, Confirmation, Fault, Kind, Offer, Section, read_answer, read_confirmation, read_offer,
    signals_width, values_width,
};
use packing::Width;
use profile::Profile;
use std::alloc::Global;
use std::io;

/// The n numbers that a section holds.
fn unpack<P: Profile>(alloc: Global, width: Width, bytes: &[u8]) -> Result<Vec<u32>, Failure>
    ensures { IfOk result (λ numbers. numbers.items ≡ unpacked width P.NUMBERS.n bytes.now) }
{
    let mut numbers = vec![in alloc; 0u32; P::NUMBERS.n]?;
    width.unpack(bytes, &mut numbers)?;
    Ok(numbers)
}

fn show_head(
    rt: &(impl Print + AllocGlobal),
    kind: Kind,
    name: &str,
    round: u32,
    head: Section<'_>,
) -> Result<(), Failure> {
    println!(rt; "{} of {name}, round {round}", word_of(kind))?;
    show_bytes(rt, "head", head)
}

fn show_bytes(
    rt: &(impl Print + AllocGlobal),
    name: &str,
    section: Section<'_>,
) -> Result<(), Failure> {
    let digits = hex::encode(rt.alloc(), section.bytes)?;
    println!(rt; "  offset {}: {name} {digits}", section.offset)?;
    Ok(())
}

fn show_numbers(
    rt: &(impl Print + AllocGlobal),
    name: &str,
    section: Section<'_>,
    numbers: &[u32],
) -> Result<(), Failure> {
    let digits = hex::encode(rt.alloc(), section.bytes)?;
    print!(rt; "  offset {}: {name} {digits}:", section.offset)?;
    for number in numbers {
        print!(rt; " {number}")?;
    }
    println!(rt; "")?;
    Ok(())
}

fn show_offer<P: Profile>(
    rt: &(impl Print + AllocGlobal),
    name: &str,
    message: &[u8],
) -> Result<(), Failure> {
    let offer = read_offer::<P>(message)?;
    let values = unpack::<P>(rt.alloc(), values_width::<P>(), offer.values.bytes)?;
    let parts = Offer {
        round: offer.round,
        seed: offer.seed.bytes.as_array().unwrap(),
        values: &values,
    };
    rewrite_offer::<P>(rt.alloc(), parts, message)?;
    show_head(rt, Kind::Offer, name, offer.round, offer.head)?;
    show_bytes(rt, "seed", offer.seed)?;
    show_numbers(rt, "rounded values", offer.values, &values)
}

fn show_answer<P: Profile>(
    rt: &(impl Print + AllocGlobal),
    name: &str,
    message: &[u8],
) -> Result<(), Failure> {
    let answer = read_answer::<P>(message)?;
    let values = unpack::<P>(rt.alloc(), values_width::<P>(), answer.values.bytes)?;
    let signals = unpack::<P>(rt.alloc(), signals_width::<P>(), answer.signals.bytes)?;
    let parts = Answer {
        round: answer.round,
        values: &values,
        signals: &signals,
    };
    rewrite_answer::<P>(rt.alloc(), parts, message)?;
    show_head(rt, Kind::Answer, name, answer.round, answer.head)?;
    show_numbers(rt, "rounded values", answer.values, &values)?;
    show_numbers(rt, "signals", answer.signals, &signals)
}

fn show_confirmation<P: Profile>(
    rt: &(impl Print + AllocGlobal),
    name: &str,
    message: &[u8],
) -> Result<(), Failure> {
    let confirmation = read_confirmation::<P>(message)?;
    let parts = Confirmation {
        round: confirmation.round,
    };
    rewrite_confirmation::<P>(rt.alloc(), parts, message)?;
    show_head(
        rt,
        Kind::Confirmation,
        name,
        confirmation.round,
        confirmation.head,
    )
}

/// The sections of a message, read by the profile of this name.
pub fn show<P: Profile>(
    rt: &(impl Print + AllocGlobal),
    name: &str,
    line: &Line,
) -> Result<(), Failure> {
    match line.kind {
        Kind::Offer => show_offer::<P>(rt, name, &line.message),
        Kind::Answer => show_answer::<P>(rt, name, &line.message),
        Kind::Confirmation => show_confirmation::<P>(rt, name, &line.message),
    }
}

/// The layer, the number and the place of the fault of a message.
pub fn show_refusal(rt: &impl Print, kind: Kind, fault: Fault) -> io::Result<()> {
    println!(rt;
        "{} refused: layer {}, fault {} at {}",
        word_of(kind),
        fault.layer(),
        fault.number(),
        fault.place()
    )
}
