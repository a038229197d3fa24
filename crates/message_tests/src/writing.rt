//! Messages that are written from their parts, and lines of hexadecimal.

use crate::outcomes::{BEFORE, show_output};
use crate::words::{bytes, numbers};
use anyhow::Context;
use message::{Answer, Confirmation, Offer, hexadecimal_line};
use profile::Profile;

/// Prints an offer, for a buffer of `room` bytes.
pub fn show_offer<P: Profile>(
    rt: &(impl Print + AllocGlobal),
    round: u32,
    seed: &str,
    values: &str,
    room: usize,
) -> anyhow::Result<()> {
    let alloc = rt.alloc();
    let (seed, values) = (bytes(alloc, seed)?, numbers(alloc, values)?);
    let offer = Offer {
        round,
        seed: seed.as_array().context("no seed")?,
        values: &values,
    };
    let mut output = vec![in alloc; BEFORE; room]?;
    let outcome = offer.write::<P>(&mut output);
    show_output(rt, outcome, &output)
}

/// Prints an answer, for a buffer of `room` bytes.
pub fn show_answer<P: Profile>(
    rt: &(impl Print + AllocGlobal),
    round: u32,
    values: &str,
    signals: &str,
    room: usize,
) -> anyhow::Result<()> {
    let alloc = rt.alloc();
    let (values, signals) = (numbers(alloc, values)?, numbers(alloc, signals)?);
    let answer = Answer {
        round,
        values: &values,
        signals: &signals,
    };
    let mut output = vec![in alloc; BEFORE; room]?;
    let outcome = answer.write::<P>(&mut output);
    show_output(rt, outcome, &output)
}

/// Prints a confirmation, for a buffer of `room` bytes.
pub fn show_confirmation<P: Profile>(
    rt: &(impl Print + AllocGlobal),
    round: u32,
    room: usize,
) -> anyhow::Result<()> {
    let mut output = vec![in rt.alloc(); BEFORE; room]?;
    let outcome = Confirmation { round }.write::<P>(&mut output);
    show_output(rt, outcome, &output)
}

/// Prints the bytes of a line of hexadecimal, for a buffer of `room` bytes. The word `-` is empty.
pub fn show_hexadecimal_line(
    rt: &(impl Print + AllocGlobal),
    word: &str,
    digits: &str,
    room: usize,
) -> anyhow::Result<()> {
    let shown = bytes(rt.alloc(), digits)?;
    let word = if word == "-" { "" } else { word };
    let mut output = vec![in rt.alloc(); BEFORE; room]?;
    let outcome = hexadecimal_line(word, &shown, &mut output);
    show_output(rt, outcome, &output)
}
