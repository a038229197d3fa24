//! What the words of a line mean.

use anyhow::{Context, bail};
use message::Kind;
use packing::Width;
use std::alloc::Global;

/// Bytes in hexadecimal, of which `-` has none.
pub fn bytes(alloc: Global, word: &str) -> anyhow::Result<Vec<u8>> {
    match word {
        "-" => Ok(Vec::new(alloc)),
        digits => Ok(hex::decode(alloc, digits)?),
    }
}

/// Numbers with commas between them, where `7*3` is 7, 7, 7, and `-` is none.
pub fn numbers(alloc: Global, word: &str) -> anyhow::Result<Vec<u32>> {
    let mut numbers = Vec::new(alloc);
    if word == "-" {
        return Ok(numbers);
    }
    for item in word.split(',') {
        let (number, many) = item.split_once('*').unwrap_or((item, "1"));
        for _ in 0..many.parse::<u16>()? {
            numbers.push(number.parse()?)?;
        }
    }
    Ok(numbers)
}

/// A width of so many bits.
pub fn width(bits: &str) -> anyhow::Result<Width> {
    Ok(Width::new(bits.parse()?).context("no width")?)
}

/// The kind of this name.
pub fn kind(word: &str) -> anyhow::Result<Kind> {
    match word {
        "offer" => Ok(Kind::Offer),
        "answer" => Ok(Kind::Answer),
        "confirmation" => Ok(Kind::Confirmation),
        _ => bail!("no kind of message"),
    }
}

/// Puts bytes at an offset.
fn put(message: &mut [u8], offset: usize, bytes: &[u8]) -> anyhow::Result<()> {
    let place = message
        .get_mut(offset..)
        .and_then(|rest| rest.get_mut(..bytes.len()))
        .context("an edit outside the message")?;
    place.copy_from_slice(bytes);
    Ok(())
}

/// A message with edits: `2=ff` puts the byte ff at offset 2, and `+00` adds a byte at the end.
pub fn edited(alloc: Global, message: &[u8], edits: &[&str]) -> anyhow::Result<Vec<u8>> {
    let mut message = message.to_vec(alloc)?;
    for edit in edits {
        match edit.split_once('=') {
            Some((offset, digits)) => {
                put(&mut message, offset.parse()?, &bytes(alloc, digits)?)?;
            }
            None => {
                let digits = edit.strip_prefix('+').context("no edit")?;
                message.extend_from_slice(&bytes(alloc, digits)?)?;
            }
        }
    }
    Ok(message)
}
