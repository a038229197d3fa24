//! What reading says of a message.

use crate::outcomes::{Refusal, Runs};
use anyhow::Context;
use message::{Kind, read_answer, read_confirmation, read_offer};
use profile::Profile;

/// Whether a message is accepted as one of a kind.
fn read<P: Profile>(kind: Kind, message: &[u8]) -> Result<(), Refusal> {
    match kind {
        Kind::Offer => drop(read_offer::<P>(message)?),
        Kind::Answer => drop(read_answer::<P>(message)?),
        Kind::Confirmation => drop(read_confirmation::<P>(message)?),
    }
    Ok(())
}

/// Prints whether a message is accepted, or why not.
pub fn show_read<P: Profile>(rt: &impl Print, kind: Kind, message: &[u8]) -> anyhow::Result<()> {
    match read::<P>(kind, message) {
        Ok(()) => println!(rt; "accepted")?,
        Err(refusal) => println!(rt; "{refusal}")?,
    }
    Ok(())
}

/// Prints the same of the first 0, 1, 2, .. bytes of a message, up to all.
pub fn show_cuts<P: Profile>(rt: &impl Print, kind: Kind, message: &[u8]) -> anyhow::Result<()> {
    let mut runs = Runs::new();
    print!(rt; "cuts")?;
    for length in 0..=message.len() {
        runs.add(rt, length, read::<P>(kind, &message[..length]))?;
    }
    println!(rt; "")?;
    Ok(())
}

/// Prints the same of a message with each of 0 .. 255 at an offset.
pub fn show_bytes<P: Profile>(
    rt: &impl Print,
    kind: Kind,
    mut message: Vec<u8>,
    offset: usize,
) -> anyhow::Result<()> {
    let mut runs = Runs::new();
    print!(rt; "bytes")?;
    for byte in 0..=255 {
        *message
            .get_mut(offset)
            .context("an offset outside the message")? = byte;
        runs.add(rt, usize::from(byte), read::<P>(kind, &message))?;
    }
    println!(rt; "")?;
    Ok(())
}
