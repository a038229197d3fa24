//! Calls of packing.

use crate::outcomes::{BEFORE, Refusal, show_output, show_refusal};
use crate::words::{bytes, numbers, width};
use packing::Width;

/// Prints a width of so many bits, if there is one.
pub fn show_width(rt: &impl Print, bits: u32) -> anyhow::Result<()> {
    match Width::new(bits) {
        Some(width) => println!(rt; "a width of {}", width.bits())?,
        None => println!(rt; "no width")?,
    }
    Ok(())
}

/// Prints the bytes of a list of numbers of so many bits, for an output of `room` bytes.
pub fn show_packed(
    rt: &(impl Print + AllocGlobal),
    bits: &str,
    list: &str,
    room: usize,
) -> anyhow::Result<()> {
    let list = numbers(rt.alloc(), list)?;
    let mut output = vec![in rt.alloc(); BEFORE; room]?;
    let outcome = width(bits)?.pack(&list, &mut output);
    show_output(rt, outcome, &output)
}

/// Prints the `room` numbers of so many bits that bytes hold.
pub fn show_unpacked(
    rt: &(impl Print + AllocGlobal),
    bits: &str,
    digits: &str,
    room: usize,
) -> anyhow::Result<()> {
    let packed = bytes(rt.alloc(), digits)?;
    let before = u32::from(BEFORE);
    let mut list = vec![in rt.alloc(); before; room]?;
    match width(bits)?.unpack(&packed, &mut list) {
        Ok(()) => {
            print!(rt; "numbers")?;
            for number in &list {
                print!(rt; " {number}")?;
            }
            println!(rt; "")?;
            Ok(())
        }
        Err(fault) => {
            let kept = list.iter().all(|number| *number == before);
            show_refusal(rt, Refusal::from(fault), kept)
        }
    }
}
