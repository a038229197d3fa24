//! How outcomes are printed.

use std::fmt;

/// A fault, as it is reported.
#[derive(Clone, Copy, PartialEq)]
pub struct Refusal {
    layer: u8,
    number: u8,
    place: usize,
}

impl From<ring::Fault> for Refusal {
    fn from(fault: ring::Fault) -> Refusal {
        Refusal {
            layer: fault.layer(),
            number: fault.number(),
            place: fault.place(),
        }
    }
}

impl From<message::Fault> for Refusal {
    fn from(fault: message::Fault) -> Refusal {
        Refusal {
            layer: fault.layer(),
            number: fault.number(),
            place: fault.place(),
        }
    }
}

impl fmt::Display for Refusal {
    fn fmt<W: fmt::Write>(&self, f: &mut fmt::Formatter<W>) -> fmt::Result {
        write!(
            f,
            "layer {}, fault {} at {}",
            self.layer, self.number, self.place
        )
    }
}

/// What a buffer holds before a call. A refusal leaves it.
pub const BEFORE: u8 = 0xa5;

/// Prints the buffer of a call that writes bytes, or why it was refused.
pub fn show_output(
    rt: &(impl Print + AllocGlobal),
    outcome: Result<(), ring::Fault>,
    output: &[u8],
) -> anyhow::Result<()> {
    match outcome {
        Ok(()) => println!(rt; "{}", hex::encode(rt.alloc(), output)?)?,
        Err(fault) => {
            let kept = output.iter().all(|byte| *byte == BEFORE);
            show_refusal(rt, Refusal::from(fault), kept)?;
        }
    }
    Ok(())
}

/// Prints why a call was refused, and whether its buffer is as it was.
pub fn show_refusal(rt: &impl Print, refusal: Refusal, kept: bool) -> anyhow::Result<()> {
    let buffer = if kept { "kept" } else { "changed" };
    println!(rt; "{refusal}, buffer {buffer}")?;
    Ok(())
}

/// Prints outcomes one after another, but for those that are the same as the one before.
#[derive(Drop)]
pub struct Runs {
    last: Option<Result<(), Refusal>>,
}

impl Runs {
    /// Nothing is printed yet.
    pub fn new() -> Runs {
        Runs { last: None }
    }

    /// The next outcome, and a number to print before it.
    pub fn add(
        &mut self,
        rt: &impl Print,
        at: usize,
        outcome: Result<(), Refusal>,
    ) -> anyhow::Result<()> {
        if self.last != Some(outcome) {
            match outcome {
                Ok(()) => print!(rt; " | from {at}: accepted")?,
                Err(refusal) => print!(rt; " | from {at}: {refusal}")?,
            }
            self.last = Some(outcome);
        }
        Ok(())
    }
}
