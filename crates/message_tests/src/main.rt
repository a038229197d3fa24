//! Prints what becomes of calls of packing and of messages. Each line of the input is a call, a
//! message that calls after it read, or a comment, and has a line of the output.
//! reference/calls.py says what form the input has, writes it, and computes the expected output
//! from docs/MESSAGES.md.

#![tactic(auto)]

mod messages;
mod outcomes;
mod packed;
mod reading;
mod words;
mod writing;

use anyhow::bail;
use messages::call;
use packed::{show_packed, show_unpacked, show_width};
use std::alloc::Global;
use std::io::{BufRead, BufReader};
use words::bytes;
use writing::show_hexadecimal_line;

/// A call that no profile takes part in, or one by the profile that is named first.
fn show(rt: &(impl Print + AllocGlobal), message: &[u8], words: &[&str]) -> anyhow::Result<()> {
    match words {
        ["width", bits] => show_width(rt, bits.parse()?),
        ["pack", width, list, room] => show_packed(rt, width, list, room.parse()?),
        ["unpack", width, digits, room] => show_unpacked(rt, width, digits, room.parse()?),
        ["hexadecimal", word, digits, room] => {
            show_hexadecimal_line(rt, word, digits, room.parse()?)
        }
        [profile, words @ ..] => call(rt, profile, message, words),
        [] => bail!("an empty line"),
    }
}

fn run(rt: &(impl Input + Print + AllocGlobal)) -> anyhow::Result<()> {
    let alloc = rt.alloc();
    let mut message = Vec::new(alloc);
    for text in BufReader::new(alloc, rt.reader())?.lines(alloc) {
        let text = text?;
        let words: Vec<&str> = text.split_whitespace().collect(alloc)?;
        match words.as_slice() {
            ["#", ..] => println!(rt; "{}", text.as_str())?,
            ["message", digits] => {
                message = bytes(alloc, digits)?;
                println!(rt; "a message of {} bytes", message.len())?;
            }
            words => show(rt, &message, words)?,
        }
    }
    Ok(())
}

fn main(rt: HostRuntime) -> anyhow::Result<()> {
    run(&rt)
}
