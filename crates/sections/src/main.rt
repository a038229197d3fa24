//! Prints the sections of messages. Each line of the input is the kind that a message is read as,
//! a space, and the message in hexadecimal. It is read by the house profile that its head names,
//! or else by T with Ding. What reading refuses is told by its fault. What it accepts is written
//! again from its parts, and the program ends with an error where that gives other bytes.

#![tactic(auto)]

mod failure;
mod line;
mod rewriting;
mod show;

use failure::Failure;
use house::{House, S, T, W};
use line::Line;
use reconcile::{Ding, Okcn, Reconciler};
use show::{show, show_refusal};
use std::io::{BufRead, BufReader};

fn show_by_head(rt: &(impl Print + AllocGlobal), line: &Line) -> Result<(), Failure> {
    match line.message.get(3..5) {
        Some([1, 2]) => show::<House<T, Okcn>>(rt, "T with OKCN", line),
        Some([2, 1]) => show::<House<S, Ding>>(rt, "S with Ding", line),
        Some([2, 2]) => show::<House<S, Okcn>>(rt, "S with OKCN", line),
        Some([3, 1]) => show::<House<W, Ding>>(rt, "W with Ding", line),
        Some([3, 2]) => show::<House<W, Okcn>>(rt, "W with OKCN", line),
        _ => show::<House<T, Ding>>(rt, "T with Ding", line),
    }
}

fn run(rt: &(impl Input + Print + AllocGlobal)) -> Result<(), Failure> {
    let alloc = rt.alloc();
    for text in BufReader::new(alloc, rt.reader())?.lines(alloc) {
        let line = Line::read(alloc, text?.as_str())?;
        match show_by_head(rt, &line) {
            Err(Failure::Refused(fault)) => show_refusal(rt, line.kind, fault)?,
            shown => shown?,
        }
    }
    Ok(())
}

fn main(rt: HostRuntime) -> Result<(), Failure> {
    run(&rt)
}
