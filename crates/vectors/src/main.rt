//! Checks outside vectors, one to a line of the input, and prints for each group how many there
//! were. The first that does not hold ends the program with an error.

#![tactic(auto)]

mod checks;
mod line;

use anyhow::bail;
use checks::check;
use line::{Group, read_line};
use std::collections::BTreeMap;
use std::io::{BufRead, BufReader};

fn run(rt: &(impl Input + Print + AllocGlobal)) -> anyhow::Result<()> {
    let alloc = rt.alloc();
    // how many vectors of each group have held
    let mut counts = BTreeMap::new(alloc);
    for text in BufReader::new(alloc, rt.reader())?.lines(alloc) {
        let Some(vector) = read_line(alloc, text?.as_str())? else {
            continue;
        };
        if !check(alloc, vector.group, &vector.numbers)? {
            bail!("a vector does not hold");
        }
        let count = counts.entry(vector.group)?.or_insert(0u32);
        *count = count.saturating_add(1);
    }
    for group in Group::ALL {
        println!(rt; "{group}: {}", counts.get(&group).unwrap_or(&0))?;
    }
    Ok(())
}

fn main(rt: HostRuntime) -> anyhow::Result<()> {
    run(&rt)
}
