//! Prints the link sheet: for each house profile its numbers, its head bytes, the lengths of its
//! messages and of its key, and what was measured by going through every residue.

#![tactic(auto)]

use house::{House, NumberSet, S, T, W};
use message::{answer_length, confirmation_length, key_length, offer_length};
use profile::{Numbers, Profile};
use reconcile::{Ding, Okcn, Reconciler};
use ring::Fault;
use std::fmt::Display;
use std::io;
use survey::{count_keys, last_coin, last_signal, survey_rounding};

/// Why a sheet was not printed.
#[derive(Debug, Drop)]
enum Failure {
    Output(io::Error),
    Survey(Fault),
}

impl From<io::Error> for Failure {
    fn from(error: io::Error) -> Failure {
        Failure::Output(error)
    }
}

impl From<Fault> for Failure {
    fn from(fault: Fault) -> Failure {
        Failure::Survey(fault)
    }
}

fn print_row(rt: &impl Print, label: &str, value: impl Display + Drop) -> io::Result<()> {
    println!(rt; "  {label:<20}{value}")
}

fn print_numbers(rt: &impl Print, k: &Numbers) -> io::Result<()> {
    print_row(rt, "numbers byte", k.numbers_byte)?;
    print_row(rt, "reconciler byte", k.reconciler_byte)?;
    print_row(rt, "n", k.n)?;
    print_row(rt, "q", k.q)?;
    print_row(rt, "p", k.p)?;
    print_row(rt, "w", k.w)?;
    print_row(rt, "E", k.e)?;
    print_row(rt, "L", k.l)?;
    print_row(rt, "step", k.step)?;
    print_row(rt, "R", k.r)?;
    print_row(rt, "tau", k.tau)?;
    print_row(rt, "coins", k.coins)?;
    print_row(rt, "signal bits", k.signal_width)
}

fn print_lengths<P: Profile>(rt: &impl Print) -> io::Result<()> {
    print_row(rt, "offer bytes", offer_length::<P>())?;
    print_row(rt, "answer bytes", answer_length::<P>())?;
    print_row(rt, "confirmation bytes", confirmation_length())?;
    print_row(rt, "key bytes", key_length::<P>())
}

fn print_keys<P: Profile>(rt: &impl Print, coin: u8, signal: u32) -> Result<(), Failure> {
    let keys = count_keys::<P>(coin, signal)?;
    println!(rt;
        "  coin {coin} signal {signal}     key 0: {}, key 1: {}",
        keys.zeros, keys.ones
    )?;
    Ok(())
}

fn print_survey<P: Profile>(rt: &impl Print) -> Result<(), Failure> {
    let rounding = survey_rounding::<P>()?;
    print_row(rt, "least distance", rounding.least)?;
    print_row(rt, "largest distance", rounding.largest)?;
    print_row(rt, "ties", rounding.ties)?;
    for coin in 0..=last_coin::<P>() {
        for signal in 0..=last_signal::<P>() {
            print_keys::<P>(rt, coin, signal)?;
        }
    }
    Ok(())
}

fn print_profile<P: Profile>(rt: &impl Print, name: &str) -> Result<(), Failure> {
    println!(rt; "{name}")?;
    print_numbers(rt, &P::NUMBERS)?;
    print_lengths::<P>(rt)?;
    print_survey::<P>(rt)?;
    println!(rt; "")?;
    Ok(())
}

fn main(rt: HostRuntime) -> Result<(), Failure> {
    print_profile::<House<T, Ding>>(&rt, "T Ding")?;
    print_profile::<House<T, Okcn>>(&rt, "T OKCN")?;
    print_profile::<House<S, Ding>>(&rt, "S Ding")?;
    print_profile::<House<S, Okcn>>(&rt, "S OKCN")?;
    print_profile::<House<W, Ding>>(&rt, "W Ding")?;
    print_profile::<House<W, Okcn>>(&rt, "W OKCN")
}
