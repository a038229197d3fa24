//! Derived elements.

use byte_source::{Tape, bit_count, derive};
use house::{House, S, T, W};
use profile::{Profile, SEED_LENGTH};
use reconcile::{Ding, Okcn};
use ring::Fault;
use std::process::Abort;

/// 511 is dropped; 100, 200, 5 and 0 are kept.
const TAPE: [u8; 10] = [0xff, 0xff, 0x64, 0x00, 0xc8, 0x00, 0x05, 0x00, 0x00, 0x00];

fn derive_by<P: Profile>(tape: &[u8], output: &mut [u32]) -> Result<(), Fault> {
    derive::<P, Tape>(&mut Tape::new(tape), &[0; SEED_LENGTH], output)
}

#[test]
fn worked_element(rt: HostRuntime) {
    let mut output = [9; 4];
    assert_eq!(rt; derive_by::<House<T, Ding>>(&TAPE, &mut output), Ok(()));
    assert_eq!(rt; output, [100, 200, 5, 0]);
    assert_eq!(rt; derive_by::<House<T, Okcn>>(&TAPE, &mut output), Ok(()));
    assert_eq!(rt; output, [100, 200, 5, 0]);
}

/// A refusal leaves the output as it was.
fn refuses<P: Profile>(rt: &impl Abort, tape: &[u8], places: usize, fault: Fault) {
    let mut output = [9; 5];
    assert!(rt; places <= 5);
    assert_eq!(rt; derive_by::<P>(tape, &mut output[..places]), Err(fault));
    assert_eq!(rt; output, [9; 5]);
}

#[test]
fn spent_tapes_say_how_many_were_kept(rt: HostRuntime) {
    for (bytes, kept) in [0, 0, 0, 0, 1, 1, 2, 2, 3, 3].into_iter().enumerate() {
        refuses::<House<T, Ding>>(&rt, &TAPE[..bytes], 4, Fault::SourceSpent(kept));
    }
}

#[test]
fn lengths_come_before_the_source(rt: HostRuntime) {
    refuses::<House<T, Ding>>(&rt, &[], 3, Fault::WrongLength(4));
    refuses::<House<T, Okcn>>(&rt, &TAPE, 5, Fault::WrongLength(4));
    refuses::<House<S, Ding>>(&rt, &TAPE, 4, Fault::WrongLength(4));
}

/// In groups of three bytes at W: the high bit of 24 is not looked at, q - 1 is kept and q is
/// dropped.
#[test]
fn groups_of_three_bytes(rt: HostRuntime) {
    let mut output = [9; 256];
    let tape = [0x00, 0xe0, 0xff, 0x01, 0xe0, 0x7f, 0xff, 0xff];
    assert_eq!(rt;
        derive_by::<House<W, Ding>>(&tape, &mut output),
        Err(Fault::SourceSpent(1))
    );
}

#[test]
fn bits_of_numbers(rt: HostRuntime) {
    for (number, bits) in [(8380416, 23), (12288, 14), (256, 9), (255, 8), (0, 0)] {
        assert_eq!(rt; bit_count(number), bits, "bits of {number}");
    }
}
