//! Rings and products.

use multiplier::{Multiplier, QuotientRing, RowSum, Schoolbook};
use ring::Fault;
use std::process::Abort;
use std::test::Fail;

#[test]
fn rings_at_the_edges(rt: HostRuntime) {
    for (n, q) in [(1, 3), (1024, 3), (1, 8388607), (1024, 8388607)] {
        assert!(rt; QuotientRing::new(n, q).is_some());
    }
    for n in [0, 3, 1023, 1025, 2048, usize::MAX] {
        assert!(rt; QuotientRing::new(n, 257).is_none());
    }
    for q in [0, 1, 2, 256, 8388606, 8388608, 8388609, u32::MAX] {
        assert!(rt; QuotientRing::new(4, q).is_none());
    }
}

/// x^4 is -1: the 4 comes round as 253, whatever the output held.
fn turns_by_x<M: Multiplier>(rt: &impl Abort, multiplier: &mut M) {
    let mut scratch = [9; 11];
    let mut output = [9; 4];
    assert_eq!(rt;
        multiplier.multiply(&[1, 2, 3, 4], &[0, 1, 0, 0], &mut scratch, &mut output),
        Ok(())
    );
    assert_eq!(rt; output, [253, 1, 2, 3]);
    assert_eq!(rt; scratch, [0; 11], "scratch is zero past the need too");
}

#[test]
fn worked_product(rt: HostRuntime) -> Result<(), Fail> {
    let ring = QuotientRing::new(4, 257).ok_or("no ring")?;
    turns_by_x(&rt, &mut Schoolbook::new(ring));
    turns_by_x(&rt, &mut RowSum::new(ring));
    Ok(())
}

/// The largest sums there are: each number is -1, so the coefficient k is k + 1 products of 1 less
/// n - 1 - k of them.
fn multiplies_the_largest<M: Multiplier>(rt: &impl Abort, multiplier: &mut M) {
    let q: u32 = 8388607;
    let largest = [q - 1; 1024];
    let mut scratch = [0; 2048];
    let mut output = [0; 1024];
    assert_eq!(rt;
        multiplier.multiply(&largest, &largest, &mut scratch, &mut output),
        Ok(())
    );
    for (k, c) in output.iter().enumerate() {
        let expected = (u64::from(q) + 2 * (k as u64 + 1) - 1024) % u64::from(q);
        assert_eq!(rt; u64::from(*c), expected);
    }
}

#[test]
fn largest_numbers_of_the_largest_ring(rt: HostRuntime) -> Result<(), Fail> {
    let ring = QuotientRing::new(1024, 8388607).ok_or("no ring")?;
    multiplies_the_largest(&rt, &mut Schoolbook::new(ring));
    multiplies_the_largest(&rt, &mut RowSum::new(ring));
    Ok(())
}

/// A refusal leaves the output as it was, and scratch at zero.
fn refuses<M: Multiplier>(
    rt: &impl Abort,
    multiplier: &mut M,
    left: &[u32],
    right: &[u32],
    words: usize,
    places: usize,
    fault: Fault,
) {
    let mut scratch = [9; 12];
    let mut output = [7; 5];
    assert!(rt; words <= 12 && places <= 5);
    assert_eq!(rt;
        multiplier.multiply(left, right, &mut scratch[..words], &mut output[..places]),
        Err(fault)
    );
    assert_eq!(rt; output, [7; 5]);
    let mut expected = [9; 12];
    expected[..words].fill(0);
    assert_eq!(rt; scratch, expected, "{words} words of scratch given");
}

#[test]
fn lengths_are_tried_in_order_before_numbers(rt: HostRuntime) -> Result<(), Fail> {
    let ring = QuotientRing::new(4, 257).ok_or("no ring")?;
    let bad = [257; 5];
    let m = &mut RowSum::new(ring);
    assert_eq!(rt; m.scratch_words(), 8);
    for (left, right, words, places, place) in [
        (5, 5, 7, 3, 1),
        (3, 4, 8, 4, 1),
        (0, 0, 0, 0, 1),
        (4, 5, 7, 3, 2),
        (4, 4, 7, 3, 3),
        (4, 4, 8, 3, 4),
        (4, 4, 8, 5, 4),
    ] {
        assert!(rt; left <= 5 && right <= 5);
        let fault = Fault::WrongLength(place);
        refuses(&rt, m, &bad[..left], &bad[..right], words, places, fault);
    }
    Ok(())
}

#[test]
fn first_number_not_below_q_is_named(rt: HostRuntime) -> Result<(), Fail> {
    let ring = QuotientRing::new(4, 257).ok_or("no ring")?;
    let m = &mut RowSum::new(ring);
    for (left, right, words, place) in [
        ([257; 4], [257; 4], 12, 0),
        ([0, 256, 256, 257], [257; 4], 8, 3),
        ([256; 4], [257, 0, 0, 0], 8, 4),
        ([256; 4], [0, 1, u32::MAX, 257], 8, 6),
    ] {
        refuses(&rt, m, &left, &right, words, 4, Fault::OutOfRange(place));
    }
    let s = &mut Schoolbook::new(ring);
    assert_eq!(rt; s.scratch_words(), 0);
    let right = [0, 0, 0, 257];
    // It zeroes scratch that it does not need.
    for words in [0, 5] {
        refuses(&rt, s, &[256; 4], &right, words, 4, Fault::OutOfRange(7));
    }
    Ok(())
}
