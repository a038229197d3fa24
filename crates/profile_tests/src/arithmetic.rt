//! What an end computes with single numbers, at the ends of their types; and lists of errors and
//! coins.

use house::{House, S, T, W};
use profile::{Profile, first_coin_not_below, first_error_beyond, modulus};
use reconcile::Ding;
use std::process::Abort;

#[derive(Clone, Copy)]
struct Expected {
    /// the residues of the least 32-bit number, of -1 and of the largest
    residues: [u32; 3],
    /// the largest unsigned one, reduced
    reduced: u32,
    /// q - 1 + 2, 1 - 6, and the largest number with the least multiple
    sums: [u32; 3],
}

fn agrees<P: Profile>(rt: &impl Abort, expected: Expected) {
    let q = modulus::<P>();
    assert_eq!(rt;
        [q.residue(i32::MIN), q.residue(-1), q.residue(i32::MAX)],
        expected.residues
    );
    assert_eq!(rt; q.reduce(u32::MAX), expected.reduced);
    let sums = [
        q.add_multiple(q.value() - 1, 2, 1),
        q.add_multiple(1, 2, -3),
        q.add_multiple(u32::MAX, u32::MAX, i32::MIN),
    ];
    assert_eq!(rt; sums, expected.sums);
}

#[test]
fn residues_of_extreme_numbers(rt: HostRuntime) {
    let at_t = Expected {
        residues: [128, 256, 128],
        reduced: 0,
        sums: [1, 252, 0],
    };
    agrees::<House<T, Ding>>(&rt, at_t);
    let at_w = Expected {
        residues: [6283521, 8380416, 2096895],
        reduced: 4193791,
        sums: [1, 8380412, 917503],
    };
    agrees::<House<W, Ding>>(&rt, at_w);
}

#[test]
fn errors_and_coins_up_to_the_first_unlawful(rt: HostRuntime) {
    assert_eq!(rt;
        first_error_beyond::<House<S, Ding>>(&[2, -2, 0, 3, i32::MIN]),
        3
    );
    assert_eq!(rt; first_error_beyond::<House<S, Ding>>(&[i32::MIN]), 0);
    assert_eq!(rt; first_coin_not_below::<House<S, Ding>>(&[0, 1, 1, 2, 0]), 3);
    assert_eq!(rt; first_coin_not_below::<House<S, Ding>>(&[]), 0);
}
