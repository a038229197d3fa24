//! The reconciler OKCN with two key values and four bands.

ghost use Rattle.reconcile.specs.Okcn.{okcn_numbers, okcn_functions};
ghost use Rattle.reconcile.specs.LawProofs.Okcn.{okcn_sound};

use crate::reconciler::{Reconciler, ReconcilerNumbers, Tolerance};
use ring::{Fault, Modulus};

/// The reconciler OKCN with two key values and four bands. It tolerates any differences up to
/// floor((3 q - 8) / 16).
pub struct Okcn;

impl Reconciler for Okcn {
    const NUMBERS: ReconcilerNumbers = ReconcilerNumbers {
        step: 1,
        coins: 2,
        signal_width: 2,
        byte: 2,
        tolerance: Tolerance {
            times: 3,
            less: 8,
            shift: 4,
        },
    };

    ghost NUMBERS = { okcn_numbers };

    ghost meaning = { okcn_functions };

    ghost sound = { okcn_sound };

    fn reconcile(q: Modulus, x: u32, coin: u8) -> Result<(u32, u32), Fault> {
        let q = q.value();
        if x >= q {
            return Err(Fault::OutOfRange(0));
        }
        // the half of 0..2q that 2x + coin lies in, and how far in; no division
        let z = 2 * x + u32::from(coin);
        let (key_bit, rest) = if z < q { (0, z) } else { (1, z - q) };
        let t = 4 * rest;
        let signal = match coin {
            0 | 1 if t < q => 0,
            0 | 1 if t < 2 * q => 1,
            0 | 1 if t < 3 * q => 2,
            0 | 1 => 3,
            _ => return Err(Fault::CoinOutOfRange(0)),
        };
        Ok((signal, key_bit))
    }

    fn read(q: Modulus, y: u32, signal: u32) -> Result<u32, Fault> {
        if y >= q.value() || signal > 3 {
            return Err(Fault::OutOfRange(0));
        }
        let q = q.value() as i32;
        let y = y as i32;
        let signal = signal as i32;
        let floor = (16 * y + q * (3 - 2 * signal)).div_euclid(8 * q);
        Ok(floor.rem_euclid(2) as u32)
    }
}
