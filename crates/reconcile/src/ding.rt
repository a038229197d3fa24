//! The reconciler of the Ding key exchange: an inner region by one signal bit, and a parity for
//! the key bit.

ghost use Rattle.std.specs.Prelude.{◌≡◌, ◌<◌};
ghost use Rattle.reconcile.specs.Ding.{ding_functions, ding_numbers, ding_read};
ghost use Rattle.reconcile.specs.LawProofs.Ding.{ding_sound};

use crate::reconciler::{Reconciler, ReconcilerNumbers, Tolerance};
use ring::{Fault, Modulus};

/// The reconciler of the Ding key exchange. It tolerates even differences up to
/// floor((q - 4) / 4).
pub struct Ding;

/// The parity of the signed form of y, which a signal of 1 moves by (q - 1) / 2.
fn key_bit(q: Modulus, y: u32, signal: u32) -> u32
    requires inside { y < q }
    requires small { signal < 2 }
    ensures { result ≡ ding_read q y signal }
{
    let moved = (y + signal * ((q.value() - 1) / 2)) % q.value();
    q.signed(moved).unwrap().unsigned_abs() % 2
}

impl Reconciler for Ding {
    const NUMBERS: ReconcilerNumbers = ReconcilerNumbers {
        step: 2,
        coins: 2,
        signal_width: 1,
        byte: 1,
        tolerance: Tolerance {
            times: 1,
            less: 4,
            shift: 2,
        },
    };

    ghost NUMBERS = { ding_numbers };

    ghost meaning = { ding_functions };

    ghost sound = { ding_sound };

    fn reconcile(q: Modulus, x: u32, coin: u8) -> Result<(u32, u32), Fault> {
        let s = q.signed(x)?;
        let r = (q.value() / 4) as i32;
        let signal = match coin {
            0 if -r <= s && s <= r => 0,
            0 => 1,
            1 if -r + 1 <= s && s <= r + 1 => 0,
            1 => 1,
            _ => return Err(Fault::CoinOutOfRange(0)),
        };
        Ok((signal, key_bit(q, x, signal)))
    }

    fn read(q: Modulus, y: u32, signal: u32) -> Result<u32, Fault> {
        if y >= q.value() || signal > 1 {
            return Err(Fault::OutOfRange(0));
        }
        Ok(key_bit(q, y, signal))
    }
}
