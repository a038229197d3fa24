//! How two ends that hold nearly equal residues agree on a key bit.

ghost use Rattle.std.specs.Prelude.{◌≡◌};
ghost use Rattle.reconcile.specs.Reconcilers.{Reconciliation, Sound};
ghost use Rattle.reconcile.specs.Reconcilers.{reconcile_outcome_at, read_outcome_at};
ghost use Rattle.reconcile.specs.declared.reconciler.ReconcilerNumbers.{ReconcilerNumbers};

use ring::{Fault, Modulus};

/// The largest difference that is tolerated at the modulus q is floor((times q - less) / 2^shift).
#[derive(Clone, Copy, PartialEq, Eq, Debug)]
pub struct Tolerance {
    /// what q is multiplied by, at most 16
    pub times: u32,
    /// what is taken from that, at most 16
    pub less: u32,
    /// the power of 2 that the rest is divided by, at most 16
    pub shift: u32,
}

/// The numbers of a reconciler, which are the same at every modulus.
#[derive(Clone, Copy, PartialEq, Eq, Debug)]
pub struct ReconcilerNumbers {
    /// what the differences are multiples of, 1 or 2
    pub step: u32,
    /// how many coins there are, from 1 to 255
    pub coins: u32,
    /// the bits of a signal, from 1 to 8
    pub signal_width: u32,
    /// the byte that names the reconciler
    pub byte: u8,
    /// the largest difference that is tolerated
    pub tolerance: Tolerance,
}

/// A reconciler: its numbers, and its functions for every modulus. It owes the laws of a profile
/// at each modulus that a number set may have.
pub trait Reconciler {
    /// The numbers of the reconciler.
    const NUMBERS: ReconcilerNumbers;

    // NUMBERS, as clauses know it
    ghost NUMBERS: { ReconcilerNumbers };

    // its signal, key bit and reading as functions of the modulus
    ghost meaning: { Reconciliation };

    /// The signal and the key bit of a residue and a coin.
    fn reconcile(q: Modulus, x: u32, coin: u8) -> Result<(u32, u32), Fault>
        ensures { result ≡ reconcile_outcome_at NUMBERS meaning q x coin };

    /// The key bit that a residue and the other end's signal give.
    fn read(q: Modulus, y: u32, signal: u32) -> Result<u32, Fault>
        ensures { result ≡ read_outcome_at NUMBERS meaning q y signal };

    // the law: small numbers, and what a profile asks of a reconciler at each modulus with
    // floor(q / 8) at least 1
    ghost sound: { Sound NUMBERS meaning };
}
