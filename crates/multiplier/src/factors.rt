//! The two lists that a method of multiplication is handed, as a type that holds no others.

ghost use Rattle.std.specs.Prelude.{◌≡◌, Ok, Err, IfOk, MatchResult};
ghost use Rattle.multiplier.specs.Multipliers.{multiply_outcome};
ghost use Rattle.multiplier.specs.Sums.{AreFactors};
ghost use Rattle.ring.specs.Faults.{told};

use crate::quotient::QuotientRing;
use ring::{Fault, first_not_below, place};

/// Two lists of one length, at most 1024, of numbers below the modulus.
#[derive(Clone, Copy)]
pub struct Factors<'a> {
    pub(crate) left: &'a [u32],
    pub(crate) right: &'a [u32],
    pub(crate) modulus: u32,
    // the lists are as the type says
    ghost fit: { AreFactors modulus left.now right.now },
}

impl<'a> Factors<'a> {
    /// The two lists, if they and the buffers, of so many words, fit the ring and the need; or the
    /// first fault.
    #[tactic(auto, using(ring::proofs::Elements::all_below_reaches))]
    pub(crate) fn check(
        ring: QuotientRing,
        need: usize,
        left: &'a [u32],
        right: &'a [u32],
        scratch: usize,
        output: usize,
    ) -> Result<Self, Fault>
        ensures outcome { told (λ _. tt) result
            ≡ multiply_outcome ring.degree ring.modulus need left.now right.now scratch output }
        ensures same_left { IfOk result (λ factors. factors.left.now ≡ left.now) }
        ensures same_right { IfOk result (λ factors. factors.right.now ≡ right.now) }
        ensures same_modulus { IfOk result (λ factors. factors.modulus ≡ ring.modulus) }
    {
        let n = ring.degree();
        let q = ring.modulus();
        if left.len() != n {
            return Err(Fault::WrongLength(place::LEFT_LIST));
        }
        if right.len() != n {
            return Err(Fault::WrongLength(place::RIGHT_LIST));
        }
        if scratch < need {
            return Err(Fault::WrongLength(place::SCRATCH));
        }
        if output != n {
            return Err(Fault::WrongLength(place::OUTPUT));
        }
        let first_left = first_not_below(left, q);
        if first_left < n {
            return Err(Fault::OutOfRange(first_left));
        }
        let first_right = first_not_below(right, q);
        if first_right < n {
            return Err(Fault::OutOfRange(n + first_right));
        }
        Ok(Factors {
            left,
            right,
            modulus: q,
        })
    }
}
