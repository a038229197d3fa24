//! The ring in which elements are multiplied, as a type that holds no other numbers.

ghost use Rattle.std.specs.Prelude.{◌≡◌, ◌≤◌, count_ones};
ghost use Rattle.ring.specs.Residues.{IsModulus};
ghost use Rattle.ring.specs.declared.degree.TheConstants.{LARGEST_DEGREE};

use ring::{LARGEST_DEGREE, Modulus};
use std::marker::Model;

/// The polynomials over the residues modulo q, modulo x^n + 1: n is a power of two from 1 to 1024.
/// Clauses know it as its degree n and its modulus q.
#[derive(Clone, Copy, PartialEq, Eq, Debug)]
pub struct QuotientRing {
    degree: usize,
    modulus: Modulus,
    // one bit of the degree is set, so that it is a power of two
    ghost power: { count_ones degree ≡ 1 },
    ghost most: { degree ≤ LARGEST_DEGREE },
    ghost is_modulus: { IsModulus modulus },
}

impl Model for QuotientRing {
    ghost use Rattle.multiplier.specs.Rings.{Ring};

    ghost Value = { Ring };

    ghost view = { λ a. record {
      degree = a.degree;
      modulus = a.modulus;
      power = a.power;
      most = a.most;
      is_modulus = a.is_modulus;
    } };

    ghost inverse = { λ ring. record {
      degree = ring.degree;
      modulus = ring.modulus;
      power = ring.power;
      most = ring.most;
      is_modulus = ring.is_modulus;
    } };
}

impl QuotientRing {
    ghost use Rattle.multiplier.specs.Multipliers.{ring_from};

    /// The ring of degree n and modulus q, unless n is no power of two from 1 to 1024, or q is
    /// even, below 3, or 2^23 or more.
    #[tactic(auto, using(crate::proofs::Degrees::degrees))]
    pub fn new(n: usize, q: u32) -> Option<Self>
        ensures { ring_from n q result }
    {
        let modulus = Modulus::new(q)?;
        if n.is_power_of_two() && n <= LARGEST_DEGREE {
            Some(QuotientRing { degree: n, modulus })
        } else {
            None
        }
    }

    /// The degree n, which is how many coefficients an element has.
    pub fn degree(self) -> usize
        ensures { result ≡ self.degree }
    {
        self.degree
    }

    /// The number q, below which the coefficients are.
    pub fn modulus(self) -> u32
        ensures { result ≡ self.modulus }
    {
        self.modulus.value()
    }
}
