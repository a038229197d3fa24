//! The modulus of a ring, its residues and their signed forms.

ghost use Rattle.std.specs.Prelude.{◌≡◌, ◌<◌, ℕ, pos, ◌+ℤ◌, ◌*ℤ◌};
ghost use Rattle.ring.specs.Residues.{IsModulus, residue};

use crate::fault::Fault;
use std::marker::Model;

/// An odd number q from 3 to below 2^23, and no other. Clauses know it as that number.
#[derive(Clone, Copy, PartialEq, Eq, Debug)]
pub struct Modulus {
    q: u32,
}

impl Model for Modulus {
    ghost Value = { ℕ };

    ghost view = { λ modulus. modulus.q };

    ghost invariant = { λ modulus. IsModulus modulus.q };

    ghost inverse = { λ q. record { q = q } };
}

impl Modulus {
    ghost use Rattle.ring.specs.Moduli.{is_modulus_from};
    ghost use Rattle.ring.specs.Residues.{IsSignedForm, signed_outcome};

    /// The modulus q, unless q is even, below 3, or 2^23 or more.
    pub fn new(q: u32) -> Option<Self>
        ensures { is_modulus_from q result }
    {
        if q % 2 == 1 && 3 <= q && q < 1 << 23 {
            Some(Modulus { q })
        } else {
            None
        }
    }

    /// The number q.
    pub fn value(self) -> u32
        ensures value { result ≡ self }
        ensures is_modulus { IsModulus result }
    {
        self.q
    }

    /// The signed form of the residue x, in -(q-1)/2..=(q-1)/2.
    pub fn signed(self, x: u32) -> Result<i32, Fault>
        ensures value { result ≡ signed_outcome self x }
        ensures is_signed_form { IsSignedForm self x result }
    {
        if x >= self.q {
            return Err(Fault::OutOfRange(0));
        }
        let half = self.q / 2;
        if x <= half {
            Ok(x as i32)
        } else {
            Ok(x as i32 - self.q as i32)
        }
    }

    /// The residue of a signed number.
    pub fn residue(self, x: i32) -> u32
        ensures value { result ≡ residue self x }
        ensures below { result < self }
    {
        x.rem_euclid(self.q as i32) as u32
    }

    /// The residue of an integer that is not negative.
    pub fn reduce(self, x: u32) -> u32
        ensures value { result ≡ residue self (pos x) }
        ensures below { result < self }
    {
        x % self.q
    }

    /// The residue of x + step e: what an error e makes of a residue x.
    pub fn add_multiple(self, x: u32, step: u32, e: i32) -> u32
        ensures value { result ≡ residue self (pos x +ℤ pos step *ℤ e) }
        ensures below { result < self }
    {
        let sum = i64::from(x) + i64::from(step) * i64::from(e);
        sum.rem_euclid(i64::from(self.q)) as u32
    }
}
