//! A method of multiplication in one ring is a multiplier.

ghost use Rattle.std.specs.Prelude.{◌≡◌, ◌*◌};
ghost use Rattle.multiplier.specs.Rings.{Ring};
ghost use Rattle.multiplier.specs.LawProofs.{in_range};

use crate::factors::Factors;
use crate::method::Method;
use crate::multiplier::Multiplier;
use crate::quotient::QuotientRing;
use ring::{Fault, ScratchGuard};
use std::marker::{Model, PhantomData};

/// Multiplies elements of a ring by the method M. Clauses know it as its ring.
#[derive(Clone, Copy)]
pub struct InRing<M> {
    ring: QuotientRing,
    method: PhantomData<M>,
}

impl<M> Model for InRing<M> {
    ghost Value = { Ring };

    ghost view = { λ a. a.ring };

    ghost inverse = { λ ring. record { ring = ring; method = record {} } };
}

impl<M> InRing<M> {
    /// The multiplier of this ring.
    pub fn new(ring: QuotientRing) -> Self
        ensures { result ≡ ring }
    {
        InRing {
            ring,
            method: PhantomData,
        }
    }
}

impl<M: Method> Multiplier for InRing<M> {
    ghost n = { λ ring. ring.degree };

    ghost q = { λ ring. ring.modulus };

    ghost need = { λ ring. M.WORDS * ring.degree };

    ghost lawful = { λ ring. in_range ring M.WORDS M.few };

    fn degree(&self) -> usize {
        self.ring.degree()
    }

    fn modulus(&self) -> u32 {
        self.ring.modulus()
    }

    fn scratch_words(&self) -> usize {
        M::WORDS * self.ring.degree()
    }

    #[tactic(auto, using(crate::proofs::Refusals::outcome_steps))]
    fn multiply(
        &mut self,
        left: &[u32],
        right: &[u32],
        scratch: &mut [u32],
        output: &mut [u32],
    ) -> Result<(), Fault> {
        let need = self.scratch_words();
        let room = scratch.len();
        let guard = ScratchGuard { words: scratch };
        let factors = Factors::check(self.ring, need, left, right, room, output.len())?;
        M::write_product(factors, &mut guard.words[..need], output);
        Ok(())
    }
}
