//! A secret place in memory of its own.

ghost use Rattle.std.specs.Prelude.{◌≡◌, true, false, vec_len};
ghost use Rattle.profile.specs.Secrets.{LawfulSecret, zeros};

use crate::bounds::SecretBounds;
use crate::memory::{Memory, overwrite};
use crate::secret::SecretPlace;
use crate::sizes::{first_beyond, first_past};
use ring::{Fault, place};
use std::alloc::{AllocError, Global};
use std::marker::PhantomData;

/// Room for one secret of P, the profile that the place belongs to. The memory is got once, when
/// the place is made. Unfilled, all of it is 0; a place that is let go overwrites it first,
/// without which it could not be freed.
pub struct Place<P: SecretBounds> {
    memory: Memory,
    filled: bool,
    profile: PhantomData<P>,
    ghost long: { vec_len memory.words ≡ P.BOUNDS.n },
    ghost lawful: { filled ≡ true → LawfulSecret P.BOUNDS memory.words.items },
    ghost clear: { filled ≡ false → memory.words.items ≡ zeros P.BOUNDS.n },
}

impl<P: SecretBounds> Drop for Place<P> {
    fn drop(self) {
        let Place {
            mut memory,
            filled: _,
            profile: _,
        } = self;
        overwrite(&mut memory.words);
        memory.free();
    }
}

impl<P: SecretBounds> SecretPlace for Place<P> {
    ghost use Rattle.profile.specs.Places.{place_held, place_memory};
    ghost use Rattle.profile.specs.LawProofs.{place_unfilled_or_lawful};

    type Profile = P;

    ghost bounds = { P.BOUNDS };

    ghost held = { place_held };

    ghost memory = { place_memory };

    ghost unfilled_or_lawful = { place_unfilled_or_lawful };

    fn new(alloc: Global) -> Result<Self, AllocError> {
        let words = vec![in alloc; 0i32; P::BOUNDS.n]?;
        Ok(Place {
            memory: Memory { words },
            filled: false,
            profile: PhantomData,
        })
    }

    fn fill(&mut self, coefficients: &[i32]) -> Result<(), Fault> {
        let bounds = P::BOUNDS;
        if coefficients.len() != bounds.n {
            return Err(Fault::WrongLength(place::COEFFICIENTS));
        }
        let beyond = first_beyond(coefficients, bounds.e);
        if beyond < bounds.n {
            return Err(Fault::OutOfRange(beyond));
        }
        let past = first_past(coefficients, bounds.l);
        if past < bounds.n {
            return Err(Fault::SumTooLarge(past));
        }
        self.memory.words.copy_from_slice(coefficients);
        self.filled = true;
        Ok(())
    }

    fn secret(&self) -> Option<&[i32]> {
        self.filled.then_some(self.memory.words.as_slice())
    }

    fn words(&self) -> &[i32] {
        &self.memory.words
    }

    fn erase(&mut self) {
        overwrite(&mut self.memory.words);
        self.filled = false;
    }
}
