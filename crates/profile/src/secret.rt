//! Where a secret is held.

ghost use Rattle.std.specs.Prelude.{◌≡◌, List, length, ℤ, IfOk, Some, None, Option, MatchOption};
ghost use Rattle.ring.specs.Faults.{after};
ghost use Rattle.profile.specs.Secrets.{LawfulSecret, UnfilledOrLawful, fill_outcome};
ghost use Rattle.profile.specs.Secrets.{shown, zeros};
ghost use Rattle.profile.specs.Secrets.{FillAcceptsTheLawful, FillRefusesTheFirst};
ghost use Rattle.profile.specs.declared.bounds.Bounds.{Bounds};

use ring::Fault;
use std::alloc::{AllocError, Global};

/// A place is at every moment unfilled, with all its memory zero, or holds a lawful secret in it.
/// An impl's `drop` is to overwrite the memory first, of which no clause of a trait can speak: see
/// `Place`.
pub trait SecretPlace: Drop {
    /// The profile that the place belongs to.
    type Profile;

    // what a secret is held to
    ghost bounds: { Bounds };

    // the coefficients that are held, if any
    ghost held: { Self → Option (List ℤ) };

    // the words that the place keeps them in
    ghost memory: { Self → List ℤ };

    /// A new place is unfilled. Its memory is got here, and no later call asks for any.
    fn new(alloc: Global) -> Result<Self, AllocError>
    where
        Self: Sized,
        ensures unfilled { IfOk result (λ place. held place ≡ None) }
        ensures zeroed { IfOk result (λ place. memory place ≡ zeros bounds.n) };

    /// Takes the coefficients for the secret, in place of what is held; where it refuses, all
    /// stays as it was.
    fn fill(&mut self, coefficients: &[i32]) -> Result<(), Fault>
        ensures outcome { result ≡ fill_outcome bounds coefficients.now }
        ensures holds { held self.new ≡ after result (Some coefficients.now) (held self.old) }
        ensures keeps { memory self.new ≡ after result coefficients.now (memory self.old) };

    /// What is held, which is lawful.
    fn secret(&self) -> Option<&[i32]>
        ensures shows { shown result ≡ held self.now }
        ensures lawful { MatchOption result
            (held self.now ≡ None)
            (λ xs. LawfulSecret bounds xs.now) };

    /// The memory itself, n words, filled or not.
    fn words(&self) -> &[i32]
        ensures shows { result.now ≡ memory self.now }
        ensures long { length result.now ≡ bounds.n };

    /// Uses the secret up: the place is unfilled from here on, and its memory zero.
    fn erase(&mut self)
        ensures unfilled { held self.new ≡ None }
        ensures zeroed { memory self.new ≡ zeros bounds.n };

    // unfilled with words of 0, or filled with a lawful secret in its words
    ghost unfilled_or_lawful: { (place : Self)
        → UnfilledOrLawful bounds (held place) (memory place) };
}

/// Filling accepts exactly the lawful secrets, and refuses any other list at the first place where
/// it is not one.
pub fn fill_refuses_the_first()
    ensures refuses { FillRefusesTheFirst }
    ensures accepts { FillAcceptsTheLawful }
{}
