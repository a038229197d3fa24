//! One text for every house profile.

ghost use Rattle.std.specs.Prelude.{◌≡◌};
ghost use Rattle.house.specs.House.{house_numbers, house_functions};
ghost use Rattle.house.specs.NumberSets.{bounds_of_sizes};
ghost use Rattle.reconcile.specs.Reconcilers.{tolerance};
ghost use Rattle.house.specs.LawProofs.Lawfulness.{house_lawful};
ghost use Rattle.std.proofs.Common.{rules};

use crate::number_set::NumberSet;
use crate::rounding::Rounding;
use profile::{Bounds, Numbers, Place, Profile, SecretBounds};
use reconcile::Reconciler;
use ring::{Fault, Modulus};
use std::marker::PhantomData;

/// The profile of a number set with a reconciler.
pub struct House<N, R> {
    parts: PhantomData<(N, R)>,
}

/// The modulus of a number set. `profile::modulus` gives the same of a profile, but the impl of
/// Profile below cannot call it for itself: the check covers no call that leads back to a method
/// of the same impl.
fn modulus_of<N: NumberSet>() -> Modulus
    ensures { result ≡ N.SIZES.q }
{
    Modulus::new(N::SIZES.q).unwrap()
}

/// Rounding by the numbers of the number set, in the steps of the reconciler.
fn rounding<N: NumberSet, R: Reconciler>() -> Rounding
    ensures q { result.q ≡ N.SIZES.q }
    ensures p { result.p ≡ N.SIZES.p }
    ensures step { result.step ≡ R.NUMBERS.step }
{
    let sizes = N::SIZES;
    Rounding {
        q: sizes.q,
        p: sizes.p,
        step: R::NUMBERS.step,
    }
}

/// The largest difference that the reconciler tolerates at the modulus of the number set.
const fn tau<N: NumberSet, R: Reconciler>() -> u32
    ensures { result ≡ tolerance R.NUMBERS N.SIZES.q }
{
    let formula = R::NUMBERS.tolerance;
    (formula.times * N::SIZES.q).saturating_sub(formula.less) >> formula.shift
}

impl<N: NumberSet, R> SecretBounds for House<N, R> {
    const BOUNDS: Bounds = Bounds {
        n: N::SIZES.n,
        e: N::SIZES.e,
        l: N::SIZES.l,
    };

    ghost BOUNDS = { bounds_of_sizes N.SIZES };
}

impl<N: NumberSet, R: Reconciler> Profile for House<N, R> {
    type Secret = Place<House<N, R>>;

    const NUMBERS: Numbers = Numbers {
        n: Self::BOUNDS.n,
        q: N::SIZES.q,
        p: N::SIZES.p,
        w: N::SIZES.w,
        e: Self::BOUNDS.e,
        l: Self::BOUNDS.l,
        step: R::NUMBERS.step,
        r: R::NUMBERS.step * N::SIZES.rounding,
        tau: tau::<N, R>(),
        coins: R::NUMBERS.coins,
        signal_width: R::NUMBERS.signal_width,
        numbers_byte: N::SIZES.byte,
        reconciler_byte: R::NUMBERS.byte,
    };

    ghost NUMBERS = { house_numbers N.SIZES R.NUMBERS };

    ghost functions = { house_functions N.SIZES R.NUMBERS R.meaning };

    ghost lawful = { house_lawful N.SIZES R.NUMBERS R.meaning N.admissible R.sound };

    ghost secret_bounds = { Prim.search rules };

    fn round(x: u32) -> Result<u32, Fault> {
        if x >= N::SIZES.q {
            return Err(Fault::OutOfRange(0));
        }
        Ok(rounding::<N, R>().round(x))
    }

    fn recover(y: u32) -> Result<u32, Fault> {
        if y > N::SIZES.p {
            return Err(Fault::OutOfRange(0));
        }
        Ok(rounding::<N, R>().recover(y))
    }

    fn reconcile(x: u32, coin: u8) -> Result<(u32, u32), Fault> {
        R::reconcile(modulus_of::<N>(), x, coin)
    }

    fn read(y: u32, signal: u32) -> Result<u32, Fault> {
        R::read(modulus_of::<N>(), y, signal)
    }
}
