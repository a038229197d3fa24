//! What is proved of the house profiles as a whole. A theorem stands on a function's contract,
//! where the check asks for its proof.

ghost use Rattle.std.specs.Prelude.{◌≡◌, [], ◌∷◌};
ghost use Rattle.house.specs.WorkedValues.{WorkedValues};
ghost use Rattle.house.specs.House.{t_ding, t_okcn, s_ding, s_okcn, w_ding, w_okcn};
ghost use Rattle.house.specs.House.{HouseProfilesLawful};
ghost use Rattle.house.specs.Rounding.{RoundingIsNearest, TieIsMidway};

use crate::house::House;
use crate::number_set::{NumberSet, S, T, W};
use profile::{Numbers, Profile};
use reconcile::{Ding, Okcn, Reconciler};

/// The numbers of the six house profiles, each of which is lawful.
pub fn house_profiles() -> [Numbers; 6]
    ensures rows { result ≡ t_ding ∷ t_okcn ∷ s_ding ∷ s_okcn ∷ w_ding ∷ w_okcn ∷ [] }
    ensures lawful { HouseProfilesLawful }
{
    [
        House::<T, Ding>::NUMBERS,
        House::<T, Okcn>::NUMBERS,
        House::<S, Ding>::NUMBERS,
        House::<S, Okcn>::NUMBERS,
        House::<W, Ding>::NUMBERS,
        House::<W, Okcn>::NUMBERS,
    ]
}

/// Recovering gives the least integer of its class, and rounding the nearest value of its class,
/// for every modulus and step.
pub fn rounding_is_nearest()
    ensures { RoundingIsNearest }
{}

/// A residue is a tie, with another value as near, exactly where it lies midway between its
/// rounded value and the next.
pub fn tie_is_midway()
    ensures { TieIsMidway }
{}

/// What the functions of the profiles at T, and the product at its n and q, give at the values
/// that were worked out by hand.
pub fn worked_values_hold()
    ensures { WorkedValues }
{}
