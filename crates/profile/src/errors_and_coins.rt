//! Where errors or coins are first not lawful.

ghost use Rattle.std.specs.Prelude.{◌≡◌};
ghost use Rattle.ring.specs.Elements.{NoneOrFirstNotBelow, first_not_below};
ghost use Rattle.profile.specs.Secrets.{NoneOrFirstBeyond, first_beyond};

use crate::profile::Profile;
use crate::sizes::first_beyond;

/// The index of the first error of a size above E; where there is none, how many errors there are.
#[tactic(auto, using(crate::proofs::Secrets::none_or_first_beyond))]
pub fn first_error_beyond<P: Profile>(errors: &[i32]) -> usize
    ensures value { result ≡ first_beyond P.NUMBERS.e errors.now }
    ensures means { NoneOrFirstBeyond P.NUMBERS.e errors.now result }
{
    first_beyond(errors, P::NUMBERS.e)
}

/// The index of the first coin that is not below the coin count; where there is none, how many
/// coins there are.
#[tactic(auto, using(ring::proofs::Elements::none_or_first_not_below))]
pub fn first_coin_not_below<P: Profile>(coins: &[u8]) -> usize
    ensures value { result ≡ first_not_below P.NUMBERS.coins coins.now }
    ensures means { NoneOrFirstNotBelow P.NUMBERS.coins coins.now result }
{
    let count = P::NUMBERS.coins;
    coins
        .iter()
        .take_while(|coin| u32::from(**coin) < count)
        .count()
}
