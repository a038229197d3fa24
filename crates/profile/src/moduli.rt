//! The modulus of a profile.

ghost use Rattle.std.specs.Prelude.{◌≡◌};

use crate::profile::Profile;
use ring::Modulus;

/// q, as the type that holds a modulus and no other number.
#[tactic(auto, using(crate::proofs::Ranges::q_least))]
pub fn modulus<P: Profile>() -> Modulus
    ensures { result ≡ P.NUMBERS.q }
{
    Modulus::new(P::NUMBERS.q).unwrap()
}
