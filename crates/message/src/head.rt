//! The head of a message.

ghost use Rattle.std.specs.Prelude.{◌≡◌};
ghost use Rattle.message.specs.Messages.{IsRound, head};

use crate::fixed_lengths::HEAD_LENGTH;
use crate::kind::Kind;
use profile::Profile;

/// Its bytes: the kind's, the profile's two, and the round in four, the low byte first.
pub(crate) fn head<P: Profile>(kind: Kind, round: u32) -> [u8; HEAD_LENGTH]
    ensures bytes { result ≡ head P.NUMBERS kind round }
    ensures round { IsRound round }
{
    let [r0, r1, r2, r3] = round.to_le_bytes();
    [
        kind.byte(),
        P::NUMBERS.numbers_byte,
        P::NUMBERS.reconciler_byte,
        r0,
        r1,
        r2,
        r3,
    ]
}
