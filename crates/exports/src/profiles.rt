//! The four functions of the house profiles, by the index of a profile, from 0 to 5.

ghost use Rattle.std.specs.Prelude.{◌≡◌};
ghost use Rattle.exports.specs.Profiles.{round_code, recover_code, reconcile_code, read_code};

use crate::by_index::by_index;
use crate::codes::Coded;
use profile::Profile;

/// The rounded value of the residue x.
pub fn exported_round(profile: u8, x: u32) -> u64
    ensures { result ≡ round_code profile x }
{
    by_index!(profile, P::round(x).code())
}

/// The integer that the rounded value y recovers to, before it is reduced modulo q: it may be q or
/// more.
pub fn exported_recover(profile: u8, y: u32) -> u64
    ensures { result ≡ recover_code profile y }
{
    by_index!(profile, P::recover(y).code())
}

/// The signal and the key bit of the residue x and a coin, as 2 signal + key bit.
pub fn exported_reconcile(profile: u8, x: u32, coin: u8) -> u64
    ensures { result ≡ reconcile_code profile x coin }
{
    by_index!(profile, P::reconcile(x, coin).code())
}

/// The key bit that is read of the residue y by a signal.
pub fn exported_read(profile: u8, y: u32, signal: u8) -> u64
    ensures { result ≡ read_code profile y signal }
{
    let signal = u32::from(signal);
    by_index!(profile, P::read(y, signal).code())
}
