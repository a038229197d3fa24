//! The widths of what a profile packs.

ghost use Rattle.std.specs.Prelude.{◌≡◌};

use packing::Width;
use profile::Profile;

/// The width of a rounded value: how many bits it is packed in.
pub fn values_width<P: Profile>() -> Width
    ensures { result ≡ P.NUMBERS.w }
{
    Width::new(P::NUMBERS.w).unwrap()
}

/// The width of a signal: how many bits it is packed in.
pub fn signals_width<P: Profile>() -> Width
    ensures { result ≡ P.NUMBERS.signal_width }
{
    Width::new(P::NUMBERS.signal_width).unwrap()
}

/// The width of a key bit, in every profile: one bit.
pub fn key_width() -> Width
    ensures { result ≡ 1 }
{
    Width::new(1).unwrap()
}
