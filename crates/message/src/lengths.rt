//! The lengths in bytes of a profile's messages and key.

ghost use Rattle.std.specs.Prelude.{◌≡◌, ◌+◌, ◌≤◌};
ghost use Rattle.packing.specs.Lengths.{packed_length};
ghost use Rattle.message.specs.Lengths.{answer_length, confirmation_length, offer_length};
ghost use Rattle.message.specs.Lengths.{key_length, section_length, signals_length, values_length};

use crate::fixed_lengths::{COUNT_LENGTH, HEAD_LENGTH};
use crate::widths::{key_width, signals_width, values_width};
use packing::Width;
use profile::{Profile, SEED_LENGTH};

/// How many bytes n numbers of a width take, packed one after another.
fn packed<P: Profile>(width: Width) -> usize
    ensures value { result ≡ packed_length P.NUMBERS.n width }
    ensures bound { result ≤ 2048 }
{
    width.packed_length(P::NUMBERS.n) as usize
}

/// How many bytes a section of so many bytes takes with its count.
fn section(bytes: usize) -> usize
    requires { bytes ≤ 2048 }
    ensures { result ≡ section_length bytes }
{
    COUNT_LENGTH + bytes
}

/// How many bytes the n rounded values of an element take, packed.
pub fn values_length<P: Profile>() -> usize
    ensures value { result ≡ values_length P.NUMBERS }
    ensures bound { result ≤ 2048 }
{
    packed::<P>(values_width::<P>())
}

/// How many bytes the n signals of an element take, packed.
pub fn signals_length<P: Profile>() -> usize
    ensures value { result ≡ signals_length P.NUMBERS }
    ensures bound { result ≤ 2048 }
{
    packed::<P>(signals_width::<P>())
}

/// How many bytes an offer has: the sections of its head, seed and rounded values.
pub fn offer_length<P: Profile>() -> usize
    ensures { result ≡ offer_length P.NUMBERS }
{
    section(HEAD_LENGTH) + section(SEED_LENGTH) + section(values_length::<P>())
}

/// How many bytes an answer has: the sections of its head, rounded values and signals.
pub fn answer_length<P: Profile>() -> usize
    ensures { result ≡ answer_length P.NUMBERS }
{
    section(HEAD_LENGTH) + section(values_length::<P>()) + section(signals_length::<P>())
}

/// How many bytes a confirmation has, in every profile: the section of its head.
pub fn confirmation_length() -> usize
    ensures { result ≡ confirmation_length }
{
    COUNT_LENGTH + HEAD_LENGTH
}

/// How many bytes a key has: one bit for each of n coefficients, packed.
pub fn key_length<P: Profile>() -> usize
    ensures { result ≡ key_length P.NUMBERS }
{
    packed::<P>(key_width())
}
