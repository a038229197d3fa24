//! Widths: how many bits a packed number has, and the bytes that so many numbers of a width take.

ghost use Rattle.std.specs.Prelude.{◌≡◌, ◌*◌, ◌^◌, ◌≤◌, ℕ};
ghost use Rattle.packing.specs.Lengths.{IsWidth, packed_length};

use std::marker::Model;

/// From 1 to 16 bits. Clauses know it as that number.
#[derive(Clone, Copy, PartialEq, Eq, Debug)]
pub struct Width {
    bits: u32,
}

impl Model for Width {
    ghost Value = { ℕ };

    ghost view = { λ width. width.bits };

    ghost invariant = { λ width. IsWidth width.bits };

    ghost inverse = { λ bits. record { bits = bits } };
}

impl Width {
    ghost use Rattle.packing.specs.Widths.{is_width_from};

    /// The width of so many bits, unless they are none or more than 16.
    pub fn new(bits: u32) -> Option<Self>
        ensures { is_width_from bits result }
    {
        if 1 <= bits && bits <= 16 {
            Some(Width { bits })
        } else {
            None
        }
    }

    /// How many bits.
    pub fn bits(self) -> u32
        ensures value { result ≡ self }
        ensures is_width { IsWidth result }
    {
        self.bits
    }

    /// The least number that has more bits.
    #[tactic(auto, using(crate::proofs::Numbers::limit))]
    pub(crate) fn limit(self) -> u32
        ensures { result ≡ 2 ^ self }
    {
        1 << self.bits
    }

    /// How many bytes so many numbers take.
    #[tactic(auto, using(crate::proofs::PackedLengths::two_bytes_each))]
    pub fn packed_length(self, count: usize) -> u128
        ensures value { result ≡ packed_length count self }
        ensures bound { result ≤ 2 * count }
    {
        (count as u128 * u128::from(self.bits)).div_ceil(8)
    }
}
