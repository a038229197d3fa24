//! The bits of a number.

ghost use Rattle.std.specs.Prelude.{◌≡◌, ◌%◌, ◌^◌, ◌<◌};
ghost use Rattle.byte_source.specs.Derivation.{bits, IsBitCount};

/// How many bits a number needs: none for 0, and else one more than the place of its highest 1.
pub fn bit_count(m: u32) -> u32
    ensures value { result ≡ bits m }
    ensures is_bit_count { IsBitCount m result }
{
    u32::BITS - m.leading_zeros()
}

/// The low bits of a number.
pub(crate) fn low_bits(number: u32, width: u32) -> u32
    requires { width < 32 }
    ensures { result ≡ number % 2 ^ width }
{
    number & ((1 << width) - 1)
}
