//! Packed numbers.

ghost use Rattle.std.specs.Prelude.{◌≡◌};
ghost use Rattle.exports.specs.Packed.{pack_code, pack_output, unpack_code, unpack_numbers};

use crate::codes::{Coded, NO_CALL};
use packing::Width;

/// Packs numbers of so many bits, if there is such a width: 1 to 16.
pub fn exported_pack(width: u32, numbers: &[u32], output: &mut [u8]) -> u64
    ensures code { result ≡ pack_code width numbers.now output.old }
    ensures writes { output.new ≡ pack_output width numbers.now output.old }
{
    let Some(width) = Width::new(width) else {
        return NO_CALL;
    };
    width.pack(numbers, output).code()
}

/// Unpacks as many numbers of so many bits, 1 to 16, as there is room for.
pub fn exported_unpack(width: u32, bytes: &[u8], numbers: &mut [u32]) -> u64
    ensures code { result ≡ unpack_code width bytes.now numbers.old }
    ensures reads { numbers.new ≡ unpack_numbers width bytes.now numbers.old }
{
    let Some(width) = Width::new(width) else {
        return NO_CALL;
    };
    width.unpack(bytes, numbers).code()
}
