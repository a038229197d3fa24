//! Unpacking: from bytes to numbers.

ghost use Rattle.std.specs.Prelude.{◌≡◌, ◌%◌, ◌^◌, ◌≤◌, OnOk, length};
ghost use Rattle.ring.specs.Faults.{after};
ghost use Rattle.packing.specs.Lengths.{packed_length};
ghost use Rattle.packing.specs.Packing.{AllFit, digits, packed, unpack_outcome, unpacked};
ghost use Rattle.packing.specs.PackingLaws.{SpareClear};
ghost use Rattle.packing.specs.Refusals.{UnpackMeans};

use crate::width::Width;
use ring::{Fault, place};

impl Width {
    /// Reads as many numbers of this width as `numbers` has room for from their bytes, which have
    /// to have their length. Spare bits are not looked at.
    pub fn unpack(self, bytes: &[u8], numbers: &mut [u32]) -> Result<(), Fault>
        ensures outcome { result ≡ unpack_outcome self bytes.now (length numbers.old) }
        ensures means { UnpackMeans self bytes.now (length numbers.old) result }
        ensures reads { let xs = unpacked self (length numbers.old) bytes.now in
            numbers.new ≡ after result xs numbers.old }
        ensures fit { OnOk result (AllFit self numbers.new) }
        ensures packs_back { SpareClear self (length numbers.old) bytes.now
            → OnOk result (packed self numbers.new ≡ bytes.now) }
    {
        if bytes.len() as u128 != self.packed_length(numbers.len()) {
            return Err(Fault::WrongLength(place::BYTES));
        }
        unpack_numbers(self, bytes, numbers);
        Ok(())
    }
}

/// Reads numbers from their bytes, eight at a time.
fn unpack_numbers(width: Width, bytes: &[u8], numbers: &mut [u32])
    requires long { length bytes.now ≡ packed_length (length numbers.old) width }
    ensures { numbers.new ≡ unpacked width (length numbers.old) bytes.now }
{
    let size = width.bits() as usize;
    let eights = numbers.len() / 8;
    for i in 0..eights {
        unpack_eight(
            width,
            &bytes[i * size..(i + 1) * size],
            &mut numbers[8 * i..8 * (i + 1)],
        );
    }
    unpack_eight(width, &bytes[eights * size..], &mut numbers[8 * eights..]);
}

/// Reads up to eight numbers from their bytes.
fn unpack_eight(width: Width, bytes: &[u8], numbers: &mut [u32])
    requires few { length numbers.old ≤ 8 }
    requires short { length bytes.now ≤ 16 }
    requires long { length bytes.now ≡ packed_length (length numbers.old) width }
    ensures { numbers.new ≡ unpacked width (length numbers.old) bytes.now }
{
    let mut block = [0; 16];
    block[..bytes.len()].copy_from_slice(bytes);
    split(width, u128::from_le_bytes(block), numbers);
}

/// The lowest digits of a number, up to eight. Half of them fit a machine word.
fn split(width: Width, joined: u128, numbers: &mut [u32])
    requires few { length numbers.old ≤ 8 }
    ensures { numbers.new ≡ digits width (length numbers.old) joined }
{
    let middle = numbers.len().min(4);
    let (low, high) = numbers.split_at_mut(middle);
    split_word(width, low_word(joined), low);
    split_word(width, low_word(joined >> (4 * width.bits())), high);
}

fn low_word(x: u128) -> u64
    ensures { result ≡ x % 2 ^ 64 }
{
    (x & u128::from(u64::MAX)) as u64
}

/// The lowest digits of a word.
fn split_word(width: Width, word: u64, numbers: &mut [u32])
    ensures { numbers.new ≡ digits width (length numbers.old) word }
{
    let bits = width.bits();
    let mask = (1 << bits) - 1;
    let mut rest = word;
    for number in numbers.iter_mut() {
        *number = (rest & mask) as u32;
        rest >>= bits;
    }
}
