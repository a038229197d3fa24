//! Packing: from numbers to bytes.

ghost use Rattle.std.specs.Prelude.{◌≡◌, ◌≤◌, OnOk, length};
ghost use Rattle.ring.specs.Faults.{after};
ghost use Rattle.packing.specs.Lengths.{packed_length};
ghost use Rattle.packing.specs.Packing.{AllFit, number, packed, unpacked};
ghost use Rattle.packing.specs.Packing.{pack_outcome, pack_numbers_outcome};
ghost use Rattle.packing.specs.Refusals.{PackMeans, PackNumbersMeans};

use crate::fields::Fields;
use crate::width::Width;
use ring::{Fault, place};

impl Fields<'_> {
    /// Writes the bytes of the numbers into `output`, which has to have their length.
    pub fn pack(self, output: &mut [u8]) -> Result<(), Fault>
        ensures outcome { let w = self.entry.width in let xs = self.entry.numbers in
            result ≡ pack_outcome w xs (length output.old) }
        ensures means { let w = self.entry.width in let xs = self.entry.numbers in
            PackMeans w xs (length output.old) result }
        ensures writes { let w = self.entry.width in let xs = self.entry.numbers in
            output.new ≡ after result (packed w xs) output.old }
        ensures unpacks_back { let w = self.entry.width in let xs = self.entry.numbers in
            OnOk result (unpacked w (length xs) output.new ≡ xs) }
    {
        let Fields { width, numbers } = self;
        if output.len() as u128 != width.packed_length(numbers.len()) {
            return Err(Fault::WrongLength(place::OUTPUT));
        }
        pack_numbers(width, numbers, output);
        Ok(())
    }
}

impl Width {
    /// Packs numbers, of which each has to have no more bits than the width. A wrong length is
    /// found before them.
    pub fn pack(self, numbers: &[u32], output: &mut [u8]) -> Result<(), Fault>
        ensures outcome { result ≡ pack_numbers_outcome self numbers.now (length output.old) }
        ensures means { PackNumbersMeans self numbers.now (length output.old) result }
        ensures writes { output.new ≡ after result (packed self numbers.now) output.old }
        ensures unpacks_back { let xs = numbers.now in
            OnOk result (unpacked self (length xs) output.new ≡ xs) }
    {
        if output.len() as u128 != self.packed_length(numbers.len()) {
            return Err(Fault::WrongLength(place::OUTPUT));
        }
        let fields = Fields::check(self, numbers).map_err(Fault::OutOfRange)?;
        fields.pack(output)
    }
}

/// Writes the bytes of the numbers, eight at a time: so many take whole bytes.
fn pack_numbers(width: Width, numbers: &[u32], output: &mut [u8])
    requires fit { AllFit width numbers.now }
    requires long { length output.old ≡ packed_length (length numbers.now) width }
    ensures { output.new ≡ packed width numbers.now }
{
    let size = width.bits() as usize;
    let (eights, rest) = numbers.as_chunks::<8>();
    for (i, eight) in eights.iter().enumerate() {
        pack_eight(width, eight, &mut output[i * size..(i + 1) * size]);
    }
    pack_eight(width, rest, &mut output[eights.len() * size..]);
}

/// Writes the bytes of up to eight numbers.
fn pack_eight(width: Width, numbers: &[u32], output: &mut [u8])
    requires few { length numbers.now ≤ 8 }
    requires fit { AllFit width numbers.now }
    requires long { length output.old ≡ packed_length (length numbers.now) width }
    ensures { output.new ≡ packed width numbers.now }
{
    let mut rest = joined(width, numbers);
    for byte in output.iter_mut() {
        *byte = (rest & 0xff) as u8;
        rest >>= 8;
    }
}

/// The number whose digits are up to eight numbers: it has at most 128 bits. Half of them fit a
/// machine word.
fn joined(width: Width, digits: &[u32]) -> u128
    requires few { length digits.now ≤ 8 }
    requires fit { AllFit width digits.now }
    ensures { result ≡ number width digits.now }
{
    let (low, high) = digits.split_at(digits.len().min(4));
    u128::from(joined_four(width, low))
        + (u128::from(joined_four(width, high)) << (4 * width.bits()))
}

/// The same of up to four.
fn joined_four(width: Width, digits: &[u32]) -> u64
    requires few { length digits.now ≤ 4 }
    requires fit { AllFit width digits.now }
    ensures { result ≡ number width digits.now }
{
    let bits = width.bits();
    let mut sum = 0;
    for (i, digit) in digits.iter().enumerate() {
        sum += u64::from(*digit) << (i as u32 * bits);
    }
    sum
}
