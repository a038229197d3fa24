//! How a section is written into its place of a message.

ghost use Rattle.std.specs.Prelude.{◌≡◌, ◌+◌, ◌^◌, ◌<◌, ◌≤◌, length};
ghost use Rattle.packing.specs.Lengths.{packed_length};
ghost use Rattle.packing.specs.Packing.{AllFit, packed};
ghost use Rattle.message.specs.Messages.{low_first, section};
ghost use Rattle.message.specs.Sections.{written_at};

use crate::fixed_lengths::COUNT_LENGTH;
use packing::Fields;

/// Writes the count of a section's bytes at `at`. The result is where the bytes begin.
fn write_count(out: &mut [u8], at: usize, count: usize) -> usize
    requires inside { at + COUNT_LENGTH ≤ length out.old }
    requires counted { count < 2 ^ 16 }
    ensures end { result ≡ at + COUNT_LENGTH }
    ensures writes { out.new ≡ written_at at (low_first COUNT_LENGTH count) out.old }
{
    let start = at + COUNT_LENGTH;
    out[at..start].copy_from_slice(&(count as u16).to_le_bytes());
    start
}

/// Writes a section at `at`, its count and its bytes. The result is where the section ends.
#[tactic(auto, using(packing::proofs::Splitting::bytes_fit))]
pub(crate) fn write_section(out: &mut [u8], at: usize, contents: &[u8]) -> usize
    requires inside { at + COUNT_LENGTH + length contents.now ≤ length out.old }
    requires counted { length contents.now < 2 ^ 16 }
    ensures end { result ≡ at + COUNT_LENGTH + length contents.now }
    ensures writes { out.new ≡ written_at at (section contents.now) out.old }
    ensures bytes { AllFit 8 contents.now }
{
    let start = write_count(out, at, contents.len());
    let end = start + contents.len();
    out[start..end].copy_from_slice(contents);
    end
}

/// The same for numbers, which are packed into the section's own stretch of `out`.
pub(crate) fn pack_section(out: &mut [u8], at: usize, bytes: usize, fields: Fields<'_>) -> usize
    requires long { bytes ≡ packed_length (length fields.numbers) fields.width }
    requires inside { at + COUNT_LENGTH + bytes ≤ length out.old }
    requires counted { bytes < 2 ^ 16 }
    ensures end { result ≡ at + COUNT_LENGTH + bytes }
    ensures writes { let contents = packed fields.entry.width fields.entry.numbers in
        out.new ≡ written_at at (section contents) out.old }
{
    let start = write_count(out, at, bytes);
    let end = start + bytes;
    fields.pack(&mut out[start..end]).unwrap();
    end
}
