//! What a row sum adds up, as a type that holds no other lists.

ghost use Rattle.std.specs.Prelude.{◌≡◌, ℕ, ◌+◌, ◌*◌, ◌%◌, ◌^◌, ◌<◌, ◌≤◌};
ghost use Rattle.std.specs.Prelude.{◌++◌, map, length, slice_index};
ghost use Rattle.ring.specs.Residues.{IsModulus};
ghost use Rattle.multiplier.specs.Sums.{AreRows, negated};

use crate::factors::Factors;

/// So many 64-bit sums are added up at a time, few enough for registers.
const TILE: usize = 4;

/// The left coefficients, and the words that their rows are taken from.
#[derive(Clone, Copy)]
pub(crate) struct Rows<'a> {
    left: &'a [u32],
    words: &'a [u32],
    modulus: u32,
    ghost is_modulus: { IsModulus modulus },
    // with such lists no sum of 64 bits overflows
    ghost fit: { AreRows left.now words.now },
}

/// Adds x times the row to the sums.
fn add_scaled_row(sums: &mut [u64], x: u32, row: &[u32])
    requires long { length row.now ≡ length sums.old }
    requires fits { (t : ℕ) → t < length sums.old
        → slice_index sums.old t + x * slice_index row.now t < 2 ^ 64 }
    ensures { (t : ℕ) → t < length sums.old
        → slice_index sums.new t ≡ slice_index sums.old t + x * slice_index row.now t }
{
    for (t, sum) in sums.iter_mut().enumerate() {
        *sum += u64::from(x) * u64::from(row[t]);
    }
}

impl<'a> Rows<'a> {
    ghost use Rattle.multiplier.specs.Methods.{row_sum};

    /// Writes the right list negated modulo q, then the right list, and takes the rows from these
    /// words.
    #[tactic(auto, using(crate::proofs::Written::rows))]
    pub(crate) fn from_factors(factors: Factors<'a>, words: &'a mut [u32]) -> Self
        requires { length words.old ≡ 2 * length factors.left.now }
        ensures left { result.left.now ≡ factors.entry.left.now }
        ensures words { let right = factors.entry.right.now in
            result.words.now ≡ map (negated factors.entry.modulus) right ++ right }
        ensures modulus { result.modulus ≡ factors.entry.modulus }
    {
        let Factors {
            left,
            right,
            modulus: q,
        } = factors;
        let (negated, copied) = words.split_at_mut(right.len());
        for (j, word) in negated.iter_mut().enumerate() {
            *word = (q - right[j]) % q;
        }
        copied.copy_from_slice(right);
        Rows {
            left,
            words,
            modulus: q,
        }
    }

    /// Adds all rows to the sums, which are those of the coefficients from `start` on.
    #[tactic(auto, using(crate::proofs::RowSums::row_steps))]
    fn add_to(self, sums: &mut [u64], start: usize)
        requires inside { start + length sums.old ≤ length self.left.now }
        requires zero { (t : ℕ) → t < length sums.old → slice_index sums.old t ≡ 0 }
        ensures { (t : ℕ) → t < length sums.old
            → slice_index sums.new t ≡ row_sum self.entry (start + t) }
    {
        let Rows { left, words, .. } = self;
        let n = left.len();
        let many = sums.len();
        for (i, x) in left.iter().enumerate() {
            let from = n - i + start;
            add_scaled_row(sums, *x, &words[from..from + many]);
        }
    }

    /// Writes the N coefficients from `start` on.
    fn write_tile<const N: usize>(self, start: usize, output: &mut [u32])
        requires tile { length output.old ≡ N }
        requires inside { start + N ≤ length self.left.now }
        ensures { (t : ℕ) → t < N
            → slice_index output.new t ≡ row_sum self.entry (start + t) % self.entry.modulus }
    {
        let mut sums = [0; N];
        self.add_to(&mut sums, start);
        let q = u64::from(self.modulus);
        for (t, coefficient) in output.iter_mut().enumerate() {
            *coefficient = (sums[t] % q) as u32;
        }
    }

    /// Writes the row sums modulo q, a tile at a time, and what is less than a tile one by one.
    pub(crate) fn write_sums(self, output: &mut [u32])
        requires { length output.old ≡ length self.left.now }
        ensures { (k : ℕ) → k < length output.old
            → slice_index output.new k ≡ row_sum self.entry k % self.entry.modulus }
    {
        let n = self.left.len();
        for i in 0..n / TILE {
            let start = TILE * i;
            self.write_tile::<TILE>(start, &mut output[start..start + TILE]);
        }
        for k in n - n % TILE..n {
            self.write_tile::<1>(k, &mut output[k..k + 1]);
        }
    }
}
