//! The row sum: for each left coefficient a multiple of a row of the right list.

ghost use Rattle.std.proofs.Common.{arith};

use crate::factors::Factors;
use crate::in_ring::InRing;
use crate::method::Method;
use crate::rows::Rows;

/// Multiplies by adding multiples of rows, with 2n words of scratch: the right list negated, then
/// the right list. The n words from place n - i on are the right list times x^i.
pub type RowSum = InRing<ByRow>;

/// The method that adds for each left coefficient a multiple of a row.
#[derive(Clone, Copy)]
pub struct ByRow;

impl Method for ByRow {
    ghost WORDS = { 2 };

    const WORDS: usize = 2;

    ghost few = { Prim.omega arith };

    #[tactic(auto, using(crate::proofs::Written::row_sums_are_product))]
    fn write_product(factors: Factors<'_>, words: &mut [u32], output: &mut [u32]) {
        Rows::from_factors(factors, words).write_sums(output);
    }
}
