//! Products of elements.

ghost use Rattle.exports.specs.Elements.{Multiplied};

use crate::codes::{Coded, NO_CALL};
use multiplier::{Multiplier, QuotientRing, RowSum, Schoolbook};

/// Multiplies in the ring of degree n and modulus q, if there is such a ring: by the schoolbook if
/// `row_sum` is 0, and else by the row sum. Without such a ring scratch stays as it was, too.
pub fn exported_multiply(
    row_sum: u8,
    n: usize,
    q: u32,
    left: &[u32],
    right: &[u32],
    scratch: &mut [u32],
    output: &mut [u32],
) -> u64
    ensures { Multiplied row_sum n q left.now right.now
        scratch.old scratch.new output.old output.new result }
{
    let Some(ring) = QuotientRing::new(n, q) else {
        return NO_CALL;
    };
    let outcome = if row_sum == 0 {
        Schoolbook::new(ring).multiply(left, right, scratch, output)
    } else {
        RowSum::new(ring).multiply(left, right, scratch, output)
    };
    outcome.code()
}
