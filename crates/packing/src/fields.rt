//! Numbers that fit into the bits that they are packed in.

ghost use Rattle.std.specs.Prelude.{◌≡◌, ◌^◌, ◌≤◌, ◌<◌, All, IfOk, MatchResult, length};
ghost use Rattle.ring.specs.Elements.{FirstNotBelow, first_not_below};
ghost use Rattle.packing.specs.Packing.{AllFit};

use crate::width::Width;
use std::marker::Model;

/// A list of numbers, none of which has more bits than the width. Clauses know it as these two.
#[derive(Drop)]
pub struct Fields<'a> {
    pub(crate) width: Width,
    pub(crate) numbers: &'a [u32],
    ghost fit: { AllFit width numbers.now },
}

impl<'a> Model for Fields<'a> {
    ghost use Rattle.packing.specs.Fields.{FittingNumbers};

    ghost Value = { FittingNumbers };

    ghost view = { λ fields. record {
      width = fields.width;
      numbers = fields.numbers.now;
      fit = fields.fit;
    } };
}

impl<'a> Fields<'a> {
    /// The list, or the index of the first number that has more bits than the width.
    #[tactic(auto, using(crate::proofs::Fitting::first_not_fitting))]
    pub fn check(width: Width, numbers: &'a [u32]) -> Result<Self, usize>
        ensures outcome { MatchResult result
            (λ _. length numbers.now ≤ first_not_below (2 ^ width) numbers.now)
            (λ i. (i ≡ first_not_below (2 ^ width) numbers.now) × (i < length numbers.now)) }
        ensures means { MatchResult result
            (λ _. AllFit width numbers.now)
            (λ i. FirstNotBelow (2 ^ width) numbers.now i) }
        ensures same_width { IfOk result (λ fields. fields.width ≡ width) }
        ensures same_numbers { IfOk result (λ fields. fields.numbers ≡ numbers.now) }
    {
        let first = first_not_fitting(width, numbers);
        if first < numbers.len() {
            return Err(first);
        }
        Ok(Fields { width, numbers })
    }
}

/// The index of the first number that has more bits than the width; where none has, how many there
/// are.
#[tactic(auto, using(crate::proofs::Fitting::all_before_first))]
fn first_not_fitting(width: Width, numbers: &[u32]) -> usize
    ensures { result ≡ first_not_below (2 ^ width) numbers.now }
{
    let limit = width.limit();
    if union(numbers) < limit {
        return numbers.len();
    }
    ring::first_not_below(numbers, limit)
}

/// The bits that any of the numbers has. No number is larger.
fn union(numbers: &[u32]) -> u32
    ensures { All (λ x. x ≤ result) numbers.now }
{
    let mut all = 0;
    for x in numbers {
        all |= *x;
    }
    all
}
