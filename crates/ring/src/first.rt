//! Where a list first has a number that is not below a bound.

ghost use Rattle.std.specs.Prelude.{◌≡◌};
ghost use Rattle.ring.specs.Elements.{NoneOrFirstNotBelow, first_not_below};

/// The index of the first number that is not below the bound; where all are, how many there are.
#[tactic(auto, using(crate::proofs::Elements::none_or_first_not_below))]
pub fn first_not_below(numbers: &[u32], bound: u32) -> usize
    ensures value { result ≡ first_not_below bound numbers.now }
    ensures means { NoneOrFirstNotBelow bound numbers.now result }
{
    numbers.iter().take_while(|x| **x < bound).count()
}
