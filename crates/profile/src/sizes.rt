//! Where the coefficients of a list first pass a bound.

ghost use Rattle.std.specs.Prelude.{◌≡◌};
ghost use Rattle.profile.specs.Secrets.{NoneOrFirstBeyond, NoneOrFirstPast};
ghost use Rattle.profile.specs.Secrets.{first_beyond, first_past};

/// The index of the first coefficient of a size above `bound`; where there is none, how many there
/// are.
#[tactic(auto, using(crate::proofs::Secrets::none_or_first_beyond))]
pub fn first_beyond(coefficients: &[i32], bound: u32) -> usize
    ensures value { result ≡ first_beyond bound coefficients.now }
    ensures means { NoneOrFirstBeyond bound coefficients.now result }
{
    coefficients
        .iter()
        .take_while(|c| c.unsigned_abs() <= bound)
        .count()
}

/// The index at which the running sum of sizes first passes `limit`; where it does not, how many
/// coefficients there are.
#[tactic(auto, using(crate::proofs::Secrets::past_steps))]
pub fn first_past(coefficients: &[i32], limit: u32) -> usize
    ensures value { result ≡ first_past 0 limit coefficients.now }
    ensures means { NoneOrFirstPast limit coefficients.now result }
{
    let limit = u64::from(limit);
    let mut sum: u64 = 0;
    for (i, c) in coefficients.iter().enumerate() {
        sum += u64::from(c.unsigned_abs());
        if sum > limit {
            return i;
        }
    }
    coefficients.len()
}
