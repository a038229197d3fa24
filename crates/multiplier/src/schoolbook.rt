//! The schoolbook product: for each coefficient in turn its sum.

ghost use Rattle.std.specs.Prelude.{◌≡◌, ◌*◌, ◌^◌, ◌<◌, reverse, sum_by, zip};
ghost use Rattle.std.proofs.Common.{arith};
ghost use Rattle.multiplier.specs.Methods.{coefficient_of, size_of};

use crate::factors::Factors;
use crate::in_ring::InRing;
use crate::method::Method;

/// Multiplies by the sum for each coefficient, with no scratch.
pub type Schoolbook = InRing<ByCoefficient>;

/// The method that takes the sum for each coefficient in turn.
#[derive(Clone, Copy)]
pub struct ByCoefficient;

/// The sum of left[i] right[m - 1 - i], for two lists of m numbers.
fn reversed_dot(left: &[u32], right: &[u32]) -> u64
    requires { sum_by (λ p. p.0 * p.1) (zip left.now (reverse right.now)) < 2 ^ 64 }
    ensures { result ≡ sum_by (λ p. p.0 * p.1) (zip left.now (reverse right.now)) }
{
    left.iter()
        .zip(right.iter().rev())
        .map(|(x, y)| u64::from(*x) * u64::from(*y))
        .sum()
}

/// The coefficient k of the product: the pairs with i + j = k, less those with i + j = k + n.
#[tactic(auto, using(crate::proofs::ReversedDots::difference_of_parts))]
fn coefficient(factors: Factors<'_>, k: usize) -> u32
    requires { k < size_of factors }
    ensures { result ≡ coefficient_of factors.entry k }
{
    let Factors {
        left,
        right,
        modulus,
    } = factors;
    let n = left.len();
    let q = u64::from(modulus);
    let plus = reversed_dot(&left[..=k], &right[..=k]);
    let minus = reversed_dot(&left[k + 1..], &right[k + 1..]);
    // a multiple of q that is no less than minus
    let lift = n as u64 * q * q;
    ((plus + lift - minus) % q) as u32
}

impl Method for ByCoefficient {
    ghost WORDS = { 0 };

    const WORDS: usize = 0;

    ghost few = { Prim.omega arith };

    #[tactic(auto, using(crate::proofs::Written::written))]
    fn write_product(factors: Factors<'_>, _words: &mut [u32], output: &mut [u32]) {
        for (k, place) in output.iter_mut().enumerate() {
            *place = coefficient(factors, k);
        }
    }
}
