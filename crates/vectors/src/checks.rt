//! Whether a vector holds of the library.

ghost use Rattle.std.specs.Prelude.{◌≡◌, ◌≤◌, ◌↔◌, true, length, IfOk, IsOk, IsTrue};
ghost use Rattle.element.specs.Products.{product};
ghost use Rattle.keccak.specs.Sponge.{shake128};
ghost use Rattle.vectors.specs.Holding.{element_of, OutputHolds, ProductHolds, DerivedHolds};
ghost use Rattle.vectors.specs.Holding.{RoundedHolds, ReconciledHolds, ReadHolds, Holds};

use crate::line::{Group, NumbersError};
use anyhow::bail;
use exports::{
    DONE, exported_derive_shake, exported_multiply, exported_read, exported_reconcile,
    exported_recover, exported_round, exported_shake128,
};
use profile::SEED_LENGTH;
use std::alloc::Global;

const MALFORMED: &str = "a line of the wrong length";

/// The largest count that a line has: none of its lists is longer.
const LARGEST_COUNT: usize = 4096;

/// The numbers of a line as bytes, unless one is not.
fn bytes(alloc: Global, numbers: &[u32]) -> Result<Vec<u8>, NumbersError>
    ensures { IfOk result (λ v. v.items ≡ numbers.now) }
{
    numbers
        .iter()
        .map(|number| -> Result<u8, NumbersError> { Ok(u8::try_from(*number)?) })
        .try_collect(alloc)
}

/// A number of a line as a count, unless it is too large for one.
fn count(number: u32) -> anyhow::Result<usize>
    ensures value { IfOk result (λ n. (n ≡ number) × (n ≤ 4096)) }
    ensures accepts { number ≤ 4096 → IsOk result }
{
    let count = number as usize;
    if count > LARGEST_COUNT {
        bail!(MALFORMED);
    }
    Ok(count)
}

/// Whether SHAKE128 of the message is the expected output.
fn hashes_to(message: &[u8], expected: &[u8], output: &mut [u8]) -> bool
    ensures { IsTrue result ↔ (shake128 message.now (length output.old) ≡ expected.now) }
{
    exported_shake128(message, output);
    &output[..] == expected
}

#[tactic(auto, using(std::proofs::lemmas::List::take_all))]
fn check_output(alloc: Global, numbers: &[u32]) -> anyhow::Result<bool>
    ensures { IfOk result (λ holds. IsTrue holds ↔ OutputHolds numbers.now) }
{
    let [message_len, output_len, rest @ ..] = numbers else {
        bail!(MALFORMED);
    };
    let (m, d) = (count(*message_len)?, count(*output_len)?);
    if rest.len() != m + d {
        bail!(MALFORMED);
    }
    let (message, expected) = rest.split_at(m);
    let (message, expected) = (bytes(alloc, message)?, bytes(alloc, expected)?);
    let mut output = vec![in alloc; 0u8; d]?;
    Ok(hashes_to(&message, &expected, &mut output))
}

/// How to multiply: `as u8` gives the number that the exported function has for it.
#[derive(Clone, Copy)]
enum Algorithm {
    Schoolbook,
    RowSum,
}

/// Two elements modulo q, and what their product is expected to be.
#[derive(Clone, Copy)]
struct ExpectedProduct<'a> {
    q: u32,
    left: &'a [u32],
    right: &'a [u32],
    product: &'a [u32],
}

impl ExpectedProduct<'_> {
    /// Whether the elements are accepted and multiplied to that product.
    fn is_given_by(&self, algorithm: Algorithm, scratch: &mut [u32], output: &mut [u32]) -> bool
        ensures { let expected = self.now in result ≡ true
            → product (length expected.left.now) expected.q expected.left.now expected.right.now
            ≡ expected.product.now }
    {
        let (row_sum, n) = (algorithm as u8, self.left.len());
        exported_multiply(row_sum, n, self.q, self.left, self.right, scratch, output) == DONE
            && &output[..] == self.product
    }
}

#[tactic(auto, using(std::proofs::lemmas::List::take_all))]
fn check_product(alloc: Global, numbers: &[u32]) -> anyhow::Result<bool>
    ensures { IfOk result (λ holds. holds ≡ true → ProductHolds numbers.now) }
{
    let [degree, q, rest @ ..] = numbers else {
        bail!(MALFORMED);
    };
    let n = count(*degree)?;
    if rest.len() != 3 * n {
        bail!(MALFORMED);
    }
    let (left, rest) = rest.split_at(n);
    let (right, product) = rest.split_at(n);
    let expected = ExpectedProduct {
        q: *q,
        left,
        right,
        product,
    };
    let mut scratch = vec![in alloc; 0u32; 2 * n]?;
    let mut output = vec![in alloc; 0u32; n]?;
    let by_schoolbook = expected.is_given_by(Algorithm::Schoolbook, &mut scratch, &mut output);
    output.fill(0);
    let by_row_sum = expected.is_given_by(Algorithm::RowSum, &mut scratch, &mut output);
    Ok(by_schoolbook && by_row_sum)
}

/// Whether a seed gives an element, which the output then holds.
#[tactic(auto, using(std::proofs::lemmas::Bool::Decides::nat_tests))]
fn derives(profile: u8, seed: &[u8], output: &mut [u32]) -> bool
    ensures { result ≡ true → output.new ≡ element_of profile seed.now }
{
    exported_derive_shake(profile, seed, output) == DONE
}

/// Whether a seed gives the expected element.
fn derives_to(profile: u8, seed: &[u8], expected: &[u32], output: &mut [u32]) -> bool
    ensures { result ≡ true → element_of profile seed.now ≡ expected.now }
{
    derives(profile, seed, output) && &output[..] == expected
}

#[tactic(auto, using(std::proofs::lemmas::List::take_all))]
fn check_derived(alloc: Global, numbers: &[u32]) -> anyhow::Result<bool>
    ensures { IfOk result (λ holds. holds ≡ true → DerivedHolds numbers.now) }
{
    let [profile, degree, rest @ ..] = numbers else {
        bail!(MALFORMED);
    };
    let n = count(*degree)?;
    if rest.len() != SEED_LENGTH + n {
        bail!(MALFORMED);
    }
    let (seed, expected) = rest.split_at(SEED_LENGTH);
    let seed = bytes(alloc, seed)?;
    let mut output = vec![in alloc; 0u32; n]?;
    Ok(derives_to(u8::try_from(*profile)?, &seed, expected, &mut output))
}

fn check_rounded(numbers: &[u32]) -> anyhow::Result<bool>
    ensures { IfOk result (λ holds. IsTrue holds ↔ RoundedHolds numbers.now) }
{
    let [profile, x, y, t] = numbers else {
        bail!(MALFORMED);
    };
    let profile = u8::try_from(*profile)?;
    Ok(
        exported_round(profile, *x) == u64::from(*y)
            && exported_recover(profile, *y) == u64::from(*t),
    )
}

fn check_reconciled(numbers: &[u32]) -> anyhow::Result<bool>
    ensures { IfOk result (λ holds. IsTrue holds ↔ ReconciledHolds numbers.now) }
{
    let [profile, x, coin, signal, bit] = numbers else {
        bail!(MALFORMED);
    };
    let code = exported_reconcile(u8::try_from(*profile)?, *x, u8::try_from(*coin)?);
    Ok(code == 2 * u64::from(*signal) + u64::from(*bit))
}

fn check_read(numbers: &[u32]) -> anyhow::Result<bool>
    ensures { IfOk result (λ holds. IsTrue holds ↔ ReadHolds numbers.now) }
{
    let [profile, y, signal, bit] = numbers else {
        bail!(MALFORMED);
    };
    let code = exported_read(u8::try_from(*profile)?, *y, u8::try_from(*signal)?);
    Ok(code == u64::from(*bit))
}

/// Whether the vector of a group that the numbers of a line state holds. An error if they are not
/// such a vector.
pub fn check(alloc: Global, group: Group, numbers: &[u32]) -> anyhow::Result<bool>
    ensures { IfOk result (λ holds. holds ≡ true → Holds group numbers.now) }
{
    match group {
        Group::Published | Group::Output => check_output(alloc, numbers),
        Group::Product => check_product(alloc, numbers),
        Group::Derived => check_derived(alloc, numbers),
        Group::Rounded => check_rounded(numbers),
        Group::Reconciled => check_reconciled(numbers),
        Group::Read => check_read(numbers),
    }
}
