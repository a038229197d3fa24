//! SHAKE128 of FIPS 202, over the permutation Keccak-f[1600].

#![tactic(auto)]

mod output;
mod permutation;
mod sponge;
mod theorems;

pub use output::shake128;
pub use sponge::{RATE, Shake128};
pub use theorems::{output_laws, tables_follow_the_rules};
