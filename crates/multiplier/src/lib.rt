//! Multiplying ring elements: what a multiplier promises, and two of them.

#![tactic(auto)]

mod factors;
mod in_ring;
mod method;
mod multiplier;
mod quotient;
mod row_sum;
mod rows;
mod schoolbook;
mod theorems;

pub use multiplier::Multiplier;
pub use quotient::QuotientRing;
pub use row_sum::RowSum;
pub use schoolbook::Schoolbook;
pub use theorems::multiply_refuses_the_first;
