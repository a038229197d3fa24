//! The house profiles: three number sets by two reconcilers, from one text.

#![tactic(auto)]

mod house;
mod number_set;
mod rounding;
mod theorems;

pub use house::House;
pub use number_set::{NumberSet, S, Sizes, T, W};
pub use theorems::{house_profiles, rounding_is_nearest, tie_is_midway, worked_values_hold};
