//! Measures a profile by going through every residue.

#![tactic(auto)]

mod keys;
mod rounding;

pub use keys::{KeyCounts, count_keys, last_coin, last_signal};
pub use rounding::{RoundingSurvey, survey_rounding};
