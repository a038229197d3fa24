//! The functions that C and Rust can link, through the static library of exports_c: on numbers and
//! slices, for tests and benchmarks. What each gives is a code, as docs/EXPORTS.md has it.

#![tactic(auto)]

mod by_index;
mod codes;
mod derivation;
mod elements;
mod packed;
mod profiles;
mod reading;
mod refusal;
mod theorems;
mod writing;

pub use codes::DONE;
pub use derivation::{exported_derive_shake, exported_derive_tape, exported_shake128};
pub use elements::exported_multiply;
pub use packed::{exported_pack, exported_unpack};
pub use profiles::{exported_read, exported_reconcile, exported_recover, exported_round};
pub use reading::{exported_read_answer, exported_read_confirmation, exported_read_offer};
pub use theorems::codes_tell_outcomes;
pub use writing::{exported_write_answer, exported_write_confirmation, exported_write_offer};
