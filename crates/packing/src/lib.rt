//! Packing: numbers of 1 to 16 bits, one after another in bytes, low bit first.

#![tactic(auto)]

mod fields;
mod pack;
mod theorems;
mod unpack;
mod width;

pub use fields::Fields;
pub use theorems::{packing_is_lawful, packing_refuses_the_first};
pub use width::Width;
