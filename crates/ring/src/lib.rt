//! Residues modulo an odd q, lists below a bound, the faults of the operations on them, and the
//! guard over their scratch.

#![tactic(auto)]

mod degree;
mod fault;
mod first;
mod modulus;
pub mod place;
mod scratch;
mod theorems;

pub use degree::LARGEST_DEGREE;
pub use fault::Fault;
pub use first::first_not_below;
pub use modulus::Modulus;
pub use scratch::ScratchGuard;
pub use theorems::{places_are_numbered, residue_laws};
