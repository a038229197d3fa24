//! Reconcilers: how two ends that hold nearly equal residues agree on a key bit.

#![tactic(auto)]

mod ding;
mod okcn;
mod reconciler;
mod theorems;

pub use ding::Ding;
pub use okcn::Okcn;
pub use reconciler::{Reconciler, ReconcilerNumbers, Tolerance};
pub use theorems::reconcilers_hold_at_every_modulus;
