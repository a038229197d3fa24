//! What a profile is: its numbers, its functions, its laws and its modulus; where a secret of it
//! is held; and where errors and coins are first not lawful.

#![tactic(auto)]

mod bounds;
mod errors_and_coins;
mod memory;
mod moduli;
mod numbers;
mod place;
mod profile;
mod secret;
mod secret_guard;
mod seed;
mod sizes;
mod theorems;

pub use bounds::{Bounds, SecretBounds};
pub use errors_and_coins::{first_coin_not_below, first_error_beyond};
pub use moduli::modulus;
pub use numbers::Numbers;
pub use place::Place;
pub use profile::Profile;
pub use secret::{SecretPlace, fill_refuses_the_first};
pub use secret_guard::SecretGuard;
pub use seed::SEED_LENGTH;
pub use sizes::{first_beyond, first_past};
pub use theorems::functions_refuse_the_first;
