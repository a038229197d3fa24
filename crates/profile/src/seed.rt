//! Seeds of elements.

/// How many bytes a seed has, in every profile.
pub const SEED_LENGTH: usize = 16;
