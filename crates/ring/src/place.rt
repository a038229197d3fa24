//! The places of a fault of a wrong length: which argument of a call it is.

/// The left list of a product.
pub const LEFT_LIST: usize = 1;

/// The right list of a product.
pub const RIGHT_LIST: usize = 2;

/// The errors of a call that makes or takes an offer.
pub const ERRORS: usize = 1;

/// The coins of a call that takes an offer.
pub const COINS: usize = 2;

/// The coefficients of a secret.
pub const COEFFICIENTS: usize = 1;

/// The rounded values of a message.
pub const VALUES: usize = 1;

/// The signals of an answer.
pub const SIGNALS: usize = 2;

/// The bytes that are unpacked.
pub const BYTES: usize = 1;

/// Scratch.
pub const SCRATCH: usize = 3;

/// The buffer that is written.
pub const OUTPUT: usize = 4;
