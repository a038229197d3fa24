//! The degree of a ring.

/// The largest degree, the number of an element's coefficients, that a ring may have.
pub const LARGEST_DEGREE: usize = 1024;
