//! The lengths of counts and heads, which are the same in every profile; that of a seed is
//! `profile::SEED_LENGTH`.

/// How many bytes the count takes that each section has before its bytes.
pub(crate) const COUNT_LENGTH: usize = 2;

/// How many bytes a message's head has, without their count.
pub const HEAD_LENGTH: usize = 7;
