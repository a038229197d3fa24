//! The numbers that a profile states.

/// By their names in docs/PROFILES.md. What they are held to is `InRange`, a part of what makes a
/// profile lawful.
#[derive(Clone, Copy, PartialEq, Eq, Debug)]
pub struct Numbers {
    /// the degree: an element is n residues
    pub n: usize,
    /// the modulus
    pub q: u32,
    /// the largest rounded value, 2^w - 1
    pub p: u32,
    /// the bits of a rounded value
    pub w: u32,
    /// the largest size of a secret or error coefficient
    pub e: u32,
    /// the largest sum of sizes over a secret
    pub l: u32,
    /// what errors and rounding distances are multiples of
    pub step: u32,
    /// the largest rounding distance
    pub r: u32,
    /// the largest difference that the reconciler tolerates
    pub tau: u32,
    /// how many coins there are
    pub coins: u32,
    /// the bits of a signal
    pub signal_width: u32,
    /// the byte of a message's head that stands for the numbers
    pub numbers_byte: u8,
    /// the byte of a message's head that stands for the reconciler
    pub reconciler_byte: u8,
}
