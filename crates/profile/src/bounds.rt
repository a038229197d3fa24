//! What a secret is held to.

ghost use Rattle.profile.specs.declared.bounds.Bounds.{Bounds};

/// A secret has n coefficients, each of size at most e, with sizes that add up to at most l.
#[derive(Clone, Copy, PartialEq, Eq, Debug)]
pub struct Bounds {
    /// how many coefficients
    pub n: usize,
    /// the largest size of one
    pub e: u32,
    /// the largest sum of all sizes
    pub l: u32,
}

/// The bounds as a type. A profile states them for its secrets, and a place for these is a place
/// of that profile's type. That they are those of the profile's numbers is a law of `Profile`.
pub trait SecretBounds {
    /// what a secret is held to, and the same as clauses know it
    const BOUNDS: Bounds;

    ghost BOUNDS: { Bounds };
}
