//! What a number set is, and the three that there are.

ghost use Rattle.house.specs.NumberSets.{Admissible, sizes_t, sizes_s, sizes_w};
ghost use Rattle.house.specs.declared.number_set.Sizes.{Sizes};
ghost use Rattle.house.specs.LawProofs.AdmissibleSets.{admissible_t, admissible_s, admissible_w};

/// The numbers of a number set.
#[derive(Clone, Copy, PartialEq, Eq, Debug)]
pub struct Sizes {
    /// the degree: an element is n residues
    pub n: usize,
    /// the modulus
    pub q: u32,
    /// the largest rounded value, 2^w - 1
    pub p: u32,
    /// the bits of a rounded value
    pub w: u32,
    /// the largest size of a secret or error coefficient
    pub e: u32,
    /// the largest sum of sizes over a secret
    pub l: u32,
    /// the largest rounding distance, in steps
    pub rounding: u32,
    /// the byte that names the number set
    pub byte: u8,
}

/// What a house profile has apart from its reconciler.
pub trait NumberSet {
    /// The numbers of the set.
    const SIZES: Sizes;

    // SIZES, as clauses know it
    ghost SIZES: { Sizes };

    // the law: what makes a lawful profile of the set with any reconciler
    ghost admissible: { Admissible SIZES };
}

/// The number set T, small enough to work through by hand.
pub struct T;

impl NumberSet for T {
    const SIZES: Sizes = Sizes {
        n: 4,
        q: 257,
        p: 63,
        w: 6,
        e: 1,
        l: 4,
        rounding: 2,
        byte: 1,
    };

    ghost SIZES = { sizes_t };

    ghost admissible = { admissible_t };
}

/// The number set S, with a small modulus.
pub struct S;

impl NumberSet for S {
    const SIZES: Sizes = Sizes {
        n: 512,
        q: 12289,
        p: 4095,
        w: 12,
        e: 2,
        l: 191,
        rounding: 2,
        byte: 2,
    };

    ghost SIZES = { sizes_s };

    ghost admissible = { admissible_s };
}

/// The number set W, with a wide modulus.
pub struct W;

impl NumberSet for W {
    const SIZES: Sizes = Sizes {
        n: 256,
        q: 8380417,
        p: 16383,
        w: 14,
        e: 7,
        l: 1792,
        rounding: 256,
        byte: 3,
    };

    ghost SIZES = { sizes_w };

    ghost admissible = { admissible_w };
}
