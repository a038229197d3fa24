//! A method of multiplication.

ghost use Rattle.std.specs.Prelude.{◌≡◌, ℕ, ◌*◌, ◌≤◌, length};
ghost use Rattle.multiplier.specs.Methods.{product_of, size_of};

use crate::factors::Factors;

/// How the product of two accepted lists is found.
pub trait Method {
    // how many words of scratch it needs for each coefficient
    ghost WORDS: { ℕ };

    /// How many words of scratch it needs for each coefficient.
    const WORDS: usize;

    /// Writes the product, whatever the words and the output held before.
    fn write_product(factors: Factors<'_>, words: &mut [u32], output: &mut [u32])
        requires words_long { length words.old ≡ WORDS * size_of factors }
        requires output_long { length output.old ≡ size_of factors }
        ensures { output.new ≡ product_of factors.entry };

    // for n of at most 1024 the need is then at most 65536 words
    ghost few: { WORDS ≤ 64 };
}
