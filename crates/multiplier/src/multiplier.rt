//! What a multiplier is to generic code.

ghost use Rattle.std.specs.Prelude.{◌≡◌, ℕ, length, OnOk};
ghost use Rattle.element.specs.Products.{product};
ghost use Rattle.ring.specs.Elements.{IsElement};
ghost use Rattle.ring.specs.Faults.{after};
ghost use Rattle.ring.specs.Scratch.{zeroed};
ghost use Rattle.multiplier.specs.Multipliers.{InRange, MultiplyMeans, multiply_outcome};

use ring::Fault;

/// Multiplies elements of one ring.
pub trait Multiplier: Drop {
    // the degree of the ring
    ghost n: { Self → ℕ };

    // the modulus of the ring
    ghost q: { Self → ℕ };

    // how many words of scratch a product needs
    ghost need: { Self → ℕ };

    /// The degree n of the ring, which is how many coefficients an element has.
    fn degree(&self) -> usize
        ensures { result ≡ n self.now };

    /// The modulus q of the ring, below which the coefficients are.
    fn modulus(&self) -> u32
        ensures { result ≡ q self.now };

    /// How many words of scratch a product needs, at most 65536.
    fn scratch_words(&self) -> usize
        ensures { result ≡ need self.now };

    /// Writes the product of two elements, coefficient 0 first, or refuses and leaves the output
    /// as it was. Scratch may be longer than the need; all of it is zero afterwards.
    fn multiply(
        &mut self,
        left: &[u32],
        right: &[u32],
        scratch: &mut [u32],
        output: &mut [u32],
    ) -> Result<(), Fault>
        ensures outcome { result
            ≡ multiply_outcome (n self.old) (q self.old) (need self.old)
            left.now right.now (length scratch.old) (length output.old) }
        ensures means { MultiplyMeans (n self.old) (q self.old) (need self.old)
            left.now right.now (length scratch.old) (length output.old) result }
        ensures writes { output.new
            ≡ after result (product (n self.old) (q self.old) left.now right.now) output.old }
        ensures element { OnOk result (IsElement (n self.old) (q self.old) output.new) }
        ensures clears { scratch.new ≡ zeroed scratch.old }
        ensures same_degree { n self.new ≡ n self.old }
        ensures same_modulus { q self.new ≡ q self.old }
        ensures same_need { need self.new ≡ need self.old };

    // there is such a ring, and the need is at most 65536 words
    ghost lawful: { (m : Self) → InRange (n m) (q m) (need m) };
}
