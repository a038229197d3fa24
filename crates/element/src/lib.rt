//! The product of ring elements and its laws.

#![tactic(auto)]

ghost use Rattle.element.specs.ProductLaws.{ProductLaws};

/// 1 is neutral and x^n is -1. The product is linear in each factor and commutative, two factors
/// may be multiplied in either order, its coefficients are bounded, and it carries over to
/// residues, for every n and every q above 0.
pub fn product_laws()
    ensures { ProductLaws }
{}
