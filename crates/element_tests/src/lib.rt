//! Tests of products, byte sources and derived elements: worked examples, refusals, and values at
//! the edges.

#![tactic(auto)]

#[cfg(test)]
mod derivations;
#[cfg(test)]
mod products;
#[cfg(test)]
mod sources;
