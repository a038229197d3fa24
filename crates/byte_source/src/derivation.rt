//! The ring element that a seed and a byte source give.

ghost use Rattle.std.specs.Prelude.{◌≡◌, length, OnOk, Err};
ghost use Rattle.ring.specs.Elements.{IsElement};
ghost use Rattle.ring.specs.Faults.{after};
ghost use Rattle.ring.specs.declared.fault.Fault.TheVariants.{WrongLength};
ghost use Rattle.ring.specs.declared.place.TheConstants.{OUTPUT};
ghost use Rattle.byte_source.specs.Derivation.{derived, derive_outcome};
ghost use Rattle.byte_source.specs.Laws.{DeriveMeans};

use crate::sampler::Sampler;
use crate::source::ByteSource;
use profile::{Profile, SEED_LENGTH};
use ring::{Fault, LARGEST_DEGREE, place};

/// Writes the element of the seed: its n coefficients are the first numbers below q that the
/// seed's stream gives. Refuses an output of another length with fault 1, before the source
/// begins, and a stream that gives too few with fault 5.
#[tactic(auto, using(crate::proofs::Laws::outcome_means))]
pub fn derive<P: Profile, S: ByteSource>(
    source: &mut S,
    seed: &[u8; SEED_LENGTH],
    output: &mut [u32],
) -> Result<(), Fault>
    ensures outcome { let bytes = S.expansion source.old seed.now in
        result ≡ derive_outcome P.NUMBERS.n P.NUMBERS.q bytes (length output.old) }
    ensures writes { let bytes = S.expansion source.old seed.now in
        output.new ≡ after result (derived P.NUMBERS.n P.NUMBERS.q bytes) output.old }
    ensures means { let bytes = S.expansion source.old seed.now in
        DeriveMeans P.NUMBERS.n P.NUMBERS.q bytes (length output.old) result }
    ensures element { OnOk result (IsElement P.NUMBERS.n P.NUMBERS.q output.new) }
    ensures same_expansion { S.expansion source.new ≡ S.expansion source.old }
    ensures reads { length output.old ≡ P.NUMBERS.n
        → S.stream source.new ≡ S.expansion source.old seed.now }
    ensures untouched { result ≡ Err (WrongLength OUTPUT) → source.new ≡ source.old }
{
    if output.len() != P::NUMBERS.n {
        return Err(Fault::WrongLength(place::OUTPUT));
    }
    source.begin(seed);
    let mut room = [0; LARGEST_DEGREE];
    Sampler::below(profile::modulus::<P>()).fill_through(source, &mut room, output)
}
