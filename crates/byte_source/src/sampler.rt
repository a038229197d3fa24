//! Numbers below q, taken from a source's bytes.

ghost use Rattle.std.specs.Prelude.{◌≡◌, ◌-◌, ◌<◌, ◌≤◌, ◌∷◌, [], length, MatchOption, OnOk};
ghost use Rattle.ring.specs.Faults.{after};
ghost use Rattle.byte_source.specs.Derivation.{bits as bits_of, bytes_for, kept, derived};
ghost use Rattle.byte_source.specs.Derivation.{keep_outcome};
ghost use Rattle.byte_source.specs.Reading.{ahead, KeepsStream};

use crate::bits::{bit_count, low_bits};
use crate::group::next_number;
use crate::source::ByteSource;
use ring::{Fault, Modulus};

/// Reads groups of `bytes` bytes, and keeps the low `bits` bits of each where they are below q.
#[derive(Clone, Copy)]
pub(crate) struct Sampler {
    q: u32,
    bits: u32,
    bytes: u32,
    // below 2, no bit would be needed, and a group would be empty
    ghost least: { 1 < q },
    ghost width: { bits ≡ bits_of (q - 1) },
    // a group has three bytes at most, which a u32 holds
    ghost few: { bits ≤ 23 },
    ghost size: { bytes ≡ bytes_for bits },
}

impl Sampler {
    /// Takes as many bits as q - 1 needs, and as many bytes as these bits need.
    #[tactic(auto, using(crate::proofs::BitCounts::bits_le))]
    pub(crate) fn below(modulus: Modulus) -> Self
        ensures { result.q ≡ modulus }
    {
        let q = modulus.value();
        let bits = bit_count(q - 1);
        Sampler {
            q,
            bits,
            bytes: bits.div_ceil(8),
        }
    }

    /// The next number that is kept, or nothing once the stream is used up.
    fn next<S: ByteSource>(self, source: &mut S) -> Option<u32>
        ensures keeps { KeepsStream S.ByteSource source.old source.new }
        ensures gives { let all = kept self.q (ahead S.ByteSource source.old) in
            MatchOption result (all ≡ [])
            (λ x. all ≡ x ∷ kept self.q (ahead S.ByteSource source.new)) }
    {
        loop {
            let number = low_bits(next_number(source, self.bytes)?, self.bits);
            if number < self.q {
                return Some(number);
            }
        }
    }

    /// Fills `numbers` with the first ones that the bytes ahead give, or says how many they give.
    fn fill<S: ByteSource>(self, source: &mut S, numbers: &mut [u32]) -> Result<(), Fault>
        ensures keeps { KeepsStream S.ByteSource source.old source.new }
        ensures outcome { let all = kept self.q (ahead S.ByteSource source.old) in
            result ≡ keep_outcome (length numbers.old) all }
        ensures fills { let bytes = ahead S.ByteSource source.old in
            OnOk result (numbers.new ≡ derived (length numbers.old) self.q bytes) }
    {
        for (count, number) in numbers.iter_mut().enumerate() {
            *number = self.next(source).ok_or(Fault::SourceSpent(count))?;
        }
        Ok(())
    }

    /// Fills `output` with those numbers, or leaves it as it was. They stand in `room` until all
    /// of them are there.
    pub(crate) fn fill_through<S: ByteSource>(
        self,
        source: &mut S,
        room: &mut [u32],
        output: &mut [u32],
    ) -> Result<(), Fault>
        requires { length output.old ≤ length room.old }
        ensures keeps { KeepsStream S.ByteSource source.old source.new }
        ensures outcome { let all = kept self.q (ahead S.ByteSource source.old) in
            result ≡ keep_outcome (length output.old) all }
        ensures fills { let bytes = ahead S.ByteSource source.old in
            output.new ≡ after result (derived (length output.old) self.q bytes) output.old }
    {
        let numbers = &mut room[..output.len()];
        self.fill(source, numbers)?;
        output.copy_from_slice(numbers);
        Ok(())
    }
}
