//! How a signal divides the residues of a profile between the two key bits.

ghost use Rattle.std.specs.Prelude.{◌≡◌, ◌-◌, ◌^◌};
ghost use Rattle.survey.specs.Surveys.{KeysMeans, keys_outcome};

use profile::Profile;
use ring::Fault;

/// How many residues have a coin's signal with either key bit.
#[derive(Clone, Copy, PartialEq, Eq, Debug)]
pub struct KeyCounts {
    /// With key bit 0.
    pub zeros: u32,
    /// With key bit 1.
    pub ones: u32,
}

/// The largest coin of a profile: the least is 0.
pub fn last_coin<P: Profile>() -> u8
    ensures { result ≡ P.NUMBERS.coins - 1 }
{
    (P::NUMBERS.coins - 1) as u8
}

/// The largest signal of a profile: the least is 0.
pub fn last_signal<P: Profile>() -> u32
    ensures { result ≡ 2 ^ P.NUMBERS.signal_width - 1 }
{
    (1u32 << P::NUMBERS.signal_width) - 1
}

/// How many residues a coin gives this signal with key bit 0, and how many with key bit 1. A
/// signal out of range is refused before a coin out of range.
#[tactic(auto, using(crate::proofs::Measures::count_more))]
pub fn count_keys<P: Profile>(coin: u8, signal: u32) -> Result<KeyCounts, Fault>
    ensures outcome { result ≡ keys_outcome P.NUMBERS P.functions coin signal }
    ensures means { KeysMeans P.NUMBERS P.functions coin signal result }
{
    if signal > last_signal::<P>() {
        return Err(Fault::OutOfRange(0));
    }
    if coin > last_coin::<P>() {
        return Err(Fault::CoinOutOfRange(0));
    }
    let mut counts = KeyCounts { zeros: 0, ones: 0 };
    for x in 0..P::NUMBERS.q {
        match P::reconcile(x, coin)? {
            (of_x, _) if of_x != signal => {}
            (_, 0) => counts.zeros += 1,
            _ => counts.ones += 1,
        }
    }
    Ok(counts)
}
