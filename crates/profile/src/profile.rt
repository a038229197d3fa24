//! What a profile is to generic code.

ghost use Rattle.std.specs.Prelude.{◌≡◌};
ghost use Rattle.profile.specs.Outcomes.{round_outcome, recover_outcome};
ghost use Rattle.profile.specs.Outcomes.{reconcile_outcome, read_outcome};
ghost use Rattle.profile.specs.Laws.{Functions, Lawful};
ghost use Rattle.profile.specs.Secrets.{bounds_of};
ghost use Rattle.profile.specs.declared.numbers.Numbers.{Numbers};

use crate::numbers::Numbers;
use crate::secret::SecretPlace;
use ring::Fault;

/// One choice of numbers with one reconciler. Generic code goes by the laws, and never by which
/// profile it is.
pub trait Profile {
    /// Where a secret of this profile, and of no other, is held.
    type Secret: SecretPlace<Profile = Self>;

    /// The numbers that the profile states, and the same as clauses know them.
    const NUMBERS: Numbers;

    ghost NUMBERS: { Numbers };

    // what rounding, recovering, reconciling and reading are
    ghost functions: { Functions };

    /// The rounded value of a residue.
    fn round(x: u32) -> Result<u32, Fault>
        ensures { result ≡ round_outcome NUMBERS functions x };

    /// The integer that a rounded value stands for, before it is reduced modulo q.
    fn recover(y: u32) -> Result<u32, Fault>
        ensures { result ≡ recover_outcome NUMBERS functions y };

    /// The signal and the key bit of a residue and a coin.
    fn reconcile(x: u32, coin: u8) -> Result<(u32, u32), Fault>
        ensures { result ≡ reconcile_outcome NUMBERS functions x coin };

    /// The key bit that a residue and the other end's signal give.
    fn read(y: u32, signal: u32) -> Result<u32, Fault>
        ensures { result ≡ read_outcome NUMBERS functions y signal };

    // the side conditions and the four laws
    ghost lawful: { Lawful NUMBERS functions };

    // a secret of the profile is held to the profile's own numbers
    ghost secret_bounds: { Self.Secret.bounds ≡ bounds_of NUMBERS };
}
