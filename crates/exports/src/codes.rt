//! The code of an outcome: how it is told in one number of 64 bits.

ghost use Rattle.std.specs.Prelude.{◌≡◌, ℕ};
ghost use Rattle.exports.specs.Codes.{outcome_code, code_of, pair_number};
ghost use Rattle.exports.specs.Codes.{fault_code, message_fault_code, refusal_code};

use crate::refusal::Refusal;

/// The code where no call can be made: for a profile, a ring, a width or a seed that there is not.
pub(crate) const NO_CALL: u64 = 1 << 63;

/// The code of a call that is accepted and gives no value.
pub const DONE: u64 = 0;

/// The largest place that a code has room for; a larger one is told as this.
const LARGEST_PLACE: u64 = (1 << 56) - 1;

/// What has a code.
pub(crate) trait Coded {
    // the code, as a number
    ghost code: { Self → ℕ };

    /// The code, in 64 bits.
    fn code(self) -> u64
        ensures { result ≡ code self };
}

impl Coded for () {
    ghost code = { λ _. 0 };

    fn code(self) -> u64 {
        DONE
    }
}

impl Coded for u32 {
    ghost code = { λ value. value };

    fn code(self) -> u64 {
        u64::from(self)
    }
}

// A signal and a key bit.
impl Coded for (u32, u32) {
    ghost code = { pair_number };

    fn code(self) -> u64 {
        let (signal, bit) = self;
        2 * u64::from(signal) + u64::from(bit)
    }
}

/// A fault's number, from bit 56 on, and its place below.
fn code_of(number: u8, place: usize) -> u64
    ensures { result ≡ code_of number place }
{
    u64::from(number) * (1 << 56) + (place as u64).min(LARGEST_PLACE)
}

impl Coded for ring::Fault {
    ghost code = { fault_code };

    fn code(self) -> u64 {
        code_of(self.number(), self.place())
    }
}

impl Coded for message::Fault {
    ghost code = { message_fault_code };

    fn code(self) -> u64 {
        code_of(self.number(), self.place())
    }
}

// The fault that was passed up.
impl Coded for Refusal {
    ghost code = { refusal_code };

    fn code(self) -> u64 {
        match self {
            Refusal::Ring(fault) => fault.code(),
            Refusal::Message(fault) => fault.code(),
        }
    }
}

impl<A: Coded, F: Coded> Coded for Result<A, F> {
    ghost code = { outcome_code A.code F.code };

    fn code(self) -> u64 {
        match self {
            Ok(accepted) => accepted.code(),
            Err(fault) => fault.code(),
        }
    }
}
