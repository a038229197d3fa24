//! Why an operation on ring elements refuses.

ghost use Rattle.std.specs.Prelude.{◌≡◌};

/// Each case holds the place of the fault: which argument it is for a length (see `place`), an
/// index for a number of a list, a count for a source. `layer`, `number` and `place` are what is
/// reported of it.
#[derive(Clone, Copy, PartialEq, Eq, Debug)]
pub enum Fault {
    /// a list or a buffer of the wrong length
    WrongLength(usize),
    /// a number out of its range
    OutOfRange(usize),
    /// the running sum of sizes passes its limit
    SumTooLarge(usize),
    /// a coin out of range
    CoinOutOfRange(usize),
    /// the byte source is used up
    SourceSpent(usize),
}

impl Fault {
    ghost use Rattle.ring.specs.Faults.{report};

    /// The layer that gives the fault: 1, the ring.
    pub fn layer(self) -> u8
        ensures { result ≡ (report self).layer }
    {
        1
    }

    /// The fault's number, from 1 to 5.
    pub fn number(self) -> u8
        ensures { result ≡ (report self).number }
    {
        match self {
            Fault::WrongLength(_) => 1,
            Fault::OutOfRange(_) => 2,
            Fault::SumTooLarge(_) => 3,
            Fault::CoinOutOfRange(_) => 4,
            Fault::SourceSpent(_) => 5,
        }
    }

    /// An argument, an index or a count, as the case says.
    pub fn place(self) -> usize
        ensures { result ≡ (report self).place }
    {
        match self {
            Fault::WrongLength(place)
            | Fault::OutOfRange(place)
            | Fault::SumTooLarge(place)
            | Fault::CoinOutOfRange(place)
            | Fault::SourceSpent(place) => place,
        }
    }
}
