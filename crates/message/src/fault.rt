//! Why a message is refused.

ghost use Rattle.std.specs.Prelude.{◌≡◌};

/// Each case holds the place of the fault, an offset in the message. `layer`, `number` and `place`
/// are what is reported of it.
#[derive(Clone, Copy, PartialEq, Eq, Debug)]
pub enum Fault {
    /// a count that is missing or wrong, contents that are cut short, or bytes after the last
    /// section
    WrongShape(usize),
    /// a byte of the head that is not that of the kind or of the profile
    WrongHead(usize),
    /// a byte with a spare bit set
    SpareBit(usize),
}

impl Fault {
    ghost use Rattle.message.specs.Faults.{report};

    /// The layer that gives the fault: 2, messages.
    pub fn layer(self) -> u8
        ensures { result ≡ (report self).layer }
    {
        2
    }

    /// The fault's number, from 7 to 9: those below are the ring's.
    pub fn number(self) -> u8
        ensures { result ≡ (report self).number }
    {
        match self {
            Fault::WrongShape(_) => 7,
            Fault::WrongHead(_) => 8,
            Fault::SpareBit(_) => 9,
        }
    }

    /// The offset in the message.
    pub fn place(self) -> usize
        ensures { result ≡ (report self).place }
    {
        match self {
            Fault::WrongShape(place) | Fault::WrongHead(place) | Fault::SpareBit(place) => place,
        }
    }
}
