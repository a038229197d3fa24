//! The kinds of messages.

ghost use Rattle.std.specs.Prelude.{◌≡◌};
ghost use Rattle.message.specs.Messages.{kind_byte};

/// The three messages of an exchange.
#[derive(Clone, Copy, PartialEq, Eq, Debug)]
pub enum Kind {
    /// from the side that begins, with its seed and its rounded values
    Offer,
    /// to an offer, with rounded values and signals
    Answer,
    /// to an answer
    Confirmation,
}

impl Kind {
    /// The first byte of the head.
    pub fn byte(self) -> u8
        ensures { result ≡ kind_byte self }
    {
        match self {
            Kind::Offer => 1,
            Kind::Answer => 2,
            Kind::Confirmation => 3,
        }
    }
}
