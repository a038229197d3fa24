//! Why a message that is handed in is refused.

ghost use Rattle.std.specs.Prelude.{◌≡◌};
ghost use Rattle.exports.specs.declared.refusal.Refusal.TheVariants.{Ring, Message};

/// A fault of either layer, passed up whole.
#[derive(Clone, Copy, PartialEq, Eq, Debug)]
pub(crate) enum Refusal {
    Ring(ring::Fault),
    Message(message::Fault),
}

impl From<ring::Fault> for Refusal {
    ghost from_gives = { λ fault refusal. refusal ≡ Ring fault };

    fn from(fault: ring::Fault) -> Self {
        Refusal::Ring(fault)
    }
}

impl From<message::Fault> for Refusal {
    ghost from_gives = { λ fault refusal. refusal ≡ Message fault };

    fn from(fault: message::Fault) -> Self {
        Refusal::Message(fault)
    }
}
