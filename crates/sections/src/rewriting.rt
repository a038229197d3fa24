//! Whether the parts of a message give its bytes again.

ghost use Rattle.std.specs.Prelude.{◌≡◌, MatchResult, OnOk};
ghost use Rattle.message.specs.Messages.{encoded};

use crate::failure::Failure;
use message::{Answer, Confirmation, Offer};
use profile::Profile;
use std::alloc::Global;

/// That what was written is what was read.
fn check_same(written: &[u8], message: &[u8]) -> Result<(), Failure>
    ensures { MatchResult result
        (λ _. written.now ≡ message.now)
        (λ _. written.now ≡ message.now → ⊥) }
{
    if written == message {
        Ok(())
    } else {
        Err(Failure::WrittenOtherwise)
    }
}

/// That the message is the offer of these parts.
pub fn rewrite_offer<P: Profile>(
    alloc: Global,
    parts: Offer<'_>,
    message: &[u8],
) -> Result<(), Failure>
    ensures { OnOk result (encoded P.NUMBERS parts.entry ≡ message.now) }
{
    let mut written = vec![in alloc; 0u8; message.len()]?;
    parts.write::<P>(&mut written)?;
    check_same(&written, message)
}

/// That the message is the answer of these parts.
pub fn rewrite_answer<P: Profile>(
    alloc: Global,
    parts: Answer<'_>,
    message: &[u8],
) -> Result<(), Failure>
    ensures { OnOk result (encoded P.NUMBERS parts.entry ≡ message.now) }
{
    let mut written = vec![in alloc; 0u8; message.len()]?;
    parts.write::<P>(&mut written)?;
    check_same(&written, message)
}

/// That the message is the confirmation of this round.
pub fn rewrite_confirmation<P: Profile>(
    alloc: Global,
    parts: Confirmation,
    message: &[u8],
) -> Result<(), Failure>
    ensures { OnOk result (encoded P.NUMBERS parts ≡ message.now) }
{
    let mut written = vec![in alloc; 0u8; message.len()]?;
    parts.write::<P>(&mut written)?;
    check_same(&written, message)
}
