//! Calls by a profile.

use crate::reading::{show_bytes, show_cuts, show_read};
use crate::words::{edited, kind};
use crate::writing::{show_answer, show_confirmation, show_offer};
use anyhow::bail;
use house::{House, S, T, W};
use profile::Profile;
use reconcile::{Ding, Okcn, Reconciler};

/// A message is written, or one is read with edits.
fn call_by<P: Profile>(
    rt: &(impl Print + AllocGlobal),
    message: &[u8],
    words: &[&str],
) -> anyhow::Result<()> {
    let alloc = rt.alloc();
    match words {
        ["offer", round, seed, values, room] => {
            show_offer::<P>(rt, round.parse()?, seed, values, room.parse()?)
        }
        ["answer", round, values, signals, room] => {
            show_answer::<P>(rt, round.parse()?, values, signals, room.parse()?)
        }
        ["confirmation", round, room] => {
            show_confirmation::<P>(rt, round.parse()?, room.parse()?)
        }
        ["read", word, edits @ ..] => {
            show_read::<P>(rt, kind(word)?, &edited(alloc, message, edits)?)
        }
        ["cuts", word, edits @ ..] => {
            show_cuts::<P>(rt, kind(word)?, &edited(alloc, message, edits)?)
        }
        ["bytes", word, offset, edits @ ..] => {
            let message = edited(alloc, message, edits)?;
            show_bytes::<P>(rt, kind(word)?, message, offset.parse()?)
        }
        _ => bail!("no call"),
    }
}

/// The same by the house profile of that name.
pub fn call(
    rt: &(impl Print + AllocGlobal),
    profile: &str,
    message: &[u8],
    words: &[&str],
) -> anyhow::Result<()> {
    match profile {
        "T-Ding" => call_by::<House<T, Ding>>(rt, message, words),
        "T-OKCN" => call_by::<House<T, Okcn>>(rt, message, words),
        "S-Ding" => call_by::<House<S, Ding>>(rt, message, words),
        "S-OKCN" => call_by::<House<S, Okcn>>(rt, message, words),
        "W-Ding" => call_by::<House<W, Ding>>(rt, message, words),
        "W-OKCN" => call_by::<House<W, Okcn>>(rt, message, words),
        _ => bail!("no profile"),
    }
}
