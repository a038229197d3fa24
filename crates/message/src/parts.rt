//! The parts that messages are written from. Clauses know each as the message that they make up.

ghost use Rattle.message.specs.Messages.{Message, answer, confirmation, offer, round_of};

use profile::SEED_LENGTH;
use std::marker::Model;

/// The parts of an offer.
#[derive(Clone, Drop)]
pub struct Offer<'a> {
    /// the exchange's number
    pub round: u32,
    /// what both sides expand to the common element
    pub seed: &'a [u8; SEED_LENGTH],
    /// n rounded values
    pub values: &'a [u32],
}

impl<'a> Model for Offer<'a> {
    ghost Value = { Message };

    ghost view = { λ o. offer o.round o.seed.now o.values.now };
}

/// The parts of an answer.
#[derive(Clone, Drop)]
pub struct Answer<'a> {
    /// the offer's round
    pub round: u32,
    /// n rounded values
    pub values: &'a [u32],
    /// n signals
    pub signals: &'a [u32],
}

impl<'a> Model for Answer<'a> {
    ghost Value = { Message };

    ghost view = { λ a. answer a.round a.values.now a.signals.now };
}

/// The one part of a confirmation.
#[derive(Clone, Copy)]
pub struct Confirmation {
    /// the answer's round
    pub round: u32,
}

impl Model for Confirmation {
    ghost Value = { Message };

    ghost view = { λ c. confirmation c.round };

    ghost inverse = { λ m. record { round = round_of m } };
}
