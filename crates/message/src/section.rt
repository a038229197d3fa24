//! The sections of messages, as they are read.

/// A stretch of the message itself.
#[derive(Clone, Copy)]
pub struct Section<'m> {
    /// where its bytes begin in the message, after their count
    pub offset: usize,
    /// its bytes, in the message's own memory
    pub bytes: &'m [u8],
}

/// The sections of an offer, and the round that its head tells.
#[derive(Clone, Copy)]
pub struct OfferSections<'m> {
    /// from the head
    pub round: u32,
    /// the kind, the profile and the round
    pub head: Section<'m>,
    /// `SEED_LENGTH` bytes
    pub seed: Section<'m>,
    /// n rounded values, packed
    pub values: Section<'m>,
}

/// The sections of an answer, and the round that its head tells.
#[derive(Clone, Copy)]
pub struct AnswerSections<'m> {
    /// from the head
    pub round: u32,
    /// the kind, the profile and the round
    pub head: Section<'m>,
    /// n rounded values, packed
    pub values: Section<'m>,
    /// n signals, packed
    pub signals: Section<'m>,
}

/// The section of a confirmation, and the round that it tells.
#[derive(Clone, Copy)]
pub struct ConfirmationSections<'m> {
    /// from the head
    pub round: u32,
    /// the kind, the profile and the round
    pub head: Section<'m>,
}
