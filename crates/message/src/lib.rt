//! Messages: how offers, answers and confirmations are written from their parts and read back.

#![tactic(auto)]

mod fault;
mod fixed_lengths;
mod head;
mod hexadecimal;
mod kind;
mod lengths;
mod parts;
mod reading;
mod section;
mod section_writing;
mod theorems;
mod widths;
mod writing;

pub use fault::Fault;
pub use fixed_lengths::HEAD_LENGTH;
pub use hexadecimal::hexadecimal_line;
pub use kind::Kind;
pub use lengths::{
    answer_length, confirmation_length, key_length, offer_length, signals_length, values_length,
};
pub use parts::{Answer, Confirmation, Offer};
pub use reading::{read_answer, read_confirmation, read_offer};
pub use section::{AnswerSections, ConfirmationSections, OfferSections, Section};
pub use theorems::message_laws;
pub use widths::{key_width, signals_width, values_width};
