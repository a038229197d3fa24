//! Writing messages from their parts.

ghost use Rattle.std.specs.Prelude.{◌≡◌, Ok, OnOk, length};
ghost use Rattle.ring.specs.Faults.{after};
ghost use Rattle.message.specs.Messages.{encoded};
ghost use Rattle.message.specs.Reading.{reading};
ghost use Rattle.message.specs.Writing.{write_outcome};
ghost use Rattle.message.specs.WritingLaws.{WriteMeans};
ghost use Rattle.message.specs.declared.kind.Kind.TheVariants.{Offer as OfferKind};
ghost use Rattle.message.specs.declared.kind.Kind.TheVariants.{Answer as AnswerKind};
ghost use Rattle.message.specs.declared.kind.Kind.TheVariants.{Confirmation as ConfirmationKind};

use crate::head::head;
use crate::kind::Kind;
use crate::lengths::{
    answer_length, confirmation_length, offer_length, signals_length, values_length,
};
use crate::parts::{Answer, Confirmation, Offer};
use crate::section_writing::{pack_section, write_section};
use crate::widths::{signals_width, values_width};
use packing::Fields;
use profile::Profile;
use ring::{Fault, place};

impl Offer<'_> {
    /// Writes the offer of these parts into `out`, or leaves it as it was.
    pub fn write<P: Profile>(self, out: &mut [u8]) -> Result<(), Fault>
        ensures outcome { result ≡ write_outcome P.NUMBERS self.entry (length out.old) }
        ensures means { WriteMeans P.NUMBERS self.entry (length out.old) result }
        ensures writes { out.new ≡ after result (encoded P.NUMBERS self.entry) out.old }
        ensures reads_back { OnOk result (reading P.NUMBERS OfferKind out.new ≡ Ok self.entry) }
    {
        let Offer {
            round,
            seed,
            values,
        } = self;
        if values.len() != P::NUMBERS.n {
            return Err(Fault::WrongLength(place::VALUES));
        }
        if out.len() != offer_length::<P>() {
            return Err(Fault::WrongLength(place::OUTPUT));
        }
        let values = Fields::check(values_width::<P>(), values).map_err(Fault::OutOfRange)?;
        let at = write_section(out, 0, &head::<P>(Kind::Offer, round));
        let at = write_section(out, at, seed);
        pack_section(out, at, values_length::<P>(), values);
        Ok(())
    }
}

impl Answer<'_> {
    /// Writes the answer of these parts into `out`, or leaves it as it was.
    pub fn write<P: Profile>(self, out: &mut [u8]) -> Result<(), Fault>
        ensures outcome { result ≡ write_outcome P.NUMBERS self.entry (length out.old) }
        ensures means { WriteMeans P.NUMBERS self.entry (length out.old) result }
        ensures writes { out.new ≡ after result (encoded P.NUMBERS self.entry) out.old }
        ensures reads_back { OnOk result (reading P.NUMBERS AnswerKind out.new ≡ Ok self.entry) }
    {
        let Answer {
            round,
            values,
            signals,
        } = self;
        let n = P::NUMBERS.n;
        if values.len() != n {
            return Err(Fault::WrongLength(place::VALUES));
        }
        if signals.len() != n {
            return Err(Fault::WrongLength(place::SIGNALS));
        }
        if out.len() != answer_length::<P>() {
            return Err(Fault::WrongLength(place::OUTPUT));
        }
        let values = Fields::check(values_width::<P>(), values).map_err(Fault::OutOfRange)?;
        let width = signals_width::<P>();
        let signals = Fields::check(width, signals).map_err(|i| Fault::OutOfRange(n + i))?;
        let at = write_section(out, 0, &head::<P>(Kind::Answer, round));
        let at = pack_section(out, at, values_length::<P>(), values);
        pack_section(out, at, signals_length::<P>(), signals);
        Ok(())
    }
}

impl Confirmation {
    /// Writes the confirmation of this round into `out`, or leaves it as it was.
    pub fn write<P: Profile>(self, out: &mut [u8]) -> Result<(), Fault>
        ensures outcome { result ≡ write_outcome P.NUMBERS self (length out.old) }
        ensures means { WriteMeans P.NUMBERS self (length out.old) result }
        ensures writes { out.new ≡ after result (encoded P.NUMBERS self) out.old }
        ensures reads_back { OnOk result (reading P.NUMBERS ConfirmationKind out.new ≡ Ok self) }
    {
        if out.len() != confirmation_length() {
            return Err(Fault::WrongLength(place::OUTPUT));
        }
        write_section(out, 0, &head::<P>(Kind::Confirmation, self.round));
        Ok(())
    }
}
