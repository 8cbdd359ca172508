//! Envelopes and addresses.

ghost use Rattle.imap_body_types.specs.Spans.{bytes_of};
ghost use Rattle.imap_body_types.specs.EnvelopeValues.{AddressValue, address_seen, EnvelopeValue, envelope_seen};
ghost use Rattle.imap_json.specs.Envelopes.{address_json, envelope_json};

use crate::forms::{ToJson, field};
use crate::output::Output;
use imap_body_types::{Address, Envelope};
use std::alloc::AllocError;

impl<'a> ToJson for Address<'a> {
    ghost meaning = { AddressValue };

    ghost said = { address_seen bytes_of };

    ghost json = { address_json };

    fn write(&self, out: &mut Output) -> Result<(), AllocError> {
        out.begin_object()?;
        field(out, "name", &self.name)?;
        field(out, "adl", &self.adl)?;
        field(out, "mailbox", &self.mailbox)?;
        field(out, "host", &self.host)?;
        out.end_object()
    }
}

impl<'a> ToJson for Envelope<'a> {
    ghost meaning = { EnvelopeValue };

    ghost said = { envelope_seen bytes_of };

    ghost json = { envelope_json };

    fn write(&self, out: &mut Output) -> Result<(), AllocError> {
        out.begin_object()?;
        field(out, "date", &self.date)?;
        field(out, "subject", &self.subject)?;
        field(out, "from", &self.from)?;
        field(out, "sender", &self.sender)?;
        field(out, "reply_to", &self.reply_to)?;
        field(out, "to", &self.to)?;
        field(out, "cc", &self.cc)?;
        field(out, "bcc", &self.bcc)?;
        field(out, "in_reply_to", &self.in_reply_to)?;
        field(out, "message_id", &self.message_id)?;
        out.end_object()
    }
}
