//! Attributes of a message.

ghost use Rattle.std.specs.Prelude.{option_map, OnOk};
ghost use Rattle.imap_sections.specs.SectionValues.{path_value};
ghost use Rattle.imap_body_types.specs.Spans.{bytes_of};
ghost use Rattle.imap_body.specs.AttributeValues.{AttributeValue as AttributeSeen, BodySection, attribute_value};
ghost use Rattle.imap_json.specs.Forms.{Tells};
ghost use Rattle.imap_json.specs.Attributes.{attribute_json};

use crate::forms::{ToJson, field, variant};
use crate::output::Output;
use imap_body::AttributeValue;
use imap_body_types::Envelope;
use imap_sections::SectionPath;
use std::alloc::AllocError;
use std::borrow::CowSlice;

fn write_section(
    section: &Option<SectionPath>,
    index: &Option<u32>,
    contents: &Option<CowSlice<'_, u8>>,
    out: &mut Output,
) -> Result<(), AllocError>
    ensures { OnOk result (Tells out.old out.new (attribute_json
        (BodySection (option_map path_value section.now) index.now
        (option_map bytes_of contents.now)))) }
{
    out.begin_object()?;
    out.key("BodySection")?;
    out.begin_object()?;
    field(out, "section", section)?;
    field(out, "index", index)?;
    field(out, "contents", contents)?;
    out.end_object()?;
    out.end_object()
}

impl<'a> ToJson for AttributeValue<'a> {
    ghost meaning = { AttributeSeen };

    ghost said = { attribute_value };

    ghost json = { attribute_json };

    fn write(&self, out: &mut Output) -> Result<(), AllocError> {
        match self {
            AttributeValue::BodySection {
                section,
                index,
                contents,
            } => write_section(section, index, contents, out),
            AttributeValue::BodyStructure(body) => variant(out, "BodyStructure", body),
            AttributeValue::Envelope(envelope) => {
                let envelope: &Envelope<'_> = envelope;
                variant(out, "Envelope", envelope)
            }
            AttributeValue::Flags(flags) => variant(out, "Flags", flags),
            AttributeValue::InternalDate(date) => variant(out, "InternalDate", date),
            AttributeValue::ModSeq(n) => variant(out, "ModSeq", n),
            AttributeValue::Rfc822(message) => variant(out, "Rfc822", message),
            AttributeValue::Rfc822Header(header) => variant(out, "Rfc822Header", header),
            AttributeValue::Rfc822Size(n) => variant(out, "Rfc822Size", n),
            AttributeValue::Rfc822Text(text) => variant(out, "Rfc822Text", text),
            AttributeValue::Uid(uid) => variant(out, "Uid", uid),
            AttributeValue::GmailLabels(labels) => variant(out, "GmailLabels", labels),
            AttributeValue::GmailMsgId(n) => variant(out, "GmailMsgId", n),
            AttributeValue::GmailThrId(n) => variant(out, "GmailThrId", n),
            AttributeValue::EmailId(id) => variant(out, "EmailId", id),
            AttributeValue::ThreadId(id) => variant(out, "ThreadId", id),
            AttributeValue::SaveDate(date) => variant(out, "SaveDate", date),
            AttributeValue::Unknown => out.string("Unknown"),
        }
    }
}
