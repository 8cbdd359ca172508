//! Structures of bodies.

ghost use Rattle.std.specs.Prelude.{map, option_map, OnOk};
ghost use Rattle.imap_grammar.specs.Text.{text_of};
ghost use Rattle.imap_body_types.specs.Spans.{bytes_of};
ghost use Rattle.imap_body_types.specs.BodyValues.{TypeValue, type_seen, CommonValue, common_seen, SingleValue};
ghost use Rattle.imap_body_types.specs.BodyValues.{single_seen, BodyValue, Basic, TextBody, body_seen};
ghost use Rattle.imap_body_types.specs.EnvelopeValues.{envelope_seen};
ghost use Rattle.imap_body_types.specs.ExtensionValues.{extension_seen};
ghost use Rattle.imap_json.specs.Forms.{Appends, Tells, items_front};
ghost use Rattle.imap_json.specs.Bodies.{type_json, common_json, single_json, body_json, message_begun, message_ended};
ghost use Rattle.imap_json.specs.Bodies.{multipart_begun, multipart_ended};

use crate::forms::{ToJson, field};
use crate::output::Output;
use imap_body_types::{
    BodyContentCommon, BodyContentSinglePart, BodyExtension, BodyStructure, ContentType, Envelope,
};
use std::alloc::AllocError;

impl<'a> ToJson for ContentType<'a> {
    ghost meaning = { TypeValue };

    ghost said = { type_seen text_of };

    ghost json = { type_json };

    fn write(&self, out: &mut Output) -> Result<(), AllocError> {
        out.begin_object()?;
        field(out, "ty", &self.ty)?;
        field(out, "subtype", &self.subtype)?;
        field(out, "params", &self.params)?;
        out.end_object()
    }
}

impl<'a> ToJson for BodyContentCommon<'a> {
    ghost meaning = { CommonValue };

    ghost said = { common_seen text_of };

    ghost json = { common_json };

    fn write(&self, out: &mut Output) -> Result<(), AllocError> {
        out.begin_object()?;
        field(out, "ty", &self.ty)?;
        field(out, "disposition", &self.disposition)?;
        field(out, "language", &self.language)?;
        field(out, "location", &self.location)?;
        out.end_object()
    }
}

impl<'a> ToJson for BodyContentSinglePart<'a> {
    ghost meaning = { SingleValue };

    ghost said = { single_seen text_of };

    ghost json = { single_json };

    fn write(&self, out: &mut Output) -> Result<(), AllocError> {
        out.begin_object()?;
        field(out, "id", &self.id)?;
        field(out, "md5", &self.md5)?;
        field(out, "description", &self.description)?;
        field(out, "transfer_encoding", &self.transfer_encoding)?;
        field(out, "octets", &self.octets)?;
        out.end_object()
    }
}

fn write_basic(
    common: &BodyContentCommon<'_>,
    other: &BodyContentSinglePart<'_>,
    extension: &Option<BodyExtension<'_>>,
    out: &mut Output,
) -> Result<(), AllocError>
    ensures { OnOk result (Tells out.old out.new (body_json
        (Basic (common_seen text_of common.now) (single_seen text_of other.now)
        (option_map (extension_seen text_of) extension.now)))) }
{
    out.begin_object()?;
    out.key("Basic")?;
    out.begin_object()?;
    field(out, "common", common)?;
    field(out, "other", other)?;
    field(out, "extension", extension)?;
    out.end_object()?;
    out.end_object()
}

fn write_text(
    common: &BodyContentCommon<'_>,
    other: &BodyContentSinglePart<'_>,
    lines: &u32,
    extension: &Option<BodyExtension<'_>>,
    out: &mut Output,
) -> Result<(), AllocError>
    ensures { OnOk result (Tells out.old out.new (body_json
        (TextBody (common_seen text_of common.now) (single_seen text_of other.now) lines.now
        (option_map (extension_seen text_of) extension.now)))) }
{
    out.begin_object()?;
    out.key("Text")?;
    out.begin_object()?;
    field(out, "common", common)?;
    field(out, "other", other)?;
    field(out, "lines", lines)?;
    field(out, "extension", extension)?;
    out.end_object()?;
    out.end_object()
}

// Of a message, what stands before its body.
fn begin_message(
    common: &BodyContentCommon<'_>,
    other: &BodyContentSinglePart<'_>,
    envelope: &Envelope<'_>,
    out: &mut Output,
) -> Result<(), AllocError>
    ensures { OnOk result (Appends out.old out.new
        (message_begun (common_seen text_of common.now) (single_seen text_of other.now)
        (envelope_seen bytes_of envelope.now))) }
{
    out.begin_object()?;
    out.key("Message")?;
    out.begin_object()?;
    field(out, "common", common)?;
    field(out, "other", other)?;
    field(out, "envelope", envelope)?;
    out.key("body")
}

// And behind it.
fn end_message(
    lines: &u32,
    extension: &Option<BodyExtension<'_>>,
    out: &mut Output,
) -> Result<(), AllocError>
    ensures { OnOk result (Appends out.old out.new
        (message_ended lines.now (option_map (extension_seen text_of) extension.now))) }
{
    field(out, "lines", lines)?;
    field(out, "extension", extension)?;
    out.end_object()?;
    out.end_object()
}

// Of a multipart, what stands before its parts.
fn begin_multipart(common: &BodyContentCommon<'_>, out: &mut Output) -> Result<(), AllocError>
    ensures { OnOk result (Appends out.old out.new
        (multipart_begun (common_seen text_of common.now))) }
{
    out.begin_object()?;
    out.key("Multipart")?;
    out.begin_object()?;
    field(out, "common", common)?;
    out.key("bodies")?;
    out.begin_array()
}

// And behind them.
fn end_multipart(extension: &Option<BodyExtension<'_>>, out: &mut Output) -> Result<(), AllocError>
    ensures { OnOk result (Appends out.old out.new
        (multipart_ended (option_map (extension_seen text_of) extension.now))) }
{
    out.end_array()?;
    field(out, "extension", extension)?;
    out.end_object()?;
    out.end_object()
}

#[cycle(body)]
fn write_body(body: &BodyStructure<'_>, out: &mut Output) -> Result<(), AllocError>
    ensures { OnOk result
        (Tells out.old out.new (body_json (body_seen text_of bytes_of body.now))) }
{
    match body {
        BodyStructure::Basic {
            common,
            other,
            extension,
        } => write_basic(common, other, extension, out),
        BodyStructure::Text {
            common,
            other,
            lines,
            extension,
        } => write_text(common, other, lines, extension, out),
        BodyStructure::Message {
            common,
            other,
            envelope,
            body,
            lines,
            extension,
        } => {
            begin_message(common, other, envelope, out)?;
            write_body(body, out)?;
            end_message(lines, extension, out)
        }
        BodyStructure::Multipart {
            common,
            bodies,
            extension,
        } => {
            begin_multipart(common, out)?;
            write_bodies(bodies, out)?;
            end_multipart(extension, out)
        }
    }
}

#[cycle(body)]
fn write_bodies(bodies: &Vec<BodyStructure<'_>>, out: &mut Output) -> Result<(), AllocError>
    ensures { OnOk result (Appends out.old out.new
        (items_front (map body_json (map (body_seen text_of bytes_of) bodies.now.items)))) }
{
    for body in bodies {
        write_body(body, out)?;
    }
    Ok(())
}

impl<'a> ToJson for BodyStructure<'a> {
    ghost meaning = { BodyValue };

    ghost said = { body_seen text_of bytes_of };

    ghost json = { body_json };

    fn write(&self, out: &mut Output) -> Result<(), AllocError> {
        write_body(self, out)
    }
}
