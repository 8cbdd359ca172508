//! Encodings of bodies.

ghost use Rattle.imap_grammar.specs.Text.{text_of};
ghost use Rattle.imap_body_types.specs.FieldValues.{EncodingValue, encoding_seen};
ghost use Rattle.imap_json.specs.Fields.{encoding_json};

use crate::forms::{ToJson, variant};
use crate::output::Output;
use imap_body_types::ContentEncoding;
use std::alloc::AllocError;

impl<'a> ToJson for ContentEncoding<'a> {
    ghost meaning = { EncodingValue };

    ghost said = { encoding_seen text_of };

    ghost json = { encoding_json };

    fn write(&self, out: &mut Output) -> Result<(), AllocError> {
        match self {
            ContentEncoding::SevenBit => out.string("SevenBit"),
            ContentEncoding::EightBit => out.string("EightBit"),
            ContentEncoding::Binary => out.string("Binary"),
            ContentEncoding::Base64 => out.string("Base64"),
            ContentEncoding::QuotedPrintable => out.string("QuotedPrintable"),
            ContentEncoding::Other(name) => variant(out, "Other", name),
        }
    }
}
