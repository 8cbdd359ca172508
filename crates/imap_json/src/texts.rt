//! Texts, byte strings and characters.

ghost use Rattle.std.specs.Prelude.{◌≡◌, ℕ, string_bytes, IfOk, OnOk};
ghost use Rattle.base64.specs.Engines.{standard};
ghost use Rattle.base64.specs.GeneralPurpose.{encode_of};
ghost use Rattle.imap_grammar.specs.Text.{Bytes, Text, text_of};
ghost use Rattle.imap_body_types.specs.Spans.{bytes_of};
ghost use Rattle.imap_json.specs.Forms.{string_json, Tells};
ghost use Rattle.imap_json.specs.Texts.{text_json, base64_json, raw_json, bytes_json, char_json};

use crate::forms::{ToJson, variant};
use crate::output::Output;
use base64::engine::general_purpose::STANDARD;
use std::alloc::{AllocError, Global};
use std::borrow::{CowSlice, CowStr};

impl ToJson for &str {
    ghost meaning = { Bytes };

    ghost said = { λ s. s.now };

    ghost json = { string_json };

    fn write(&self, out: &mut Output) -> Result<(), AllocError> {
        out.string(*self)
    }
}

impl ToJson for String {
    ghost meaning = { Bytes };

    ghost said = { string_bytes };

    ghost json = { string_json };

    fn write(&self, out: &mut Output) -> Result<(), AllocError> {
        out.string(self.as_str())
    }
}

impl<'a> ToJson for CowStr<'a> {
    ghost meaning = { Text };

    ghost said = { text_of };

    ghost json = { text_json };

    fn write(&self, out: &mut Output) -> Result<(), AllocError> {
        match self {
            CowStr::Borrowed(text) => out.string(*text),
            CowStr::Owned(text) => out.string(text.as_str()),
        }
    }
}

fn in_base64(alloc: Global, bytes: &[u8]) -> Result<String, AllocError>
    ensures { IfOk result (λ text. string_bytes text ≡ encode_of standard bytes.now) }
{
    STANDARD.encode(alloc, bytes)
}

// It takes memory for the base64 beside that of the output.
fn write_base64(bytes: &[u8], out: &mut Output) -> Result<(), AllocError>
    ensures { OnOk result (Tells out.old out.new (base64_json bytes.now)) }
{
    let text = in_base64(out.alloc, bytes)?;
    variant(out, "base64", &text)
}

/// Writes bytes as text where they are UTF-8, and else in base64.
pub(crate) fn write_bytes(bytes: &[u8], out: &mut Output) -> Result<(), AllocError>
    ensures { OnOk result (Tells out.old out.new (raw_json bytes.now)) }
{
    match str::from_utf8(bytes) {
        Ok(text) => out.string(text),
        Err(_) => write_base64(bytes, out),
    }
}

impl<'a> ToJson for CowSlice<'a, u8> {
    ghost meaning = { Text };

    ghost said = { bytes_of };

    ghost json = { bytes_json };

    fn write(&self, out: &mut Output) -> Result<(), AllocError> {
        match self {
            CowSlice::Borrowed(bytes) => write_bytes(*bytes, out),
            CowSlice::Owned(bytes) => write_bytes(bytes, out),
        }
    }
}

impl ToJson for char {
    ghost meaning = { ℕ };

    ghost said = { λ c. c };

    ghost json = { char_json };

    fn write(&self, out: &mut Output) -> Result<(), AllocError> {
        let mut room = [0; 4];
        out.string(self.encode_utf8(&mut room))
    }
}
