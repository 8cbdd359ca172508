//! From spans to values, quoted strings without their escapes (RFC 3501, section 9: quoted).

ghost use Rattle.std.specs.Prelude.{◌≡◌, IfOk, IsOk, true};
ghost use Rattle.imap_grammar.specs.Positions.{named_in};
ghost use Rattle.imap_grammar.specs.Text.{text_of, decoded};
ghost use Rattle.imap_body_types.specs.Spans.{bytes_of};
ghost use Rattle.imap_body_types.specs.BodyValues.{body_seen};
ghost use Rattle.imap_body.specs.AttributeValues.{attribute_value};
ghost use Rattle.imap_body.specs.Unescaped as string;

use crate::attributes::{AttributeSpans, AttributeValue};
use imap_body_types::BodyStructure;
use imap_body_types::maps::change::{BodyChange, Change};
use imap_body_types::shapes::bodies;
use imap_body_types::spans::{Span, SpannedText};
use imap_grammar::text::decode;
use std::alloc::{AllocError, Global};
use std::borrow::{CowSlice, CowStr};

fn is_quoted(m: &[u8], span: Span) -> bool
    ensures { result ≡ string.is_quoted (named_in m.now) span }
{
    let before = Span {
        start: span.start.saturating_sub(1),
        end: span.start,
    };
    match before.part(m).first() {
        Some(b'"') => true,
        _ => false,
    }
}

fn is_escaped(m: &[u8], span: Span) -> bool
    ensures { result ≡ string.is_escaped (named_in m.now) span }
{
    is_quoted(m, span) && span.part(m).contains(&b'\\')
}

// The content of a quoted string without its escapes.
fn unescaped(alloc: Global, content: &[u8]) -> Result<Vec<u8>, AllocError>
    ensures { IfOk result (λ v. v.items ≡ string.unescaped content.now) }
{
    let mut kept = Vec::with_capacity(alloc, content.len())?;
    let mut dropped = false; // Whether the byte before was dropped.
    for b in content {
        dropped = *b == b'\\' && !dropped;
        if !dropped {
            kept.push(*b)?;
        }
    }
    Ok(kept)
}

fn unescaped_bytes<'a>(
    alloc: Global,
    m: &'a [u8],
    span: Span,
) -> Result<CowSlice<'a, u8>, AllocError>
    ensures is { IfOk result (λ t. bytes_of t ≡ string.unescaped_bytes (named_in m.now) span) }
    ensures memory { (string.unescaped_bytes (named_in m.now) span).borrowed ≡ true → IsOk result }
{
    let content = span.part(m);
    if is_escaped(m, span) {
        return Ok(CowSlice::Owned(unescaped(alloc, content)?));
    }
    Ok(CowSlice::Borrowed(content))
}

fn unescaped_text<'a>(alloc: Global, m: &'a [u8], span: Span) -> Result<CowStr<'a>, AllocError>
    ensures is { IfOk result (λ t. text_of t ≡ string.unescaped_string decoded (named_in m.now) span) }
    ensures memory { (string.unescaped_string decoded (named_in m.now) span).borrowed ≡ true →
        IsOk result }
{
    let content = span.part(m);
    if is_escaped(m, span) {
        let content = unescaped(alloc, content)?;
        return Ok(CowStr::Owned(String::from_utf8_lossy(alloc, &content)?));
    }
    decode(alloc, content)
}

// The strings that spans name in a message, quoted ones without their escapes, and the body structures of such strings.
#[derive(Drop)]
struct Unescaping<'a> {
    // Where memory is taken for strings that have an escape, for texts whose bytes are not UTF-8, and for bodies.
    alloc: Global,
    message: &'a [u8],
}

impl<'a> Change<Span> for Unescaping<'a> {
    type To = CowSlice<'a, u8>;

    ghost before = { λ c s. string.unescaped_bytes (named_in c.message.now) s };

    ghost after = { bytes_of };

    fn change(&self, x: &Span) -> Result<CowSlice<'a, u8>, AllocError> {
        unescaped_bytes(self.alloc, self.message, *x)
    }
}

impl<'a> Change<SpannedText> for Unescaping<'a> {
    type To = CowStr<'a>;

    ghost before = { λ c s. string.unescaped_text (named_in c.message.now) s };

    ghost after = { text_of };

    fn change(&self, x: &SpannedText) -> Result<CowStr<'a>, AllocError> {
        match x {
            SpannedText::Part(span) => unescaped_text(self.alloc, self.message, *span),
            SpannedText::Text
            | SpannedText::Message
            | SpannedText::Rfc822
            | SpannedText::Multipart => x.named_in(self.alloc, self.message),
        }
    }
}

impl<'a> BodyChange<Box<bodies::BodyStructure<SpannedText, Span>>> for Unescaping<'a> {
    type To = BodyStructure<'a>;

    ghost before = { λ c b.
        body_seen (string.unescaped_text (named_in c.message.now))
        (string.unescaped_bytes (named_in c.message.now)) b.value };

    ghost after = { body_seen text_of bytes_of };

    fn change_body(
        &self,
        body: &Box<bodies::BodyStructure<SpannedText, Span>>,
    ) -> Result<BodyStructure<'a>, AllocError> {
        let unescaping = Unescaping {
            alloc: self.alloc,
            message: self.message,
        };
        body.try_map(self.alloc, &unescaping, &unescaping)
    }
}

impl AttributeSpans {
    /// The attribute that its spans name in m, each quoted string without its escapes (RFC 3501, section 9: quoted):
    /// a string is quoted where a `"` stands before its span.
    ///
    /// It takes memory as `value` does, and for each quoted string that has a `\`; `Err`: memory ran out.
    pub fn unescaped<'a>(
        &self,
        alloc: Global,
        m: &'a [u8],
    ) -> Result<AttributeValue<'a>, AllocError>
        ensures { IfOk result (λ v. attribute_value v ≡ string.parts_unescaped (named_in m.now) self.now) }
    {
        let unescaping = Unescaping { alloc, message: m };
        self.try_map(alloc, &unescaping, &unescaping, &unescaping)
    }
}
