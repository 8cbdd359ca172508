//! Where a text stands in a message.

ghost use Rattle.std.specs.Prelude.{◌≡◌, IfOk, IsOk, true};
ghost use Rattle.imap_grammar.specs.Positions.{named_in};
ghost use Rattle.imap_grammar.specs.Text.{text_of};
ghost use Rattle.imap_body_types.specs.Spans.{text_in};

pub use imap_bytes::at::span::Span;
use imap_bytes::texts::decode;
use std::alloc::{AllocError, Global};
use std::borrow::CowStr;

/// A text that is decoded from a message, or one that a rule fixes.
#[derive(Clone, Copy, Debug, PartialEq, Eq)]
pub enum SpannedText {
    /// The text whose bytes the span names.
    Part(Span),
    /// `TEXT`
    Text,
    /// `MESSAGE`
    Message,
    /// `RFC822`
    Rfc822,
    /// `MULTIPART`
    Multipart,
}

impl SpannedText {
    /// The text that it names in m, as far as m has its bytes: borrowed where they are UTF-8, and else with one U+FFFD
    /// for each ill-formed part. It takes memory only for bytes that are not UTF-8; `Err`: memory ran out.
    #[inline(always)]
    pub fn named_in<'a>(self, alloc: Global, m: &'a [u8]) -> Result<CowStr<'a>, AllocError>
        ensures is { IfOk result (λ t. text_of t ≡ text_in (named_in m.now) self) }
        ensures memory { (text_in (named_in m.now) self).borrowed ≡ true → IsOk result }
    {
        match self {
            SpannedText::Part(span) => decode(alloc, span.part(m)),
            SpannedText::Text => Ok(CowStr::Borrowed("TEXT")),
            SpannedText::Message => Ok(CowStr::Borrowed("MESSAGE")),
            SpannedText::Rfc822 => Ok(CowStr::Borrowed("RFC822")),
            SpannedText::Multipart => Ok(CowStr::Borrowed("MULTIPART")),
        }
    }
}
