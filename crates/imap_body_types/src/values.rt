//! From spans to values: what they name in a message.

ghost use Rattle.std.specs.Prelude.{◌≡◌, IfOk};
ghost use Rattle.std.specs.Option.{option_map};
ghost use Rattle.imap_grammar.specs.Positions.{named_in};
ghost use Rattle.imap_grammar.specs.Text.{text_of};
ghost use Rattle.imap_body_types.specs.Spans.{bytes_of, bytes_in, text_in};
ghost use Rattle.imap_body_types.specs.EnvelopeValues.{address_seen};
ghost use Rattle.imap_body_types.specs.BodyValues.{body_seen};

use crate::maps::changes::{NamedBytes, NamedTexts};
use crate::shapes;
use crate::spans::{Span, SpannedText};
use crate::types::bodies::BodyStructure;
use crate::types::envelopes::Address;
use std::alloc::{AllocError, Global};
use std::borrow::CowSlice;

// The bytes that a span names in m, if there is one.
fn lent<'a>(m: &'a [u8], bytes: &Option<Span>) -> Option<CowSlice<'a, u8>>
    ensures { option_map bytes_of result ≡ option_map (bytes_in (named_in m.now)) bytes.now }
{
    match bytes {
        None => None,
        Some(span) => Some(CowSlice::Borrowed(span.part(m))),
    }
}

impl shapes::envelopes::Address<Span> {
    /// The address that its spans name in m. No memory.
    pub fn value<'a>(&self, m: &'a [u8]) -> Address<'a>
        ensures { address_seen bytes_of result ≡ address_seen (bytes_in (named_in m.now)) self.now }
    {
        Address {
            name: lent(m, &self.name),
            adl: lent(m, &self.adl),
            mailbox: lent(m, &self.mailbox),
            host: lent(m, &self.host),
        }
    }
}

impl shapes::bodies::BodyStructure<SpannedText, Span> {
    /// The body that its spans name in m. It takes memory for lists and boxes, and for texts that are not UTF-8; `Err`:
    /// memory ran out.
    pub fn value<'a>(&self, alloc: Global, m: &'a [u8]) -> Result<BodyStructure<'a>, AllocError>
        ensures { IfOk result (λ b.
            body_seen text_of bytes_of b
            ≡ body_seen (text_in (named_in m.now)) (bytes_in (named_in m.now)) self.now) }
    {
        self.try_map(
            alloc,
            &NamedTexts { alloc, message: m },
            &NamedBytes { message: m },
        )
    }
}
