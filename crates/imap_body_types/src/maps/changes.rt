//! The changes of texts: all of them owned, and what spans name in a message.

ghost use Rattle.std.specs.Prelude.{◌≡◌, IfOk, false};
ghost use Rattle.imap_grammar.specs.Positions.{named_in};
ghost use Rattle.imap_grammar.specs.Text.{text_of};
ghost use Rattle.imap_body_types.specs.Spans.{bytes_of, bytes_owned, text_owned, bytes_in, text_in};
ghost use Rattle.imap_body_types.specs.BodyValues.{body_seen};

use super::change::{BodyChange, Change};
use crate::spans::{Span, SpannedText};
use crate::{BodyStructure, shapes};
use std::alloc::{AllocError, Global};
use std::borrow::{CowSlice, CowStr};
use std::marker::PhantomData;

/// The change that makes each text owned. `'b` is the lifetime of the new texts, which borrow nothing.
#[derive(Drop)]
pub struct Owning<'b> {
    /// Where memory is taken for the texts.
    alloc: Global,
    target: PhantomData<&'b u8>,
}

impl<'b> Owning<'b> {
    /// The change that makes each text owned. No memory.
    pub fn new(alloc: Global) -> Owning<'b>
        ensures { result.alloc ≡ alloc }
    {
        Owning {
            alloc,
            target: PhantomData,
        }
    }
}

fn owned_bytes<'b>(alloc: Global, bytes: &[u8]) -> Result<CowSlice<'b, u8>, AllocError>
    ensures { IfOk result (λ t. bytes_of t ≡ record { bytes = bytes.now; borrowed = false }) }
{
    Ok(CowSlice::Owned(Vec::from_slice(alloc, bytes)?))
}

impl<'a, 'b> Change<CowSlice<'a, u8>> for Owning<'b> {
    type To = CowSlice<'b, u8>;

    ghost before = { λ c t. bytes_owned t };

    ghost after = { bytes_of };

    fn change(&self, x: &CowSlice<'a, u8>) -> Result<CowSlice<'b, u8>, AllocError> {
        match x {
            CowSlice::Borrowed(bytes) => owned_bytes(self.alloc, bytes),
            CowSlice::Owned(bytes) => owned_bytes(self.alloc, bytes),
        }
    }
}

impl<'a, 'b> Change<CowStr<'a>> for Owning<'b> {
    type To = CowStr<'b>;

    ghost before = { λ c t. text_owned t };

    ghost after = { text_of };

    fn change(&self, x: &CowStr<'a>) -> Result<CowStr<'b>, AllocError> {
        Ok(CowStr::Owned(String::from_str(self.alloc, x.as_str())?))
    }
}

impl<'a, 'b> BodyChange<BodyStructure<'a>> for Owning<'b> {
    type To = BodyStructure<'b>;

    ghost before = { λ c b. body_seen text_owned bytes_owned b };

    ghost after = { body_seen text_of bytes_of };

    fn change_body(&self, body: &BodyStructure<'a>) -> Result<BodyStructure<'b>, AllocError> {
        let owning = Owning::new(self.alloc);
        body.try_map(self.alloc, &owning, &owning)
    }
}

/// The byte strings that spans name in a message.
#[derive(Drop)]
pub struct NamedBytes<'a> {
    /// The message.
    pub message: &'a [u8],
}

impl<'a> Change<Span> for NamedBytes<'a> {
    type To = CowSlice<'a, u8>;

    ghost before = { λ c s. bytes_in (named_in c.message.now) s };

    ghost after = { bytes_of };

    fn change(&self, x: &Span) -> Result<CowSlice<'a, u8>, AllocError> {
        Ok(CowSlice::Borrowed(x.part(self.message)))
    }
}

/// The texts that spans name in a message, decoded, those that rules fix, and the body structures of such texts.
#[derive(Drop)]
pub struct NamedTexts<'a> {
    /// Where memory is taken for texts whose bytes are not UTF-8, and for bodies.
    pub alloc: Global,
    /// The message.
    pub message: &'a [u8],
}

impl<'a> Change<SpannedText> for NamedTexts<'a> {
    type To = CowStr<'a>;

    ghost before = { λ c s. text_in (named_in c.message.now) s };

    ghost after = { text_of };

    fn change(&self, x: &SpannedText) -> Result<CowStr<'a>, AllocError> {
        x.named_in(self.alloc, self.message)
    }
}

impl<'a> BodyChange<Box<shapes::bodies::BodyStructure<SpannedText, Span>>> for NamedTexts<'a> {
    type To = BodyStructure<'a>;

    ghost before = { λ c b.
        body_seen (text_in (named_in c.message.now)) (bytes_in (named_in c.message.now)) b.value };

    ghost after = { body_seen text_of bytes_of };

    fn change_body(
        &self,
        body: &Box<shapes::bodies::BodyStructure<SpannedText, Span>>,
    ) -> Result<BodyStructure<'a>, AllocError> {
        body.value(self.alloc, self.message)
    }
}
