//! What is kept of a string.

ghost use Rattle.std.specs.Prelude.{◌≡◌, ◌≤◌, length, IfOk};
ghost use Rattle.imap_grammar.specs.Text.{Bytes, Text, text_of};
ghost use Rattle.imap_body_types.specs.Spans.{Lookup, bytes_of, bytes_in, text_in};
ghost use Rattle.imap_envelopes.specs.Keeping.{IsKeptOf};

use imap_body_types::spans::{Span, SpannedText};
use std::alloc::{AllocError, Global};
use std::borrow::{CowSlice, CowStr};

/// What a reader keeps of the strings that it finds in a message, so that one reader serves for positions and for
/// values.
pub trait Keep: Drop {
    /// What is kept of a byte string.
    type Bytes: Drop;
    /// What is kept of a text.
    type Text: Drop;

    /// It keeps strings of this message.
    ghost serves: { Self → Bytes → Type 0 };

    /// What a byte string that is kept says, where spans are looked up so.
    ghost bytes_said: { Lookup → Self.Bytes → Text };

    /// What a text that is kept says, where spans are looked up so.
    ghost text_said: { Lookup → Self.Text → Text };

    /// Keeps a byte string. No memory.
    fn bytes(&self, m: &[u8], span: Span) -> Self::Bytes
        requires serves { serves self.now m.now }
        requires ordered { span.start ≤ span.end }
        requires within { span.end ≤ length m.now }
        ensures { IsKeptOf bytes_in bytes_said m.now span result };

    /// Keeps a text. It may take memory; `Err`: memory ran out.
    fn text(&self, m: &[u8], text: SpannedText) -> Result<Self::Text, AllocError>
        requires { serves self.now m.now }
        ensures { IfOk result (IsKeptOf text_in text_said m.now text) };
}

/// Keeps the position of each string, to be looked up in any message.
#[derive(Drop)]
pub struct Positions;

impl Keep for Positions {
    type Bytes = Span;

    type Text = SpannedText;

    ghost serves = { λ k m. Unit {0} };

    ghost bytes_said = { bytes_in };

    ghost text_said = { text_in };

    fn bytes(&self, _m: &[u8], span: Span) -> Span {
        span
    }

    fn text(&self, _m: &[u8], text: SpannedText) -> Result<SpannedText, AllocError> {
        Ok(text)
    }
}

/// Keeps what each string is in the message that is read: byte strings borrowed, and texts borrowed where their bytes
/// are UTF-8.
#[derive(Drop)]
pub struct Values<'a> {
    /// Where memory is taken for texts whose bytes are not UTF-8.
    pub alloc: Global,
    /// The message that is read.
    pub message: &'a [u8],
}

impl<'a> Keep for Values<'a> {
    type Bytes = CowSlice<'a, u8>;

    type Text = CowStr<'a>;

    ghost serves = { λ k m. k.message.now ≡ m };

    ghost bytes_said = { λ n t. bytes_of t };

    ghost text_said = { λ n t. text_of t };

    // What it gives is borrowed from the message that it holds, so that it may outlive the loan of m.
    fn bytes(&self, _m: &[u8], span: Span) -> CowSlice<'a, u8> {
        CowSlice::Borrowed(span.bytes(self.message))
    }

    #[inline(always)]
    fn text(&self, _m: &[u8], text: SpannedText) -> Result<CowStr<'a>, AllocError> {
        text.named_in(self.alloc, self.message)
    }
}
