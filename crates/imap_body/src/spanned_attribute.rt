//! An attribute of a message as positions in it: it keeps no bytes, and tells its value of any message that has bytes
//! in these places.

ghost use Rattle.std.specs.Prelude.{◌≡◌, ◌++◌, ◌∷◌, [], map, IfOk, OnOk};
ghost use Rattle.imap_grammar.specs.Text.{Text};
ghost use Rattle.imap_body.specs.AttributeValues.{attribute_seen, attribute_value};
ghost use Rattle.imap_body_types.specs.BodyValues.{body_seen, boxed_seen};
ghost use Rattle.imap_body.specs.SpannedAttributes.{span_of, attribute_in, unescaped_attribute_in};

use crate::attributes::{AttributeKept, AttributeParts, AttributeValue};
use imap_body_types::shapes::bodies::BodyStructure;
use imap_body_types::spans::{Span, SpannedText};
use std::alloc::{AllocError, Global};

/// An attribute of a message as positions and numbers. `S` and `B` are what is kept of its texts and byte strings; by
/// default their positions.
#[derive(Debug, Drop, PartialEq, Eq)]
pub struct SpannedAttribute<S = SpannedText, B = Span> {
    pub(crate) span: Span,
    // Its positions count from where the span starts, and lie in it.
    pub(crate) parts: AttributeKept<S, B>,
}

impl SpannedAttribute {
    /// Where it stands in its message. No memory.
    pub fn span(&self) -> Span
        ensures { result ≡ span_of self.now }
    {
        self.span
    }

    /// The attribute that it names in m, as far as m has the bytes of its span: texts are borrowed from m where their
    /// bytes are UTF-8, byte strings always.
    ///
    /// It rests on the bytes of the span alone, and reads no rule again. It always takes memory, at least for one
    /// attribute; more for lists, envelopes and body structures, and for texts that are not UTF-8; `Err`: memory ran
    /// out.
    pub fn value<'a>(&self, alloc: Global, m: &'a [u8]) -> Result<AttributeValue<'a>, AllocError>
        ensures { IfOk result (λ v. attribute_value v ≡ attribute_in m.now self.now) }
    {
        self.parts.value(alloc, self.span.part(m))
    }

    /// The same, each quoted string without its escapes (RFC 3501, section 9: quoted): of `\\` and `\"` the second byte
    /// stays. A string is quoted where a `"` stands before its bytes in m; literals and atoms are as they stand.
    ///
    /// It takes memory as `value` does, and for each quoted string that has a `\`; `Err`: memory ran out.
    pub fn unescaped<'a>(
        &self,
        alloc: Global,
        m: &'a [u8],
    ) -> Result<AttributeValue<'a>, AllocError>
        ensures { IfOk result (λ v. attribute_value v ≡ unescaped_attribute_in m.now self.now) }
    {
        self.parts.unescaped(alloc, self.span.part(m))
    }
}

impl<S: Drop, B: Drop> SpannedAttribute<S, B> {
    /// Puts the attribute, which was read in m, after the others, its body structure out of its box. It takes memory
    /// where the list has no room; `Err`: memory ran out.
    // Generic in what was kept of its strings: a proof over values that borrow takes ten times as long.
    pub(crate) fn push_parts(
        self,
        m: &[u8],
        others: &mut Vec<AttributeParts<S, B, BodyStructure<S, B>>>,
    ) -> Result<(), AllocError>
        ensures { (f : S → Text) (h : B → Text) →
            OnOk result
            (map (attribute_seen f h (body_seen f h)) others.new.items
            ≡ map (attribute_seen f h (body_seen f h)) others.old.items
            ++ attribute_seen f h (λ b. boxed_seen f h b) self.parts ∷ []) }
    {
        make_first_room(others, m, self.span.end)?;
        self.parts.push_unboxed(others)
    }
}

// Room in an empty list, where its first attribute ends at `end`: for one where no other follows, else for two. A
// value is large, and most lists have one or two.
fn make_first_room<T>(values: &mut Vec<T>, m: &[u8], end: usize) -> Result<(), AllocError>
    ensures { values.new.items ≡ values.old.items }
{
    if !values.is_empty() {
        return Ok(());
    }
    match m.get(end) {
        Some(b' ') => values.reserve_exact(2),
        _ => values.reserve_exact(1),
    }
}
