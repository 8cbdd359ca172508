//! One map of attributes over their parts: what spans name and owned values are instances of it.

ghost use Rattle.std.specs.Prelude.{◌≡◌, ◌++◌, ◌∷◌, [], IfOk, OnOk, map};
ghost use Rattle.std.specs.Option.{option_map};
ghost use Rattle.imap_grammar.specs.Text.{Text};
ghost use Rattle.imap_sections.specs.SectionValues.{path_value};
ghost use Rattle.imap_body_types.specs.BodyValues.{BodyValue};
ghost use Rattle.imap_body.specs.AttributeValues.{attribute_seen, BodyStructure};

use crate::attributes::AttributeParts as Parts;
use imap_body_types::maps::change::{BodyChange, Change};
use imap_body_types::maps::envelopes::mapped_envelope;
use imap_body_types::maps::parts::{mapped_optional_text, mapped_texts};
use imap_body_types::or_drop;
use imap_sections::SectionPath;
use std::alloc::{AllocError, Global};

fn copied_section(
    alloc: Global,
    section: &Option<SectionPath>,
) -> Result<Option<SectionPath>, AllocError>
    ensures { IfOk result (λ s. option_map path_value s ≡ option_map path_value section.now) }
{
    match section {
        None => Ok(None),
        Some(SectionPath::Full(what)) => Ok(Some(SectionPath::Full(*what))),
        Some(SectionPath::Part(numbers, what)) => {
            let numbers = Vec::from_slice(alloc, numbers)?;
            Ok(Some(SectionPath::Part(numbers, *what)))
        }
    }
}

impl<S: Drop, B: Drop, Y: Drop> Parts<S, B, Y> {
    /// Puts this attribute after the others, with each text changed by c, each byte string by d, and a body structure
    /// by e.
    ///
    /// It is put where it stays, not answered: an answer has room for a body structure, and is copied whole.
    pub(crate) fn push_mapped<C: Change<S>, D: Change<B>, E: BodyChange<Y>>(
        &self,
        alloc: Global,
        c: &C,
        d: &D,
        e: &E,
        others: &mut Vec<Parts<C::To, D::To, E::To>>,
    ) -> Result<(), AllocError>
        ensures { OnOk result
            (map (attribute_seen C.after D.after E.after) others.new.items
            ≡ map (attribute_seen C.after D.after E.after) others.old.items
            ++ attribute_seen (C.before c.now) (D.before d.now) (E.before e.now) self.now ∷ []) }
    {
        others.reserve(1)?;
        match self {
            Parts::BodySection {
                section,
                index,
                contents,
            } => {
                let section = copied_section(alloc, section)?;
                let contents = or_drop!(mapped_optional_text(d, contents), section);
                others.push_reserved(Parts::BodySection {
                    section,
                    index: *index,
                    contents,
                });
            }
            Parts::BodyStructure(body) => return push_body(e, body, others),
            Parts::Envelope(envelope) => others.push_reserved(Parts::Envelope(or_drop!(
                mapped_envelope(alloc, d, envelope)
            ))),
            Parts::Flags(flags) => others.push_reserved(Parts::Flags(or_drop!(mapped_texts(
                alloc, c, flags
            )))),
            Parts::InternalDate(date) => {
                others.push_reserved(Parts::InternalDate(or_drop!(c.change(date))))
            }
            Parts::ModSeq(n) => others.push_reserved(Parts::ModSeq(*n)),
            Parts::Rfc822(message) => others.push_reserved(Parts::Rfc822(or_drop!(
                mapped_optional_text(d, message)
            ))),
            Parts::Rfc822Header(header) => others.push_reserved(Parts::Rfc822Header(or_drop!(
                mapped_optional_text(d, header)
            ))),
            Parts::Rfc822Size(n) => others.push_reserved(Parts::Rfc822Size(*n)),
            Parts::Rfc822Text(text) => others.push_reserved(Parts::Rfc822Text(or_drop!(
                mapped_optional_text(d, text)
            ))),
            Parts::Uid(n) => others.push_reserved(Parts::Uid(*n)),
            Parts::GmailLabels(labels) => others.push_reserved(Parts::GmailLabels(or_drop!(
                mapped_texts(alloc, c, labels)
            ))),
            Parts::GmailMsgId(n) => others.push_reserved(Parts::GmailMsgId(*n)),
            Parts::GmailThrId(n) => others.push_reserved(Parts::GmailThrId(*n)),
            Parts::EmailId(id) => others.push_reserved(Parts::EmailId(or_drop!(c.change(id)))),
            Parts::ThreadId(id) => others.push_reserved(Parts::ThreadId(or_drop!(
                mapped_optional_text(c, id)
            ))),
            Parts::SaveDate(date) => others.push_reserved(Parts::SaveDate(or_drop!(
                mapped_optional_text(c, date)
            ))),
            Parts::Unknown => others.push_reserved(Parts::Unknown),
        }
        Ok(())
    }

    /// The same attribute with each text changed by c, each byte string by d, and a body structure by e.
    pub(crate) fn try_map<C: Change<S>, D: Change<B>, E: BodyChange<Y>>(
        &self,
        alloc: Global,
        c: &C,
        d: &D,
        e: &E,
    ) -> Result<Parts<C::To, D::To, E::To>, AllocError>
        ensures { IfOk result (λ x.
            attribute_seen C.after D.after E.after x
            ≡ attribute_seen (C.before c.now) (D.before d.now) (E.before e.now) self.now) }
    {
        let mut mapped = Vec::with_capacity(alloc, 1)?;
        self.push_mapped(alloc, c, d, e, &mut mapped)?;
        // One was just put there; the error only gives the function a value.
        mapped.pop().ok_or(AllocError)
    }

    /// The same, and this attribute is let go of.
    pub(crate) fn into_mapped<C: Change<S>, D: Change<B>, E: BodyChange<Y>>(
        self,
        alloc: Global,
        c: &C,
        d: &D,
        e: &E,
    ) -> Result<Parts<C::To, D::To, E::To>, AllocError>
        ensures { IfOk result (λ x.
            attribute_seen C.after D.after E.after x
            ≡ attribute_seen (C.before c.now) (D.before d.now) (E.before e.now) self) }
    {
        let mapped = self.try_map(alloc, c, d, e);
        drop(self); // By a call, as `imap_body_types` drops what it owns.
        mapped
    }
}

impl<S: Drop, B: Drop, Y: Drop> Parts<S, B, Box<Y>> {
    /// Puts this attribute behind the others, its body structure out of its box. It takes memory where the list has no
    /// room; `Err`: memory ran out, and nothing is said of the list.
    pub fn push_unboxed(self, others: &mut Vec<Parts<S, B, Y>>) -> Result<(), AllocError>
        ensures { (f : S → Text) (h : B → Text) (k : Y → BodyValue) →
            OnOk result
            (map (attribute_seen f h k) others.new.items
            ≡ map (attribute_seen f h k) others.old.items
            ++ attribute_seen f h (λ b. k b.value) self ∷ []) }
    {
        others.reserve(1)?;
        match self {
            Parts::BodySection {
                section,
                index,
                contents,
            } => others.push_reserved(Parts::BodySection {
                section,
                index,
                contents,
            }),
            Parts::BodyStructure(body) => return push_structure(body, others),
            Parts::Envelope(envelope) => others.push_reserved(Parts::Envelope(envelope)),
            Parts::Flags(flags) => others.push_reserved(Parts::Flags(flags)),
            Parts::InternalDate(date) => others.push_reserved(Parts::InternalDate(date)),
            Parts::ModSeq(n) => others.push_reserved(Parts::ModSeq(n)),
            Parts::Rfc822(message) => others.push_reserved(Parts::Rfc822(message)),
            Parts::Rfc822Header(header) => others.push_reserved(Parts::Rfc822Header(header)),
            Parts::Rfc822Size(n) => others.push_reserved(Parts::Rfc822Size(n)),
            Parts::Rfc822Text(text) => others.push_reserved(Parts::Rfc822Text(text)),
            Parts::Uid(n) => others.push_reserved(Parts::Uid(n)),
            Parts::GmailLabels(labels) => others.push_reserved(Parts::GmailLabels(labels)),
            Parts::GmailMsgId(n) => others.push_reserved(Parts::GmailMsgId(n)),
            Parts::GmailThrId(n) => others.push_reserved(Parts::GmailThrId(n)),
            Parts::EmailId(id) => others.push_reserved(Parts::EmailId(id)),
            Parts::ThreadId(id) => others.push_reserved(Parts::ThreadId(id)),
            Parts::SaveDate(date) => others.push_reserved(Parts::SaveDate(date)),
            Parts::Unknown => others.push_reserved(Parts::Unknown),
        }
        Ok(())
    }
}

// Puts an attribute that is a body structure, changed, after the others. Never inlined: its stack frame has room for a
// body structure, and a caller that inlined it would clear that at each call.
#[inline(never)]
fn push_body<S: Drop, B: Drop, Y, E: BodyChange<Y>>(
    e: &E,
    body: &Y,
    others: &mut Vec<Parts<S, B, E::To>>,
) -> Result<(), AllocError>
    ensures { (f : S → Text) (h : B → Text) →
        OnOk result
        (map (attribute_seen f h E.after) others.new.items
        ≡ map (attribute_seen f h E.after) others.old.items
        ++ BodyStructure (E.before e.now body.now) ∷ []) }
{
    others.reserve(1)?;
    others.push_reserved(Parts::BodyStructure(or_drop!(e.change_body(body))));
    Ok(())
}

// Puts an attribute that is a body structure, out of its box and as it is, after the others. Inlined, it copies the
// body once less.
#[inline(always)]
fn push_structure<S: Drop, B: Drop, Y: Drop>(
    body: Box<Y>,
    others: &mut Vec<Parts<S, B, Y>>,
) -> Result<(), AllocError>
    ensures { (f : S → Text) (h : B → Text) (k : Y → BodyValue) →
        OnOk result
        (map (attribute_seen f h k) others.new.items
        ≡ map (attribute_seen f h k) others.old.items ++ BodyStructure (k body.value) ∷ []) }
{
    others.reserve(1)?;
    others.push_reserved(Parts::BodyStructure(Box::into_inner(body)));
    Ok(())
}
