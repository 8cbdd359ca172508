//! Maps of body structures.

ghost use Rattle.std.specs.Prelude.{◌≡◌, IfOk, map};
ghost use Rattle.std.specs.Option.{option_map};
ghost use Rattle.imap_grammar.specs.Text.{Text};
ghost use Rattle.imap_body_types.specs.ExtensionValues.{extension_seen};
ghost use Rattle.imap_body_types.specs.BodyValues.{type_seen, common_seen, single_seen, extension_of, body_seen};

use super::change::Change;
use super::extensions::{mapped_disposition, mapped_extension};
use super::fields::mapped_params;
use super::parts::{mapped_optional_text, mapped_optional_texts};
use crate::shapes::bodies::{BodyContentCommon, BodyContentSinglePart, BodyStructure, ContentType};
use crate::shapes::extensions::BodyExtension;
use std::alloc::{AllocError, Global};

impl<S> ContentType<S> {
    /// The same type with each text changed.
    pub(crate) fn try_map<C: Change<S>>(
        &self,
        alloc: Global,
        c: &C,
    ) -> Result<ContentType<C::To>, AllocError>
        ensures { IfOk result (λ x. type_seen C.after x ≡ type_seen (C.before c.now) self.now) }
    {
        Ok(ContentType {
            ty: c.change(&self.ty)?,
            subtype: c.change(&self.subtype)?,
            params: mapped_params(alloc, c, &self.params)?,
        })
    }
}

impl<S> BodyContentCommon<S> {
    /// What every body says, with each text changed.
    #[tactic(auto, unfolding(crate::specs::BodyValues::common_seen))]
    pub(crate) fn try_map<C: Change<S>>(
        &self,
        alloc: Global,
        c: &C,
    ) -> Result<BodyContentCommon<C::To>, AllocError>
        ensures { IfOk result (λ x. common_seen C.after x ≡ common_seen (C.before c.now) self.now) }
    {
        let ty = or_drop!(self.ty.try_map(alloc, c));
        let disposition = or_drop!(mapped_disposition(alloc, c, &self.disposition), ty);
        let language = or_drop!(
            mapped_optional_texts(alloc, c, &self.language),
            disposition,
            ty
        );
        let location = or_drop!(
            mapped_optional_text(c, &self.location),
            language,
            disposition,
            ty
        );
        Ok(BodyContentCommon {
            ty,
            disposition,
            language,
            location,
        })
    }
}

impl<S> BodyContentSinglePart<S> {
    /// What a single part says, with each text changed.
    #[tactic(auto, unfolding(crate::specs::BodyValues::single_seen))]
    pub(crate) fn try_map<C: Change<S>>(
        &self,
        c: &C,
    ) -> Result<BodyContentSinglePart<C::To>, AllocError>
        ensures { IfOk result (λ x. single_seen C.after x ≡ single_seen (C.before c.now) self.now) }
    {
        Ok(BodyContentSinglePart {
            id: mapped_optional_text(c, &self.id)?,
            md5: mapped_optional_text(c, &self.md5)?,
            description: mapped_optional_text(c, &self.description)?,
            transfer_encoding: self.transfer_encoding.try_map(c)?,
            octets: self.octets,
        })
    }
}

impl<S, B> BodyStructure<S, B> {
    // Its extension data.
    fn extension(&self) -> &Option<BodyExtension<S>>
        ensures { (f : S → Text) (g : B → Text) →
            extension_of (body_seen f g self.now) ≡ option_map (extension_seen f) result.now }
    {
        match self {
            BodyStructure::Basic { extension, .. }
            | BodyStructure::Text { extension, .. }
            | BodyStructure::Message { extension, .. }
            | BodyStructure::Multipart { extension, .. } => extension,
        }
    }

    /// The same structure with each text changed by c, and each byte string by d. It takes memory for lists and boxes,
    /// and where c and d do; `Err`: memory ran out.
    pub fn try_map<C: Change<S>, D: Change<B>>(
        &self,
        alloc: Global,
        c: &C,
        d: &D,
    ) -> Result<BodyStructure<C::To, D::To>, AllocError>
        ensures { IfOk result (λ b.
            body_seen C.after D.after b ≡ body_seen (C.before c.now) (D.before d.now) self.now) }
    {
        mapped_body(alloc, c, d, self)
    }
}

// What all kinds have is changed once, before the kinds are told apart: each arm takes room of its own on the stack,
// and the room of all arms is cleared at each call.
#[cycle(body)]
fn mapped_body<S, B, C: Change<S>, D: Change<B>>(
    alloc: Global,
    c: &C,
    d: &D,
    body: &BodyStructure<S, B>,
) -> Result<BodyStructure<C::To, D::To>, AllocError>
    ensures { IfOk result (λ b.
        body_seen C.after D.after b ≡ body_seen (C.before c.now) (D.before d.now) body.now) }
{
    let common = body.common().try_map(alloc, c)?;
    let extension = or_drop!(mapped_extension(alloc, c, body.extension()), common);
    Ok(match body {
        BodyStructure::Basic { other, .. } => BodyStructure::Basic {
            other: or_drop!(other.try_map(c), extension, common),
            common,
            extension,
        },
        BodyStructure::Text { other, lines, .. } => BodyStructure::Text {
            other: or_drop!(other.try_map(c), extension, common),
            common,
            lines: *lines,
            extension,
        },
        BodyStructure::Message {
            other,
            envelope,
            body,
            lines,
            ..
        } => {
            let other = or_drop!(other.try_map(c), extension, common);
            let envelope = or_drop!(envelope.try_map(alloc, d), other, extension, common);
            let inner = mapped_inner(alloc, c, d, body);
            BodyStructure::Message {
                body: or_drop!(inner, envelope, other, extension, common),
                common,
                other,
                envelope,
                lines: *lines,
                extension,
            }
        }
        BodyStructure::Multipart { bodies, .. } => BodyStructure::Multipart {
            bodies: or_drop!(mapped_bodies(alloc, c, d, bodies), extension, common),
            common,
            extension,
        },
    })
}

// The body of a message. This and `mapped_bodies` are never inlined: the stack frame of each has room for a body, and
// `mapped_body`, had it inlined them, would clear that at each call.
#[cycle(body)]
#[inline(never)]
fn mapped_inner<S, B, C: Change<S>, D: Change<B>>(
    alloc: Global,
    c: &C,
    d: &D,
    inner: &BodyStructure<S, B>,
) -> Result<Box<BodyStructure<C::To, D::To>>, AllocError>
    ensures { IfOk result (λ b.
        body_seen C.after D.after b.value ≡ body_seen (C.before c.now) (D.before d.now) inner.now) }
{
    let mapped = or_drop!(mapped_body(alloc, c, d, inner));
    Ok(Box::new(alloc, mapped)?)
}

#[cycle(body)]
#[inline(never)]
fn mapped_bodies<S, B, C: Change<S>, D: Change<B>>(
    alloc: Global,
    c: &C,
    d: &D,
    bodies: &Vec<BodyStructure<S, B>>,
) -> Result<Vec<BodyStructure<C::To, D::To>>, AllocError>
    ensures { IfOk result (λ v.
        map (body_seen C.after D.after) v.items
        ≡ map (body_seen (C.before c.now) (D.before d.now)) bodies.now.items) }
{
    let mut mapped = Vec::with_capacity(alloc, bodies.len())?;
    for body in bodies {
        mapped.reserve(1)?;
        mapped.push_reserved(or_drop!(mapped_body(alloc, c, d, body)));
    }
    Ok(mapped)
}
