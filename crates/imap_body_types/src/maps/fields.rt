//! Maps of parameters, encodings and fields.

ghost use Rattle.std.specs.Prelude.{◌≡◌, IfOk, IsOk, map};
ghost use Rattle.imap_body_types.specs.FieldValues.{pair_seen, params_seen, encoding_seen, fields_seen, HoldsNone};

use super::change::Change;
use super::parts::mapped_optional_text;
use crate::shapes::fields::{BodyFields, BodyParams, ContentEncoding};
use std::alloc::{AllocError, Global};

fn mapped_pairs<S, C: Change<S>>(
    alloc: Global,
    c: &C,
    params: &Vec<(S, S)>,
) -> Result<Vec<(C::To, C::To)>, AllocError>
    ensures { IfOk result (λ v.
        map (pair_seen C.after) v.items ≡ map (pair_seen (C.before c.now)) params.now.items) }
{
    let mut mapped = Vec::with_capacity(alloc, params.len())?;
    for (name, value) in params {
        mapped.reserve(1)?;
        mapped.push_reserved((c.change(name)?, c.change(value)?));
    }
    Ok(mapped)
}

pub(crate) fn mapped_params<S, C: Change<S>>(
    alloc: Global,
    c: &C,
    params: &BodyParams<S>,
) -> Result<BodyParams<C::To>, AllocError>
    ensures { IfOk result (λ p. params_seen C.after p ≡ params_seen (C.before c.now) params.now) }
{
    match params {
        None => Ok(None),
        Some(params) => Ok(Some(mapped_pairs(alloc, c, params)?)),
    }
}

impl<S> ContentEncoding<S> {
    /// The same encoding with its text changed. It takes memory only for a text.
    pub(crate) fn try_map<C: Change<S>>(&self, c: &C) -> Result<ContentEncoding<C::To>, AllocError>
        ensures changed { IfOk result (λ e.
            encoding_seen C.after e ≡ encoding_seen (C.before c.now) self.now) }
        ensures memory { HoldsNone self.now → IsOk result }
    {
        match self {
            ContentEncoding::SevenBit => Ok(ContentEncoding::SevenBit),
            ContentEncoding::EightBit => Ok(ContentEncoding::EightBit),
            ContentEncoding::Binary => Ok(ContentEncoding::Binary),
            ContentEncoding::Base64 => Ok(ContentEncoding::Base64),
            ContentEncoding::QuotedPrintable => Ok(ContentEncoding::QuotedPrintable),
            ContentEncoding::Other(text) => Ok(ContentEncoding::Other(c.change(text)?)),
        }
    }
}

impl<S> BodyFields<S> {
    /// The same fields with each text changed.
    #[tactic(auto, unfolding(crate::specs::FieldValues::fields_seen))]
    pub(crate) fn try_map<C: Change<S>>(
        &self,
        alloc: Global,
        c: &C,
    ) -> Result<BodyFields<C::To>, AllocError>
        ensures { IfOk result (λ x. fields_seen C.after x ≡ fields_seen (C.before c.now) self.now) }
    {
        Ok(BodyFields {
            param: mapped_params(alloc, c, &self.param)?,
            id: mapped_optional_text(c, &self.id)?,
            description: mapped_optional_text(c, &self.description)?,
            transfer_encoding: self.transfer_encoding.try_map(c)?,
            octets: self.octets,
        })
    }
}
