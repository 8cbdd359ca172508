//! Maps of extension data.

ghost use Rattle.std.specs.Prelude.{◌≡◌, IfOk};
ghost use Rattle.std.specs.Option.{option_map};
ghost use Rattle.imap_body_types.specs.ExtensionValues.{disposition_seen, extension_seen, ext_1part_seen};
ghost use Rattle.imap_body_types.specs.ExtensionValues.{ext_mpart_seen};

use super::change::Change;
use super::fields::mapped_params;
use super::parts::{mapped_optional_text, mapped_optional_texts};
use crate::shapes::extensions::{BodyExt1Part, BodyExtMPart, BodyExtension, ContentDisposition};
use std::alloc::{AllocError, Global};

impl<S> ContentDisposition<S> {
    /// The same disposition with each text changed.
    pub(crate) fn try_map<C: Change<S>>(
        &self,
        alloc: Global,
        c: &C,
    ) -> Result<ContentDisposition<C::To>, AllocError>
        ensures { IfOk result (λ d.
            disposition_seen C.after d ≡ disposition_seen (C.before c.now) self.now) }
    {
        Ok(ContentDisposition {
            ty: c.change(&self.ty)?,
            params: mapped_params(alloc, c, &self.params)?,
        })
    }
}

pub(crate) fn mapped_disposition<S, C: Change<S>>(
    alloc: Global,
    c: &C,
    disposition: &Option<ContentDisposition<S>>,
) -> Result<Option<ContentDisposition<C::To>>, AllocError>
    ensures { IfOk result (λ d.
        option_map (disposition_seen C.after) d
        ≡ option_map (disposition_seen (C.before c.now)) disposition.now) }
{
    match disposition {
        None => Ok(None),
        Some(disposition) => Ok(Some(disposition.try_map(alloc, c)?)),
    }
}

impl<S> BodyExtension<S> {
    /// The same extension with each text changed.
    pub(crate) fn try_map<C: Change<S>>(
        &self,
        alloc: Global,
        c: &C,
    ) -> Result<BodyExtension<C::To>, AllocError>
        ensures { IfOk result (λ x.
            extension_seen C.after x ≡ extension_seen (C.before c.now) self.now) }
    {
        match self {
            BodyExtension::Num(n) => Ok(BodyExtension::Num(*n)),
            BodyExtension::Str(text) => Ok(BodyExtension::Str(mapped_optional_text(c, text)?)),
            BodyExtension::List(members) => {
                let mut mapped = Vec::with_capacity(alloc, members.len())?;
                for member in members {
                    mapped.push(member.try_map(alloc, c)?)?;
                }
                Ok(BodyExtension::List(mapped))
            }
        }
    }
}

pub(crate) fn mapped_extension<S, C: Change<S>>(
    alloc: Global,
    c: &C,
    extension: &Option<BodyExtension<S>>,
) -> Result<Option<BodyExtension<C::To>>, AllocError>
    ensures { IfOk result (λ x.
        option_map (extension_seen C.after) x
        ≡ option_map (extension_seen (C.before c.now)) extension.now) }
{
    match extension {
        None => Ok(None),
        Some(extension) => Ok(Some(extension.try_map(alloc, c)?)),
    }
}

impl<S> BodyExt1Part<S> {
    /// The same data with each text changed.
    #[tactic(auto, unfolding(crate::specs::ExtensionValues::ext_1part_seen))]
    pub(crate) fn try_map<C: Change<S>>(
        &self,
        alloc: Global,
        c: &C,
    ) -> Result<BodyExt1Part<C::To>, AllocError>
        ensures { IfOk result (λ x.
            ext_1part_seen C.after x ≡ ext_1part_seen (C.before c.now) self.now) }
    {
        let md5 = or_drop!(mapped_optional_text(c, &self.md5));
        let disposition = or_drop!(mapped_disposition(alloc, c, &self.disposition), md5);
        let language = or_drop!(
            mapped_optional_texts(alloc, c, &self.language),
            disposition,
            md5
        );
        let location = or_drop!(
            mapped_optional_text(c, &self.location),
            language,
            disposition,
            md5
        );
        let extension = or_drop!(
            mapped_extension(alloc, c, &self.extension),
            location,
            language,
            disposition,
            md5
        );
        Ok(BodyExt1Part {
            md5,
            disposition,
            language,
            location,
            extension,
        })
    }
}

impl<S> BodyExtMPart<S> {
    /// The same data with each text changed.
    #[tactic(auto, unfolding(crate::specs::ExtensionValues::ext_mpart_seen))]
    pub(crate) fn try_map<C: Change<S>>(
        &self,
        alloc: Global,
        c: &C,
    ) -> Result<BodyExtMPart<C::To>, AllocError>
        ensures { IfOk result (λ x.
            ext_mpart_seen C.after x ≡ ext_mpart_seen (C.before c.now) self.now) }
    {
        let param = or_drop!(mapped_params(alloc, c, &self.param));
        let disposition = or_drop!(mapped_disposition(alloc, c, &self.disposition), param);
        let language = or_drop!(
            mapped_optional_texts(alloc, c, &self.language),
            disposition,
            param
        );
        let location = or_drop!(
            mapped_optional_text(c, &self.location),
            language,
            disposition,
            param
        );
        let extension = or_drop!(
            mapped_extension(alloc, c, &self.extension),
            location,
            language,
            disposition,
            param
        );
        Ok(BodyExtMPart {
            param,
            disposition,
            language,
            location,
            extension,
        })
    }
}
