//! The same values with all texts owned. They are consumed; `Err`: memory ran out.
//!
//! What is consumed is dropped by a call. Where it is dropped in place, at the end of the function, what is in it is
//! proved there again, part by part, which takes three to five times as long.

ghost use Rattle.std.specs.Prelude.{◌≡◌, IfOk, IsOk};
ghost use Rattle.imap_grammar.specs.Text.{text_of};
ghost use Rattle.imap_body_types.specs.Spans.{bytes_of, bytes_owned, text_owned};
ghost use Rattle.imap_body_types.specs.EnvelopeValues.{IsBlank, address_seen, envelope_seen};
ghost use Rattle.imap_body_types.specs.FieldValues.{encoding_seen, fields_seen, HoldsNone};
ghost use Rattle.imap_body_types.specs.ExtensionValues.{disposition_seen, extension_seen, ext_1part_seen};
ghost use Rattle.imap_body_types.specs.ExtensionValues.{ext_mpart_seen};
ghost use Rattle.imap_body_types.specs.BodyValues.{type_seen, common_seen, single_seen, body_seen};

use crate::maps::change::BodyChange;
use crate::maps::changes::Owning;
use crate::types::bodies::{BodyContentCommon, BodyContentSinglePart, BodyStructure, ContentType};
use crate::types::envelopes::{Address, Envelope};
use crate::types::extensions::{BodyExt1Part, BodyExtMPart, BodyExtension, ContentDisposition};
use crate::types::fields::{BodyFields, ContentEncoding};
use std::alloc::{AllocError, Global};

impl<'a> Address<'a> {
    /// The same address with all texts owned. It takes memory only for texts, also for those that are owned already;
    /// `Err`: memory ran out.
    pub fn into_owned(self, alloc: Global) -> Result<Address<'static>, AllocError>
        ensures owned { IfOk result (λ x.
            address_seen bytes_of x ≡ address_seen bytes_owned self.entry) }
        ensures memory { IsBlank self.entry → IsOk result }
    {
        let owned = self.try_map(&Owning::new(alloc));
        drop(self);
        owned
    }
}

impl<'a> Envelope<'a> {
    /// The same envelope with all texts owned. It takes memory, also for texts that are owned already; `Err`: memory
    /// ran out.
    pub fn into_owned(self, alloc: Global) -> Result<Envelope<'static>, AllocError>
        ensures { IfOk result (λ x.
            envelope_seen bytes_of x ≡ envelope_seen bytes_owned self.entry) }
    {
        let owned = self.try_map(alloc, &Owning::new(alloc));
        drop(self);
        owned
    }
}

impl<'a> ContentEncoding<'a> {
    /// The same encoding with its text owned. It takes memory only for a text, also for one that is owned already;
    /// `Err`: memory ran out.
    pub fn into_owned(self, alloc: Global) -> Result<ContentEncoding<'static>, AllocError>
        ensures owned { IfOk result (λ x.
            encoding_seen text_of x ≡ encoding_seen text_owned self.entry) }
        ensures memory { HoldsNone self.entry → IsOk result }
    {
        let owned = self.try_map(&Owning::new(alloc));
        drop(self);
        owned
    }
}

impl<'a> BodyFields<'a> {
    /// The same fields with all texts owned. It takes memory, also for texts that are owned already; `Err`: memory ran
    /// out.
    pub fn into_owned(self, alloc: Global) -> Result<BodyFields<'static>, AllocError>
        ensures { IfOk result (λ x. fields_seen text_of x ≡ fields_seen text_owned self.entry) }
    {
        let owned = self.try_map(alloc, &Owning::new(alloc));
        drop(self);
        owned
    }
}

impl<'a> ContentDisposition<'a> {
    /// The same disposition with all texts owned. It takes memory, also for texts that are owned already; `Err`: memory
    /// ran out.
    pub fn into_owned(self, alloc: Global) -> Result<ContentDisposition<'static>, AllocError>
        ensures { IfOk result (λ x.
            disposition_seen text_of x ≡ disposition_seen text_owned self.entry) }
    {
        let owned = self.try_map(alloc, &Owning::new(alloc));
        drop(self);
        owned
    }
}

impl<'a> BodyExtension<'a> {
    /// The same extension with all texts owned. It takes memory, also for texts that are owned already; `Err`: memory
    /// ran out.
    pub fn into_owned(self, alloc: Global) -> Result<BodyExtension<'static>, AllocError>
        ensures { IfOk result (λ x.
            extension_seen text_of x ≡ extension_seen text_owned self.entry) }
    {
        let owned = self.try_map(alloc, &Owning::new(alloc));
        drop(self);
        owned
    }
}

impl<'a> BodyExt1Part<'a> {
    /// The same data with all texts owned. It takes memory, also for texts that are owned already; `Err`: memory ran
    /// out.
    pub fn into_owned(self, alloc: Global) -> Result<BodyExt1Part<'static>, AllocError>
        ensures { IfOk result (λ x.
            ext_1part_seen text_of x ≡ ext_1part_seen text_owned self.entry) }
    {
        let owned = self.try_map(alloc, &Owning::new(alloc));
        drop(self);
        owned
    }
}

impl<'a> BodyExtMPart<'a> {
    /// The same data with all texts owned. It takes memory, also for texts that are owned already; `Err`: memory ran
    /// out.
    pub fn into_owned(self, alloc: Global) -> Result<BodyExtMPart<'static>, AllocError>
        ensures { IfOk result (λ x.
            ext_mpart_seen text_of x ≡ ext_mpart_seen text_owned self.entry) }
    {
        let owned = self.try_map(alloc, &Owning::new(alloc));
        drop(self);
        owned
    }
}

impl<'a> ContentType<'a> {
    /// The same type with all texts owned. It takes memory, also for texts that are owned already; `Err`: memory ran
    /// out.
    pub fn into_owned(self, alloc: Global) -> Result<ContentType<'static>, AllocError>
        ensures { IfOk result (λ x. type_seen text_of x ≡ type_seen text_owned self.entry) }
    {
        let owned = self.try_map(alloc, &Owning::new(alloc));
        drop(self);
        owned
    }
}

impl<'a> BodyContentCommon<'a> {
    /// What every body says, with all texts owned. It takes memory, also for texts that are owned already; `Err`:
    /// memory ran out.
    pub fn into_owned(self, alloc: Global) -> Result<BodyContentCommon<'static>, AllocError>
        ensures { IfOk result (λ x. common_seen text_of x ≡ common_seen text_owned self.entry) }
    {
        let owned = self.try_map(alloc, &Owning::new(alloc));
        drop(self);
        owned
    }
}

impl<'a> BodyContentSinglePart<'a> {
    /// What a single part says, with all texts owned. It takes memory, also for texts that are owned already; `Err`:
    /// memory ran out.
    pub fn into_owned(self, alloc: Global) -> Result<BodyContentSinglePart<'static>, AllocError>
        ensures { IfOk result (λ x. single_seen text_of x ≡ single_seen text_owned self.entry) }
    {
        let owned = self.try_map(&Owning::new(alloc));
        drop(self);
        owned
    }
}

impl<'a> BodyStructure<'a> {
    /// The same structure with all texts owned. It takes memory, also for texts that are owned already; `Err`: memory
    /// ran out.
    pub fn into_owned(self, alloc: Global) -> Result<BodyStructure<'static>, AllocError>
        ensures { IfOk result (λ x.
            body_seen text_of bytes_of x ≡ body_seen text_owned bytes_owned self.entry) }
    {
        let owned = Owning::new(alloc).change_body(&self);
        drop(self);
        owned
    }
}
