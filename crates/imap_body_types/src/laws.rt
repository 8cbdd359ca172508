//! Laws of the types of this crate, as contracts of functions that do nothing.

ghost use Rattle.imap_grammar.specs.Equality.{Tells};
ghost use Rattle.imap_grammar.specs.Copying.{CopiesFreely};
ghost use Rattle.imap_grammar.specs.Text.{Text, lent_text};
ghost use Rattle.imap_body_types.specs.EnvelopeValues.{address_seen, envelope_seen};
ghost use Rattle.imap_body_types.specs.FieldValues.{params_seen, encoding_seen, fields_seen};
ghost use Rattle.imap_body_types.specs.ExtensionValues.{disposition_seen, extension_seen, ext_1part_seen};
ghost use Rattle.imap_body_types.specs.ExtensionValues.{ext_mpart_seen};
ghost use Rattle.imap_body_types.specs.BodyValues.{type_seen, common_seen, single_seen, body_seen};
ghost use Rattle.imap_body_types.specs.Equality.{TellsByTexts};
ghost use Rattle.imap_body_types.specs.Owned.{owned_by, OwnedSaysSame, OwnedAlike};
ghost use Rattle.imap_body_types.specs.Lent.{lent_address, lent_envelope, lent_params, lent_encoding, lent_fields};
ghost use Rattle.imap_body_types.specs.Lent.{lent_disposition, lent_extension, lent_ext_1part, lent_ext_mpart};
ghost use Rattle.imap_body_types.specs.Lent.{lent_type, lent_common, lent_single, lent_body};

use crate::shapes::bodies::{BodyContentCommon, BodyContentSinglePart, BodyStructure, ContentType};
use crate::shapes::envelopes::{Address, Envelope};
use crate::shapes::extensions::{BodyExtension, ContentDisposition};
use crate::shapes::fields::{BodyParams, ContentEncoding};
use crate::spans::SpannedText;

/// If `==` of texts answers whether f says the same of both, borrowed or owned, then `==` of shapes of such texts
/// answers whether the two shapes say the same.
pub fn equality<S: PartialEq, B: PartialEq>()
    ensures address { TellsByTexts B.eq ⟦<Address<B> as PartialEq>⟧.eq lent_address address_seen }
    ensures envelope { TellsByTexts B.eq ⟦<Envelope<B> as PartialEq>⟧.eq
        lent_envelope envelope_seen }
    ensures body_params { TellsByTexts S.eq ⟦<BodyParams<S> as PartialEq>⟧.eq
        lent_params params_seen }
    ensures content_encoding { TellsByTexts S.eq ⟦<ContentEncoding<S> as PartialEq>⟧.eq
        lent_encoding encoding_seen }
    ensures content_disposition { TellsByTexts S.eq ⟦<ContentDisposition<S> as PartialEq>⟧.eq
        lent_disposition disposition_seen }
    ensures body_extension { TellsByTexts S.eq ⟦<BodyExtension<S> as PartialEq>⟧.eq
        lent_extension extension_seen }
    ensures content_type { TellsByTexts S.eq ⟦<ContentType<S> as PartialEq>⟧.eq
        lent_type type_seen }
    ensures content_common { TellsByTexts S.eq ⟦<BodyContentCommon<S> as PartialEq>⟧.eq
        lent_common common_seen }
    ensures content_single_part { TellsByTexts S.eq ⟦<BodyContentSinglePart<S> as PartialEq>⟧.eq
        lent_single single_seen }
    ensures body_structure { (f : S → Text) (g : B → Text) →
        Tells S.eq (λ s. lent_text (f s)) →
        Tells B.eq (λ b. lent_text (g b)) →
        Tells ⟦<BodyStructure<S, B> as PartialEq>⟧.eq (λ x. lent_body (body_seen f g x)) }
    ensures spanned_text { Tells ⟦<SpannedText as PartialEq>⟧.eq (λ x. x) }
{}

/// A clone takes no memory, and is the same value.
pub fn cloning()
    ensures spanned_text { CopiesFreely ⟦<SpannedText as Clone>⟧.is_infallible
        ⟦<SpannedText as Clone>⟧.is_clone }
{}

/// With its texts owned, as `into_owned` gives it, a value says the same as the value that it was made from.
pub fn owning<S, B>()
    ensures address { (f : B → Text) →
        OwnedSaysSame lent_address (address_seen (owned_by f)) (address_seen f) }
    ensures envelope { (f : B → Text) →
        OwnedSaysSame lent_envelope (envelope_seen (owned_by f)) (envelope_seen f) }
    ensures content_encoding { (f : S → Text) →
        OwnedSaysSame lent_encoding (encoding_seen (owned_by f)) (encoding_seen f) }
    ensures body_fields { (f : S → Text) →
        OwnedSaysSame lent_fields (fields_seen (owned_by f)) (fields_seen f) }
    ensures content_disposition { (f : S → Text) →
        OwnedSaysSame lent_disposition (disposition_seen (owned_by f)) (disposition_seen f) }
    ensures body_extension { (f : S → Text) →
        OwnedSaysSame lent_extension (extension_seen (owned_by f)) (extension_seen f) }
    ensures body_ext_1part { (f : S → Text) →
        OwnedSaysSame lent_ext_1part (ext_1part_seen (owned_by f)) (ext_1part_seen f) }
    ensures body_ext_mpart { (f : S → Text) →
        OwnedSaysSame lent_ext_mpart (ext_mpart_seen (owned_by f)) (ext_mpart_seen f) }
    ensures content_type { (f : S → Text) →
        OwnedSaysSame lent_type (type_seen (owned_by f)) (type_seen f) }
    ensures content_common { (f : S → Text) →
        OwnedSaysSame lent_common (common_seen (owned_by f)) (common_seen f) }
    ensures content_single_part { (f : S → Text) →
        OwnedSaysSame lent_single (single_seen (owned_by f)) (single_seen f) }
    ensures body_structure { (f : S → Text) (g : B → Text) →
        OwnedSaysSame lent_body (body_seen (owned_by f) (owned_by g)) (body_seen f g) }
{}

/// The owned form of a value doesn't depend on which of its texts are borrowed: values that say the same have one.
pub fn lending<S, B>()
    ensures address { (f : B → Text) →
        OwnedAlike lent_address (address_seen (owned_by f)) (address_seen f) }
    ensures envelope { (f : B → Text) →
        OwnedAlike lent_envelope (envelope_seen (owned_by f)) (envelope_seen f) }
    ensures content_encoding { (f : S → Text) →
        OwnedAlike lent_encoding (encoding_seen (owned_by f)) (encoding_seen f) }
    ensures body_fields { (f : S → Text) →
        OwnedAlike lent_fields (fields_seen (owned_by f)) (fields_seen f) }
    ensures content_disposition { (f : S → Text) →
        OwnedAlike lent_disposition (disposition_seen (owned_by f)) (disposition_seen f) }
    ensures body_extension { (f : S → Text) →
        OwnedAlike lent_extension (extension_seen (owned_by f)) (extension_seen f) }
    ensures body_ext_1part { (f : S → Text) →
        OwnedAlike lent_ext_1part (ext_1part_seen (owned_by f)) (ext_1part_seen f) }
    ensures body_ext_mpart { (f : S → Text) →
        OwnedAlike lent_ext_mpart (ext_mpart_seen (owned_by f)) (ext_mpart_seen f) }
    ensures content_type { (f : S → Text) →
        OwnedAlike lent_type (type_seen (owned_by f)) (type_seen f) }
    ensures content_common { (f : S → Text) →
        OwnedAlike lent_common (common_seen (owned_by f)) (common_seen f) }
    ensures content_single_part { (f : S → Text) →
        OwnedAlike lent_single (single_seen (owned_by f)) (single_seen f) }
    ensures body_structure { (f : S → Text) (g : B → Text) →
        OwnedAlike lent_body (body_seen (owned_by f) (owned_by g)) (body_seen f g) }
{}
