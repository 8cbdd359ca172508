//! Laws of the rules of this crate, of `imap_envelopes`, of `imap_bodystructure` and of `imap_sections`, and of what
//! they read, as contracts of functions that do nothing.

ghost use Rattle.imap_grammar.specs.Text.{Bytes, Text, as_text, text_of, lent_text};
ghost use Rattle.imap_grammar.specs.Step.{step};
ghost use Rattle.imap_grammar.specs.Equality.{Tells};
ghost use Rattle.imap_grammar.specs.Copying.{CopiesFreely};
ghost use Rattle.imap_body_types.specs.Spans.{bytes_of};
ghost use Rattle.imap_body_types.specs.EnvelopeValues.{address_seen, envelope_seen};
ghost use Rattle.imap_body_types.specs.FieldValues.{params_seen, encoding_seen};
ghost use Rattle.imap_body_types.specs.ExtensionValues.{disposition_seen, extension_seen};
ghost use Rattle.imap_body_types.specs.BodyValues.{BodyValue, type_seen, common_seen, single_seen, body_seen};
ghost use Rattle.imap_sections.specs.SectionValues.{path_value};
ghost use Rattle.imap_grammar.specs.Stable.{Stable};
ghost use Rattle.imap_sections.specs.Sections as sections;
ghost use Rattle.imap_body.specs.Attributes as attributes;
ghost use Rattle.imap_envelopes.specs.Envelopes as envelopes;
ghost use Rattle.imap_bodystructure.specs.Fields as fields;
ghost use Rattle.imap_bodystructure.specs.Extensions as extensions;
ghost use Rattle.imap_bodystructure.specs.Bodies as bodies;
ghost use Rattle.std.specs.Option.{option_map};
ghost use Rattle.imap_bodystructure.specs.declared.limits.TheConstants.{MAX_BODY_DEPTH, MAX_EXTENSION_DEPTH};
ghost use Rattle.std.specs.Prelude.{ℕ, ◌≡◌, ◌^◌, ◌∷◌, [], None, Some, codes, map};
ghost use Rattle.imap_grammar.specs.ReadBack.{SpellsAndReadsBack, HasOneText, Closes, as_is};
ghost use Rattle.imap_body_types.specs.Lent.{lent_address, lent_addresses, lent_envelope, lent_params, lent_encoding};
ghost use Rattle.imap_body_types.specs.Lent.{lent_fields, lent_disposition, lent_languages, lent_extension};
ghost use Rattle.imap_body_types.specs.Lent.{lent_ext_1part, lent_ext_mpart, lent_type, lent_common, lent_single};
ghost use Rattle.imap_body_types.specs.Lent.{lent_body};
ghost use Rattle.imap_sections.specs.SectionTexts.{canonical_section_text, canonical_part, canonical_path};
ghost use Rattle.imap_sections.specs.SectionTexts.{canonical_section, spells_message_text, spells_section_text};
ghost use Rattle.imap_sections.specs.SectionTexts.{spells_part, spells_path, spells_section};
ghost use Rattle.imap_body.specs.AttributeValues.{AttributeValue as AttributeSaid, attribute_seen, attribute_value};
ghost use Rattle.imap_body.specs.AttributeValues.{ModSeq, Rfc822Size, Uid, GmailMsgId, GmailThrId};
ghost use Rattle.imap_body.specs.Changed.{lent_attribute, owned_attribute};
ghost use Rattle.imap_body.specs.SpannedAttributes.{SameWithoutEscapes, places_of_body, places_of, spanned_value};
ghost use Rattle.imap_body.specs.AttributeTexts.{canonical_attribute, canonical_attributes, spells_attributes};
ghost use Rattle.imap_body.specs.AttributeTexts.{AttributeReadsBack, ReadsEachBelow};
ghost use Rattle.imap_envelopes.specs.EnvelopeTexts.{canonical_address, canonical_addresses, canonical_envelope};
ghost use Rattle.imap_envelopes.specs.EnvelopeTexts.{spells_address, spells_addresses, spells_envelope};
ghost use Rattle.imap_bodystructure.specs.FieldTexts.{canonical_params, canonical_encoding, canonical_fields};
ghost use Rattle.imap_bodystructure.specs.FieldTexts.{spells_params, spells_encoding, spells_fields};
ghost use Rattle.imap_bodystructure.specs.ExtensionTexts.{canonical_disposition, canonical_languages};
ghost use Rattle.imap_bodystructure.specs.ExtensionTexts.{canonical_extension, canonical_ext_1part};
ghost use Rattle.imap_bodystructure.specs.ExtensionTexts.{canonical_ext_mpart, spells_disposition, spells_languages};
ghost use Rattle.imap_bodystructure.specs.ExtensionTexts.{spells_extension, spells_ext_1part, spells_ext_mpart};
ghost use Rattle.imap_bodystructure.specs.BodyTexts.{canonical_body, spells_body};
ghost use Rattle.imap_sections.specs.SectionValues as section;
ghost use Rattle.imap_sections.specs.declared.types.sections.MessageSection.TheVariants as part;
ghost use Rattle.imap_body_types.specs.declared.shapes.fields.ContentEncoding.TheVariants as encoding;
ghost use Rattle.imap_body.specs.AttributeValues.{Unknown, SaveDate};
ghost use Rattle.imap_body.specs.AttributeTexts.{spells_attribute};
ghost use Rattle.imap_body.specs.NoSpelling.{a_mailbox_alone, an_md5_alone};

use crate::attributes::{AttributeParts, AttributeSpans, AttributeValue};
use crate::spanned_attribute::SpannedAttribute;
use imap_body_types::shapes::bodies::BodyStructure as Structure;
use imap_body_types::spans::{Span, SpannedText};
use imap_body_types::{
    Address, BodyContentCommon, BodyContentSinglePart, BodyExtension, BodyParams, BodyStructure,
    ContentDisposition, ContentEncoding, ContentType, Envelope, laws,
};
use imap_sections::{MessageSection, SectionPath};
use std::borrow::{CowSlice, CowStr};

/// Each rule has one answer. Bytes that are appended change neither a value nor a denial; and where n bytes are
/// lacking, k appended ones (k < n) leave n - k lacking.
#[tactic(auto, using(imap_grammar::proofs::Stability::is_stable))]
pub fn stable()
    ensures header_list { Stable sections.header_list }
    ensures section_msgtext { Stable sections.section_msgtext }
    ensures section_text { Stable sections.section_text }
    ensures section_part { Stable sections.section_part }
    ensures section_spec { Stable sections.section_spec }
    ensures section { Stable sections.section }
    ensures byte_string { Stable envelopes.byte_string }
    ensures address { Stable envelopes.address }
    ensures addresses { Stable envelopes.addresses }
    ensures envelope { Stable envelopes.envelope }
    ensures body_param { Stable fields.body_param }
    ensures body_fld_param { Stable fields.body_fld_param }
    ensures body_fld_enc { Stable fields.body_fld_enc }
    ensures body_fields { Stable fields.body_fields }
    ensures body_fld_dsp { Stable extensions.body_fld_dsp }
    ensures body_fld_lang { Stable extensions.body_fld_lang }
    ensures extension_list { (level : ℕ) → Stable (extensions.extension_list level) }
    ensures extension { (level : ℕ) → Stable (extensions.extension level) }
    ensures body_extension { Stable extensions.body_extension }
    ensures body_ext_1part { Stable extensions.body_ext_1part }
    ensures body_ext_mpart { Stable extensions.body_ext_mpart }
    ensures body_type_text { Stable bodies.body_type_text }
    ensures body_type_msg { (level : ℕ) → Stable (bodies.body_type_msg (bodies.body level)) }
    ensures body_type_basic { Stable bodies.body_type_basic }
    ensures body_type_mpart { (level : ℕ) → Stable (bodies.body_type_mpart (bodies.body level)) }
    ensures body { (level : ℕ) → Stable (bodies.body level) }
    ensures body_structure { Stable bodies.body_structure }
    ensures msg_att_body_section { Stable attributes.msg_att_body_section }
    ensures attribute { Stable attributes.attribute }
    ensures attribute_list { Stable attributes.attribute_list }
{}

/// Bodies and extension lists nest as deep as the constants say.
pub fn limits()
    ensures body { (m : Bytes) →
        step bodies.body_structure m ≡ step (bodies.body MAX_BODY_DEPTH) m }
    ensures extension { (m : Bytes) →
        step extensions.body_extension m ≡ step (extensions.extension MAX_EXTENSION_DEPTH) m }
{}

/// What each rule takes spells the value that it yields. On the canonical text of a value that it yields, the rule
/// yields that value again, with all texts borrowed. What follows the text is left whole: any bytes that begin with `)`
/// or CR, and after an attribute also with a space. Excepted is a text too long to be written as a literal.
pub fn read_back()
    ensures section_msgtext { SpellsAndReadsBack sections.section_msgtext as_is
        canonical_section_text spells_message_text Closes }
    ensures section_text { SpellsAndReadsBack sections.section_text as_is canonical_section_text
        spells_section_text Closes }
    ensures section_part { SpellsAndReadsBack sections.section_part as_is canonical_part spells_part
        Closes }
    ensures section_spec { SpellsAndReadsBack sections.section_spec as_is canonical_path spells_path
        Closes }
    ensures section { SpellsAndReadsBack sections.section as_is canonical_section spells_section
        Closes }
    ensures address { SpellsAndReadsBack envelopes.address lent_address canonical_address
        spells_address Closes }
    ensures addresses { SpellsAndReadsBack envelopes.addresses lent_addresses canonical_addresses
        spells_addresses Closes }
    ensures envelope { SpellsAndReadsBack envelopes.envelope lent_envelope canonical_envelope
        spells_envelope Closes }
    ensures body_fld_param { SpellsAndReadsBack fields.body_fld_param lent_params canonical_params
        spells_params Closes }
    ensures body_fld_enc { SpellsAndReadsBack fields.body_fld_enc lent_encoding canonical_encoding
        spells_encoding Closes }
    ensures body_fields { SpellsAndReadsBack fields.body_fields lent_fields canonical_fields
        spells_fields Closes }
    ensures body_fld_dsp { SpellsAndReadsBack extensions.body_fld_dsp (option_map lent_disposition)
        canonical_disposition spells_disposition Closes }
    ensures body_fld_lang { SpellsAndReadsBack extensions.body_fld_lang lent_languages
        canonical_languages spells_languages Closes }
    ensures extension { (level : ℕ) →
        SpellsAndReadsBack (extensions.extension level) lent_extension canonical_extension
        spells_extension Closes }
    ensures body_extension { SpellsAndReadsBack extensions.body_extension lent_extension
        canonical_extension spells_extension Closes }
    ensures body_ext_1part { SpellsAndReadsBack extensions.body_ext_1part lent_ext_1part
        canonical_ext_1part spells_ext_1part Closes }
    ensures body_ext_mpart { SpellsAndReadsBack extensions.body_ext_mpart lent_ext_mpart
        canonical_ext_mpart spells_ext_mpart Closes }
    ensures body { (level : ℕ) →
        SpellsAndReadsBack (bodies.body level) lent_body canonical_body spells_body Closes }
    ensures body_structure { SpellsAndReadsBack bodies.body_structure lent_body canonical_body
        spells_body Closes }
    ensures msg_att_body_section { AttributeReadsBack attributes.msg_att_body_section }
    ensures attribute { AttributeReadsBack attributes.attribute }
    ensures attribute_list { SpellsAndReadsBack attributes.attribute_list (map lent_attribute)
        canonical_attributes spells_attributes Closes }
{}

/// Values that say the same have one canonical text: it doesn't depend on which of their texts are borrowed.
pub fn one_text()
    ensures address { HasOneText lent_address canonical_address }
    ensures addresses { HasOneText lent_addresses canonical_addresses }
    ensures envelope { HasOneText lent_envelope canonical_envelope }
    ensures body_fld_param { HasOneText lent_params canonical_params }
    ensures body_fld_enc { HasOneText lent_encoding canonical_encoding }
    ensures body_fields { HasOneText lent_fields canonical_fields }
    ensures body_fld_dsp { HasOneText (option_map lent_disposition) canonical_disposition }
    ensures body_fld_lang { HasOneText lent_languages canonical_languages }
    ensures body_extension { HasOneText lent_extension canonical_extension }
    ensures body_ext_1part { HasOneText lent_ext_1part canonical_ext_1part }
    ensures body_ext_mpart { HasOneText lent_ext_mpart canonical_ext_mpart }
    ensures body { HasOneText lent_body canonical_body }
    ensures attribute { HasOneText lent_attribute canonical_attribute }
    ensures attribute_list { HasOneText (map lent_attribute) canonical_attributes }
{}

/// Each number that fits is read: of 32 bits as a size or a UID, of 64 bits as a mod-sequence value or a number of
/// Gmail's. On the canonical text of the attribute with that number `attribute` yields just this, and leaves what
/// follows whole: any bytes that begin with `)`, CR or a space.
pub fn numbers()
    ensures rfc822_size { ReadsEachBelow (2 ^ 32) Rfc822Size }
    ensures uid { ReadsEachBelow (2 ^ 32) Uid }
    ensures mod_seq { ReadsEachBelow (2 ^ 64) ModSeq }
    ensures gmail_msgid { ReadsEachBelow (2 ^ 64) GmailMsgId }
    ensures gmail_thrid { ReadsEachBelow (2 ^ 64) GmailThrId }
{}

/// If `==` of texts and of bodies answers whether f, g and h say the same of both, borrowed or owned, then `==` of
/// attributes of these answers whether the two attributes say the same.
pub fn attributes_equality<S: PartialEq, B: PartialEq, Y: PartialEq>()
    ensures { (f : S → Text) (g : B → Text) (h : Y → BodyValue) →
        Tells S.eq (λ s. lent_text (f s)) →
        Tells B.eq (λ b. lent_text (g b)) →
        Tells Y.eq (λ y. lent_body (h y)) →
        Tells ⟦<AttributeParts<S, B, Y> as PartialEq>⟧.eq (λ x.
        lent_attribute (attribute_seen f g h x)) }
{}

// `==` tells body structures and attributes of spans by their positions.
fn spans_equality()
    ensures body_structure { Tells ⟦<Structure<SpannedText, Span> as PartialEq>⟧.eq (λ x.
        lent_body (places_of_body x)) }
    ensures attribute { Tells ⟦<AttributeSpans as PartialEq>⟧.eq (λ x.
        lent_attribute (places_of x)) }
{
    laws::equality::<SpannedText, Span>();
    attributes_equality::<SpannedText, Span, Box<Structure<SpannedText, Span>>>();
}

/// `==` tells whether two values say the same: texts by their bytes, whichever are borrowed. What is kept as
/// positions it tells by these, field by field, whatever they name in a message.
pub fn equality()
    ensures message_section { Tells ⟦<MessageSection as PartialEq>⟧.eq (λ x. x) }
    ensures section_path { Tells ⟦<SectionPath as PartialEq>⟧.eq path_value }
    ensures address { Tells ⟦<Address<'static> as PartialEq>⟧.eq (λ x.
        lent_address (address_seen bytes_of x)) }
    ensures envelope { Tells ⟦<Envelope<'static> as PartialEq>⟧.eq (λ x.
        lent_envelope (envelope_seen bytes_of x)) }
    ensures body_params { Tells ⟦<BodyParams<'static> as PartialEq>⟧.eq (λ x.
        lent_params (params_seen text_of x)) }
    ensures content_encoding { Tells ⟦<ContentEncoding<'static> as PartialEq>⟧.eq (λ x.
        lent_encoding (encoding_seen text_of x)) }
    ensures content_disposition { Tells ⟦<ContentDisposition<'static> as PartialEq>⟧.eq (λ x.
        lent_disposition (disposition_seen text_of x)) }
    ensures body_extension { Tells ⟦<BodyExtension<'static> as PartialEq>⟧.eq (λ x.
        lent_extension (extension_seen text_of x)) }
    ensures content_type { Tells ⟦<ContentType<'static> as PartialEq>⟧.eq (λ x.
        lent_type (type_seen text_of x)) }
    ensures content_common { Tells ⟦<BodyContentCommon<'static> as PartialEq>⟧.eq (λ x.
        lent_common (common_seen text_of x)) }
    ensures content_single_part { Tells ⟦<BodyContentSinglePart<'static> as PartialEq>⟧.eq (λ x.
        lent_single (single_seen text_of x)) }
    ensures body_structure { Tells ⟦<BodyStructure<'static> as PartialEq>⟧.eq (λ x.
        lent_body (body_seen text_of bytes_of x)) }
    ensures attribute { Tells ⟦<AttributeValue<'static> as PartialEq>⟧.eq (λ x.
        lent_attribute (attribute_value x)) }
    ensures spanned_body_structure { Tells ⟦<Structure<SpannedText, Span> as PartialEq>⟧.eq (λ x.
        lent_body (places_of_body x)) }
    ensures spanned_attribute { Tells ⟦<SpannedAttribute<SpannedText, Span> as PartialEq>⟧.eq
        spanned_value }
{
    spans_equality();
    laws::equality::<CowStr<'static>, CowSlice<'static, u8>>();
    attributes_equality::<CowStr<'static>, CowSlice<'static, u8>, BodyStructure<'static>>();
}

/// With its texts owned, an attribute says the same as the one that it was made from.
pub fn owning()
    ensures { (a : AttributeSaid) → lent_attribute (owned_attribute a) ≡ lent_attribute a }
{}

/// The owned form of an attribute doesn't depend on which of its texts are borrowed.
pub fn lending()
    ensures { (a : AttributeSaid) → owned_attribute (lent_attribute a) ≡ owned_attribute a }
{}

/// A clone takes no memory, and is the same value.
pub fn cloning()
    ensures message_section { CopiesFreely ⟦<MessageSection as Clone>⟧.is_infallible
        ⟦<MessageSection as Clone>⟧.is_clone }
{}

/// Where no `\` stands behind a `"` in its bytes, an attribute has no escape: `value` and `unescaped` say the same of
/// it (RFC 3501, section 9: quoted).
pub fn escapes()
    ensures { SameWithoutEscapes }
{}

/// Texts that don't spell the value: an address with a field too many, a field of extension data in another place, one
/// language of two, another part, and others. So no definition of spelling is wider than these allow.
pub fn no_spelling()
    ensures a_field_too_many { ¬ (spells_address (a_mailbox_alone (codes "m"))
        (codes "(NIL NIL \"m\" NIL NIL)")) }
    ensures another_field { ¬ (spells_address (a_mailbox_alone (codes "m"))
        (codes "(NIL \"m\" NIL NIL)")) }
    ensures a_field_in_another_place { ¬ (spells_ext_1part (an_md5_alone (codes "m"))
        (codes " NIL NIL NIL \"m\"")) }
    ensures nil_for_base64 { ¬ (spells_encoding encoding.Base64 (codes "NIL")) }
    ensures no_encoding { ¬ (spells_encoding encoding.SevenBit []) }
    ensures one_of_two_languages { ¬ (spells_languages
        (Some (as_text (codes "a") ∷ as_text (codes "b") ∷ [])) (codes "\"a\"")) }
    ensures a_longer_section { ¬ (spells_section (Some (section.Full part.Header))
        (codes "[HEADERS]")) }
    ensures another_part { ¬ (spells_section (Some (section.Part (1 ∷ []) None)) (codes "[2]")) }
    ensures a_name_alone { ¬ (spells_attribute Unknown (codes "X")) }
    ensures nil_for_a_date { ¬ (spells_attribute (SaveDate (Some (as_text (codes "x"))))
        (codes "SAVEDATE NIL")) }
{}
