//! Laws of the rules of this crate, of `imap_shared` and of `imap_extensions`, and of the types of this crate, as
//! contracts of functions that do nothing. Those of the types of the other two are in their own `laws`.

ghost use Rattle.imap_grammar.specs.Stable.{Stable};
ghost use Rattle.imap_grammar.specs.Equality.{Tells};
ghost use Rattle.imap_grammar.specs.Copying.{CopiesFreely};
ghost use Rattle.imap_shared.specs.Statuses as statuses;
ghost use Rattle.imap_shared.specs.Flags as flags;
ghost use Rattle.imap_shared.specs.Capabilities as capabilities;
ghost use Rattle.imap_shared.specs.UidSets as uid_sets;
ghost use Rattle.imap_data.specs.Codes as codes;
ghost use Rattle.imap_data.specs.Codes.{CodeValue, code_content, lent_code};
ghost use Rattle.imap_shared.specs.Mailboxes as mailboxes;
ghost use Rattle.imap_data.specs.Names as names;
ghost use Rattle.imap_data.specs.Counts as counts;
ghost use Rattle.imap_shared.specs.Gmail as gmail;
ghost use Rattle.imap_data.specs.MailboxData as mailbox_data;
ghost use Rattle.imap_data.specs.Names.{NameAttributeValue, ListValue, name_attribute_content, list_content};
ghost use Rattle.imap_data.specs.Names.{lent_name_attribute, lent_list};
ghost use Rattle.imap_data.specs.DatumValues.{DatumValue, datum_content, lent_datum};
ghost use Rattle.imap_data.specs.Annotations as annotations;
ghost use Rattle.imap_data.specs.AnnotationValues.{metadata_value};
ghost use Rattle.imap_extensions.specs.Quotas as quotas;
ghost use Rattle.imap_extensions.specs.Ids as ids;
ghost use Rattle.imap_extensions.specs.Vanishings as vanishings;
ghost use Rattle.imap_shared.specs.Rights as rights;
ghost use Rattle.imap_extensions.specs.Acls as acls;
ghost use Rattle.std.specs.Prelude.{◌≡◌, ◌∷◌, [], Some, map, option_map};
ghost use Rattle.std.specs.Prelude.{codes as bytes};
ghost use Rattle.std.specs.List.{AllByRecursion};
ghost use Rattle.imap_grammar.specs.Text.{as_text, lent_text};
ghost use Rattle.imap_grammar.specs.Ranges.{fresh};
ghost use Rattle.imap_grammar.specs.ReadBack.{SpellsAndReadsBack, HasOneText, Closes, EndsItem, as_is};
ghost use Rattle.imap_shared.specs.Capabilities.{lent_capability};
ghost use Rattle.imap_shared.specs.StatusTexts.{canonical_status, spells_status};
ghost use Rattle.imap_shared.specs.FlagTexts.{canonical_flag, spells_flag, spells_flag_perm, canonical_flag_list};
ghost use Rattle.imap_shared.specs.FlagTexts.{spells_flag_list};
ghost use Rattle.imap_shared.specs.GmailTexts.{canonical_label_list, spells_label_list, canonical_msgid, spells_msgid};
ghost use Rattle.imap_shared.specs.GmailTexts.{canonical_thrid, spells_thrid};
ghost use Rattle.imap_shared.specs.CapabilityTexts.{canonical_capabilities, spells_capability_data};
ghost use Rattle.imap_shared.specs.CapabilityTexts.{spells_enabled_data};
ghost use Rattle.imap_shared.specs.UidSetTexts.{canonical_uid_set, spells_uid_set};
ghost use Rattle.imap_shared.specs.MailboxTexts.{canonical_mailbox, spells_mailbox};
ghost use Rattle.imap_shared.specs.RightTexts.{canonical_rights, spells_rights};
ghost use Rattle.imap_extensions.specs.Quotas.{lent_quota, lent_quota_root};
ghost use Rattle.imap_extensions.specs.Ids.{lent_id, map_of_pairs};
ghost use Rattle.imap_extensions.specs.IdTexts.{spells_params};
ghost use Rattle.imap_shared.specs.declared.types.statuses.Status.TheVariants as status;
ghost use Rattle.imap_extensions.specs.Acls.{lent_acl, lent_list_rights, lent_my_rights};
ghost use Rattle.imap_data.specs.Owned.{owned_code, owned_name_attribute, owned_list, owned_datum};
ghost use Rattle.imap_data.specs.Constants.{IsReadBy, status_texts, capability_texts, code_texts, name_attribute_texts};
ghost use Rattle.imap_data.specs.Constants.{resource_texts};
ghost use Rattle.imap_data.specs.CodeTexts.{canonical_response_code, spells_response_code};
ghost use Rattle.imap_data.specs.MailboxDataTexts.{canonical_datum, spells_datum};
ghost use Rattle.imap_extensions.specs.QuotaTexts.{canonical_quota, spells_quota, canonical_quota_root};
ghost use Rattle.imap_extensions.specs.QuotaTexts.{spells_quota_root};
ghost use Rattle.imap_extensions.specs.IdTexts.{canonical_id, spells_id};
ghost use Rattle.imap_extensions.specs.VanishingTexts.{canonical_vanished, spells_vanished};
ghost use Rattle.imap_data.specs.AnnotationTexts.{canonical_metadata, canonical_annotations, canonical_entries};
ghost use Rattle.imap_data.specs.AnnotationTexts.{spells_metadata, spells_annotations, spells_entries};
ghost use Rattle.imap_extensions.specs.AclTexts.{canonical_acl, spells_acl, canonical_list_rights, spells_list_rights};
ghost use Rattle.imap_extensions.specs.AclTexts.{canonical_my_rights, spells_my_rights};

use crate::types::annotations::Metadata;
use crate::types::codes::ResponseCode;
use crate::types::counts::StatusAttribute;
use crate::types::mailbox_data::MailboxDatum;
use crate::types::names::{MailboxListData, NameAttribute};
pub use imap_shared::laws::conversions;

/// Each rule has one answer. Bytes that are appended change neither a value nor a denial; and where n bytes are
/// lacking, k appended ones (k < n) leave n - k lacking.
#[tactic(auto, using(imap_grammar::proofs::Stability::is_stable))]
pub fn stable()
    ensures status { Stable statuses.status }
    ensures backslashed_text { Stable flags.backslashed_text }
    ensures flag { Stable flags.flag }
    ensures flag_perm { Stable flags.flag_perm }
    ensures flag_text { Stable flags.flag_text }
    ensures flag_list { Stable flags.flag_list }
    ensures capability { Stable capabilities.capability }
    ensures capability_data { Stable capabilities.capability_data }
    ensures enabled_data { Stable capabilities.enabled_data }
    ensures uid_set { Stable uid_sets.uid_set }
    ensures response_code { Stable codes.response_code }
    ensures mailbox { Stable mailboxes.mailbox }
    ensures name_attribute { Stable names.name_attribute }
    ensures list_data { Stable names.list_data }
    ensures status_item { Stable counts.status_item }
    ensures gmail_label_list { Stable gmail.gmail_label_list }
    ensures gmail_msgid { Stable gmail.gmail_msgid }
    ensures gmail_thrid { Stable gmail.gmail_thrid }
    ensures mailbox_datum { Stable mailbox_data.mailbox_datum }
    ensures list_or_lsub { Stable mailbox_data.list_or_lsub }
    ensures quota_resource { Stable quotas.quota_resource }
    ensures quota { Stable quotas.quota }
    ensures quota_root { Stable quotas.quota_root }
    ensures id_pair { Stable ids.id_pair }
    ensures id { Stable ids.id }
    ensures vanished { Stable vanishings.vanished }
    ensures rights { Stable rights.rights }
    ensures acl_entry { Stable acls.acl_entry }
    ensures acl { Stable acls.acl }
    ensures list_rights { Stable acls.list_rights }
    ensures my_rights { Stable acls.my_rights }
    ensures entry { Stable annotations.entry }
    ensures metadata_mailbox { Stable annotations.metadata_mailbox }
    ensures annotations { Stable annotations.annotations }
    ensures entries { Stable annotations.entries }
    ensures metadata_solicited { Stable annotations.metadata_solicited }
    ensures metadata_unsolicited { Stable annotations.metadata_unsolicited }
{}

/// `==` tells whether two values say the same: texts by their bytes, whichever are borrowed.
#[tactic(auto, using(crate::proofs::Codes::code_tells))]
pub fn equality()
    ensures metadata { Tells ⟦<Metadata as PartialEq>⟧.eq metadata_value }
    ensures response_code { Tells ⟦<ResponseCode<'static> as PartialEq>⟧.eq code_content }
    ensures name_attribute { Tells ⟦<NameAttribute<'static> as PartialEq>⟧.eq name_attribute_content }
    ensures list_data { Tells ⟦<MailboxListData<'static> as PartialEq>⟧.eq list_content }
    ensures status_item { Tells ⟦<StatusAttribute as PartialEq>⟧.eq (λ x. x) }
    ensures mailbox_datum { Tells ⟦<MailboxDatum<'static> as PartialEq>⟧.eq datum_content }
{}

/// A clone of an item of STATUS takes no memory, and is the same value.
pub fn cloning()
    ensures status_item { CopiesFreely ⟦<StatusAttribute as Clone>⟧.is_infallible
        ⟦<StatusAttribute as Clone>⟧.is_clone }
{}

/// Each value that holds nothing is read from its text, each letter in either case, whatever follows that.
pub fn constants()
    ensures status { AllByRecursion (IsReadBy statuses.status) status_texts }
    ensures capability { AllByRecursion (IsReadBy capabilities.capability) capability_texts }
    ensures response_code { AllByRecursion (IsReadBy codes.response_code) code_texts }
    ensures name_attribute { AllByRecursion (IsReadBy names.name_attribute) name_attribute_texts }
    ensures quota_resource_name { AllByRecursion (IsReadBy quotas.quota_resource_name)
        resource_texts }
{}

/// An owned value says the same as the value that it was made from.
pub fn owning()
    ensures response_code { (c : CodeValue) → lent_code (owned_code c) ≡ lent_code c }
    ensures name_attribute { (a : NameAttributeValue) →
        lent_name_attribute (owned_name_attribute a) ≡ lent_name_attribute a }
    ensures list_data { (l : ListValue) → lent_list (owned_list l) ≡ lent_list l }
    ensures mailbox_datum { (d : DatumValue) → lent_datum (owned_datum d) ≡ lent_datum d }
{}

/// The owned form of a value doesn't depend on which of its texts are borrowed.
pub fn lending()
    ensures response_code { (c : CodeValue) → owned_code (lent_code c) ≡ owned_code c }
    ensures name_attribute { (a : NameAttributeValue) →
        owned_name_attribute (lent_name_attribute a) ≡ owned_name_attribute a }
    ensures list_data { (l : ListValue) → owned_list (lent_list l) ≡ owned_list l }
    ensures mailbox_datum { (d : DatumValue) → owned_datum (lent_datum d) ≡ owned_datum d }
{}

/// What each rule takes spells the value that it yields. On the canonical text of a value that it yields, the rule
/// yields that value again, with all texts borrowed. What follows the text is left whole: any bytes that begin with `)`
/// or CR, and for statuses, response codes, flags and Gmail's items also with a space. Excepted is a text too long to
/// be written as a literal.
pub fn read_back()
    ensures status { SpellsAndReadsBack statuses.status as_is canonical_status spells_status
        EndsItem }
    ensures flag { SpellsAndReadsBack flags.flag as_is canonical_flag spells_flag EndsItem }
    ensures flag_perm { SpellsAndReadsBack flags.flag_perm as_is canonical_flag spells_flag_perm
        EndsItem }
    ensures flag_list { SpellsAndReadsBack flags.flag_list (map lent_text) canonical_flag_list
        spells_flag_list EndsItem }
    ensures gmail_label_list { SpellsAndReadsBack gmail.gmail_label_list (map lent_text)
        canonical_label_list spells_label_list EndsItem }
    ensures gmail_msgid { SpellsAndReadsBack gmail.gmail_msgid as_is canonical_msgid spells_msgid
        EndsItem }
    ensures gmail_thrid { SpellsAndReadsBack gmail.gmail_thrid as_is canonical_thrid spells_thrid
        EndsItem }
    ensures capability_data { SpellsAndReadsBack capabilities.capability_data (map lent_capability)
        canonical_capabilities spells_capability_data Closes }
    ensures enabled_data { SpellsAndReadsBack capabilities.enabled_data (map lent_capability)
        canonical_capabilities spells_enabled_data Closes }
    ensures uid_set { SpellsAndReadsBack uid_sets.uid_set as_is canonical_uid_set spells_uid_set
        Closes }
    ensures mailbox { SpellsAndReadsBack mailboxes.mailbox lent_text canonical_mailbox
        spells_mailbox Closes }
    ensures response_code { SpellsAndReadsBack codes.response_code lent_code canonical_response_code
        spells_response_code EndsItem }
    ensures mailbox_datum { SpellsAndReadsBack mailbox_data.mailbox_datum lent_datum
        canonical_datum spells_datum Closes }
    ensures list_or_lsub { SpellsAndReadsBack mailbox_data.list_or_lsub lent_datum canonical_datum
        spells_datum Closes }
    ensures quota { SpellsAndReadsBack quotas.quota lent_quota canonical_quota spells_quota Closes }
    ensures quota_root { SpellsAndReadsBack quotas.quota_root lent_quota_root canonical_quota_root
        spells_quota_root Closes }
    ensures id { SpellsAndReadsBack ids.id (option_map lent_id) canonical_id spells_id Closes }
    ensures vanished { SpellsAndReadsBack vanishings.vanished as_is canonical_vanished
        spells_vanished Closes }
    ensures metadata_mailbox { SpellsAndReadsBack annotations.metadata_mailbox lent_text
        canonical_metadata spells_metadata Closes }
    ensures annotations { SpellsAndReadsBack annotations.annotations as_is canonical_annotations
        spells_annotations Closes }
    ensures entries { SpellsAndReadsBack annotations.entries (map lent_text) canonical_entries
        spells_entries Closes }
    ensures metadata_solicited { SpellsAndReadsBack annotations.metadata_solicited lent_datum
        canonical_datum spells_datum Closes }
    ensures metadata_unsolicited { SpellsAndReadsBack annotations.metadata_unsolicited lent_datum
        canonical_datum spells_datum Closes }
    ensures rights { SpellsAndReadsBack rights.rights as_is canonical_rights spells_rights Closes }
    ensures acl { SpellsAndReadsBack acls.acl lent_acl canonical_acl spells_acl Closes }
    ensures list_rights { SpellsAndReadsBack acls.list_rights lent_list_rights canonical_list_rights
        spells_list_rights Closes }
    ensures my_rights { SpellsAndReadsBack acls.my_rights lent_my_rights canonical_my_rights
        spells_my_rights Closes }
{}

/// Values that say the same have one canonical text: it doesn't depend on which of their texts are borrowed. Rules
/// whose values hold no text, or each text borrowed, have no clause.
pub fn one_text()
    ensures flag_list { HasOneText (map lent_text) canonical_flag_list }
    ensures gmail_label_list { HasOneText (map lent_text) canonical_label_list }
    ensures capabilities { HasOneText (map lent_capability) canonical_capabilities }
    ensures mailbox { HasOneText lent_text canonical_mailbox }
    ensures response_code { HasOneText lent_code canonical_response_code }
    ensures mailbox_datum { HasOneText lent_datum canonical_datum }
    ensures quota { HasOneText lent_quota canonical_quota }
    ensures quota_root { HasOneText lent_quota_root canonical_quota_root }
    ensures id { HasOneText (option_map lent_id) canonical_id }
    ensures metadata_mailbox { HasOneText lent_text canonical_metadata }
    ensures entries { HasOneText (map lent_text) canonical_entries }
    ensures acl { HasOneText lent_acl canonical_acl }
    ensures list_rights { HasOneText lent_list_rights canonical_list_rights }
    ensures my_rights { HasOneText lent_my_rights canonical_my_rights }
{}

/// Texts that don't spell the value: another status, a flag in another case, an ID whose last value is another, a code
/// with two spaces, and others. So no definition of spelling is wider than these allow.
pub fn no_spelling()
    ensures another_status { ¬ (spells_status status.Ok (bytes "NO")) }
    ensures a_longer_word { ¬ (spells_status status.Ok (bytes "OKAY")) }
    ensures another_case { ¬ (spells_flag_list (as_text (bytes "\\Seen") ∷ []) (bytes "(\\seen)")) }
    ensures no_revision { ¬ (spells_capability_data
        (capabilities.Atom (as_text (bytes "X")) ∷ []) (bytes "CAPABILITY X")) }
    ensures a_revision_turned_on { ¬ (spells_enabled_data (capabilities.Imap4rev1 ∷ [])
        (bytes "ENABLED IMAP4rev1")) }
    ensures another_end { ¬ (spells_uid_set (uid_sets.UidRange (fresh 2 4) ∷ []) (bytes "2:5")) }
    ensures a_single_uid { ¬ (spells_uid_set (uid_sets.UidRange (fresh 2 2) ∷ []) (bytes "2")) }
    ensures a_longer_inbox { ¬ (spells_mailbox (as_text (bytes "INBOX")) (bytes "INBOXX")) }
    ensures a_lower_inbox { ¬ (spells_mailbox (as_text (bytes "inbox")) (bytes "inbox")) }
    ensures another_last_value { ¬ (spells_params
        (Some (map_of_pairs ((as_text (bytes "a"), Some (as_text (bytes "1"))) ∷ [])))
        (bytes "(\"a\" \"1\" \"a\" \"2\")")) }
    ensures another_key { ¬ (spells_params
        (Some (map_of_pairs ((as_text (bytes "a"), Some (as_text (bytes "1"))) ∷ [])))
        (bytes "(\"b\" \"1\")")) }
    ensures two_spaces { ¬ (spells_response_code (codes.UidNext 1) (bytes "[UIDNEXT  1]")) }
{}
