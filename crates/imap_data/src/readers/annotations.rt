//! METADATA: annotations of mailboxes.

ghost use Rattle.std.specs.Prelude.{◌≡◌, map, option_map, IfOk};
ghost use Rattle.std.specs.List.{list_all};
ghost use Rattle.std.specs.String.{string_bytes};
ghost use Rattle.imap_grammar.specs.Answer.{Answers, Steps, StepsExactly};
ghost use Rattle.imap_grammar.specs.Memory.{BeginsWord, StartsWith, FailsOnlyIf};
ghost use Rattle.imap_grammar.specs.Text.{text_of, IsOwned};
ghost use Rattle.imap_bytes.specs.Texts.{FailsForOwned};
ghost use Rattle.imap_data.specs.Annotations as rules;
ghost use Rattle.imap_data.specs.AnnotationValues.{metadata_value};
ghost use Rattle.imap_data.specs.DatumValues.{datum_value};

use crate::types::annotations::Metadata;
use crate::types::mailbox_data::MailboxDatum;
use imap_bytes::lists::{Separator, separated, tried};
use imap_bytes::tags::{tag, word};
use imap_bytes::texts::decode;
use imap_bytes::{Err, IResult, astring, nstring_utf8, parenthesized_nonempty_list, quoted_utf8};
use std::alloc::{AllocError, Global};
use std::borrow::CowStr;

fn is_component_byte(byte: u8) -> bool
    ensures { result ≡ rules.is_component_byte byte }
{
    matches!(byte, 26..128) && !matches!(byte, b'*' | b'%' | b'/')
}

fn is_path_byte(byte: u8) -> bool
    ensures { result ≡ rules.is_path_byte byte }
{
    byte == b'/' || is_component_byte(byte)
}

fn are_path_bytes(bytes: &[u8]) -> bool
    ensures { result ≡ list_all rules.is_path_byte (rules.first_line bytes.now) }
{
    bytes
        .iter()
        .take_while(|byte| **byte != b'\r')
        .all(|byte| is_path_byte(*byte))
}

fn is_path(bytes: &[u8]) -> bool
    ensures { result ≡ rules.is_path bytes.now }
{
    match bytes {
        [] => true,
        [b' ' | b'\r', ..] => true,
        [b'/', ..] => are_path_bytes(bytes),
        _ => false,
    }
}

fn has_component(bytes: &[u8]) -> bool
    ensures { result ≡ rules.has_component bytes.now }
{
    match bytes {
        [b'/', byte, ..] => is_component_byte(*byte),
        _ => false,
    }
}

fn behind<'a>(word: &[u8], bytes: &'a [u8]) -> Option<&'a [u8]>
    ensures { option_map (λ x. x.now) result ≡ rules.behind word.now bytes.now }
{
    bytes.strip_prefix(word)
}

fn is_comment(bytes: &[u8]) -> bool
    ensures { result ≡ rules.is_comment bytes.now }
{
    match behind(b"/comment", bytes) {
        Some(path) => is_path(path),
        None => false,
    }
}

fn is_vendor(bytes: &[u8]) -> bool
    ensures { result ≡ rules.is_vendor bytes.now }
{
    match behind(b"/vendor", bytes) {
        Some(path) => has_component(path) && is_path(path),
        None => false,
    }
}

fn is_comment_or_vendor(bytes: &[u8]) -> bool
    ensures { result ≡ rules.is_comment_or_vendor bytes.now }
{
    is_comment(bytes) || is_vendor(bytes)
}

fn is_private(bytes: &[u8]) -> bool
    ensures { result ≡ rules.is_private bytes.now }
{
    match behind(b"/private", bytes) {
        Some(name) => is_comment_or_vendor(name),
        None => false,
    }
}

fn is_admin(bytes: &[u8]) -> bool
    ensures { result ≡ rules.is_admin bytes.now }
{
    match behind(b"/shared/admin", bytes) {
        Some(path) => is_path(path),
        None => false,
    }
}

fn is_shared(bytes: &[u8]) -> bool
    ensures { result ≡ rules.is_shared bytes.now }
{
    match behind(b"/shared", bytes) {
        Some(name) => is_comment_or_vendor(name),
        None => false,
    }
}

fn is_entry_name(bytes: &[u8]) -> bool
    ensures { result ≡ rules.is_entry_name bytes.now }
{
    is_private(bytes) || is_admin(bytes) || is_shared(bytes)
}

// An astring that is an entry's name.
#[tactic(auto, unfolding(crate::specs::Annotations::entry))]
fn entry(i: &[u8]) -> IResult<&[u8], &[u8]>
    ensures { StepsExactly rules.entry (λ x. x.now) i.now result }
{
    let (rest, name) = astring(i)?;
    if !is_entry_name(name) {
        return Err(Err::Error);
    }
    Ok((rest, name))
}

// An entry's name as text; any other astring is denied.
#[tactic(auto, unfolding(crate::specs::Annotations::entry_utf8))]
fn entry_utf8(alloc: Global, i: &[u8]) -> IResult<&[u8], CowStr<'_>>
    ensures steps { Steps rules.entry_utf8 text_of i.now result }
    ensures memory { FailsOnlyIf (StartsWith rules.entry i.now) result }
{
    let (rest, name) = entry(i)?;
    Ok((rest, decode(alloc, name)?))
}

fn owned_string(alloc: Global, text: CowStr<'_>) -> Result<String, AllocError>
    ensures { IfOk result (λ s. string_bytes s ≡ rules.bytes_in (text_of text.entry)) }
{
    text.into_owned(alloc)
}

fn owned_value(alloc: Global, value: Option<CowStr<'_>>) -> Result<Option<String>, AllocError>
    ensures { IfOk result (λ v.
        option_map string_bytes v ≡ option_map rules.bytes_in (option_map text_of value.entry)) }
{
    match value {
        None => Ok(None),
        Some(text) => Ok(Some(owned_string(alloc, text)?)),
    }
}

// An entry and its value, both owned.
#[tactic(auto, unfolding(crate::specs::Annotations::annotation))]
fn annotation(alloc: Global, i: &[u8]) -> IResult<&[u8], Metadata>
    ensures { Steps rules.annotation metadata_value i.now result }
{
    let (rest, entry) = entry_utf8(alloc, i)?;
    let (rest, _) = tag(b" ", rest)?;
    let (rest, value) = nstring_utf8(alloc, rest)?;
    let entry = owned_string(alloc, entry)?;
    let value = owned_value(alloc, value)?;
    Ok((rest, Metadata { entry, value }))
}

#[tactic(auto, unfolding(crate::specs::Annotations::metadata_mailbox))]
fn metadata_mailbox_parts(alloc: Global, i: &[u8]) -> IResult<&[u8], CowStr<'_>>
    ensures steps { Steps rules.metadata_mailbox text_of i.now result }
    ensures memory { FailsForOwned IsOwned rules.quoted_mailbox i.now result }
{
    let (rest, _) = word(b"METADATA ", i)?;
    let (rest, mailbox) = quoted_utf8(alloc, rest)?;
    let (rest, _) = tag(b" ", rest)?;
    Ok((rest, mailbox))
}

/// `METADATA`, the mailbox in quotes, empty for the server, and a space: what stands before annotations or entries
/// (RFC 5464, section 5: metadata-resp).
///
/// Any other word, a mailbox without quotes, or no space behind it, is `Error`. It takes memory only behind `METADATA`,
/// where the mailbox is not UTF-8.
#[tactic(auto, using(imap_grammar::proofs::Agreement::answered))]
pub fn metadata_mailbox(alloc: Global, i: &[u8]) -> IResult<&[u8], CowStr<'_>>
    ensures steps { Steps rules.metadata_mailbox text_of i.now result }
    ensures answer { Answers rules.metadata_mailbox text_of i.now result }
    ensures memory { FailsForOwned IsOwned rules.quoted_mailbox i.now result }
{
    metadata_mailbox_parts(alloc, i)
}

/// Annotations with their values in parentheses, at least one (RFC 5464, section 5: entry-values).
///
/// A name is `/private/comment`, `/shared/comment` or `/shared/admin`, and after it nothing, a path, or a space or CR
/// and anything; or it is `/private/vendor` or `/shared/vendor`, and a path whose first component is not empty. A path
/// is `/` and bytes from 26 to 127 without `*` and `%`, and may end with a CR and anything. Any other name is `Error`.
///
/// It takes memory for the list, and for each entry and value.
pub fn annotations(alloc: Global, i: &[u8]) -> IResult<&[u8], Vec<Metadata>>
    ensures steps { Steps rules.annotations (λ x. map metadata_value x.items) i.now result }
    ensures answer { Answers rules.annotations (λ x. map metadata_value x.items) i.now result }
{
    let item = |i|
        ensures { Steps rules.annotation metadata_value i.entry.now result }
    { annotation(alloc, i) };
    parenthesized_nonempty_list(alloc, item, i)
}

/// Names of entries, a space between, maybe none (RFC 5464, section 5: entry-list).
///
/// It ends before a name that `annotations` denies, and before the space in front of that name. It takes memory only
/// where a name stands in front: for the list, and for texts that are not UTF-8.
pub fn entries(alloc: Global, i: &[u8]) -> IResult<&[u8], Vec<CowStr<'_>>>
    ensures steps { Steps rules.entries (λ x. map text_of x.items) i.now result }
    ensures answer { Answers rules.entries (λ x. map text_of x.items) i.now result }
    ensures memory { FailsOnlyIf (StartsWith rules.entry i.now) result }
{
    let item = |i|
        ensures steps { Steps rules.entry_utf8 text_of i.entry.now result }
        ensures memory { FailsOnlyIf (StartsWith rules.entry i.entry.now) result }
    { entry_utf8(alloc, i) };
    match tried(separated(alloc, Separator::Space, item, i))? {
        Some(found) => Ok(found),
        None => Ok((i, Vec::new(alloc))),
    }
}

/// Annotations with their values, at least one: METADATA as a response to GETMETADATA (RFC 5464, section 4.4.1).
///
/// Any other word, a mailbox without quotes, or no space behind it, is `Error`. Which names an entry may have is said
/// at `annotations`; any other is `Error`, too. It takes memory only behind
/// `METADATA`, for the list, for each entry and value, and for a mailbox that is not UTF-8.
#[tactic(auto, using(imap_grammar::proofs::Agreement::answered), unfolding(crate::proofs::Rules::annotation_rules))]
pub fn metadata_solicited(alloc: Global, i: &[u8]) -> IResult<&[u8], MailboxDatum<'_>>
    ensures steps { Steps rules.metadata_solicited datum_value i.now result }
    ensures answer { Answers rules.metadata_solicited datum_value i.now result }
    ensures memory { FailsOnlyIf (BeginsWord "METADATA " i.now) result }
{
    let (rest, mailbox) = metadata_mailbox(alloc, i)?;
    let (rest, values) = annotations(alloc, rest)?;
    Ok((rest, MailboxDatum::MetadataSolicited { mailbox, values }))
}

/// Entries that changed, maybe none: METADATA that the server sends by itself (RFC 5464, section 4.4.2).
///
/// Any other word, a mailbox without quotes, or no space behind it, is `Error`. The list ends before a name that no
/// entry may have (`annotations`). It takes memory only behind `METADATA`, for
/// the list, and for texts that are not UTF-8.
#[tactic(auto, using(imap_grammar::proofs::Agreement::answered), unfolding(crate::proofs::Rules::annotation_rules))]
pub fn metadata_unsolicited(alloc: Global, i: &[u8]) -> IResult<&[u8], MailboxDatum<'_>>
    ensures steps { Steps rules.metadata_unsolicited datum_value i.now result }
    ensures answer { Answers rules.metadata_unsolicited datum_value i.now result }
    ensures memory { FailsOnlyIf (BeginsWord "METADATA " i.now) result }
{
    let (rest, mailbox) = metadata_mailbox(alloc, i)?;
    let (rest, values) = entries(alloc, rest)?;
    Ok((rest, MailboxDatum::MetadataUnsolicited { mailbox, values }))
}
