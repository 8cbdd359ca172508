//! Access control lists.

ghost use Rattle.std.specs.Prelude.{◌≡◌, map, IfOk};
ghost use Rattle.imap_grammar.specs.Answer.{Answers, Steps};
ghost use Rattle.imap_grammar.specs.Memory.{BeginsWord, FailsOnlyIf, StartsWith};
ghost use Rattle.imap_bytes.specs.Texts.{astring_utf8 as astring_rule};
ghost use Rattle.imap_shared.specs.Rights as letters;
ghost use Rattle.imap_extensions.specs.Acls as rules;
ghost use Rattle.imap_extensions.specs.Acls.{AclMayWant, acl_entry_value, acl_value, list_rights_value};
ghost use Rattle.imap_extensions.specs.Acls.{my_rights_value};

use crate::types::acls::{Acl, AclEntry, ListRights, MyRights};
use imap_bytes::lists::{Separator, maybe_separated};
use imap_bytes::tags::{blanks0, blanks1, word};
use imap_bytes::{IResult, astring_utf8};
use imap_shared::AclRight;
use imap_shared::readers::mailboxes::mailbox;
use imap_shared::readers::rights::rights;
use std::alloc::{AllocError, Global};

// An identifier and its rights. It takes memory only where an identifier stands.
#[tactic(auto, unfolding(crate::specs::Acls::acl_entry))]
pub(crate) fn acl_entry(alloc: Global, i: &[u8]) -> IResult<&[u8], AclEntry<'_>>
    ensures steps { Steps rules.acl_entry acl_entry_value i.now result }
    ensures memory { FailsOnlyIf (StartsWith astring_rule i.now) result }
{
    let (rest, identifier) = astring_utf8(alloc, i)?;
    let (rest, _) = blanks1(rest)?;
    let (rest, rights) = rights(alloc, rest)?;
    Ok((rest, AclEntry { identifier, rights }))
}

fn acl_entries(alloc: Global, i: &[u8]) -> IResult<&[u8], Vec<AclEntry<'_>>>
    ensures steps { Steps rules.acl_entries (λ x. map acl_entry_value x.items) i.now result }
    ensures memory { FailsOnlyIf (StartsWith astring_rule i.now) result }
{
    let entry = |i|
        ensures steps { Steps rules.acl_entry acl_entry_value i.entry.now result }
        ensures memory { FailsOnlyIf (StartsWith astring_rule i.entry.now) result }
    { acl_entry(alloc, i) };
    maybe_separated(alloc, Separator::Blanks, entry, i)
}

/// `ACL`, a mailbox, and the rights of each identifier on it, maybe of none (RFC 4314, section 7: acl-data).
///
/// Any other word, or no mailbox behind it, is `Error`; the entries end before one that is denied. It takes memory only
/// behind `ACL`: for a mailbox that is not UTF-8, and where an identifier stands behind the mailbox.
#[tactic(auto, using(imap_grammar::proofs::Agreement::answered), unfolding(crate::specs::Acls::acl))]
pub fn acl(alloc: Global, i: &[u8]) -> IResult<&[u8], Acl<'_>>
    ensures steps { Steps rules.acl acl_value i.now result }
    ensures answer { Answers rules.acl acl_value i.now result }
    ensures memory { FailsOnlyIf (AclMayWant i.now) result }
{
    let (rest, _) = word(b"ACL", i)?;
    let (rest, _) = blanks1(rest)?;
    let (rest, mailbox) = mailbox(alloc, rest)?;
    let (rest, _) = blanks0(rest)?;
    let (rest, acls) = acl_entries(alloc, rest)?;
    Ok((rest, Acl { mailbox, acls }))
}

fn right_groups(alloc: Global, i: &[u8]) -> IResult<&[u8], Vec<Vec<AclRight>>>
    ensures { Steps rules.right_groups (λ x. map (λ group. group.items) x.items) i.now result }
{
    let group = |i|
        ensures { Steps letters.rights (λ x. x.items) i.entry.now result }
    { rights(alloc, i) };
    maybe_separated(alloc, Separator::Blanks, group, i)
}

fn joined(alloc: Global, groups: Vec<Vec<AclRight>>) -> Result<Vec<AclRight>, AllocError>
    ensures { IfOk result (λ v. v.items ≡ rules.joined (map (λ group. group.items) groups.items)) }
{
    let mut rights = Vec::new(alloc);
    for group in groups {
        rights.extend_from_slice(&group)?;
    }
    Ok(rights)
}

#[tactic(auto, unfolding(crate::specs::Acls::optional_rights))]
fn optional_rights(alloc: Global, i: &[u8]) -> IResult<&[u8], Vec<AclRight>>
    ensures { Steps rules.optional_rights (λ x. x.items) i.now result }
{
    let (rest, _) = blanks0(i)?;
    let (rest, groups) = right_groups(alloc, rest)?;
    Ok((rest, joined(alloc, groups)?))
}

#[tactic(auto, unfolding(crate::specs::Acls::list_rights))]
fn list_rights_parts(alloc: Global, i: &[u8]) -> IResult<&[u8], ListRights<'_>>
    ensures steps { Steps rules.list_rights list_rights_value i.now result }
    ensures memory { FailsOnlyIf (BeginsWord "LISTRIGHTS" i.now) result }
{
    let (rest, _) = word(b"LISTRIGHTS", i)?;
    let (rest, _) = blanks1(rest)?;
    let (rest, mailbox) = mailbox(alloc, rest)?;
    let (rest, _) = blanks1(rest)?;
    let (rest, identifier) = astring_utf8(alloc, rest)?;
    let (rest, _) = blanks1(rest)?;
    let (rest, required) = rights(alloc, rest)?;
    let (rest, optional) = optional_rights(alloc, rest)?;
    Ok((
        rest,
        ListRights {
            mailbox,
            identifier,
            required,
            optional,
        },
    ))
}

/// `LISTRIGHTS`, a mailbox, an identifier, the rights that it always has there, and those that it may be granted, in
/// order (RFC 4314, section 7: listrights-data).
///
/// Any other word, or a part that is missing, is `Error`. It takes memory only behind `LISTRIGHTS`, for them, and for
/// texts that are not UTF-8.
#[tactic(auto, using(imap_grammar::proofs::Agreement::answered))]
pub fn list_rights(alloc: Global, i: &[u8]) -> IResult<&[u8], ListRights<'_>>
    ensures steps { Steps rules.list_rights list_rights_value i.now result }
    ensures answer { Answers rules.list_rights list_rights_value i.now result }
    ensures memory { FailsOnlyIf (BeginsWord "LISTRIGHTS" i.now) result }
{
    list_rights_parts(alloc, i)
}

#[tactic(auto, unfolding(crate::specs::Acls::my_rights))]
fn my_rights_parts(alloc: Global, i: &[u8]) -> IResult<&[u8], MyRights<'_>>
    ensures steps { Steps rules.my_rights my_rights_value i.now result }
    ensures memory { FailsOnlyIf (BeginsWord "MYRIGHTS" i.now) result }
{
    let (rest, _) = word(b"MYRIGHTS", i)?;
    let (rest, _) = blanks1(rest)?;
    let (rest, mailbox) = mailbox(alloc, rest)?;
    let (rest, _) = blanks1(rest)?;
    let (rest, rights) = rights(alloc, rest)?;
    Ok((rest, MyRights { mailbox, rights }))
}

/// `MYRIGHTS`, a mailbox, and the client's own rights on it (RFC 4314, section 7: myrights-data).
///
/// Any other word, or a part that is missing, is `Error`. It takes memory only behind `MYRIGHTS`, for them, and for
/// texts that are not UTF-8.
#[tactic(auto, using(imap_grammar::proofs::Agreement::answered))]
pub fn my_rights(alloc: Global, i: &[u8]) -> IResult<&[u8], MyRights<'_>>
    ensures steps { Steps rules.my_rights my_rights_value i.now result }
    ensures answer { Answers rules.my_rights my_rights_value i.now result }
    ensures memory { FailsOnlyIf (BeginsWord "MYRIGHTS" i.now) result }
{
    my_rights_parts(alloc, i)
}
