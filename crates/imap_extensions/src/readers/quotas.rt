//! Quotas.

ghost use Rattle.std.specs.Prelude.{map};
ghost use Rattle.imap_grammar.specs.Answer.{Answers, Steps};
ghost use Rattle.imap_grammar.specs.Memory.{BeginsWord, FailsOnlyIf};
ghost use Rattle.imap_grammar.specs.Text.{text_of};
ghost use Rattle.imap_extensions.specs.Quotas as quotas;
ghost use Rattle.imap_extensions.specs.Quotas.{quota_resource_name_value, quota_resource_value, quota_value};
ghost use Rattle.imap_extensions.specs.Quotas.{quota_root_value};

use crate::types::quotas::{Quota, QuotaResource, QuotaResourceName, QuotaRoot};
use imap_bytes::lists::{Separator, maybe_separated, repeated};
use imap_bytes::tags::{blanks1, tag, word};
use imap_bytes::{IResult, astring_utf8, number_64, on_word};
use std::alloc::Global;
use std::borrow::CowStr;

#[tactic(auto, unfolding(crate::specs::Quotas::quota_resource_name))]
fn quota_resource_name(alloc: Global, i: &[u8]) -> IResult<&[u8], QuotaResourceName<'_>>
    ensures { Steps quotas.quota_resource_name quota_resource_name_value i.now result }
{
    on_word!(b"STORAGE", i, QuotaResourceName::Storage);
    on_word!(b"MESSAGE", i, QuotaResourceName::Message);
    let (rest, name) = astring_utf8(alloc, i)?;
    Ok((rest, QuotaResourceName::Atom(name)))
}

#[tactic(auto, unfolding(crate::specs::Quotas::quota_resource))]
fn quota_resource(alloc: Global, i: &[u8]) -> IResult<&[u8], QuotaResource<'_>>
    ensures { Steps quotas.quota_resource quota_resource_value i.now result }
{
    let (rest, name) = quota_resource_name(alloc, i)?;
    let (rest, _) = blanks1(rest)?;
    let (rest, usage) = number_64(rest)?;
    let (rest, _) = blanks1(rest)?;
    let (rest, limit) = number_64(rest)?;
    Ok((rest, QuotaResource { name, usage, limit }))
}

fn quota_resources(alloc: Global, i: &[u8]) -> IResult<&[u8], Vec<QuotaResource<'_>>>
    ensures { Steps quotas.quota_resources (λ x. map quota_resource_value x.items) i.now result }
{
    let resource = |i|
        ensures { Steps quotas.quota_resource quota_resource_value i.entry.now result }
    { quota_resource(alloc, i) };
    maybe_separated(alloc, Separator::Blanks, resource, i)
}

#[tactic(auto, unfolding(crate::specs::Quotas::quota_list))]
fn quota_list(alloc: Global, i: &[u8]) -> IResult<&[u8], Vec<QuotaResource<'_>>>
    ensures { Steps quotas.quota_list (λ x. map quota_resource_value x.items) i.now result }
{
    let (rest, _) = tag(b"(", i)?;
    let (rest, resources) = quota_resources(alloc, rest)?;
    let (rest, _) = tag(b")", rest)?;
    Ok((rest, resources))
}

#[tactic(auto, unfolding(crate::specs::Quotas::quota))]
fn quota_parts(alloc: Global, i: &[u8]) -> IResult<&[u8], Quota<'_>>
    ensures steps { Steps quotas.quota quota_value i.now result }
    ensures memory { FailsOnlyIf (BeginsWord "QUOTA" i.now) result }
{
    let (rest, _) = word(b"QUOTA", i)?;
    let (rest, _) = blanks1(rest)?;
    let (rest, root_name) = astring_utf8(alloc, rest)?;
    let (rest, _) = blanks1(rest)?;
    let (rest, resources) = quota_list(alloc, rest)?;
    Ok((
        rest,
        Quota {
            root_name,
            resources,
        },
    ))
}

/// `QUOTA`, a quota root, and its resources, maybe none (RFC 2087, section 6: quota_response).
///
/// Any other word, a part that is missing, or a usage or limit past 64 bits, is `Error`. It takes memory only behind
/// `QUOTA`, for the resources, and for texts that are not UTF-8.
#[tactic(auto, using(imap_grammar::proofs::Agreement::answered))]
pub fn quota(alloc: Global, i: &[u8]) -> IResult<&[u8], Quota<'_>>
    ensures steps { Steps quotas.quota quota_value i.now result }
    ensures answer { Answers quotas.quota quota_value i.now result }
    ensures memory { FailsOnlyIf (BeginsWord "QUOTA" i.now) result }
{
    quota_parts(alloc, i)
}

#[tactic(auto, unfolding(crate::specs::Quotas::quota_root_name))]
fn quota_root_name(alloc: Global, i: &[u8]) -> IResult<&[u8], CowStr<'_>>
    ensures { Steps quotas.quota_root_name text_of i.now result }
{
    let (rest, _) = blanks1(i)?;
    astring_utf8(alloc, rest)
}

fn quota_root_names(alloc: Global, i: &[u8]) -> IResult<&[u8], Vec<CowStr<'_>>>
    ensures { Steps quotas.quota_root_names (λ x. map text_of x.items) i.now result }
{
    let name = |i|
        ensures { Steps quotas.quota_root_name text_of i.entry.now result }
    { quota_root_name(alloc, i) };
    repeated(alloc, name, i)
}

#[tactic(auto, unfolding(crate::specs::Quotas::quota_root))]
fn quota_root_parts(alloc: Global, i: &[u8]) -> IResult<&[u8], QuotaRoot<'_>>
    ensures steps { Steps quotas.quota_root quota_root_value i.now result }
    ensures memory { FailsOnlyIf (BeginsWord "QUOTAROOT" i.now) result }
{
    let (rest, _) = word(b"QUOTAROOT", i)?;
    let (rest, _) = blanks1(rest)?;
    let (rest, mailbox_name) = astring_utf8(alloc, rest)?;
    let (rest, quota_root_names) = quota_root_names(alloc, rest)?;
    Ok((
        rest,
        QuotaRoot {
            mailbox_name,
            quota_root_names,
        },
    ))
}

/// `QUOTAROOT`, a mailbox, and its quota roots, maybe none (RFC 2087, section 6: quotaroot_response).
///
/// Any other word, or no mailbox behind it, is `Error`; the roots end before one that is denied. It takes memory only
/// behind `QUOTAROOT`, for the roots, and for texts that are not UTF-8.
#[tactic(auto, using(imap_grammar::proofs::Agreement::answered))]
pub fn quota_root(alloc: Global, i: &[u8]) -> IResult<&[u8], QuotaRoot<'_>>
    ensures steps { Steps quotas.quota_root quota_root_value i.now result }
    ensures answer { Answers quotas.quota_root quota_root_value i.now result }
    ensures memory { FailsOnlyIf (BeginsWord "QUOTAROOT" i.now) result }
{
    quota_root_parts(alloc, i)
}
