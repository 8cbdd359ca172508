//! Capabilities.

ghost use Rattle.std.specs.Prelude.{◌≡◌, map};
ghost use Rattle.std.specs.List.{list_any};
ghost use Rattle.imap_grammar.specs.Answer.{Answers, Steps, StepsExactly};
ghost use Rattle.imap_grammar.specs.Memory.{BeginsWord, FailsOnlyIf};
ghost use Rattle.imap_shared.specs.Capabilities as capabilities;
ghost use Rattle.imap_shared.specs.Capabilities.{capability_value};

use crate::types::capabilities::Capability;
use imap_bytes::lists::repeated;
use imap_bytes::strings::atom;
use imap_bytes::tags::{tag, word};
use imap_bytes::{Err, IResult, first, on_word};
use std::alloc::Global;
use std::borrow::CowStr;

fn auth(i: &[u8]) -> IResult<&[u8], Capability<'_>>
    ensures { StepsExactly capabilities.auth capability_value i.now result }
{
    let (rest, _) = word(b"AUTH=", i)?;
    let (rest, mechanism) = atom(rest)?;
    Ok((rest, Capability::Auth(CowStr::Borrowed(mechanism))))
}

fn name(i: &[u8]) -> IResult<&[u8], Capability<'_>>
    ensures { StepsExactly capabilities.name capability_value i.now result }
{
    let (rest, name) = atom(i)?;
    Ok((rest, Capability::Atom(CowStr::Borrowed(name))))
}

#[tactic(auto, unfolding(crate::specs::Capabilities::capability))]
fn capability(i: &[u8]) -> IResult<&[u8], Capability<'_>>
    ensures { StepsExactly capabilities.capability capability_value i.now result }
{
    on_word!(b"IMAP4rev1", i, Capability::Imap4rev1);
    first!(auth(i));
    name(i)
}

// A capability behind a space.
#[tactic(auto, unfolding(crate::specs::Capabilities::spaced_capability))]
pub(crate) fn spaced_capability(i: &[u8]) -> IResult<&[u8], Capability<'_>>
    ensures { StepsExactly capabilities.spaced_capability capability_value i.now result }
{
    let (rest, _) = tag(b" ", i)?;
    capability(rest)
}

// A name behind a space, as it stands.
#[tactic(auto, unfolding(crate::specs::Capabilities::spaced_name))]
pub(crate) fn spaced_name(i: &[u8]) -> IResult<&[u8], Capability<'_>>
    ensures { StepsExactly capabilities.spaced_name capability_value i.now result }
{
    let (rest, _) = tag(b" ", i)?;
    name(rest)
}

fn spaced_capabilities(alloc: Global, i: &[u8]) -> IResult<&[u8], Vec<Capability<'_>>>
    ensures { Steps capabilities.spaced_capabilities (λ x. map capability_value x.items) i.now
        result }
{
    repeated(alloc, spaced_capability, i)
}

fn spaced_names(alloc: Global, i: &[u8]) -> IResult<&[u8], Vec<Capability<'_>>>
    ensures { Steps capabilities.spaced_names (λ x. map capability_value x.items) i.now result }
{
    repeated(alloc, spaced_name, i)
}

fn has_revision(items: &[Capability<'_>]) -> bool
    ensures { result ≡ list_any (λ c. capabilities.is_revision (capability_value c)) items.now }
{
    items.iter().any(|c| matches!(c, Capability::Imap4rev1))
}

#[tactic(auto, unfolding(crate::specs::Capabilities::capability_data))]
fn with_revision(alloc: Global, i: &[u8]) -> IResult<&[u8], Vec<Capability<'_>>>
    ensures steps { Steps capabilities.capability_data (λ x. map capability_value x.items) i.now
        result }
    ensures memory { FailsOnlyIf (BeginsWord "CAPABILITY" i.now) result }
{
    let (rest, _) = word(b"CAPABILITY", i)?;
    let (rest, items) = spaced_capabilities(alloc, rest)?;
    if !has_revision(&items) {
        return Err(Err::Error);
    }
    Ok((rest, items))
}

/// `CAPABILITY` and capabilities (RFC 3501, section 9: capability-data).
///
/// Any other word, or a list without `IMAP4rev1`, is `Error`. It takes memory for the list, and only behind
/// `CAPABILITY`.
#[tactic(auto, using(imap_grammar::proofs::Agreement::answered))]
pub fn capability_data(alloc: Global, i: &[u8]) -> IResult<&[u8], Vec<Capability<'_>>>
    ensures steps { Steps capabilities.capability_data (λ x. map capability_value x.items) i.now
        result }
    ensures answer { Answers capabilities.capability_data (λ x. map capability_value x.items) i.now
        result }
    ensures memory { FailsOnlyIf (BeginsWord "CAPABILITY" i.now) result }
{
    with_revision(alloc, i)
}

/// `ENABLED` and the names of capabilities, each as it stands, maybe none (RFC 5161, section 4: enable-data).
///
/// Any other word is `Error`. It takes memory for the list, and only behind `ENABLED`.
#[tactic(auto, using(imap_grammar::proofs::Agreement::answered), unfolding(crate::specs::Capabilities::enabled_data))]
pub fn enabled_data(alloc: Global, i: &[u8]) -> IResult<&[u8], Vec<Capability<'_>>>
    ensures steps { Steps capabilities.enabled_data (λ x. map capability_value x.items) i.now
        result }
    ensures answer { Answers capabilities.enabled_data (λ x. map capability_value x.items) i.now
        result }
    ensures memory { FailsOnlyIf (BeginsWord "ENABLED" i.now) result }
{
    let (rest, _) = word(b"ENABLED", i)?;
    spaced_names(alloc, rest)
}
