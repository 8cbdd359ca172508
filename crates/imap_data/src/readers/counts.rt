//! Items of STATUS, and numbers that were found.

ghost use Rattle.imap_grammar.specs.Answer.{Steps, StepsExactly};
ghost use Rattle.imap_grammar.specs.Lists.{opened};
ghost use Rattle.imap_grammar.specs.Memory.{FailsOnlyIf, StartsWith};
ghost use Rattle.imap_grammar.specs.Rule.{many};
ghost use Rattle.imap_data.specs.Counts as counts;

use crate::types::counts::StatusAttribute;
use imap_bytes::lists::repeated;
use imap_bytes::tags::{maybe_space, tag};
use imap_bytes::{Err, IResult, Needed, first, number, number_64, parenthesized_list};
use std::alloc::Global;

#[tactic(auto, unfolding(crate::specs::Counts::highest_mod_seq))]
fn highest_mod_seq(i: &[u8]) -> IResult<&[u8], StatusAttribute>
    ensures { StepsExactly counts.highest_mod_seq (λ x. x) i.now result }
{
    worded!(i: b"HIGHESTMODSEQ ", number_64 => StatusAttribute::HighestModSeq)
}

#[tactic(auto, unfolding(crate::specs::Counts::messages))]
fn messages(i: &[u8]) -> IResult<&[u8], StatusAttribute>
    ensures { StepsExactly counts.messages (λ x. x) i.now result }
{
    worded!(i: b"MESSAGES ", number => StatusAttribute::Messages)
}

#[tactic(auto, unfolding(crate::specs::Counts::recent))]
fn recent(i: &[u8]) -> IResult<&[u8], StatusAttribute>
    ensures { StepsExactly counts.recent (λ x. x) i.now result }
{
    worded!(i: b"RECENT ", number => StatusAttribute::Recent)
}

#[tactic(auto, unfolding(crate::specs::Counts::uid_next))]
fn uid_next(i: &[u8]) -> IResult<&[u8], StatusAttribute>
    ensures { StepsExactly counts.uid_next (λ x. x) i.now result }
{
    worded!(i: b"UIDNEXT ", number => StatusAttribute::UidNext)
}

#[tactic(auto, unfolding(crate::specs::Counts::uid_validity))]
fn uid_validity(i: &[u8]) -> IResult<&[u8], StatusAttribute>
    ensures { StepsExactly counts.uid_validity (λ x. x) i.now result }
{
    worded!(i: b"UIDVALIDITY ", number => StatusAttribute::UidValidity)
}

#[tactic(auto, unfolding(crate::specs::Counts::unseen))]
fn unseen(i: &[u8]) -> IResult<&[u8], StatusAttribute>
    ensures { StepsExactly counts.unseen (λ x. x) i.now result }
{
    worded!(i: b"UNSEEN ", number => StatusAttribute::Unseen)
}

#[tactic(auto, unfolding(crate::specs::Counts::item_of_u))]
fn item_of_u(i: &[u8]) -> IResult<&[u8], StatusAttribute>
    ensures { StepsExactly counts.item_of_u (λ x. x) i.now result }
{
    first!(uid_next(i));
    first!(uid_validity(i));
    unseen(i)
}

// An item of STATUS: its word in any case, and a number (RFC 3501, section 9: status-att-list; RFC 4551, section 4:
// status-att-val). No memory.
#[tactic(auto, using(crate::proofs::FirstBytes::item_arms))]
pub(crate) fn status_item(i: &[u8]) -> IResult<&[u8], StatusAttribute>
    ensures { StepsExactly counts.status_item (λ x. x) i.now result }
{
    match i.first() {
        None => Err(Err::Incomplete(Needed::Unknown)),
        Some(b'h' | b'H') => highest_mod_seq(i),
        Some(b'm' | b'M') => messages(i),
        Some(b'r' | b'R') => recent(i),
        Some(b'u' | b'U') => item_of_u(i),
        Some(_) => Err(Err::Error),
    }
}

// Items of STATUS in parentheses, maybe none. It takes memory only behind the first of them.
pub(crate) fn status_items(alloc: Global, i: &[u8]) -> IResult<&[u8], Vec<StatusAttribute>>
    ensures steps { Steps counts.status_items (λ x. x.items) i.now result }
    ensures memory { FailsOnlyIf (StartsWith (opened counts.status_item) i.now) result }
{
    parenthesized_list(alloc, status_item, i)
}

// A number behind a space. No memory.
#[tactic(auto, unfolding(crate::specs::Counts::found_number))]
pub(crate) fn found_number(i: &[u8]) -> IResult<&[u8], u32>
    ensures { StepsExactly counts.found_number (λ x. x) i.now result }
{
    let (rest, _) = tag(b" ", i)?;
    number(rest)
}

fn spaced_numbers(alloc: Global, i: &[u8]) -> IResult<&[u8], Vec<u32>>
    ensures steps { Steps (many counts.found_number) (λ x. x.items) i.now result }
    ensures memory { FailsOnlyIf (StartsWith counts.found_number i.now) result }
{
    repeated(alloc, found_number, i)
}

// Numbers, each behind a space, maybe none, and maybe a space behind them (RFC 3501, section 9: mailbox-data; RFC
// 5256, section 5: sort-data). It takes memory only where a first number stands.
#[tactic(auto, unfolding(crate::specs::Counts::found_numbers))]
pub(crate) fn found_numbers(alloc: Global, i: &[u8]) -> IResult<&[u8], Vec<u32>>
    ensures steps { Steps counts.found_numbers (λ x. x.items) i.now result }
    ensures memory { FailsOnlyIf (StartsWith counts.found_number i.now) result }
{
    let (rest, numbers) = spaced_numbers(alloc, i)?;
    let (rest, _) = maybe_space(rest)?;
    Ok((rest, numbers))
}
