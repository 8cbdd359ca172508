//! Sets of UIDs.

ghost use Rattle.std.specs.Prelude.{◌≡◌, map, IfOk};
ghost use Rattle.std.specs.List.{All};
ghost use Rattle.imap_grammar.specs.Answer.{Answers, Steps, StepsExactly};
ghost use Rattle.imap_grammar.specs.Memory.{StartsWith, FailsOnlyIf};
ghost use Rattle.imap_grammar.specs.Rule.{opt};
ghost use Rattle.imap_bytes.specs.Sets as ranges;
ghost use Rattle.imap_shared.specs.UidSets as sets;
ghost use Rattle.imap_shared.specs.UidSets.{member_value, member_of, IsOrdered};

use crate::types::uid_sets::UidSetMember;
use imap_bytes::lists::{Separator, separated};
use imap_bytes::numbers::number;
use imap_bytes::tags::tag;
use imap_bytes::{IResult, maybe};
use std::alloc::Global;

// A colon and the number behind it.
fn range_end(i: &[u8]) -> IResult<&[u8], u32>
    ensures { StepsExactly ranges.range_end (λ x. x) i.now result }
{
    let (rest, _) = tag(b":", i)?;
    number(rest)
}

fn maybe_range_end(i: &[u8]) -> IResult<&[u8], Option<u32>>
    ensures { StepsExactly (opt ranges.range_end) (λ x. x) i.now result }
{
    maybe!(range_end(i), i)
}

// A number, and the one behind a colon if there is one.
type Ends = (u32, Option<u32>);

#[tactic(auto, unfolding(crate::specs::UidSets::maybe_range))]
fn maybe_range(i: &[u8]) -> IResult<&[u8], Ends>
    ensures { StepsExactly sets.maybe_range (λ x. x) i.now result }
{
    let (rest, first) = number(i)?;
    let (rest, last) = maybe_range_end(rest)?;
    Ok((rest, (first, last)))
}

fn member(first: u32, last: Option<u32>) -> UidSetMember
    ensures { member_value result ≡ member_of (first, last) }
{
    match last {
        None => UidSetMember::Uid(first),
        Some(last) => UidSetMember::UidRange(first.min(last)..=first.max(last)),
    }
}

// A range of UIDs with its ends put in order, or one UID (RFC 4315, section 4: uid-range, uniqueid). The number in
// front is read once.
#[tactic(auto, using(crate::proofs::UidSets::member_is))]
pub(crate) fn uid_set_member(i: &[u8]) -> IResult<&[u8], UidSetMember>
    ensures { StepsExactly sets.uid_set_member member_value i.now result }
{
    let (rest, (first, last)) = maybe_range(i)?;
    Ok((rest, member(first, last)))
}

/// Ranges of UIDs and UIDs, with commas between (RFC 4315, section 4: uid-set).
///
/// Each range starts not above its end. It ends before a colon or a comma behind which `number` denies. No digit in
/// front, or a number past 32 bits there, is `Error`. It takes memory for the list, and only behind its first number.
pub fn uid_set(alloc: Global, i: &[u8]) -> IResult<&[u8], Vec<UidSetMember>>
    ensures steps { Steps sets.uid_set (λ x. map member_value x.items) i.now result }
    ensures answer { Answers sets.uid_set (λ x. map member_value x.items) i.now result }
    ensures memory { FailsOnlyIf (StartsWith sets.uid_set_member i.now) result }
    ensures ordered { IfOk result (λ x. All IsOrdered x.1.items) }
{
    separated(alloc, Separator::Comma, uid_set_member, i)
}
