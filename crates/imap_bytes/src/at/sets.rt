//! Sequence sets at a position.

ghost use Rattle.std.specs.Prelude.{◌≤◌, length, drop, map};
ghost use Rattle.imap_grammar.specs.Positions.{AnswersAt, Ahead, StepsAt, StepsExactlyAt};
ghost use Rattle.imap_grammar.specs.Memory.{StartsWith, FailsOnlyIf, NeverFails};
ghost use Rattle.imap_grammar.specs.Ranges.{range_of};
ghost use Rattle.imap_bytes.specs.Sets as sets;

use crate::at::numbers::number;
use imap_grammar::at::Reached;
use imap_grammar::at::lists::separated;
use imap_grammar::at::tags::tag;
use imap_grammar::lists::{Separator, tried};
use std::alloc::Global;
use std::ops::RangeInclusive;

/// Two numbers with a colon between, their order kept (RFC 3501, section 9: seq-range). No memory.
///
/// A number that is missing or past 32 bits, or no colon, is `Error`.
#[tactic(auto, using(imap_grammar::proofs::Agreement::exact_answer_at), unfolding(crate::specs::Sets::sequence_range))]
pub fn sequence_range(m: &[u8], p: usize) -> Reached<RangeInclusive<u32>>
    requires { p ≤ length m.now }
    ensures steps { StepsExactlyAt sets.sequence_range range_of m.now p result }
    ensures answer { AnswersAt sets.sequence_range range_of m.now p result }
    ensures ahead { Ahead m.now p result }
    ensures no_failure { NeverFails result }
{
    let (p, first) = number(m, p)?;
    let (p, _) = tag(b":", m, p)?;
    let (p, last) = number(m, p)?;
    Ok((p, first..=last))
}

// A colon and the number behind it.
fn range_end(m: &[u8], p: usize) -> Reached<u32>
    requires { p ≤ length m.now }
    ensures steps { StepsExactlyAt sets.range_end (λ x. x) m.now p result }
    ensures ahead { Ahead m.now p result }
{
    let (p, _) = tag(b":", m, p)?;
    number(m, p)
}

// A range, or a number n as n..=n (RFC 3501, section 9: sequence-set, without `*`). It ends before a colon behind which
// `number` denies.
pub(crate) fn sequence_item(m: &[u8], p: usize) -> Reached<RangeInclusive<u32>>
    requires { p ≤ length m.now }
    ensures steps { StepsExactlyAt sets.sequence_item range_of m.now p result }
    ensures ahead { Ahead m.now p result }
    ensures no_failure { NeverFails result }
{
    let (p, first) = number(m, p)?;
    match tried(range_end(m, p))? {
        Some((q, last)) => Ok((q, first..=last)),
        None => Ok((p, first..=first)),
    }
}

/// Numbers and ranges, with commas between (RFC 3501, section 9: sequence-set, without `*`).
///
/// It ends before a colon or a comma behind which `number` denies. No digit in front, or a number past 32 bits there,
/// is `Error`. It takes memory for the list, and only behind its first number.
pub fn sequence_set(alloc: Global, m: &[u8], p: usize) -> Reached<Vec<RangeInclusive<u32>>>
    requires { p ≤ length m.now }
    ensures steps { StepsAt sets.sequence_set (λ x. map range_of x.items) m.now p result }
    ensures answer { AnswersAt sets.sequence_set (λ x. map range_of x.items) m.now p result }
    ensures ahead { Ahead m.now p result }
    ensures memory { FailsOnlyIf (StartsWith sets.sequence_item (drop p m.now)) result }
{
    let item = |k: usize|
        requires { k ≤ length m.now }
        ensures steps { StepsExactlyAt sets.sequence_item range_of m.entry.now k result }
        ensures ahead { Ahead m.entry.now k result }
    { sequence_item(m, k) };
    separated(alloc, Separator::Comma, item, m, p)
}
