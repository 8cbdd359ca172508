//! Flags at a position, as texts; lists of them as the spans of these.

ghost use Rattle.std.specs.Prelude.{◌≤◌, length, drop, codes, map};
ghost use Rattle.imap_grammar.specs.Positions.{AnswersAt, Ahead, Inside, EachInside, named_in, StepsAt, StepsExactlyAt};
ghost use Rattle.imap_grammar.specs.Lists.{opened};
ghost use Rattle.imap_grammar.specs.Memory.{StartsWith, FailsOnlyIf, NeverFails};
ghost use Rattle.imap_grammar.specs.Tags.{exactly_names};
ghost use Rattle.imap_shared.specs.Flags as flags;
ghost use Rattle.imap_shared.specs.Spanned.{decoded_in};

use imap_bytes::at::span::Span;
use imap_bytes::at::strings::{astring_chars, atom_chars0};
use imap_bytes::at::tags::tag;
use imap_bytes::at::{Reached, parenthesized_list};
use imap_bytes::strings::as_utf8;
use imap_bytes::{Err, first};
use std::alloc::Global;

#[tactic(auto, unfolding(crate::specs::Flags::backslashed))]
#[inline(always)]
fn backslashed(m: &[u8], p: usize) -> Reached<Span>
    requires { p ≤ length m.now }
    ensures steps { StepsExactlyAt flags.backslashed (named_in m.now) m.now p result }
    ensures inside { Inside m.now p result }
    ensures no_failure { NeverFails result }
{
    let (q, _) = tag(b"\\", m, p)?;
    let (q, _) = atom_chars0(m, q)?;
    Ok((q, Span { start: p, end: q }))
}

/// A backslash and atom-chars, maybe none, as text (RFC 3501, section 9: flag-extension). No memory.
///
/// No backslash in front, or bytes that are not UTF-8, are `Error`.
#[tactic(auto, unfolding(crate::specs::Flags::backslashed_text))]
#[inline(always)]
pub fn backslashed_text(m: &[u8], p: usize) -> Reached<&str>
    requires { p ≤ length m.now }
    ensures steps { StepsExactlyAt flags.backslashed_text (λ x. x.now) m.now p result }
    ensures ahead { Ahead m.now p result }
    ensures no_failure { NeverFails result }
{
    let (q, flag) = backslashed(m, p)?;
    match as_utf8(flag.bytes(m)) {
        None => Err(Err::Error),
        Some(text) => Ok((q, text)),
    }
}

#[tactic(auto, unfolding(crate::specs::Flags::keyword))]
#[inline(always)]
fn keyword(m: &[u8], p: usize) -> Reached<&str>
    requires { p ≤ length m.now }
    ensures steps { StepsExactlyAt flags.keyword (λ x. x.now) m.now p result }
    ensures ahead { Ahead m.now p result }
    ensures no_failure { NeverFails result }
{
    let (q, keyword) = astring_chars(m, p)?;
    match as_utf8(keyword.bytes(m)) {
        None => Err(Err::Error),
        Some(text) => Ok((q, text)),
    }
}

#[tactic(auto, unfolding(crate::specs::Flags::flag))]
#[inline(always)]
pub(crate) fn flag(m: &[u8], p: usize) -> Reached<&str>
    requires { p ≤ length m.now }
    ensures steps { StepsExactlyAt flags.flag (λ x. x.now) m.now p result }
    ensures ahead { Ahead m.now p result }
    ensures no_failure { NeverFails result }
{
    first!(backslashed_text(m, p));
    keyword(m, p)
}

#[inline(always)]
fn star(m: &[u8], p: usize) -> Reached<&str>
    requires { p ≤ length m.now }
    ensures steps { StepsExactlyAt (exactly_names "\\*" (codes "\\*")) (λ x. x.now) m.now p result }
    ensures ahead { Ahead m.now p result }
    ensures no_failure { NeverFails result }
{
    let (q, _) = tag(b"\\*", m, p)?;
    Ok((q, "\\*"))
}

#[tactic(auto, unfolding(crate::specs::Flags::flag_perm))]
#[inline(always)]
pub(crate) fn flag_perm(m: &[u8], p: usize) -> Reached<&str>
    requires { p ≤ length m.now }
    ensures steps { StepsExactlyAt flags.flag_perm (λ x. x.now) m.now p result }
    ensures ahead { Ahead m.now p result }
    ensures no_failure { NeverFails result }
{
    first!(star(m, p));
    flag(m, p)
}

// The text of a flag lies from p up to the position behind it.
#[tactic(auto, using(crate::proofs::Spanned::flag_perm_there), unfolding(crate::specs::Flags::flag_text))]
fn flag_text(m: &[u8], p: usize) -> Reached<Span>
    requires { p ≤ length m.now }
    ensures steps { StepsExactlyAt flags.flag_text (decoded_in m.now) m.now p result }
    ensures inside { Inside m.now p result }
{
    let (q, _) = flag_perm(m, p)?;
    Ok((q, Span { start: p, end: q }))
}

/// Flags in parentheses, maybe none, each as the span of its text, which is UTF-8 (RFC 3501, section 9: flag-list).
///
/// A list without its parentheses, or a flag that is not UTF-8, is `Error`. It takes memory for the list, and only
/// behind its first flag; for no text.
pub fn flag_list(alloc: Global, m: &[u8], p: usize) -> Reached<Vec<Span>>
    requires { p ≤ length m.now }
    ensures steps { StepsAt flags.flag_list (λ x. map (decoded_in m.now) x.items) m.now p result }
    ensures answer { AnswersAt flags.flag_list (λ x. map (decoded_in m.now) x.items) m.now p
        result }
    ensures ahead { Ahead m.now p result }
    ensures inside { EachInside p result }
    ensures memory { FailsOnlyIf (StartsWith (opened flags.flag_text) (drop p m.now)) result }
{
    let item = |k: usize|
        requires { k ≤ length m.now }
        ensures steps { StepsExactlyAt flags.flag_text (decoded_in m.entry.now) m.entry.now k
            result }
        ensures inside { Inside m.entry.now k result }
    { flag_text(m, k) };
    parenthesized_list(alloc, item, m, p)
}
