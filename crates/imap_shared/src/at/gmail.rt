//! Gmail's items of a message at a position: labels as spans of their texts, and numbers.

ghost use Rattle.std.specs.Prelude.{◌≤◌, length, drop, map};
ghost use Rattle.imap_grammar.specs.Positions.{AnswersAt, Ahead, Inside, EachInside, StepsAt, StepsExactlyAt};
ghost use Rattle.imap_grammar.specs.Memory.{BeginsWord, FailsOnlyIf, NeverFails};
ghost use Rattle.imap_bytes.specs.Texts as texts;
ghost use Rattle.imap_shared.specs.Gmail as rules;
ghost use Rattle.imap_shared.specs.Spanned.{decoded_in};

use super::flags::flag;
use imap_bytes::at::numbers::number_64;
use imap_bytes::at::span::Span;
use imap_bytes::at::tags::word;
use imap_bytes::at::{Reached, parenthesized_list, quoted};
use imap_bytes::first;
use std::alloc::Global;

#[tactic(auto, using(crate::proofs::Spanned::flag_there))]
fn flag_label(m: &[u8], p: usize) -> Reached<Span>
    requires { p ≤ length m.now }
    ensures steps { StepsExactlyAt rules.flag_label (decoded_in m.now) m.now p result }
    ensures inside { Inside m.now p result }
{
    let (q, _) = flag(m, p)?;
    Ok((q, Span { start: p, end: q }))
}

#[tactic(auto, unfolding(imap_bytes::specs::Texts::quoted_utf8))]
fn quoted_label(m: &[u8], p: usize) -> Reached<Span>
    requires { p ≤ length m.now }
    ensures steps { StepsExactlyAt texts.quoted_utf8 (decoded_in m.now) m.now p result }
    ensures inside { Inside m.now p result }
{
    quoted(m, p)
}

// A label: a flag, or a quoted string.
#[tactic(auto, unfolding(crate::specs::Gmail::gmail_label))]
fn gmail_label(m: &[u8], p: usize) -> Reached<Span>
    requires { p ≤ length m.now }
    ensures steps { StepsExactlyAt rules.gmail_label (decoded_in m.now) m.now p result }
    ensures inside { Inside m.now p result }
{
    first!(flag_label(m, p));
    quoted_label(m, p)
}

fn gmail_labels(alloc: Global, m: &[u8], p: usize) -> Reached<Vec<Span>>
    requires { p ≤ length m.now }
    ensures steps { StepsAt rules.gmail_labels (λ x. map (decoded_in m.now) x.items) m.now p
        result }
    ensures ahead { Ahead m.now p result }
    ensures inside { EachInside p result }
{
    let label = |k: usize|
        requires { k ≤ length m.now }
        ensures steps { StepsExactlyAt rules.gmail_label (decoded_in m.entry.now) m.entry.now k
            result }
        ensures inside { Inside m.entry.now k result }
    { gmail_label(m, k) };
    parenthesized_list(alloc, label, m, p)
}

#[tactic(auto, unfolding(crate::specs::Gmail::gmail_label_list))]
fn labels(alloc: Global, m: &[u8], p: usize) -> Reached<Vec<Span>>
    requires { p ≤ length m.now }
    ensures steps { StepsAt rules.gmail_label_list (λ x. map (decoded_in m.now) x.items) m.now p
        result }
    ensures ahead { Ahead m.now p result }
    ensures inside { EachInside p result }
    ensures memory { FailsOnlyIf (BeginsWord "X-GM-LABELS " (drop p m.now)) result }
{
    let (p, _) = word(b"X-GM-LABELS ", m, p)?;
    gmail_labels(alloc, m, p)
}

/// `X-GM-LABELS` and the labels of a message in parentheses, maybe none, each as the span of a flag's text or of a
/// quoted string's raw content (Gmail's X-GM-EXT-1).
///
/// Any other word, a list without its parentheses, or a label that is neither a flag nor a quoted string, is `Error`.
/// It takes memory for the list, and only behind that word; for no text.
#[tactic(auto, using(imap_grammar::proofs::Agreement::answered_at))]
pub fn gmail_label_list(alloc: Global, m: &[u8], p: usize) -> Reached<Vec<Span>>
    requires { p ≤ length m.now }
    ensures steps { StepsAt rules.gmail_label_list (λ x. map (decoded_in m.now) x.items) m.now p
        result }
    ensures answer { AnswersAt rules.gmail_label_list (λ x. map (decoded_in m.now) x.items) m.now p
        result }
    ensures ahead { Ahead m.now p result }
    ensures inside { EachInside p result }
    ensures memory { FailsOnlyIf (BeginsWord "X-GM-LABELS " (drop p m.now)) result }
{
    labels(alloc, m, p)
}

/// `X-GM-MSGID` and the number of a message (Gmail's X-GM-EXT-1). No memory.
///
/// Any other word, no digit behind it, or a number past 64 bits, is `Error`.
#[tactic(auto, unfolding(crate::specs::Gmail::gmail_msgid))]
pub fn gmail_msgid(m: &[u8], p: usize) -> Reached<u64>
    requires { p ≤ length m.now }
    ensures steps { StepsExactlyAt rules.gmail_msgid (λ x. x) m.now p result }
    ensures ahead { Ahead m.now p result }
    ensures no_failure { NeverFails result }
{
    let (p, _) = word(b"X-GM-MSGID ", m, p)?;
    number_64(m, p)
}

/// `X-GM-THRID` and the number of a thread (Gmail's X-GM-EXT-1). No memory.
///
/// Any other word, no digit behind it, or a number past 64 bits, is `Error`.
#[tactic(auto, unfolding(crate::specs::Gmail::gmail_thrid))]
pub fn gmail_thrid(m: &[u8], p: usize) -> Reached<u64>
    requires { p ≤ length m.now }
    ensures steps { StepsExactlyAt rules.gmail_thrid (λ x. x) m.now p result }
    ensures ahead { Ahead m.now p result }
    ensures no_failure { NeverFails result }
{
    let (p, _) = word(b"X-GM-THRID ", m, p)?;
    number_64(m, p)
}
