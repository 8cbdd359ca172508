//! Gmail's items of a message.

ghost use Rattle.std.specs.Prelude.{◌≤◌, length, map};
ghost use Rattle.imap_grammar.specs.Answer.{Answers, Steps, StepsExactly};
ghost use Rattle.imap_grammar.specs.Memory.{BeginsWord, FailsOnlyIf, NeverFails};
ghost use Rattle.imap_grammar.specs.Positions.{ReadsAt};
ghost use Rattle.imap_grammar.specs.Text.{text_of};
ghost use Rattle.imap_shared.specs.Gmail as rules;

use crate::at;
use crate::at::flags::flag;
use imap_bytes::at::span::rest;
use imap_bytes::at::tags::word;
use imap_bytes::at::texts::quoted_utf8;
use imap_bytes::at::{Reached, parenthesized_list};
use imap_bytes::{IResult, first};
use std::alloc::Global;
use std::borrow::CowStr;

// A label's text: a flag, or a quoted string.
#[tactic(auto, unfolding(crate::specs::Gmail::gmail_label))]
fn gmail_label(alloc: Global, m: &[u8], p: usize) -> Reached<CowStr<'_>>
    requires { p ≤ length m.now }
    ensures { ReadsAt rules.gmail_label text_of m.now p result }
{
    first!(flag(m, p), text => CowStr::Borrowed(text));
    quoted_utf8(alloc, m, p)
}

fn gmail_labels(alloc: Global, m: &[u8], p: usize) -> Reached<Vec<CowStr<'_>>>
    requires { p ≤ length m.now }
    ensures { ReadsAt rules.gmail_labels (λ x. map text_of x.items) m.now p result }
{
    let label = |k: usize|
        requires { k ≤ length m.now }
        ensures { ReadsAt rules.gmail_label text_of m.entry.now k result }
    { gmail_label(alloc, m, k) };
    parenthesized_list(alloc, label, m, p)
}

#[tactic(auto, unfolding(crate::specs::Gmail::gmail_label_list))]
fn labels(alloc: Global, i: &[u8]) -> IResult<&[u8], Vec<CowStr<'_>>>
    ensures steps { Steps rules.gmail_label_list (λ x. map text_of x.items) i.now result }
    ensures memory { FailsOnlyIf (BeginsWord "X-GM-LABELS " i.now) result }
{
    let (p, _) = word(b"X-GM-LABELS ", i, 0)?;
    let (p, labels) = gmail_labels(alloc, i, p)?;
    Ok((rest(i, p), labels))
}

/// `X-GM-LABELS` and the labels of a message in parentheses, maybe none (Gmail's X-GM-EXT-1).
///
/// Any other word, a list without its parentheses, or a label that is neither a flag nor a quoted string, is `Error`.
/// It takes memory only behind that word: for the list, and for texts that are not UTF-8.
#[tactic(auto, using(imap_grammar::proofs::Agreement::answered))]
pub fn gmail_label_list(alloc: Global, i: &[u8]) -> IResult<&[u8], Vec<CowStr<'_>>>
    ensures steps { Steps rules.gmail_label_list (λ x. map text_of x.items) i.now result }
    ensures answer { Answers rules.gmail_label_list (λ x. map text_of x.items) i.now result }
    ensures memory { FailsOnlyIf (BeginsWord "X-GM-LABELS " i.now) result }
{
    labels(alloc, i)
}

/// `X-GM-MSGID` and the number of a message (Gmail's X-GM-EXT-1). No memory.
///
/// Any other word, no digit behind it, or a number past 64 bits, is `Error`.
#[tactic(auto, using(imap_grammar::proofs::Agreement::exact_answer))]
pub fn gmail_msgid(i: &[u8]) -> IResult<&[u8], u64>
    ensures steps { StepsExactly rules.gmail_msgid (λ x. x) i.now result }
    ensures answer { Answers rules.gmail_msgid (λ x. x) i.now result }
    ensures no_failure { NeverFails result }
{
    let (q, number) = at::gmail_msgid(i, 0)?;
    Ok((rest(i, q), number))
}

/// `X-GM-THRID` and the number of a thread (Gmail's X-GM-EXT-1). No memory.
///
/// Any other word, no digit behind it, or a number past 64 bits, is `Error`.
#[tactic(auto, using(imap_grammar::proofs::Agreement::exact_answer))]
pub fn gmail_thrid(i: &[u8]) -> IResult<&[u8], u64>
    ensures steps { StepsExactly rules.gmail_thrid (λ x. x) i.now result }
    ensures answer { Answers rules.gmail_thrid (λ x. x) i.now result }
    ensures no_failure { NeverFails result }
{
    let (q, number) = at::gmail_thrid(i, 0)?;
    Ok((rest(i, q), number))
}
