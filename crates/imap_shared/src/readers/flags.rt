//! Flags.

ghost use Rattle.std.specs.Prelude.{map};
ghost use Rattle.imap_grammar.specs.Answer.{Answers, Steps, StepsExactly};
ghost use Rattle.imap_grammar.specs.Lists.{opened};
ghost use Rattle.imap_grammar.specs.Memory.{StartsWith, FailsOnlyIf, NeverFails};
ghost use Rattle.imap_grammar.specs.Text.{text_of};
ghost use Rattle.imap_shared.specs.Flags as flags;

use crate::at;
use imap_bytes::at::span::rest;
use imap_bytes::{IResult, parenthesized_list};
use std::alloc::Global;
use std::borrow::CowStr;

/// A flag: a backslash and atom-chars, or astring-chars (RFC 3501, section 9: flag). No memory.
///
/// It is read as the Rust crate reads it: astring-chars may have `]`, and after the backslash there may be nothing.
/// What begins with neither a backslash nor an astring-char, or is not UTF-8, is `Error`.
#[tactic(auto, using(imap_grammar::proofs::Agreement::exact_answer))]
pub fn flag(i: &[u8]) -> IResult<&[u8], &str>
    ensures steps { StepsExactly flags.flag (λ x. x.now) i.now result }
    ensures answer { Answers flags.flag (λ x. x.now) i.now result }
    ensures no_failure { NeverFails result }
{
    let (q, text) = at::flags::flag(i, 0)?;
    Ok((rest(i, q), text))
}

/// `\*`, or a flag (RFC 3501, section 9: flag-perm). No memory.
///
/// What begins with neither a backslash nor an astring-char, or is not UTF-8, is `Error`.
#[tactic(auto, using(imap_grammar::proofs::Agreement::exact_answer))]
#[inline(always)]
pub fn flag_perm(i: &[u8]) -> IResult<&[u8], &str>
    ensures steps { StepsExactly flags.flag_perm (λ x. x.now) i.now result }
    ensures answer { Answers flags.flag_perm (λ x. x.now) i.now result }
    ensures no_failure { NeverFails result }
{
    let (q, text) = at::flags::flag_perm(i, 0)?;
    Ok((rest(i, q), text))
}

// A flag of a list, as text that lies in the input (RFC 3501, section 9: flag-perm).
#[tactic(auto, using(imap_grammar::proofs::Agreement::exact_answer), unfolding(crate::specs::Flags::flag_text))]
#[inline(always)]
pub(crate) fn flag_text(i: &[u8]) -> IResult<&[u8], CowStr<'_>>
    ensures steps { StepsExactly flags.flag_text text_of i.now result }
    ensures answer { Answers flags.flag_text text_of i.now result }
    ensures no_failure { NeverFails result }
{
    let (rest, text) = flag_perm(i)?;
    Ok((rest, CowStr::Borrowed(text)))
}

/// Flags in parentheses, maybe none (RFC 3501, section 9: flag-list).
///
/// A list without its parentheses, or a flag that is not UTF-8, is `Error`. It takes memory for the list, and only
/// behind its first flag; for no text.
pub fn flag_list(alloc: Global, i: &[u8]) -> IResult<&[u8], Vec<CowStr<'_>>>
    ensures steps { Steps flags.flag_list (λ x. map text_of x.items) i.now result }
    ensures answer { Answers flags.flag_list (λ x. map text_of x.items) i.now result }
    ensures memory { FailsOnlyIf (StartsWith (opened flags.flag_text) i.now) result }
{
    parenthesized_list(alloc, flag_text, i)
}
