//! Texts at a position: that of a line as its span, which takes no memory, and strings decoded.

ghost use Rattle.std.specs.Prelude.{◌≤◌, length, drop, IfOk};
ghost use Rattle.imap_grammar.specs.Positions.{Ahead, AnswersAt, Inside, named_in, StepsAt, StepsExactlyAt};
ghost use Rattle.imap_grammar.specs.Memory.{NeverFails};
ghost use Rattle.imap_grammar.specs.Rule.{run0};
ghost use Rattle.imap_grammar.specs.Text.{decoded, text_of, IsOwned};
ghost use Rattle.imap_grammar.specs.Classes as classes;
ghost use Rattle.imap_bytes.specs.Places.{IsRunPlace};
ghost use Rattle.imap_bytes.specs.Texts as texts;
ghost use Rattle.imap_bytes.specs.Texts.{FailsForOwned};

use super::strings::{astring, quoted};
use imap_grammar::at::Reached;
use imap_grammar::at::span::Span;
use imap_grammar::at::tags::cut0;
use imap_grammar::scanning::{TextChar, long_run_end};
use std::alloc::Global;
use std::borrow::CowStr;

// Text-chars, maybe none (RFC 3501, section 9: TEXT-CHAR).
#[tactic(auto, using(crate::proofs::Places::run0_place))]
pub(crate) fn text_chars(m: &[u8], p: usize) -> Reached<Span>
    requires { p ≤ length m.now }
    ensures steps { StepsExactlyAt (run0 classes.is_text_char) (named_in m.now) m.now p result }
    ensures inside { Inside m.now p result }
    ensures place { IfOk result (IsRunPlace p) }
    ensures no_failure { NeverFails result }
{
    let (_, i) = m.split_at(p);
    cut0(long_run_end::<TextChar>(i), m, p)
}

/// Text-chars up to the first other byte, maybe none, as the span of the text (RFC 3501, section 9: text). No memory.
#[tactic(auto, using(imap_grammar::proofs::Agreement::exact_answer_at), unfolding(crate::specs::Texts::text))]
pub fn text(m: &[u8], p: usize) -> Reached<Span>
    requires { p ≤ length m.now }
    ensures steps { StepsExactlyAt texts.text (λ x. decoded (named_in m.now x)) m.now p result }
    ensures answer { AnswersAt texts.text (λ x. decoded (named_in m.now x)) m.now p result }
    ensures bytes { StepsExactlyAt (run0 classes.is_text_char) (named_in m.now) m.now p result }
    ensures inside { Inside m.now p result }
    ensures place { IfOk result (IsRunPlace p) }
    ensures no_failure { NeverFails result }
{
    text_chars(m, p)
}

/// A quoted string as text, backslashes and all (RFC 3501, section 9: quoted).
///
/// It takes memory only for bytes that are not UTF-8.
#[tactic(auto, unfolding(crate::specs::Texts::quoted_utf8))]
pub fn quoted_utf8(alloc: Global, m: &[u8], p: usize) -> Reached<CowStr<'_>>
    requires { p ≤ length m.now }
    ensures steps { StepsAt texts.quoted_utf8 text_of m.now p result }
    ensures ahead { Ahead m.now p result }
    ensures memory { FailsForOwned IsOwned texts.quoted_utf8 (drop p m.now) result }
{
    let (q, content) = quoted(m, p)?;
    let text = content.text(alloc, m)?;
    Ok((q, text))
}

/// An astring as text (RFC 3501, section 9: astring). It takes memory only for bytes that are not UTF-8.
#[tactic(auto, unfolding(crate::specs::Texts::astring_utf8))]
#[inline(always)]
pub fn astring_utf8(alloc: Global, m: &[u8], p: usize) -> Reached<CowStr<'_>>
    requires { p ≤ length m.now }
    ensures steps { StepsAt texts.astring_utf8 text_of m.now p result }
    ensures ahead { Ahead m.now p result }
    ensures memory { FailsForOwned IsOwned texts.astring_utf8 (drop p m.now) result }
{
    let (q, content) = astring(m, p)?;
    let text = content.text(alloc, m)?;
    Ok((q, text))
}
