//! Strings at a position, as spans of their content. None takes memory.

ghost use Rattle.std.specs.Prelude.{◌≡◌, ◌==◌, ◌≤◌, length, drop, IfOk, IfSome, Ok};
ghost use Rattle.imap_grammar.specs.Positions.{AnswersAt, ExactlyAt, Ahead, Inside, MaybeInside, Lies, maybe_in};
ghost use Rattle.imap_grammar.specs.Positions.{named_in, StepsExactlyAt};
ghost use Rattle.imap_grammar.specs.Memory.{NeverFails};
ghost use Rattle.imap_grammar.specs.Step.{step, take_step};
ghost use Rattle.imap_grammar.specs.Meaning.{begins};
ghost use Rattle.imap_grammar.specs.Rule.{run0, run1, opt};
ghost use Rattle.imap_grammar.specs.Ascii.{quote};
ghost use Rattle.imap_grammar.specs.Classes as classes;
ghost use Rattle.imap_bytes.specs.Strings as strings;
ghost use Rattle.imap_bytes.specs.Places.{IsRunPlace, IsQuotedPlace, IsLiteralPlace, IsStringPlace, IsAstringPlace};
ghost use Rattle.imap_bytes.specs.Places.{IsNstringPlace};

use crate::at::numbers::number;
use crate::strings::as_utf8;
use imap_grammar::at::Reached;
use imap_grammar::at::span::Span;
use imap_grammar::at::tags::{cut0, cut1, tag, word};
use imap_grammar::scanning::{
    AstringChar, AtomChar, QuotedChar, long_run_end, next_quote, run_end,
};
use imap_grammar::{Err, Needed, first, maybe};

#[inline(always)]
fn plain(m: &[u8], p: usize) -> Reached<Span>
    requires { p ≤ length m.now }
    ensures steps { StepsExactlyAt (run1 classes.is_quoted_char) (named_in m.now) m.now p result }
    ensures inside { Inside m.now p result }
{
    let (_, i) = m.split_at(p);
    cut1(long_run_end::<QuotedChar>(i), m, p)
}

#[tactic(auto, unfolding(crate::specs::Strings::quoted_part))]
#[inline(always)]
fn quoted_part(m: &[u8], p: usize) -> Reached<Span>
    requires { p ≤ length m.now }
    ensures steps { StepsExactlyAt strings.quoted_part (named_in m.now) m.now p result }
    ensures inside { Inside m.now p result }
{
    first!(plain(m, p));
    first!(tag(b"\\\\", m, p));
    tag(b"\\\"", m, p)
}

#[inline(always)]
fn next_part(m: &[u8], p: usize) -> Reached<Option<Span>>
    requires { p ≤ length m.now }
    ensures steps { StepsExactlyAt (opt strings.quoted_part) (maybe_in m.now) m.now p result }
    ensures ahead { Ahead m.now p result }
{
    maybe!(quoted_part(m, p), p)
}

#[tactic(auto, unfolding(crate::specs::Strings::quoted_content))]
#[inline(always)]
fn quoted_content(m: &[u8], p: usize) -> Reached<Span>
    requires { p ≤ length m.now }
    ensures steps { StepsExactlyAt strings.quoted_content (named_in m.now) m.now p result }
    ensures inside { Inside m.now p result }
    ensures place { IfOk result (IsRunPlace p) }
    ensures no_failure { NeverFails result }
{
    let mut q = p;
    'parts: loop {
        let (after, part) = next_part(m, q)?;
        match part {
            None => return Ok((q, Span { start: p, end: q })),
            Some(_) => q = after,
        }
        // No part begins with a quote.
        if quote_follows(m, q) {
            return Ok((q, Span { start: p, end: q }));
        }
    }
}

/// A quoted string: its raw content, backslashes and all (RFC 3501, section 9: quoted). No memory.
///
/// No quote in front, or in the content NUL, CR, LF, or a backslash before another byte than `"` and `\`, is `Error`.
// Never inlined: of a function with a loop the compiler doesn't see that it writes its whole answer, and in each caller
// of `any_string` it would clear the room for one.
#[tactic(auto, using(imap_grammar::proofs::Agreement::exact_answer_at), unfolding(crate::specs::Strings::quoted))]
#[inline(never)]
pub fn quoted(m: &[u8], p: usize) -> Reached<Span>
    requires { p ≤ length m.now }
    ensures steps { StepsExactlyAt strings.quoted (named_in m.now) m.now p result }
    ensures answer { AnswersAt strings.quoted (named_in m.now) m.now p result }
    ensures inside { Inside m.now p result }
    ensures place { IfOk result (IsQuotedPlace p) }
    ensures no_failure { NeverFails result }
{
    let (p, _) = tag(b"\"", m, p)?;
    let (p, content) = quoted_content(m, p)?;
    let (p, _) = tag(b"\"", m, p)?;
    Ok((p, content))
}

#[tactic(auto, unfolding(crate::specs::Strings::literal_header))]
fn literal_header(m: &[u8], p: usize) -> Reached<u32>
    requires { p ≤ length m.now }
    ensures steps { StepsExactlyAt strings.literal_header (λ x. x) m.now p result }
    ensures ahead { Ahead m.now p result }
    ensures no_failure { NeverFails result }
{
    let (p, _) = tag(b"{", m, p)?;
    let (p, count) = number(m, p)?;
    let (p, _) = tag(b"}", m, p)?;
    let (p, _) = tag(b"\r\n", m, p)?;
    Ok((p, count))
}

// So many bytes, of any value.
#[tactic(auto, using(imap_grammar::proofs::Positions::stepped), unfolding(imap_grammar::specs::Step::take_step))]
fn counted(count: usize, m: &[u8], p: usize) -> Reached<Span>
    requires { p ≤ length m.now }
    ensures steps { ExactlyAt (named_in m.now) m.now result (take_step count (drop p m.now)) }
    ensures inside { Inside m.now p result }
    ensures place { IfOk result IsLiteralPlace }
    ensures no_failure { NeverFails result }
{
    let left = m.len() - p;
    if left < count {
        return Err(Err::Incomplete(Needed::Size(count - left)));
    }
    let q = p + count;
    Ok((q, Span { start: p, end: q }))
}

/// A literal: as many bytes as its header says, of any value (RFC 3501, section 9: literal). No memory.
///
/// Where fewer follow, `Needed::Size` is how many are missing. A header of another form, or with a count above
/// 4,294,967,295, is `Error`.
#[tactic(auto, using(imap_grammar::proofs::Agreement::exact_answer_at), unfolding(crate::specs::Strings::literal))]
#[inline(never)]
pub fn literal(m: &[u8], p: usize) -> Reached<Span>
    requires { p ≤ length m.now }
    ensures steps { StepsExactlyAt strings.literal (named_in m.now) m.now p result }
    ensures answer { AnswersAt strings.literal (named_in m.now) m.now p result }
    ensures inside { Inside m.now p result }
    ensures place { IfOk result IsLiteralPlace }
    ensures no_failure { NeverFails result }
{
    let (p, count) = literal_header(m, p)?;
    counted(count as usize, m, p)
}

// Whether the next byte is a quote.
#[inline(always)]
fn quote_follows(m: &[u8], p: usize) -> bool
    requires { p ≤ length m.now }
    ensures { result ≡ begins (λ b. b == quote) (drop p m.now) }
{
    let (_, i) = m.split_at(p);
    matches!(i.first(), Some(b'"'))
}

// A quoted string that has quoted-chars alone, as most have; `None` where it is another.
#[inline(always)]
fn plain_string(m: &[u8], p: usize) -> Option<(usize, Span)>
    requires { p ≤ length m.now }
    ensures steps { IfSome result (λ x.
        step strings.string (drop p m.now) ≡ Ok (drop x.0 m.now, named_in m.now x.1)) }
    ensures inside { IfSome result (λ x. Lies p x.1 x.0 × (x.0 ≤ length m.now)) }
    ensures place { IfSome result (IsStringPlace m.now p) }
{
    if !quote_follows(m, p) {
        return None;
    }
    let start = p + 1;
    let (_, i) = m.split_at(start);
    let n = next_quote(i)?;
    let end = start + n;
    Some((end + 1, Span { start, end }))
}

// The same as `string`, for strings of all kinds. Never inlined, so that `string`, which is, stays short.
#[inline(never)]
fn any_string(m: &[u8], p: usize) -> Reached<Span>
    requires { p ≤ length m.now }
    ensures steps { StepsExactlyAt strings.string (named_in m.now) m.now p result }
    ensures inside { Inside m.now p result }
    ensures place { IfOk result (IsStringPlace m.now p) }
    ensures no_failure { NeverFails result }
{
    if quote_follows(m, p) {
        quoted(m, p)
    } else {
        literal(m, p)
    }
}

/// A string: quoted, or a literal (RFC 3501, section 9: string). No memory.
///
/// What begins with neither a quote nor a brace is `Error`.
#[tactic(auto, using(imap_grammar::proofs::Agreement::exact_answer_at))]
#[inline(always)]
pub fn string(m: &[u8], p: usize) -> Reached<Span>
    requires { p ≤ length m.now }
    ensures steps { StepsExactlyAt strings.string (named_in m.now) m.now p result }
    ensures answer { AnswersAt strings.string (named_in m.now) m.now p result }
    ensures inside { Inside m.now p result }
    ensures place { IfOk result (IsStringPlace m.now p) }
    ensures no_failure { NeverFails result }
{
    match plain_string(m, p) {
        Some(reached) => Ok(reached),
        None => any_string(m, p),
    }
}

/// At least one astring-char (RFC 3501, section 9: ASTRING-CHAR). No memory.
///
/// None in front is `Error`.
#[tactic(auto, using(crate::proofs::Places::run1_place))]
pub fn astring_chars(m: &[u8], p: usize) -> Reached<Span>
    requires { p ≤ length m.now }
    ensures steps { StepsExactlyAt (run1 classes.is_astring_char) (named_in m.now) m.now p result }
    ensures inside { Inside m.now p result }
    ensures place { IfOk result (IsRunPlace p) }
    ensures no_failure { NeverFails result }
{
    let (_, i) = m.split_at(p);
    cut1(run_end::<AstringChar>(i), m, p)
}

/// Bare astring-chars, or a string (RFC 3501, section 9: astring). No memory.
///
/// What begins with neither an astring-char nor a quote nor a brace is `Error`.
#[tactic(auto, using(imap_grammar::proofs::Agreement::exact_answer_at), unfolding(crate::specs::Strings::astring))]
pub fn astring(m: &[u8], p: usize) -> Reached<Span>
    requires { p ≤ length m.now }
    ensures steps { StepsExactlyAt strings.astring (named_in m.now) m.now p result }
    ensures answer { AnswersAt strings.astring (named_in m.now) m.now p result }
    ensures inside { Inside m.now p result }
    ensures place { IfOk result (IsAstringPlace m.now p) }
    ensures no_failure { NeverFails result }
{
    first!(astring_chars(m, p));
    string(m, p)
}

/// `NIL` in any case: the three bytes, whatever follows them (RFC 3501, section 9: nil). No memory.
///
/// Any other bytes are `Error`.
#[tactic(auto, using(crate::proofs::Places::word_answers), unfolding(crate::specs::Strings::nil))]
pub fn nil(m: &[u8], p: usize) -> Reached<Span>
    requires { p ≤ length m.now }
    ensures steps { StepsExactlyAt strings.nil (named_in m.now) m.now p result }
    ensures answer { AnswersAt strings.nil (named_in m.now) m.now p result }
    ensures inside { Inside m.now p result }
    ensures place { IfOk result (IsRunPlace p) }
    ensures no_failure { NeverFails result }
{
    word(b"NIL", m, p)
}

/// `NIL`, or a string (RFC 3501, section 9: nstring). No memory.
///
/// What is neither is `Error`.
#[tactic(auto, using(imap_grammar::proofs::Agreement::exact_answer_at), unfolding(crate::specs::Strings::nstring))]
#[inline(always)]
pub fn nstring(m: &[u8], p: usize) -> Reached<Option<Span>>
    requires { p ≤ length m.now }
    ensures steps { StepsExactlyAt strings.nstring (maybe_in m.now) m.now p result }
    ensures answer { AnswersAt strings.nstring (maybe_in m.now) m.now p result }
    ensures ahead { Ahead m.now p result }
    ensures inside { MaybeInside p result }
    ensures place { IfOk result (IsNstringPlace m.now p) }
    ensures no_failure { NeverFails result }
{
    if let Some((q, content)) = plain_string(m, p) {
        return Ok((q, Some(content)));
    }
    first!(nil(m, p), _ => None);
    let (q, content) = any_string(m, p)?;
    Ok((q, Some(content)))
}

/// Atom-chars, maybe none (RFC 3501, section 9: ATOM-CHAR). No memory.
#[tactic(auto, using(crate::proofs::Places::run0_place))]
pub fn atom_chars0(m: &[u8], p: usize) -> Reached<Span>
    requires { p ≤ length m.now }
    ensures steps { StepsExactlyAt (run0 classes.is_atom_char) (named_in m.now) m.now p result }
    ensures inside { Inside m.now p result }
    ensures place { IfOk result (IsRunPlace p) }
    ensures no_failure { NeverFails result }
{
    let (_, i) = m.split_at(p);
    cut0(run_end::<AtomChar>(i), m, p)
}

// At least one atom-char (RFC 3501, section 9: ATOM-CHAR).
#[tactic(auto, using(crate::proofs::Places::run1_place))]
fn atom_chars(m: &[u8], p: usize) -> Reached<Span>
    requires { p ≤ length m.now }
    ensures steps { StepsExactlyAt (run1 classes.is_atom_char) (named_in m.now) m.now p result }
    ensures inside { Inside m.now p result }
    ensures place { IfOk result (IsRunPlace p) }
    ensures no_failure { NeverFails result }
{
    let (_, i) = m.split_at(p);
    cut1(run_end::<AtomChar>(i), m, p)
}

// An atom, as its span and as its text.
#[tactic(auto, using(imap_grammar::proofs::Positions::kept_self), unfolding(crate::specs::Strings::atom))]
pub(crate) fn atom_text(m: &[u8], p: usize) -> Reached<(Span, &str)>
    requires { p ≤ length m.now }
    ensures span { StepsExactlyAt strings.atom (λ x. named_in m.now x.0) m.now p result }
    ensures text { StepsExactlyAt strings.atom (λ x. x.1.now) m.now p result }
    ensures inside { IfOk result (λ x. Lies p x.1.0 x.0 × (x.0 ≤ length m.now)) }
    ensures place { IfOk result (λ x. IsRunPlace p (x.0, x.1.0)) }
    ensures no_failure { NeverFails result }
{
    let (q, content) = atom_chars(m, p)?;
    let text = as_utf8(content.bytes(m)).ok_or(Err::Error)?;
    Ok((q, (content, text)))
}

/// An atom (RFC 3501, section 9: atom). No memory.
///
/// No atom-char in front, or bytes that are not UTF-8, are `Error`.
#[tactic(auto, using(imap_grammar::proofs::Agreement::exact_answer_at))]
pub fn atom(m: &[u8], p: usize) -> Reached<Span>
    requires { p ≤ length m.now }
    ensures steps { StepsExactlyAt strings.atom (named_in m.now) m.now p result }
    ensures answer { AnswersAt strings.atom (named_in m.now) m.now p result }
    ensures inside { Inside m.now p result }
    ensures place { IfOk result (IsRunPlace p) }
    ensures no_failure { NeverFails result }
{
    let (q, (content, _)) = atom_text(m, p)?;
    Ok((q, content))
}
