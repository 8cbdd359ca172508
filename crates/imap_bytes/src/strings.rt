//! Strings and atoms. None takes memory.

ghost use Rattle.std.specs.Prelude.{◌≡◌};
ghost use Rattle.std.specs.Option.{option_map};
ghost use Rattle.std.specs.Str.{is_utf8};
ghost use Rattle.imap_grammar.specs.Answer.{Answers, StepsExactly};
ghost use Rattle.imap_grammar.specs.Memory.{NeverFails};
ghost use Rattle.imap_grammar.specs.Rule.{only};
ghost use Rattle.imap_bytes.specs.Strings as strings;

use crate::at;
use imap_grammar::IResult;
use imap_grammar::at::span::{rest, sliced};
use std::str;

/// A quoted string: its raw content, backslashes and all (RFC 3501, section 9: quoted). No memory.
///
/// No quote in front, or in the content NUL, CR, LF, or a backslash before another byte than `"` and `\`, is `Error`.
#[tactic(auto, using(imap_grammar::proofs::Agreement::exact_answer), unfolding(crate::specs::Strings::quoted))]
pub fn quoted(i: &[u8]) -> IResult<&[u8], &[u8]>
    ensures steps { StepsExactly strings.quoted (λ x. x.now) i.now result }
    ensures answer { Answers strings.quoted (λ x. x.now) i.now result }
    ensures no_failure { NeverFails result }
{
    sliced(i, at::strings::quoted(i, 0))
}

/// A literal: as many bytes as its header says, of any value (RFC 3501, section 9: literal). No memory.
///
/// Where fewer follow, `Needed::Size` is how many are missing. A header of another form, or with a count above
/// 4,294,967,295, is `Error`.
#[tactic(auto, using(imap_grammar::proofs::Agreement::exact_answer), unfolding(crate::specs::Strings::literal))]
pub fn literal(i: &[u8]) -> IResult<&[u8], &[u8]>
    ensures steps { StepsExactly strings.literal (λ x. x.now) i.now result }
    ensures answer { Answers strings.literal (λ x. x.now) i.now result }
    ensures no_failure { NeverFails result }
{
    sliced(i, at::strings::literal(i, 0))
}

/// A string: quoted, or a literal (RFC 3501, section 9: string). No memory.
///
/// What begins with neither a quote nor a brace is `Error`.
#[tactic(auto, using(imap_grammar::proofs::Agreement::exact_answer), unfolding(crate::specs::Strings::string))]
#[inline(always)]
pub fn string(i: &[u8]) -> IResult<&[u8], &[u8]>
    ensures steps { StepsExactly strings.string (λ x. x.now) i.now result }
    ensures answer { Answers strings.string (λ x. x.now) i.now result }
    ensures no_failure { NeverFails result }
{
    sliced(i, at::strings::string(i, 0))
}

/// Bare astring-chars, or a string (RFC 3501, section 9: astring). No memory.
///
/// What begins with neither an astring-char nor a quote nor a brace is `Error`.
#[tactic(auto, using(imap_grammar::proofs::Agreement::exact_answer), unfolding(crate::specs::Strings::astring))]
pub fn astring(i: &[u8]) -> IResult<&[u8], &[u8]>
    ensures steps { StepsExactly strings.astring (λ x. x.now) i.now result }
    ensures answer { Answers strings.astring (λ x. x.now) i.now result }
    ensures no_failure { NeverFails result }
{
    sliced(i, at::strings::astring(i, 0))
}

/// `NIL` in any case: the three bytes, whatever follows them (RFC 3501, section 9: nil). No memory.
///
/// Any other bytes are `Error`.
#[tactic(auto, using(imap_grammar::proofs::Agreement::exact_answer), unfolding(crate::specs::Strings::nil))]
pub fn nil(i: &[u8]) -> IResult<&[u8], &[u8]>
    ensures steps { StepsExactly strings.nil (λ x. x.now) i.now result }
    ensures answer { Answers strings.nil (λ x. x.now) i.now result }
    ensures no_failure { NeverFails result }
{
    sliced(i, at::strings::nil(i, 0))
}

/// `NIL`, or a string (RFC 3501, section 9: nstring). No memory.
///
/// What is neither is `Error`.
#[tactic(auto, using(imap_grammar::proofs::Agreement::exact_answer), unfolding(crate::specs::Strings::nstring))]
pub fn nstring(i: &[u8]) -> IResult<&[u8], Option<&[u8]>>
    ensures steps { StepsExactly strings.nstring (option_map (λ y. y.now)) i.now result }
    ensures answer { Answers strings.nstring (option_map (λ y. y.now)) i.now result }
    ensures no_failure { NeverFails result }
{
    let (q, content) = at::strings::nstring(i, 0)?;
    Ok((rest(i, q), content.map(|span| span.part(i))))
}

/// The bytes as text, if they are UTF-8. No memory.
pub fn as_utf8(bytes: &[u8]) -> Option<&str>
    ensures { option_map (λ x. x.now) result ≡ only is_utf8 bytes.now }
{
    match str::from_utf8(bytes) {
        Ok(text) => Some(text),
        Err(_) => None,
    }
}

/// An atom (RFC 3501, section 9: atom). No memory.
///
/// No atom-char in front, or bytes that are not UTF-8, are `Error`.
#[tactic(auto, using(imap_grammar::proofs::Agreement::exact_answer), unfolding(crate::specs::Strings::atom))]
pub fn atom(i: &[u8]) -> IResult<&[u8], &str>
    ensures steps { StepsExactly strings.atom (λ x. x.now) i.now result }
    ensures answer { Answers strings.atom (λ x. x.now) i.now result }
    ensures no_failure { NeverFails result }
{
    let (q, (_, text)) = at::strings::atom_text(i, 0)?;
    Ok((rest(i, q), text))
}
