//! Readers of outcomes: a code in brackets, if there is one, and a text.

ghost use Rattle.std.specs.Prelude.{◌≡◌, option_map, string_bytes};
ghost use Rattle.imap_grammar.specs.Answer.{Steps};
ghost use Rattle.imap_grammar.specs.Memory.{Behind, FailsOnlyIf, SucceedsFor};
ghost use Rattle.imap_grammar.specs.Tags.{sp};
ghost use Rattle.imap_grammar.specs.Text.{text_of, IsOwned};
ghost use Rattle.imap_bytes.specs.Texts.{text as text_rule, YieldsOwned};
ghost use Rattle.imap_proto.specs.Responses.{outcome_value};
ghost use Rattle.imap_proto.specs.Memory.{OutcomeMayWant, OutcomeTakesNone};
ghost use Rattle.imap_proto.specs.Outcomes as outcomes;
ghost use Rattle.imap_proto.specs.Outcomes.{after_first};

use crate::outcome::Outcome;
use imap_bytes::lists::tried;
use imap_bytes::tags::tag;
use imap_bytes::{IResult, text};
use imap_data::readers::response_code;
use std::alloc::Global;
use std::borrow::CowStr;

fn str_after_first(text: &str) -> &str
    ensures { result.now ≡ outcomes.bytes_after_first text.now }
{
    let mut characters = text.chars();
    let _ = characters.next();
    characters.as_str()
}

fn string_after_first(mut text: String) -> String
    ensures { string_bytes result ≡ outcomes.bytes_after_first (string_bytes text) }
{
    if text.is_empty() {
        return text;
    }
    let _ = text.remove(0);
    text
}

fn without_first(text: CowStr<'_>) -> CowStr<'_>
    ensures { text_of result ≡ after_first (text_of text.entry) }
{
    match text {
        CowStr::Borrowed(text) => CowStr::Borrowed(str_after_first(text)),
        CowStr::Owned(text) => CowStr::Owned(string_after_first(text)),
    }
}

// The information that a text is where no code stands in front: an empty text is none.
fn plain(text: CowStr<'_>) -> Option<CowStr<'_>>
    ensures { option_map text_of result
        ≡ outcomes.unless_empty (text_of text.entry).bytes (text_of text.entry) }
{
    if text.is_empty() { None } else { Some(text) }
}

// The information that a text is where a code stands in front: all but the first character; an empty text is none.
fn behind_code(text: CowStr<'_>) -> Option<CowStr<'_>>
    ensures { option_map text_of result
        ≡ outcomes.unless_empty (text_of text.entry).bytes (after_first (text_of text.entry)) }
{
    if text.is_empty() {
        None
    } else {
        Some(without_first(text))
    }
}

// An outcome without a code. It is never inlined, nor is `coded_outcome`, so that it clears no room on the stack for a
// code.
#[tactic(auto, unfolding(crate::specs::Outcomes::plain_outcome))]
#[inline(never)]
fn plain_outcome(alloc: Global, i: &[u8]) -> IResult<&[u8], Outcome<'_>>
    ensures steps { Steps outcomes.plain_outcome outcome_value i.now result }
    ensures failure { FailsOnlyIf (YieldsOwned IsOwned text_rule i.now) result }
    ensures memory { SucceedsFor OutcomeTakesNone outcomes.plain_outcome i.now result }
{
    let (rest, text) = text(alloc, i)?;
    let information = plain(text);
    Ok((
        rest,
        Outcome {
            code: None,
            information,
        },
    ))
}

// An outcome that may have a code.
#[tactic(auto, unfolding(crate::specs::Outcomes::outcome))]
#[inline(never)]
fn coded_outcome(alloc: Global, i: &[u8]) -> IResult<&[u8], Outcome<'_>>
    ensures steps { Steps outcomes.outcome outcome_value i.now result }
    ensures failure { FailsOnlyIf (OutcomeMayWant i.now) result }
    ensures memory { SucceedsFor OutcomeTakesNone outcomes.outcome i.now result }
{
    match tried(response_code(alloc, i))? {
        Some((rest, code)) => {
            let (rest, text) = text(alloc, rest)?;
            let information = behind_code(text);
            Ok((
                rest,
                Outcome {
                    code: Some(code),
                    information,
                },
            ))
        }
        None => plain_outcome(alloc, i),
    }
}

/// A code in brackets if there is one, and the text behind it. The first byte tells whether a code may stand there.
///
/// It takes memory for a code that may hold a list, and for a text that is not UTF-8.
#[tactic(auto, using(crate::proofs::FirstBytes::outcome_uncoded))]
pub(crate) fn outcome(alloc: Global, i: &[u8]) -> IResult<&[u8], Outcome<'_>>
    ensures steps { Steps outcomes.outcome outcome_value i.now result }
    ensures failure { FailsOnlyIf (OutcomeMayWant i.now) result }
    ensures memory { SucceedsFor OutcomeTakesNone outcomes.outcome i.now result }
{
    match i.first() {
        None | Some(b'[') => coded_outcome(alloc, i),
        Some(_) => plain_outcome(alloc, i),
    }
}

/// An outcome behind a space, or none. It takes memory as an outcome does.
#[tactic(auto, unfolding(crate::specs::Outcomes::spaced_outcome))]
pub(crate) fn spaced_outcome(alloc: Global, i: &[u8]) -> IResult<&[u8], Outcome<'_>>
    ensures steps { Steps outcomes.spaced_outcome outcome_value i.now result }
    ensures failure { FailsOnlyIf (Behind sp OutcomeMayWant i.now) result }
    ensures memory { SucceedsFor OutcomeTakesNone outcomes.spaced_outcome i.now result }
{
    match tried(tag(b" ", i))? {
        Some((rest, _)) => outcome(alloc, rest),
        None => Ok((i, Outcome::default())),
    }
}
