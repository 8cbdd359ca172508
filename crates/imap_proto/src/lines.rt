//! Lines: continuations, untagged data and tagged statuses.

ghost use Rattle.imap_grammar.specs.Answer.{Steps, StepsExactly};
ghost use Rattle.imap_grammar.specs.Memory.{FailsOnlyIf, SucceedsFor};
ghost use Rattle.imap_grammar.specs.Rule.{run1};
ghost use Rattle.imap_proto.specs.Memory.{ContinuationMayWant, MayWantMemory, TaggedMayWant, TakesNone};
ghost use Rattle.imap_proto.specs.Responses.{response_value};
ghost use Rattle.imap_proto.specs.Lines as rule;

use crate::data::{
    acl_line, annotation_line, capability_line, count_line, enabled_line, fetched_line, id_line,
    list_line, mailbox_line, no_response, quota_line, status_line, vanished_line,
};
use crate::outcomes::{outcome, spaced_outcome};
use crate::response::{RequestId, Response};
use imap_body_types::or_drop;
use imap_bytes::strings::as_utf8;
use imap_bytes::tags::{cut1, maybe_space, second, tag};
use imap_bytes::{Err, IResult, Needed, is_astring_char, number};
use imap_data::readers::status;
use imap_grammar::scanning::{Class, run_end};
use std::alloc::Global;

#[tactic(auto, unfolding(crate::specs::Lines::continuation))]
#[inline(never)]
fn continuation(alloc: Global, i: &[u8]) -> IResult<&[u8], Response<'_>>
    ensures steps { Steps rule.continuation response_value i.now result }
    ensures failure { FailsOnlyIf (ContinuationMayWant i.now) result }
    ensures memory { SucceedsFor TakesNone rule.continuation i.now result }
{
    let (rest, _) = tag(b"+", i)?;
    let (rest, _) = maybe_space(rest)?;
    let (rest, outcome) = outcome(alloc, rest)?;
    let (rest, _) = or_drop!(tag(b"\r\n", rest), outcome);
    Ok((rest, Response::Continue(outcome)))
}

// An astring-char but `+` (RFC 3501, section 9: tag).
struct TagChar;

impl Class for TagChar {
    ghost class = { rule.is_tag_char };

    fn has(c: u8) -> bool {
        is_astring_char(c) && c != b'+'
    }
}

fn tag_chars(i: &[u8]) -> IResult<&[u8], &[u8]>
    ensures { StepsExactly (run1 rule.is_tag_char) (λ x. x.now) i.now result }
{
    cut1(run_end::<TagChar>(i), i)
}

#[tactic(auto, unfolding(crate::specs::Lines::request_tag))]
fn request_tag(i: &[u8]) -> IResult<&[u8], &str>
    ensures { StepsExactly rule.request_tag (λ x. x.now) i.now result }
{
    let (rest, bytes) = tag_chars(i)?;
    match as_utf8(bytes) {
        None => Err(Err::Error),
        Some(text) => Ok((rest, text)),
    }
}

#[tactic(auto, unfolding(crate::specs::Lines::tagged))]
#[inline(never)]
fn tagged(alloc: Global, i: &[u8]) -> IResult<&[u8], Response<'_>>
    ensures steps { Steps rule.tagged response_value i.now result }
    ensures failure { FailsOnlyIf (TaggedMayWant i.now) result }
{
    let (rest, tag_text) = request_tag(i)?;
    let (rest, _) = tag(b" ", rest)?;
    let (rest, status) = status(rest)?;
    let (rest, outcome) = or_drop!(spaced_outcome(alloc, rest));
    let (rest, _) = or_drop!(tag(b"\r\n", rest), outcome);
    match String::from_str(alloc, tag_text) {
        Ok(text) => {
            let tag = RequestId(text);
            Ok((
                rest,
                Response::Done {
                    tag,
                    status,
                    outcome,
                },
            ))
        }
        Err(error) => {
            drop(outcome); // By a call, for the reason that `or_drop!` gives.
            Err(error.into())
        }
    }
}

/// A response: a continuation, a tagged line, or `* `, a datum and the end of its line. Of the alternatives those are
/// tried, in order, that may start with the first byte.
///
/// Each arm returns what one call answers, so that an answer is copied once on its way. The number of a line is read
/// here: it is small, and what stands behind it is told apart by its second byte.
#[tactic(auto, using(crate::proofs::Grounds::arms), unfolding(crate::specs::Lines::data_line))]
#[inline(never)]
pub(crate) fn response(alloc: Global, i: &[u8]) -> IResult<&[u8], Response<'_>>
    ensures steps { Steps rule.response response_value i.now result }
    ensures failure { FailsOnlyIf (MayWantMemory i.now) result }
    ensures memory { SucceedsFor TakesNone rule.response i.now result }
{
    match i.first() {
        None | Some(b'+') => return continuation(alloc, i),
        Some(b'*') => {}
        Some(_) => return tagged(alloc, i),
    }
    let rest = match tag(b"* ", i) {
        Ok((rest, _)) => rest,
        Err(e) => return no_response(e),
    };
    match rest.first() {
        None => return no_response(Err::Incomplete(Needed::Unknown)),
        Some(b'o' | b'O' | b'n' | b'N' | b'b' | b'B' | b'p' | b'P') => {
            return status_line(alloc, rest);
        }
        Some(b'f' | b'F' | b's' | b'S' | b'x' | b'X') => return mailbox_line(alloc, rest),
        Some(b'l' | b'L') => return list_line(alloc, rest),
        Some(b'c' | b'C') => return capability_line(alloc, rest),
        Some(b'e' | b'E') => return enabled_line(alloc, rest),
        Some(b'm' | b'M') => return annotation_line(alloc, rest),
        Some(b'v' | b'V') => return vanished_line(alloc, rest),
        Some(b'q' | b'Q') => return quota_line(alloc, rest),
        Some(b'i' | b'I') => return id_line(alloc, rest),
        Some(b'a' | b'A') => return acl_line(alloc, rest),
        Some(b) if b.is_ascii_digit() => match number(rest) {
            Ok((rest, n)) => match second(rest) {
                Some(b'f' | b'F') => return fetched_line(alloc, n, rest),
                _ => return count_line(n, rest),
            },
            Err(e) => return no_response(e),
        },
        Some(_) => return no_response(Err::Error),
    }
}
