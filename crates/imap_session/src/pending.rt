//! The pending command.

ghost use Rattle.std.specs.Prelude.{◌≡◌, ◌↔◌, IfOk, OnErr, IsTrue, option_map};
ghost use Rattle.imap_grammar.specs.Meaning.{begins};
ghost use Rattle.imap_proto.specs.Feeds.{FeedMayWant};
ghost use Rattle.imap_proto.specs.Responses.{response_value};
ghost use Rattle.imap_session.specs.Machine as machine;
ghost use Rattle.imap_session.specs.Seen.{pending_of};
ghost use Rattle.imap_session.specs.Answers.{may_begin_tag, JudgesFront};

use crate::tags::is_tag;
use imap_command::State;
use imap_proto::{Err, Response};
use std::alloc::{AllocError, Global};

// A command that the server has not finished.
#[derive(Clone, Copy)]
pub(crate) struct Pending {
    // The number of its tag.
    pub(crate) number: u64,
    // The state that it leads to, if it leads to one.
    pub(crate) next_state: Option<State>,
}

// The state that the pending command leads to.
pub(crate) fn next_state(pending: Option<Pending>) -> Option<State>
    ensures { result ≡ machine.leads_to (option_map pending_of pending) }
{
    match pending {
        Some(pending) => pending.next_state,
        None => None,
    }
}

// What is pending behind a response.
pub(crate) fn left_pending(response: &Response<'_>, pending: Option<Pending>) -> Option<Pending>
    ensures { option_map pending_of result
        ≡ machine.left_pending (response_value response.now) (option_map pending_of pending) }
{
    match response {
        Response::Done { .. } => None,
        _ => pending,
    }
}

fn has_tag(pending: Option<Pending>, tag: &[u8]) -> bool
    ensures { IsTrue result ↔ machine.HasTag (option_map pending_of pending) tag.now }
{
    match pending {
        Some(pending) => is_tag(tag, pending.number),
        None => false,
    }
}

fn is_expected(pending: Option<Pending>, response: &Response<'_>) -> bool
    ensures { IsTrue result
        ↔ machine.IsExpected (option_map pending_of pending) (response_value response.now) }
{
    match response {
        Response::Done { tag, .. } => has_tag(pending, tag.as_bytes()),
        _ => true,
    }
}

// Whether a tagged line may stand in front: one begins neither with `*` nor with `+` (RFC 3501, section 9: tag).
fn may_be_tagged(held: &[u8]) -> bool
    ensures { result ≡ begins may_begin_tag held.now }
{
    match held.first() {
        Some(b) => *b != b'*' && *b != b'+',
        None => false,
    }
}

// Whether a tagged line stands in front that has not the tag of the pending command. It takes memory where a tagged
// line may stand there; `Err`: memory ran out.
pub(crate) fn has_strange_front(
    alloc: Global,
    held: &[u8],
    pending: Option<Pending>,
) -> Result<bool, AllocError>
    ensures judged { IfOk result (JudgesFront (option_map pending_of pending) held.now) }
    ensures memory { OnErr result (FeedMayWant held.now) }
{
    // Any other line isn't read twice.
    if !may_be_tagged(held) {
        return Ok(false);
    }
    match Response::parse(alloc, held) {
        Ok((_, response)) => {
            let expected = is_expected(pending, &response);
            drop(response); // By a call, since what is dropped in place is proved kind by kind.
            Ok(!expected)
        }
        Err(error) => match error {
            Err::Failure => Err(AllocError),
            _ => Ok(false),
        },
    }
}
