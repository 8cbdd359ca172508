//! The rules by which the state of a connection moves (RFC 3501, section 3).

ghost use Rattle.std.specs.Prelude.{◌≡◌};
ghost use Rattle.imap_proto.specs.Responses.{response_value};
ghost use Rattle.imap_session.specs.States as rule;

use imap_command::State;
use imap_proto::{Response, Status};

fn succeeded(next: Option<State>, state: State) -> State
    ensures { result ≡ rule.succeeded next state }
{
    match next {
        Some(next) => next,
        None => state,
    }
}

fn failed(next: Option<State>, state: State) -> State
    ensures { result ≡ rule.failed next state }
{
    match (next, state) {
        (Some(State::Selected), State::Selected) => State::Authenticated,
        _ => state,
    }
}

fn finished(status: &Status, next: Option<State>, state: State) -> State
    ensures { result ≡ rule.finished status.now next state }
{
    match status {
        Status::Ok => succeeded(next, state),
        _ => failed(next, state),
    }
}

fn told(status: &Status, first: bool, state: State) -> State
    ensures { result ≡ rule.told status.now first state }
{
    match status {
        Status::Bye => State::Logout,
        Status::PreAuth if first => State::Authenticated,
        _ => state,
    }
}

// The state behind a response: whether it is the first one, which state the pending command leads to, and the state
// before are known.
pub(crate) fn moved(
    response: &Response<'_>,
    first: bool,
    next: Option<State>,
    state: State,
) -> State
    ensures { result ≡ rule.moved (response_value response.now) first next state }
{
    if state == State::Logout {
        return state;
    }
    match response {
        Response::Done { status, .. } => finished(status, next, state),
        Response::Data { status, .. } => told(status, first, state),
        _ => state,
    }
}
