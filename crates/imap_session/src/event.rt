//! What a session gives.

ghost use Rattle.std.specs.Prelude.{◌≡◌};
ghost use Rattle.imap_proto.specs.Responses.{response_value};
ghost use Rattle.imap_session.specs.Answers.{event_value, event_of};

use imap_proto::{Outcome, Response, Status};

/// What a server told.
#[derive(Debug, Drop, PartialEq, Eq)]
pub enum Event {
    /// A response that finishes no command.
    Response(Response<'static>),
    /// The pending command is finished.
    Finished {
        /// How it went.
        status: Status,
        /// The code and the text.
        outcome: Outcome<'static>,
    },
}

// The event that a response is.
#[inline(always)]
pub(crate) fn event_of(response: Response<'static>) -> Event
    ensures { event_value result ≡ event_of (response_value response.entry) }
{
    match response {
        Response::Done {
            tag,
            status,
            outcome,
        } => {
            drop(tag);
            Event::Finished { status, outcome }
        }
        other => Event::Response(other),
    }
}
