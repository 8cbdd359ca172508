//! A session.

ghost use Rattle.std.specs.Prelude.{◌≡◌, ◌<◌, ◌+◌, length, IfOk, IfErr, IfSome, OnOk, OnErr};
ghost use Rattle.imap_proto.specs.Responses.{response_value};
ghost use Rattle.imap_session.specs.declared.errors.SendError.TheVariants as refusal;
ghost use Rattle.imap_session.specs.declared.errors.SessionError.TheVariants as error;
ghost use Rattle.imap_session.specs.Machine.{new, fed, took, stopped_for};
ghost use Rattle.imap_session.specs.Seen.{stop_of};
ghost use Rattle.imap_session.specs.Answers.{AnswersSend, IsReady, AnswersNext, AnswersSkip, NextMayWant, Settles};
ghost use Rattle.imap_session.specs.Answers.{Stopped};

use crate::errors::{SendError, SessionError};
use crate::event::{Event, event_of};
use crate::pending::{Pending, has_strange_front, left_pending, next_state};
use crate::states::moved;
use crate::tags::line;
use imap_command::{Command, State};
use imap_proto::Response;
use imap_proto::stream::{Feed, FeedError};
use std::alloc::{AllocError, Global};
use std::marker::Model;

// Why no more responses are taken.
#[derive(Clone, Copy)]
enum Stop {
    Denied,
    StrangeTag,
}

fn error_of(stop: Stop) -> SessionError
    ensures { Stopped (stop_of stop) result }
{
    match stop {
        Stop::Denied => SessionError::Denied,
        Stop::StrangeTag => SessionError::StrangeTag,
    }
}

/// A client's session with a server.
///
/// Its state is that of the commands which were accepted and the responses which were taken, in their order
/// (`laws::runs`), however the bytes came.
#[derive(Drop)]
pub struct Session {
    alloc: Global,
    feed: Feed,
    state: State,
    pending: Option<Pending>,
    // The number of the last tag, 0 where none was given.
    last: u64,
    // Whether a response was taken.
    begun: bool,
    stopped: Option<Stop>,
}

impl Model for Session {
    ghost use Rattle.imap_session.specs.Machine.{Machine};

    ghost Value = { Machine };

    ghost use Rattle.imap_session.specs.Seen.{machine};

    ghost view = { machine };
}

impl Session {
    /// A session that begins: not authenticated, with no command pending, and with no bytes. No memory.
    pub fn new(alloc: Global) -> Session
        ensures { result ≡ new }
    {
        Session {
            alloc,
            feed: Feed::new(alloc),
            state: State::NotAuthenticated,
            pending: None,
            last: 0,
            begun: false,
            stopped: None,
        }
    }

    /// The state that the connection is in. No memory.
    pub fn state(&self) -> State
        ensures { result ≡ self.now.state }
    {
        self.state
    }

    /// The line of a command, for the server: its tag (`A1`, `A2` and so on), a space, its args and CRLF. The command
    /// is pending then. Whether the state allows it isn't judged (RFC 3501, sections 2.2.1 and 6).
    ///
    /// `Busy`: a command is pending. `Exhausted`: the last tag was given. Both take no memory. Otherwise it takes
    /// memory; `OutOfMemory`: memory ran out. At each error the session is as it was, and the command is given up.
    pub fn send(&mut self, command: Command) -> Result<Vec<u8>, SendError>
        ensures step { AnswersSend self.old command result self.new }
        ensures kept { OnErr result (self.new ≡ self.old) }
        ensures held { self.new.held ≡ self.old.held }
        ensures memory { IfErr result (λ e. e ≡ refusal.OutOfMemory → IsReady self.old) }
    {
        if self.pending.is_some() {
            return Err(SendError::Busy);
        }
        if self.last == u64::MAX {
            return Err(SendError::Exhausted);
        }
        let number = self.last + 1;
        let text = line(self.alloc, number, &command.args)?;
        self.last = number;
        self.pending = Some(Pending {
            number,
            next_state: command.next_state,
        });
        Ok(text)
    }

    /// Puts a piece of what the server sent behind what the session holds. It takes memory; `Err`: memory ran out, and
    /// the session is as it was.
    pub fn feed(&mut self, piece: &[u8]) -> Result<(), AllocError>
        ensures step { OnOk result (self.new ≡ fed piece.now self.old) }
        ensures kept { OnErr result (self.new ≡ self.old) }
    {
        self.feed.feed(piece)
    }

    /// What the response at the front of the held bytes tells; its bytes are held no longer. `None`: more bytes are
    /// needed, or none are held. A tagged line finishes the pending command (RFC 3501, section 7.1): `OK` moves to the
    /// state that the command leads to, and a SELECT or EXAMINE that fails leaves no mailbox selected (section 6.3.1).
    /// `BYE` without a tag moves to `Logout`, which is final; `PREAUTH` without a tag moves to `Authenticated`, as the
    /// first response of all.
    ///
    /// `Denied`: no response begins so. `StrangeTag`: a tagged line has another tag than the pending command, or no
    /// command is pending; the line is still held. Behind both each later call answers the same, whatever is fed, and
    /// takes no memory, until `skip_line` has dropped the line. Otherwise it takes memory; `OutOfMemory`: memory ran
    /// out, the session is as it was, and the same call may be made again. An event takes at least one byte, so a loop
    /// over `next` ends.
    pub fn next(&mut self) -> Result<Option<Event>, SessionError>
        ensures step { AnswersNext self.old result self.new }
        ensures fewer { IfOk result (λ r.
            IfSome r (λ _. length self.new.held < length self.old.held)) }
        ensures kept { IfErr result (λ e. e ≡ error.OutOfMemory → self.new ≡ self.old) }
        ensures memory { IfErr result (λ e. e ≡ error.OutOfMemory → NextMayWant self.old) }
    {
        if let Some(stop) = self.stopped {
            return Err(error_of(stop));
        }
        match has_strange_front(self.alloc, self.feed.held(), self.pending) {
            Ok(false) => {
                let given = self.feed.next();
                self.settle(given)
            }
            Ok(true) => Err(self.stop(Stop::StrangeTag)),
            Err(_) => Err(SessionError::OutOfMemory),
        }
    }

    /// Behind `Denied` or `StrangeTag`: drops the logical line at the front of the held bytes (RFC 3501, sections 2.2
    /// and 4.3), tells its length with its CRLF, and goes on behind it, as if the line had not come. `None` where the
    /// line isn't whole yet, and where the session hasn't stopped, so that no line in good order is lost: then nothing
    /// changes, and the same call may be made again behind more bytes. No memory.
    ///
    /// What such a line told is lost: where the pending command's own tagged line was denied, no later line finishes
    /// that command. What a line without a rule means by its bytes isn't known: `Feed::skip_line` says where a skipped
    /// line may end too early or too late.
    pub fn skip_line(&mut self) -> Option<usize>
        ensures step { AnswersSkip self.old result self.new }
        ensures fewer { IfSome result (λ n.
            (0 < n) × (length self.new.held + n ≡ length self.old.held)) }
    {
        if self.stopped.is_none() {
            return None;
        }
        let skipped = self.feed.skip_line()?;
        self.stopped = None;
        Some(skipped)
    }

    // Answers what the feed gave.
    #[inline(always)]
    fn settle(
        &mut self,
        given: Result<Option<Response<'static>>, FeedError>,
    ) -> Result<Option<Event>, SessionError>
        ensures { Settles self.old given.entry result self.new }
    {
        match given {
            Ok(Some(response)) => {
                self.take(&response);
                Ok(Some(event_of(response)))
            }
            Ok(None) => Ok(None),
            Err(FeedError::Denied) => Err(self.stop(Stop::Denied)),
            Err(FeedError::OutOfMemory) => Err(SessionError::OutOfMemory),
        }
    }

    // Moves behind a response.
    fn take(&mut self, response: &Response<'_>)
        ensures { self.new ≡ took (response_value response.now) self.old.held self.old }
    {
        self.state = moved(response, !self.begun, next_state(self.pending), self.state);
        self.pending = left_pending(response, self.pending);
        self.begun = true;
    }

    // Takes no more responses, and tells why.
    fn stop(&mut self, stop: Stop) -> SessionError
        ensures stopped { self.new ≡ stopped_for (stop_of stop) self.old }
        ensures error { Stopped (stop_of stop) result }
    {
        self.stopped = Some(stop);
        error_of(stop)
    }
}

#[cfg(test)]
mod tests {
    use super::*;
    use imap_command::CommandBuilder;
    use std::test::*;

    #[test]
    fn no_tag_is_left(rt: HostRuntime) -> Result<(), Fail> {
        let mut session = Session::new(rt.alloc());
        session.last = u64::MAX;
        let sent = session.send(CommandBuilder::check(rt.alloc())?);
        assert!(rt; matches!(sent, Err(SendError::Exhausted)));
        assert!(rt; session.last == u64::MAX && session.pending.is_none());
        Ok(())
    }
}
