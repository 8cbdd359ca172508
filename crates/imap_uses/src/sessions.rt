//! A session's state.

ghost use Rattle.std.specs.Prelude.{◌≡◌, ◌↔◌, Some, true, IfErr, IfOk};
ghost use Rattle.imap_command.specs.declared.command.State.TheVariants.{Authenticated};
ghost use Rattle.imap_shared.specs.declared.types.statuses.Status.TheVariants.{Ok as Fine};
ghost use Rattle.imap_session.specs.Answers.{NextMayWant};
ghost use Rattle.imap_session.specs.declared.errors.SessionError.TheVariants as error;
ghost use Rattle.imap_uses.specs.Sessions.{AwaitsLogin, Succeeds, TakesNext, finished_with};

use imap_proto::Status;
use imap_session::{Event, Session, SessionError};

fn is_finished_well(event: &Option<Event>) -> bool
    ensures { (result ≡ true) ↔ (finished_with event.now ≡ Some Fine) }
{
    matches!(
        event,
        Some(Event::Finished {
            status: Status::Ok,
            ..
        })
    )
}

/// Takes the next event of a session that has sent LOGIN, and tells whether it finished that with `OK`: then the
/// session is authenticated (RFC 3501, section 6.2.3).
///
/// Its errors are those of `Session::next`, and it takes memory as that does.
pub fn finishes_login(session: &mut Session) -> Result<bool, SessionError>
    requires { AwaitsLogin session.old }
    ensures step { TakesNext session.old result session.new }
    ensures finished { IfOk result (λ is_done.
        (is_done ≡ true) ↔ Succeeds session.old session.new) }
    ensures state { IfOk result (λ is_done.
        is_done ≡ true → session.new.state ≡ Authenticated) }
    ensures kept { IfErr result (λ e. e ≡ error.OutOfMemory → session.new ≡ session.old) }
    ensures memory { IfErr result (λ e. e ≡ error.OutOfMemory → NextMayWant session.old) }
{
    let event = session.next()?;
    let is_done = is_finished_well(&event);
    drop(event);
    Ok(is_done)
}
