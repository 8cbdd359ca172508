//! Sessions: what they send, which events they give, and in which state they are.

ghost use Rattle.std.specs.Prelude.{◌<◌};

use crate::answers::{assert_row, is_text};
use imap_command::{BuildError, Command, CommandBuilder, State};
use imap_session::{Session, SessionError};
use std::alloc::{AllocError, Global};
use std::fmt::Debug;
use std::process::Abort;
use std::test::*;

// A command of the table.
enum Named {
    Login,
    SelectX,
    SelectY,
    Check,
}

fn command(alloc: Global, named: &Named) -> Result<Command, BuildError> {
    Ok(match named {
        Named::Login => CommandBuilder::login(alloc, "u", "p")?,
        Named::SelectX => CommandBuilder::select(alloc, "x")?.into(),
        Named::SelectY => CommandBuilder::select(alloc, "y")?.into(),
        Named::Check => CommandBuilder::check(alloc)?,
    })
}

// A step, with what it tells.
enum Step {
    // A command is sent: its line, or why there is none.
    Send(Named, &'static str),
    // Bytes are fed: the events behind them, each with the state then, and the error that comes behind these.
    Feed(&'static [u8], &'static str),
    // A line of so many bytes is skipped, or none is.
    Skip(Option<usize>),
}

static LOGIN: &[Step] = &[
    Step::Send(Named::Login, "A1 LOGIN \"u\" \"p\"\r\n"),
    Step::Send(Named::Login, "Busy"),
    Step::Feed(
        b"A1 OK\r\n",
        "Finished { status: Ok, outcome: Outcome { code: None, information: None } } Authenticated ",
    ),
    Step::Feed(b"A9 OK\r\n", "StrangeTag"),
];

static GREETED: &[Step] = &[
    Step::Feed(
        b"* PREAUTH hi\r\n",
        "Response(Data { status: PreAuth, outcome: Outcome { code: None, information: Some(\"hi\") } }) Authenticated ",
    ),
    Step::Send(Named::SelectX, "A1 SELECT \"x\"\r\n"),
    Step::Feed(
        b"A1 OK\r\n",
        "Finished { status: Ok, outcome: Outcome { code: None, information: None } } Selected ",
    ),
    Step::Send(Named::SelectY, "A2 SELECT \"y\"\r\n"),
    Step::Feed(
        b"A2 NO\r\n",
        "Finished { status: No, outcome: Outcome { code: None, information: None } } Authenticated ",
    ),
];

static LATE_PREAUTH: &[Step] = &[Step::Feed(
    b"* OK a\r\n* PREAUTH b\r\n",
    "Response(Data { status: Ok, outcome: Outcome { code: None, information: Some(\"a\") } }) NotAuthenticated \
     Response(Data { status: PreAuth, outcome: Outcome { code: None, information: Some(\"b\") } }) NotAuthenticated ",
)];

static CLOSED: &[Step] = &[
    Step::Feed(
        b"* PREAUTH hi\r\n",
        "Response(Data { status: PreAuth, outcome: Outcome { code: None, information: Some(\"hi\") } }) Authenticated ",
    ),
    Step::Send(Named::Check, "A1 CHECK\r\n"),
    Step::Feed(
        b"* BYE z\r\nA1 OK\r\n",
        "Response(Data { status: Bye, outcome: Outcome { code: None, information: Some(\"z\") } }) Logout \
         Finished { status: Ok, outcome: Outcome { code: None, information: None } } Logout ",
    ),
];

static DENIED: &[Step] = &[
    Step::Feed(b"* X\r\n", "Denied"),
    Step::Feed(b"a OK\r\n", "Denied"),
];

// A denied line whose literal isn't whole at first; a tagged line that answers no command, which comes before its
// command is sent; and a denied line that would have finished the command.
static SKIPPED: &[Step] = &[
    Step::Skip(None),
    Step::Feed(
        b"* OK a\r\n",
        "Response(Data { status: Ok, outcome: Outcome { code: None, information: Some(\"a\") } }) NotAuthenticated ",
    ),
    Step::Skip(None),
    Step::Feed(b"* X {3}\r\n\r\n", "Denied"),
    Step::Skip(None),
    Step::Feed(b"x\r\nA1 OK\r\n* PREAUTH b\r\n", "Denied"),
    Step::Skip(Some(14)),
    Step::Send(Named::Login, "A1 LOGIN \"u\" \"p\"\r\n"),
    Step::Feed(
        b"A1 OK\r\nA1 OK",
        "Finished { status: Ok, outcome: Outcome { code: None, information: None } } Authenticated \
         Response(Data { status: PreAuth, outcome: Outcome { code: None, information: Some(\"b\") } }) Authenticated \
         StrangeTag",
    ),
    Step::Skip(Some(7)),
    Step::Send(Named::SelectX, "A2 SELECT \"x\"\r\n"),
    Step::Feed(b"\r\n", "StrangeTag"),
    Step::Skip(Some(7)),
    Step::Feed(b"A2 FINE\r\nA2 NO\r\n", "Denied"),
    Step::Skip(Some(9)),
    Step::Feed(
        b"* 1 EXISTS\r\n",
        "Finished { status: No, outcome: Outcome { code: None, information: None } } Authenticated \
         Response(MailboxData(Exists(1))) Authenticated ",
    ),
    Step::Skip(None),
];

// The line of a command that is sent, or why there is none.
fn told_line(alloc: Global, session: &mut Session, command: Command) -> Result<String, AllocError> {
    match session.send(command) {
        Ok(line) => match str::from_utf8(&line) {
            Ok(line) => format!(in alloc; "{line}"),
            Err(error) => format!(in alloc; "{error:?}"),
        },
        Err(error) => format!(in alloc; "{error:?}"),
    }
}

// Puts what was told behind the text. Over any type, since each kind of event would be proved to be dropped.
fn put<T: Debug + Drop>(
    alloc: Global,
    text: &mut String,
    told: Option<T>,
    state: State,
) -> Result<bool, AllocError> {
    match told {
        Some(value) => {
            text.push_str(&format!(in alloc; "{value:?} {state:?} ")?)?;
            Ok(true)
        }
        None => Ok(false),
    }
}

// Puts all events behind the text, each with the state then, and answers the error that comes behind them.
fn put_events(
    alloc: Global,
    session: &mut Session,
    text: &mut String,
) -> Result<Option<SessionError>, AllocError> {
    // Not `loop`: a loop has to be proved to end.
    for _ in 0..u64::MAX {
        match session.next() {
            Ok(event) => {
                if !put(alloc, text, event, session.state())? {
                    return Ok(None);
                }
            }
            Err(error) => return Ok(Some(error)),
        }
    }
    Ok(None)
}

// What is told of bytes that are fed in pieces of this size.
fn told_events(
    alloc: Global,
    session: &mut Session,
    bytes: &[u8],
    size: usize,
) -> Result<String, AllocError>
    requires { 0 < size }
{
    let mut text = String::new(alloc);
    let mut error = None;
    for piece in bytes.chunks(size) {
        session.feed(piece)?;
        error = put_events(alloc, session, &mut text)?;
    }
    if let Some(error) = error {
        text.push_str(&format!(in alloc; "{error:?}")?)?;
    }
    Ok(text)
}

fn assert_step(rt: &impl Abort, alloc: Global, session: &mut Session, step: &Step, size: usize)
    requires { 0 < size }
{
    match step {
        Step::Send(named, want) => match command(alloc, named) {
            Ok(command) => assert_row(rt, is_text(told_line(alloc, session, command), want), want),
            Err(_) => assert_row(rt, false, want),
        },
        Step::Skip(want) => assert!(rt; session.skip_line() == *want, "{want:?}"),
        Step::Feed(bytes, want) => {
            assert_row(
                rt,
                is_text(told_events(alloc, session, bytes, size), want),
                want,
            )
        }
    }
}

// Each step tells what the table says, its bytes fed in pieces of this size.
fn assert_steps(rt: &impl Abort, alloc: Global, steps: &[Step], size: usize)
    requires { 0 < size }
{
    let mut session = Session::new(alloc);
    for step in steps {
        assert_step(rt, alloc, &mut session, step, size);
    }
}

#[test]
fn sessions(rt: HostRuntime) {
    for steps in [LOGIN, GREETED, LATE_PREAUTH, CLOSED, DENIED, SKIPPED] {
        assert_steps(&rt, rt.alloc(), steps, 100);
        assert_steps(&rt, rt.alloc(), steps, 1);
    }
}
