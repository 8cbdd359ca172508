//! A mail client that goes on behind lines that are denied: it tells what it knows of each message of a mailbox, and
//! of each line that it had to drop how long it was. Its server's answers are standard input.
#![tactic(auto)]

ghost use Rattle.std.specs.Prelude.{◌≡◌, ◌<◌, length, true, IfOk};

use bstr::BStr;
use imap_proto::MailboxDatum::Exists;
use imap_proto::builders::command::{Command, CommandBuilder, State};
use imap_proto::{Address, AttributeValue, Envelope, Response};
use imap_session::{Event, Session, SessionError};
use std::alloc::Global;
use std::borrow::CowSlice;
use std::io::{self, Read};

// The commands, of which the last is sent first.
fn commands(alloc: Global) -> anyhow::Result<Vec<Command>> {
    let login = CommandBuilder::login(alloc, "fred", "wombat")?;
    let select = CommandBuilder::select(alloc, "INBOX")?.into();
    let fetch = CommandBuilder::other(alloc, "FETCH")?
        .range_from(1..)?
        .list(&["UID", "FLAGS", "ENVELOPE", "BODYSTRUCTURE"])?
        .into_command(None);
    let logout = CommandBuilder::other(alloc, "LOGOUT")?.into_command(Some(State::Logout));
    Ok(Vec::from_array(alloc, [logout, fetch, select, login])?)
}

fn send(rt: &impl Print, session: &mut Session, command: Option<Command>) -> anyhow::Result<()>
    ensures { session.new.held ≡ session.old.held }
{
    if let Some(command) = command {
        let line = session.send(command)?;
        println!(rt; "send: {}", str::from_utf8(&line)?.trim_end())?;
    }
    Ok(())
}

// A string of an envelope, as text; `NIL` where it is that.
fn text<'a>(string: &'a Option<CowSlice<'static, u8>>) -> BStr<'a> {
    match string {
        Some(bytes) => BStr::new(bytes.as_slice()),
        None => BStr::new(b"NIL"),
    }
}

fn tell_from(rt: &impl Print, from: &[Address<'static>]) -> io::Result<()> {
    for address in from {
        let (name, mailbox) = (text(&address.name), text(&address.mailbox));
        println!(rt; "  from: {name} <{mailbox}@{}>", text(&address.host))?;
    }
    Ok(())
}

fn tell_envelope(rt: &impl Print, envelope: &Envelope<'static>) -> io::Result<()> {
    println!(rt; "  date: {}", text(&envelope.date))?;
    println!(rt; "  subject: {}", text(&envelope.subject))?;
    println!(rt; "  id: {}", text(&envelope.message_id))?;
    match &envelope.from {
        Some(from) => tell_from(rt, from),
        None => Ok(()),
    }
}

fn tell_attribute(rt: &impl Print, attribute: &AttributeValue<'static>) -> io::Result<()> {
    match attribute {
        AttributeValue::Uid(uid) => println!(rt; "  UID: {uid}"),
        AttributeValue::Flags(flags) => println!(rt; "  flags: {flags:?}"),
        AttributeValue::Envelope(envelope) => tell_envelope(rt, envelope),
        AttributeValue::BodyStructure(body) => {
            let content = body.content_type();
            println!(rt; "  body: {}/{}", content.ty, content.subtype)
        }
        _ => Ok(()),
    }
}

fn tell_message(rt: &impl Print, number: u32, told: &[AttributeValue<'static>]) -> io::Result<()> {
    println!(rt; "message {number}")?;
    for attribute in told {
        tell_attribute(rt, attribute)?;
    }
    Ok(())
}

// Prints what an event tells, where this program knows its kind; whether a command is finished.
fn tell(rt: &impl Print, event: Event) -> io::Result<bool> {
    let is_finished = matches!(event, Event::Finished { .. });
    let told = match &event {
        Event::Finished { status, .. } => println!(rt; "done: {status:?}"),
        Event::Response(Response::MailboxData(Exists(n))) => println!(rt; "{n} messages"),
        Event::Response(Response::Fetch(n, told)) => tell_message(rt, *n, told),
        _ => Ok(()),
    };
    drop(event); // By a call: dropped in place, each of its kinds would be proved here.
    told?;
    Ok(is_finished)
}

// Takes the next event, and sends a command where one is finished; or drops a line that is denied. Whether there was
// either: a denied line that isn't whole waits for its rest.
fn step(rt: &impl Print, session: &mut Session, commands: &mut Vec<Command>) -> anyhow::Result<bool>
    ensures { IfOk result (λ more. more ≡ true → length session.new.held < length session.old.held) }
{
    match session.next() {
        Ok(None) => Ok(false),
        Ok(Some(event)) => {
            if tell(rt, event)? {
                send(rt, session, commands.pop())?;
            }
            Ok(true)
        }
        Err(SessionError::Denied) => match session.skip_line() {
            None => Ok(false),
            Some(n) => {
                println!(rt; "dropped: a line of {n} bytes")?;
                Ok(true)
            }
        },
        Err(error) => Err(error.into()),
    }
}

fn main(rt: HostRuntime) -> anyhow::Result<()> {
    let mut commands = commands(rt.alloc())?;
    let mut session = Session::new(rt.alloc());
    send(&rt, &mut session, commands.pop())?;
    let (mut reader, mut buffer) = (rt.reader(), [0; 512]);
    // Not `loop`: a loop has to be proved to end.
    for _ in 0..u64::MAX {
        let n = reader.read(&mut buffer)?;
        if n == 0 {
            break;
        }
        session.feed(&buffer[..n])?;
        'steps: while step(&rt, &mut session, &mut commands)? {}
    }
    Ok(println!(rt; "state: {:?}", session.state())?)
}
