//! A mail client: it logs in, selects a mailbox and fetches what is in it. Its server's answers are standard input.
#![tactic(auto)]

ghost use Rattle.std.specs.Prelude.{◌≡◌};

use imap_proto::MailboxDatum::Exists;
use imap_proto::Response;
use imap_proto::builders::command::{AttrMacro, Command, CommandBuilder};
use imap_session::{Event, Session};
use std::io::{self, Read};

fn send(rt: &impl Print, session: &mut Session, command: Option<Command>) -> anyhow::Result<()>
    ensures { session.new.held ≡ session.old.held }
{
    if let Some(command) = command {
        let line = session.send(command)?;
        println!(rt; "send: {}", str::from_utf8(&line)?.trim_end())?;
    }
    Ok(())
}

// Prints what an event tells, where this program knows its kind; whether a command is finished.
fn tell(rt: &impl Print, event: Event) -> io::Result<bool> {
    let is_finished = matches!(event, Event::Finished { .. });
    let told = match &event {
        Event::Finished { status, .. } => println!(rt; "done: {status:?}"),
        Event::Response(Response::MailboxData(Exists(n))) => println!(rt; "{n} messages"),
        Event::Response(Response::Fetch(n, told)) => println!(rt; "message {n}: {told:?}"),
        _ => Ok(()),
    };
    drop(event); // By a call: dropped in place, each of its kinds would be proved here.
    told?;
    Ok(is_finished)
}

fn main(rt: HostRuntime) -> anyhow::Result<()> {
    let alloc = rt.alloc();
    let login = CommandBuilder::login(alloc, "fred", "wombat")?;
    let select = CommandBuilder::select(alloc, "INBOX")?.into();
    let fetch = CommandBuilder::fetch(alloc)?.range_from(1..)?;
    let fetch = fetch.attr_macro(AttrMacro::Fast)?.into();
    let mut commands = Vec::from_array(alloc, [fetch, select, login])?; // The last is sent first.
    let mut session = Session::new(alloc);
    send(&rt, &mut session, commands.pop())?;
    let (mut reader, mut buffer) = (rt.reader(), [0; 4096]);
    // Not `loop`: a loop has to be proved to end.
    for _ in 0..u64::MAX {
        let n = reader.read(&mut buffer)?;
        if n == 0 {
            break;
        }
        session.feed(&buffer[..n])?;
        'events: while let Some(event) = session.next()? {
            if tell(&rt, event)? {
                send(&rt, &mut session, commands.pop())?;
            }
        }
    }
    Ok(println!(rt; "state: {:?}", session.state())?)
}
