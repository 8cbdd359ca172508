//! The callers of `imap_uses`, each on its happy path.

use imap_body::readers::body_structure;
use imap_proto::builders::command::{Command, CommandBuilder, State};
use imap_proto::stream::Feed;
use imap_session::Session;
use imap_uses::commands::selecting;
use imap_uses::messages::uid_in_line;
use imap_uses::parts::first_text;
use imap_uses::sessions::finishes_login;
use imap_uses::streams::take;
use std::alloc::Global;
use std::test::*;

#[test]
fn uids(rt: HostRuntime) {
    let uid = uid_in_line(rt.alloc(), b"* 2 FETCH (FLAGS () UID 7 UID 8)\r\n");
    assert!(rt; matches!(uid, Ok(Some(7))));
    let none = uid_in_line(rt.alloc(), b"* 2 EXPUNGE\r\n");
    assert!(rt; matches!(none, Ok(None)));
}

// Whether the first text of the body that is read has this path.
fn has_first_text(alloc: Global, bytes: &[u8], path: &[u32]) -> bool {
    let Ok((_, body)) = body_structure(alloc, bytes) else {
        return false;
    };
    let found = first_text(alloc, &body);
    drop(body);
    match found {
        Ok(Some(found)) => found.as_slice() == path,
        _ => false,
    }
}

#[test]
fn first_texts(rt: HostRuntime) {
    let bytes =
        b"((\"A\" \"B\" NIL NIL NIL NIL 1)((\"TEXT\" \"B\" NIL NIL NIL NIL 3 1) \"M\") \"M\")";
    assert!(rt; has_first_text(rt.alloc(), bytes, &[2, 1]));
}

fn is_select(command: &Command) -> bool {
    command.args.as_slice() == b"SELECT \"a\\\"b\"".as_slice()
        && command.next_state == Some(State::Selected)
}

#[test]
fn selects(rt: HostRuntime) {
    assert!(rt; matches!(selecting(rt.alloc(), "a\"b"), Ok(command) if is_select(&command)));
}

#[test]
fn takes(rt: HostRuntime) {
    let mut feed = Feed::new(rt.alloc());
    assert!(rt; matches!(take(&mut feed, b"* 3 EXI"), Ok(None)));
    let given = take(&mut feed, b"STS\r\na1 O");
    assert!(rt; matches!(&given, Ok(Some(_))));
    drop(given);
    assert!(rt; feed.held() == b"a1 O".as_slice());
}

// Whether a session is authenticated behind this answer to its LOGIN.
fn logs_in(alloc: Global, answer: &[u8]) -> bool {
    let mut session = Session::new(alloc);
    let Ok(login) = CommandBuilder::login(alloc, "u", "p") else {
        return false;
    };
    if session.send(login).is_err() || session.feed(answer).is_err() {
        return false;
    }
    matches!(finishes_login(&mut session), Ok(true)) && session.state() == State::Authenticated
}

#[test]
fn logins(rt: HostRuntime) {
    assert!(rt; logs_in(rt.alloc(), b"A1 OK\r\n"));
    assert!(rt; !logs_in(rt.alloc(), b"A1 NO\r\n"));
}
