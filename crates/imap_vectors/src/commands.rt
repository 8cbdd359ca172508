//! Commands.

use crate::answers::{assert_row, assert_texts};
use imap_proto::builders::command::{
    AttrMacro, Attribute, BuildError, Command, CommandBuilder, State, quoted_string,
};
use std::alloc::{AllocError, Global};
use std::process::Abort;
use std::test::*;

// Whether a command was made, of this text and with this next state.
fn is<E: Drop>(command: Result<Command, E>, args: &str, next_state: Option<State>) -> bool {
    match command {
        Ok(command) => {
            command.args.as_slice() == args.as_bytes() && command.next_state == next_state
        }
        Err(_) => false,
    }
}

/// Asserts that a command was made so.
pub fn assert_is<E: Drop>(
    rt: &impl Abort,
    command: Result<Command, E>,
    args: &str,
    next_state: Option<State>,
) {
    assert_row(rt, is(command, args, next_state), args);
}

fn changed(alloc: Global) -> Result<Command, AllocError> {
    let fetch = CommandBuilder::fetch(alloc)?.num(1)?.range(3..=5)?;
    let fetch = fetch.attr(Attribute::Uid)?.attr(Attribute::Flags)?;
    Ok(Command::from(fetch.changed_since(7)?))
}

fn changed_twice(alloc: Global) -> Result<Command, AllocError> {
    let fetch = CommandBuilder::uid_fetch(alloc)?.range_from(5..)?;
    let fetch = fetch.attr_macro(AttrMacro::Fast)?;
    Ok(fetch.changed_since(1)?.changed_since(2)?.into())
}

fn ranges(alloc: Global) -> Result<Command, AllocError> {
    let fetch = CommandBuilder::fetch(alloc)?.range(5..=3)?.num(2)?;
    let fetch = fetch.range_from(9..)?.attr(Attribute::Rfc822Size)?;
    fetch.into_command()
}

fn grouped(alloc: Global, number: u32, group: AttrMacro) -> Result<Command, AllocError> {
    let fetch = CommandBuilder::fetch(alloc)?.num(number)?;
    Ok(fetch.attr_macro(group)?.into())
}

fn every_word(alloc: Global) -> Result<Command, AllocError> {
    let fetch = CommandBuilder::fetch(alloc)?.num(1)?;
    let mut fetch = fetch.attr(Attribute::Body)?;
    for attribute in [
        Attribute::Envelope,
        Attribute::Flags,
        Attribute::InternalDate,
        Attribute::ModSeq,
        Attribute::Rfc822,
        Attribute::Rfc822Size,
        Attribute::Rfc822Text,
        Attribute::Uid,
        Attribute::GmailLabels,
        Attribute::GmailMsgId,
        Attribute::GmailThrId,
    ] {
        fetch = fetch.attr(attribute)?;
    }
    fetch.into_command()
}

#[test]
fn fetches(rt: HostRuntime) {
    let alloc = rt.alloc();
    let want = "FETCH 1,3:5 (UID FLAGS) (CHANGEDSINCE 7)";
    assert_is(&rt, changed(alloc), want, None);
    let want = "UID FETCH 5:* FAST (CHANGEDSINCE 1) (CHANGEDSINCE 2)";
    assert_is(&rt, changed_twice(alloc), want, None);
    assert_is(&rt, ranges(alloc), "FETCH 5:3,2,9:* (RFC822.SIZE)", None);
    assert_is(&rt, grouped(alloc, 0, AttrMacro::All), "FETCH 0 ALL", None);
    assert_is(
        &rt,
        grouped(alloc, u32::MAX, AttrMacro::Full),
        "FETCH 4294967295 FULL",
        None,
    );
    let want =
        "FETCH 1 (BODY ENVELOPE FLAGS INTERNALDATE MODSEQ RFC822 RFC822.SIZE RFC822.TEXT UID X-GM-LABELS X-GM-MSGID X-GM-THRID)";
    assert_is(&rt, every_word(alloc), want, None);
}

fn selected(alloc: Global, mailbox: &str) -> Result<Command, BuildError> {
    Ok(CommandBuilder::select(alloc, mailbox)?.into())
}

fn selected_with_mod_sequences(alloc: Global, mailbox: &str) -> Result<Command, BuildError> {
    let select = CommandBuilder::select(alloc, mailbox)?;
    Ok(select.cond_store()?.into_command()?)
}

fn examined(alloc: Global, mailbox: &str) -> Result<Command, BuildError> {
    Ok(CommandBuilder::examine(alloc, mailbox)?.into())
}

#[test]
fn mailboxes(rt: HostRuntime) {
    let alloc = rt.alloc();
    let found = Some(State::Selected);
    let want = r#"SELECT "a\"b" (CONDSTORE)"#;
    assert_is(&rt, selected_with_mod_sequences(alloc, "a\"b"), want, found);
    assert_is(&rt, selected(alloc, "\\é"), r#"SELECT "\\é""#, found);
    assert_is(&rt, examined(alloc, ""), r#"EXAMINE """#, found);
    assert_is(
        &rt,
        CommandBuilder::list(alloc, "", "*"),
        r#"LIST "" "*""#,
        None,
    );
    assert_is(
        &rt,
        CommandBuilder::list(alloc, "%", "a%"),
        r#"LIST "%" "a%""#,
        None,
    );
    assert_is(&rt, CommandBuilder::check(alloc), "CHECK", None);
}

#[test]
fn sessions(rt: HostRuntime) {
    let alloc = rt.alloc();
    let found = Some(State::Authenticated);
    assert_is(&rt, CommandBuilder::close(alloc), "CLOSE", found);
    assert_is(
        &rt,
        CommandBuilder::login(alloc, "u", "p"),
        r#"LOGIN "u" "p""#,
        found,
    );
}

// Whether a command was refused so.
fn is_refused(answer: Result<Command, BuildError>, refusal: &BuildError) -> bool {
    match answer {
        Ok(_) => false,
        Err(error) => error == *refusal,
    }
}

/// Asserts that a command was refused so.
pub fn assert_refused(rt: &impl Abort, answer: Result<Command, BuildError>, refusal: &BuildError) {
    assert!(rt; is_refused(answer, refusal), "{refusal}");
}

#[test]
fn refused_arguments(rt: HostRuntime) {
    let alloc = rt.alloc();
    let login = CommandBuilder::login(alloc, "a", "b\n");
    assert_refused(&rt, login, &BuildError::LineFeed);
    let login = CommandBuilder::login(alloc, "\0\n", "x");
    assert_refused(&rt, login, &BuildError::Nul);
    let list = CommandBuilder::list(alloc, "a\r\n", "b");
    assert_refused(&rt, list, &BuildError::CarriageReturn);
    assert_refused(&rt, selected(alloc, "\n\r"), &BuildError::LineFeed);
    assert_refused(&rt, examined(alloc, "a\0"), &BuildError::Nul);
}

// Whether an argument is quoted so.
fn quotes(answer: Result<Vec<u8>, BuildError>, text: &str) -> bool {
    match answer {
        Ok(quoted) => quoted.as_slice() == text.as_bytes(),
        Err(_) => false,
    }
}

#[test]
fn quoted_strings(rt: HostRuntime) {
    let alloc = rt.alloc();
    assert!(rt;
        quotes(quoted_string(alloc, "a\\b\"c"), "\"a\\\\b\\\"c\""),
        "escaped"
    );
    assert!(rt; quotes(quoted_string(alloc, ""), "\"\""), "empty");
    let refused = matches!(quoted_string(alloc, "a\n\r"), Err(BuildError::LineFeed));
    assert!(rt; refused, "refused");
}

static REFUSALS: &[(BuildError, &str)] = &[
    (BuildError::CarriageReturn, "carriage return in an argument"),
    (BuildError::LineFeed, "line feed in an argument"),
    (BuildError::Nul, "zero byte in an argument"),
    (BuildError::BadName, "not the name of a command"),
    (BuildError::BadWord, "not a word"),
    (BuildError::BadSection, "not a section"),
    (BuildError::OutOfMemory, "out of memory"),
];

#[test]
fn texts_of_refusals(rt: HostRuntime) {
    assert_texts(&rt, rt.alloc(), REFUSALS);
}
