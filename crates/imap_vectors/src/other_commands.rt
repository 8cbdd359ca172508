//! Commands that have no builder of their own.

use crate::commands::{assert_is, assert_refused};
use imap_proto::builders::command::other::{Announced, Arguments, Numbers, Open};
use imap_proto::builders::command::{
    BuildError, Command, CommandBuilder, OtherCommand, Section, SectionText, State,
};
use std::alloc::Global;
use std::process::Abort;
use std::test::*;

// A call that adds an argument.
enum Call {
    Word(&'static str),
    Text(&'static str),
    Number(u64),
    Num(u32),
    Range(u32, u32),
    From(u32),
    Words(&'static [&'static str]),
    Texts(&'static [&'static str]),
    Section(Section<'static>),
    Literal(u32),
}

// A command that is being built, in any of its states.
#[derive(Drop)]
enum Building {
    Open(OtherCommand<Arguments>),
    Set(OtherCommand<Numbers>),
    Ended(OtherCommand<Announced>),
}

// The calls that each open state has.
fn argued<T: Open>(command: OtherCommand<T>, call: &Call) -> Result<Building, BuildError> {
    Ok(match call {
        Call::Word(word) => Building::Open(command.word(word)?),
        Call::Text(text) => Building::Open(command.string(text)?),
        Call::Number(number) => Building::Open(command.number(*number)?),
        Call::Words(words) => Building::Open(command.list(words)?),
        Call::Texts(texts) => Building::Open(command.strings(texts)?),
        Call::Section(section) => Building::Open(command.section(section)?),
        Call::Literal(len) => Building::Ended(command.literal(*len)?),
        Call::Num(_) | Call::Range(..) | Call::From(_) => Building::Open(command.word("unused")?),
    })
}

fn begun(command: OtherCommand<Arguments>, call: &Call) -> Result<Building, BuildError> {
    Ok(match call {
        Call::Num(number) => Building::Set(command.num(*number)?),
        Call::Range(first, last) => Building::Set(command.range(*first..=*last)?),
        Call::From(first) => Building::Set(command.range_from(*first..)?),
        _ => argued(command, call)?,
    })
}

fn continued(command: OtherCommand<Numbers>, call: &Call) -> Result<Building, BuildError> {
    Ok(match call {
        Call::Num(number) => Building::Set(command.num(*number)?),
        Call::Range(first, last) => Building::Set(command.range(*first..=*last)?),
        Call::From(first) => Building::Set(command.range_from(*first..)?),
        _ => argued(command, call)?,
    })
}

fn added(building: Building, call: &Call) -> Result<Building, BuildError> {
    match building {
        Building::Open(command) => begun(command, call),
        Building::Set(command) => continued(command, call),
        Building::Ended(command) => Ok(Building::Ended(command)),
    }
}

fn finished(building: Building, next_state: Option<State>) -> Command {
    match building {
        Building::Open(command) => command.into_command(next_state),
        Building::Set(command) => command.into_command(next_state),
        Building::Ended(command) => command.into_command(next_state),
    }
}

fn built(
    alloc: Global,
    name: &str,
    calls: &[Call],
    next_state: Option<State>,
) -> Result<Command, BuildError> {
    let mut building = Building::Open(CommandBuilder::other(alloc, name)?);
    for call in calls {
        building = added(building, call)?;
    }
    Ok(finished(building, next_state))
}

// A name, the calls behind it, the state that it leads to, and the line.
type Row = (&'static str, &'static [Call], Option<State>, &'static str);

// The lines of the guide.
static GUIDE: &[Row] = &[
    ("CAPABILITY", &[], None, "CAPABILITY"),
    ("NOOP", &[], None, "NOOP"),
    ("LOGOUT", &[], Some(State::Logout), "LOGOUT"),
    ("STARTTLS", &[], None, "STARTTLS"),
    (
        "AUTHENTICATE",
        &[Call::Word("PLAIN")],
        Some(State::Authenticated),
        "AUTHENTICATE PLAIN",
    ),
    (
        "ENABLE",
        &[Call::Word("CONDSTORE"), Call::Word("QRESYNC")],
        None,
        "ENABLE CONDSTORE QRESYNC",
    ),
    (
        "ID",
        &[Call::Texts(&["name", "mail"])],
        None,
        r#"ID ("name" "mail")"#,
    ),
    (
        "CREATE",
        &[Call::Text("Sent/2026")],
        None,
        r#"CREATE "Sent/2026""#,
    ),
    ("DELETE", &[Call::Text("old")], None, r#"DELETE "old""#),
    (
        "RENAME",
        &[Call::Text("old"), Call::Text("new")],
        None,
        r#"RENAME "old" "new""#,
    ),
    (
        "SUBSCRIBE",
        &[Call::Text("news")],
        None,
        r#"SUBSCRIBE "news""#,
    ),
    (
        "STATUS",
        &[Call::Text("x"), Call::Words(&["MESSAGES", "UIDNEXT"])],
        None,
        r#"STATUS "x" (MESSAGES UIDNEXT)"#,
    ),
    (
        "APPEND",
        &[
            Call::Text("x"),
            Call::Words(&["\\Seen"]),
            Call::Literal(310),
        ],
        None,
        r#"APPEND "x" (\Seen) {310}"#,
    ),
    ("EXPUNGE", &[], None, "EXPUNGE"),
    (
        "SEARCH",
        &[Call::Word("UNSEEN"), Call::Word("FROM"), Call::Text("ann")],
        None,
        r#"SEARCH UNSEEN FROM "ann""#,
    ),
    (
        "FETCH",
        &[
            Call::Num(1),
            Call::Words(&["UID", "BODYSTRUCTURE", "BODY.PEEK[1.TEXT]<0.100>"]),
        ],
        None,
        "FETCH 1 (UID BODYSTRUCTURE BODY.PEEK[1.TEXT]<0.100>)",
    ),
    (
        "FETCH",
        &[
            Call::Range(1, 9),
            Call::Section(Section {
                part: &[],
                text: Some(SectionText::Fields(&["DATE", "FROM"])),
                peek: true,
                partial: None,
            }),
        ],
        None,
        r#"FETCH 1:9 BODY.PEEK[HEADER.FIELDS ("DATE" "FROM")]"#,
    ),
    (
        "STORE",
        &[
            Call::Range(1, 5),
            Call::Num(7),
            Call::Word("+FLAGS.SILENT"),
            Call::Words(&["\\Seen"]),
        ],
        None,
        "STORE 1:5,7 +FLAGS.SILENT (\\Seen)",
    ),
    (
        "COPY",
        &[Call::Range(2, 4), Call::Text("Archive")],
        None,
        r#"COPY 2:4 "Archive""#,
    ),
    (
        "UID MOVE",
        &[Call::From(7), Call::Text("Trash")],
        None,
        r#"UID MOVE 7:* "Trash""#,
    ),
    (
        "UID EXPUNGE",
        &[Call::Num(3), Call::Range(5, 9)],
        None,
        "UID EXPUNGE 3,5:9",
    ),
    ("UNSELECT", &[], Some(State::Authenticated), "UNSELECT"),
    ("IDLE", &[], None, "IDLE"),
    ("GETQUOTA", &[Call::Text("")], None, r#"GETQUOTA """#),
    (
        "SETACL",
        &[Call::Text("x"), Call::Text("ann"), Call::Text("+lrs")],
        None,
        r#"SETACL "x" "ann" "+lrs""#,
    ),
    (
        "GETMETADATA",
        &[
            Call::Text("INBOX"),
            Call::Texts(&["/private/comment", "/shared/comment"]),
        ],
        None,
        r#"GETMETADATA "INBOX" ("/private/comment" "/shared/comment")"#,
    ),
];

// Lines at the bounds of each call, and each call behind a set.
static BOUNDS: &[Row] = &[
    ("x-a.1", &[], Some(State::NotAuthenticated), "x-a.1"),
    (
        "UID STORE",
        &[
            Call::Num(1),
            Call::Range(9, 3),
            Call::From(20),
            Call::Word("FLAGS"),
            Call::Words(&["\\Seen", "\\Deleted"]),
        ],
        None,
        "UID STORE 1,9:3,20:* FLAGS (\\Seen \\Deleted)",
    ),
    (
        "X",
        &[Call::From(0), Call::From(1), Call::Words(&[])],
        None,
        "X 0:*,1:* ()",
    ),
    (
        "X",
        &[Call::Range(0, u32::MAX), Call::Range(2, 2)],
        None,
        "X 0:4294967295,2:2",
    ),
    (
        "X",
        &[Call::Text("a\"\\ é"), Call::Literal(0)],
        Some(State::Selected),
        r#"X "a\"\\ é" {0}"#,
    ),
    (
        "X",
        &[Call::Num(1), Call::Literal(u32::MAX)],
        None,
        "X 1 {4294967295}",
    ),
    (
        "X",
        &[
            Call::Number(18446744073709551615),
            Call::Num(3),
            Call::Number(0),
            Call::Num(4),
        ],
        None,
        "X 18446744073709551615 3 0 4",
    ),
    ("X", &[Call::Texts(&[])], None, "X ()"),
    (
        "X",
        &[Call::Num(4294967295), Call::Texts(&["(a) {1}"])],
        None,
        r#"X 4294967295 ("(a) {1}")"#,
    ),
    ("X", &[Call::Num(2), Call::Text("")], None, r#"X 2 """#),
    ("X", &[Call::Num(2), Call::Words(&["a"])], None, "X 2 (a)"),
    ("X", &[Call::Word("!#'*+z|}~")], None, "X !#'*+z|}~"),
];

fn assert_lines(rt: &impl Abort, alloc: Global, rows: &[Row]) {
    for (name, calls, next_state, want) in rows {
        assert_is(
            rt,
            built(alloc, name, calls, *next_state),
            want,
            *next_state,
        );
    }
}

#[test]
fn other_commands(rt: HostRuntime) {
    assert_lines(&rt, rt.alloc(), GUIDE);
    assert_lines(&rt, rt.alloc(), BOUNDS);
}

// A name and calls that are refused, and why.
static REFUSED: &[(&str, &[Call], BuildError)] = &[
    ("", &[], BuildError::BadName),
    (" NOOP", &[], BuildError::BadName),
    ("NOOP ", &[], BuildError::BadName),
    ("UID  STORE", &[], BuildError::BadName),
    ("NOOP\r\n", &[], BuildError::BadName),
    ("NO_OP", &[], BuildError::BadName),
    ("É", &[], BuildError::BadName),
    ("X", &[Call::Word("")], BuildError::BadWord),
    ("X", &[Call::Word("a b")], BuildError::BadWord),
    ("X", &[Call::Word("a\n")], BuildError::BadWord),
    ("X", &[Call::Word("\"")], BuildError::BadWord),
    ("X", &[Call::Num(1), Call::Word("(")], BuildError::BadWord),
    ("X", &[Call::Word("a)")], BuildError::BadWord),
    ("X", &[Call::Word("{5}")], BuildError::BadWord),
    ("X", &[Call::Word("\x7f")], BuildError::BadWord),
    ("X", &[Call::Word("é")], BuildError::BadWord),
    ("X", &[Call::Words(&["a", "b c", ""])], BuildError::BadWord),
    ("X", &[Call::Words(&[""])], BuildError::BadWord),
    ("X", &[Call::Text("a\rb\n")], BuildError::CarriageReturn),
    ("X", &[Call::Text("\n")], BuildError::LineFeed),
    ("X", &[Call::Num(1), Call::Text("\0")], BuildError::Nul),
    (
        "X",
        &[Call::Texts(&["a", "\n\r", "\0"])],
        BuildError::LineFeed,
    ),
    ("X", &[Call::Texts(&["\0", "\r"])], BuildError::Nul),
    ("X", &[Call::Texts(&["", "\r"])], BuildError::CarriageReturn),
];

#[test]
fn refused_other_commands(rt: HostRuntime) {
    for (name, calls, refusal) in REFUSED {
        assert_refused(&rt, built(rt.alloc(), name, calls, None), refusal);
    }
}
