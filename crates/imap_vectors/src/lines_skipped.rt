//! Logical lines, and streams that are read on behind denied lines.

use crate::answers::{Rows, WAITS, assert_row, is_text, says_bytes};
use crate::streams::{Step, assert_steps};
use imap_proto::stream::{Feed, FeedError, logical_line};
use std::alloc::{AllocError, Global};
use std::fmt::Debug;
use std::test::*;

static LINES: Rows = &[
    (b"", WAITS),
    (b"* OK h", WAITS),
    (b"* OK h\r", WAITS),
    (b"* OK h\r\na1", r#""* OK h\r\n" then "a1""#),
    (b"\r\n\r\n", r#""\r\n" then "\r\n""#),
    (b"\0 \xff\r\n", r#""\0 �\r\n""#),
    // A CR that no LF follows, and an LF that no CR precedes.
    (b"a\rb\nc\r\r\nd", r#""a\rb\nc\r\r\n" then "d""#),
    (b"\n\r", WAITS),
    // Literals.
    (
        b"a {4}\r\nx\r\n) b\r\nc",
        r#""a {4}\r\nx\r\n) b\r\n" then "c""#,
    ),
    (b"{1}\r\n\r\n{0}\r\n\r\n", r#""{1}\r\n\r\n{0}\r\n\r\n""#),
    (b"\r{2}\r\n\r\n\r\n", r#""\r{2}\r\n\r\n\r\n""#),
    (b"{{1}\r\na\r\n", r#""{{1}\r\na\r\n""#),
    (b"~{3}\r\n\0\r\n\r\nb", r#""~{3}\r\n\0\r\n\r\n" then "b""#),
    (b"a {4", WAITS),
    (b"a {4}", WAITS),
    (b"a {4}\r", WAITS),
    (b"a {4}\r\n", "Incomplete(Size(4))"),
    (b"a {4}\r\n\r\n", "Incomplete(Size(2))"),
    (b"a {4}\r\n\r\n\r\n", WAITS),
    (b"{4294967295}\r\n\r\n", "Incomplete(Size(4294967293))"),
    // What is none.
    (b"{\r\na", r#""{\r\n" then "a""#),
    (b"{4}\r\r\na", r#""{4}\r\r\n" then "a""#),
    (b"{4} \r\na", r#""{4} \r\n" then "a""#),
    (b"{4+}\r\nabcd", r#""{4+}\r\n" then "abcd""#),
    (b"{}\r\na", r#""{}\r\n" then "a""#),
    (b"{4294967296}\r\na", r#""{4294967296}\r\n" then "a""#),
];

#[test]
fn logical_lines(rt: HostRuntime) {
    for (bytes, want) in LINES {
        assert_row(&rt, says_bytes(rt.alloc(), logical_line(bytes), want), want);
    }
}

static STEPS: &[Step] = &[
    Step::Skip(None),
    Step::Feed(b"* NAMESPACE ((\"\" \"/\")) NIL NIL\r\n* 18 EXISTS\r\n"),
    Step::Next("Err(Denied)"),
    Step::Skip(Some(32)),
    Step::Held(b"* 18 EXISTS\r\n"),
    Step::Next("Ok(Some(MailboxData(Exists(18))))"),
    Step::Next("Ok(None)"),
    // A literal that is not whole.
    Step::Feed(b"* X {12}\r\n\r\n* 1 EXISTS\r"),
    Step::Next("Err(Denied)"),
    Step::Skip(None),
    Step::Held(b"* X {12}\r\n\r\n* 1 EXISTS\r"),
    Step::Feed(b"\n\r\n* ES"),
    Step::Next("Err(Denied)"),
    Step::Skip(Some(24)),
    Step::Next("Err(Denied)"),
    Step::Skip(Some(2)),
    Step::Next("Err(Denied)"),
    Step::Skip(None),
    Step::Feed(b"\r"),
    Step::Skip(None),
    Step::Feed(b"\n+ \r\n"),
    Step::Skip(Some(6)),
    Step::Held(b"+ \r\n"),
    // No line has to be denied.
    Step::Skip(Some(4)),
    Step::Feed(b"* LIST () \"/\" {3}\r\n"),
    Step::Next("Ok(None)"),
    Step::Skip(None),
    Step::Feed(b"abc"),
    Step::Skip(None),
    Step::Feed(b"\r\n* 2 RECENT\r\n"),
    Step::Skip(Some(24)),
    Step::Next("Ok(Some(MailboxData(Recent(2))))"),
];

#[test]
fn skipping(rt: HostRuntime) {
    assert_steps(&rt, rt.alloc(), STEPS);
}

// What imap4d (GNU Mailutils 3.15) answered to a FETCH, byte for byte: in the structure of a message no space follows
// the envelope. Then lines without a rule between others, one with literals; a line whose literal's bytes are a line;
// and what is left.
const STREAM: &[u8] = b"\
    * 1 FETCH (BODYSTRUCTURE (\"message\" \"rfc822\" NIL NIL NIL \"7BIT\" 42 (NIL \"{1}\" \
    (({5}\r\nA \"B\" NIL \"a\" \"b\")) (({5}\r\nA \"B\" NIL \"a\" \"b\")) (({5}\r\nA \"B\" NIL \"a\" \"b\")) \
    NIL NIL NIL NIL NIL)(\"TEXT\" \"PLAIN\" (\"CHARSET\" \"US-ASCII\") NIL NIL \"7BIT\" 3 1 NIL NIL NIL) \
    4 NIL NIL NIL))\r\nA3 OK FETCH Completed\r\n\
    * OK a\r\n* STATUS x (SIZE 5)\r\n* 1 FETCH (BODYSTRUCTURE (\"text\" \"plain\" NIL NIL NIL \"7bit\" 1 1)(x))\r\n\
    * X {6}\r\n* 1 \r\n~{2}\r\n\r\n\r\n* 2 EXISTS\r\n* Y {4294967296}\r\n* 3 EXPUNGE\r\n* Z {\r\n* Z \r\r\n\
    * 4 EXISTS\r\n* Z {3}\r\n";

const IN_STREAM: &str = "\
    267; Done { tag: RequestId(\"A3\"), status: Ok, outcome: Outcome { code: None, information: \
    Some(\"FETCH Completed\") } }; Data { status: Ok, outcome: Outcome { code: None, information: Some(\"a\") } }; 21; \
    70; 25; MailboxData(Exists(2)); 18; Expunge(3); 7; 7; MailboxData(Exists(4)); 9 left";

// Puts what was given or skipped behind the text. Over any type, since each kind of response would be proved to be
// dropped.
fn put<T: Debug + Drop>(alloc: Global, text: &mut String, value: T) -> Result<(), AllocError> {
    text.push_str(&format!(in alloc; "{value:?}; ")?)
}

// Puts what the next call gives behind the text, or the length of a denied line; whether there was either.
fn put_next(alloc: Global, text: &mut String, feed: &mut Feed) -> Result<bool, AllocError> {
    match feed.next() {
        Ok(Some(response)) => put(alloc, text, response)?,
        Ok(None) => return Ok(false),
        Err(FeedError::Denied) => match feed.skip_line() {
            Some(n) => put(alloc, text, n)?,
            None => return Ok(false),
        },
        Err(FeedError::OutOfMemory) => return Err(AllocError),
    }
    Ok(true)
}

fn put_all(alloc: Global, text: &mut String, feed: &mut Feed) -> Result<(), AllocError> {
    // Not `loop`: a loop has to be proved to end.
    for _ in 0..u64::MAX {
        if !put_next(alloc, text, feed)? {
            return Ok(());
        }
    }
    Ok(())
}

// What comes of the pieces, with how many bytes are left.
fn told_past(alloc: Global, pieces: &[&[u8]]) -> Result<String, AllocError> {
    let mut feed = Feed::new(alloc);
    let mut text = String::new(alloc);
    for piece in pieces {
        feed.feed(piece)?;
        put_all(alloc, &mut text, &mut feed)?;
    }
    text.push_str(&format!(in alloc; "{} left", feed.held().len())?)?;
    Ok(text)
}

#[test]
fn denied_lines_in_pieces(rt: HostRuntime) {
    for k in 0..STREAM.len() {
        let (front, behind) = STREAM.split_at(k);
        assert!(rt;
            is_text(told_past(rt.alloc(), &[front, behind]), IN_STREAM),
            "{k}"
        );
    }
}

#[test]
fn denied_lines_by_bytes(rt: HostRuntime) -> Result<(), Fail> {
    let mut pieces = Vec::new(rt.alloc());
    for piece in STREAM.chunks(1) {
        pieces.push(piece)?;
    }
    assert_row(
        &rt,
        is_text(told_past(rt.alloc(), &pieces), IN_STREAM),
        IN_STREAM,
    );
    Ok(())
}
