//! Streams: responses in bytes that come in pieces, whether a line may be cut, and hostile lines.

ghost use Rattle.std.specs.Prelude.{◌<◌, ◌≤◌, length};

use crate::answers::{WAITS, assert_row, is_text, parses, tells, told_value, without_value};
use crate::kept::is_kept;
use crate::nests::push_times;
use imap_proto::Response;
use imap_proto::imap_core::{Err, IResult};
use imap_proto::stream::{Feed, read_pieces};
use std::alloc::{AllocError, Global};
use std::process::Abort;
use std::test::*;

// Whether a line says nothing of its message, parsed and kept, and may be cut.
fn is_unknown(alloc: Global, line: &[u8]) -> bool {
    let want = "Fetch(1, [Unknown])";
    parses(alloc, line, want) && is_kept(alloc, line, want) && may_be_cut(alloc, line)
}

#[test]
fn open_brackets(rt: HostRuntime) -> Result<(), Fail> {
    let alloc = rt.alloc();
    let mut line = Vec::from_slice(alloc, b"* 1 FETCH (BODYSTRUCTURE ")?;
    push_times(&mut line, b"(", 10_000)?;
    assert_row(&rt, parses(alloc, &line, WAITS), WAITS);
    line.extend_from_slice(b"))\r\n")?;
    assert_row(&rt, is_unknown(alloc, &line), "closed");
    Ok(())
}

const STREAM: &[u8] = b"a1 OK\r\n* OK [BADCHARSET ({5}\r\n* 18 EXISTS\r\nxy";

// What stands in the stream, with what is behind the last response.
const IN_STREAM: &str =
    r#"Whole { responses: [Done { tag: RequestId("a1"), status: Ok, outcome: Outcome { code: None, information: None } }, Data { status: Ok, outcome: Outcome { code: None, information: Some("[BADCHARSET ({5}") } }, MailboxData(Exists(18))], rest: [120, 121], end: Waits }"#;

// What stands in the pieces, as text.
fn told_of(alloc: Global, pieces: &[&[u8]]) -> Result<String, AllocError> {
    told_value(alloc, read_pieces(alloc, pieces))
}

// Whether the pieces are told so.
fn are_told(alloc: Global, pieces: &[&[u8]], want: &str) -> bool {
    is_text(told_of(alloc, pieces), want)
}

// The bytes in pieces of this size, the last one maybe shorter.
fn cut(alloc: Global, bytes: &[u8], size: usize) -> Result<Vec<&[u8]>, AllocError>
    requires { 0 < size }
{
    let mut pieces = Vec::new(alloc);
    for piece in bytes.chunks(size) {
        pieces.push(piece)?;
    }
    Ok(pieces)
}

#[test]
fn stream_in_pieces(rt: HostRuntime) -> Result<(), Fail> {
    let alloc = rt.alloc();
    for size in [1, 2, 3, 5, 7, 20, 100] {
        let pieces = cut(alloc, STREAM, size)?;
        assert!(rt; are_told(alloc, &pieces, IN_STREAM), "{size}");
    }
    Ok(())
}

#[test]
fn streams_without_a_response(rt: HostRuntime) {
    let alloc = rt.alloc();
    assert!(rt; are_told(alloc, &[], "Whole { responses: [], rest: [], end: Waits }"));
    assert!(rt;
        are_told(
            alloc,
            &[b"* X\r\n", b"a1 OK\r\n"],
            "Whole { responses: [], rest: [42, 32, 88, 13, 10, 97, 49, 32, 79, 75, 13, 10], end: Denied }"
        )
    );
}

// Whether one byte at a time gives what the whole line gives.
fn is_same_in_bytes(alloc: Global, line: &[u8]) -> Result<bool, AllocError> {
    let bytes = cut(alloc, line, 1)?;
    let whole = told_of(alloc, &[line])?;
    Ok(are_told(alloc, &bytes, whole.as_str()))
}

/// The answer of `Response::parse` without the response.
pub fn behind_response(alloc: Global, line: &[u8]) -> IResult<&[u8], ()> {
    without_value(Response::parse(alloc, line))
}

// Whether more bytes are waited for.
fn waits(alloc: Global, line: &[u8]) -> bool {
    matches!(behind_response(alloc, line), Err(Err::Incomplete(_)))
}

// Whether each beginning of the bytes that is shorter than this waits.
fn do_shorter_wait(alloc: Global, line: &[u8], len: usize) -> bool
    requires { len ≤ length line.now }
{
    for n in 0..len {
        if !waits(alloc, &line[..n]) {
            return false;
        }
    }
    true
}

// Whether each proper beginning of what a response consumed waits; where there is no response, whatever is there.
fn do_beginnings_wait(alloc: Global, line: &[u8]) -> bool {
    match behind_response(alloc, line) {
        Ok((rest, ())) if rest.len() <= line.len() => {
            do_shorter_wait(alloc, line, line.len() - rest.len())
        }
        _ => true,
    }
}

/// Whether it is the same how a line is cut: one byte at a time gives what it gives, and what stands before its end
/// waits.
pub fn may_be_cut(alloc: Global, line: &[u8]) -> bool {
    match is_same_in_bytes(alloc, line) {
        Ok(is_same) => is_same && do_beginnings_wait(alloc, line),
        Err(_) => false,
    }
}

/// What is done with a feed, or asked of it.
pub enum Step {
    /// These bytes are fed.
    Feed(&'static [u8]),
    /// The next call gives what is told so.
    Next(&'static str),
    /// A line of so many bytes is skipped, or none is.
    Skip(Option<usize>),
    /// These bytes are held.
    Held(&'static [u8]),
}

static STEPS: &[Step] = &[
    Step::Held(b""),
    Step::Next("Ok(None)"),
    Step::Feed(b"a1 O"),
    Step::Next("Ok(None)"),
    Step::Held(b"a1 O"),
    Step::Feed(b"K\r\n* X\r\n"),
    Step::Next(
        r#"Ok(Some(Done { tag: RequestId("a1"), status: Ok, outcome: Outcome { code: None, information: None } }))"#,
    ),
    Step::Next("Err(Denied)"),
    Step::Held(b"* X\r\n"),
    Step::Feed(b"a2 OK\r\n"),
    Step::Next("Err(Denied)"),
    Step::Held(b"* X\r\na2 OK\r\n"),
];

// Whether the next call is told so.
fn gives(alloc: Global, feed: &mut Feed, want: &str) -> bool {
    tells(alloc, feed.next(), want)
}

fn holds(feed: &Feed, want: &[u8]) -> bool {
    feed.held() == want
}

// Whether the feed does so.
fn does(alloc: Global, feed: &mut Feed, step: &Step) -> bool {
    match step {
        Step::Feed(bytes) => feed.feed(bytes).is_ok(),
        Step::Next(want) => gives(alloc, feed, want),
        Step::Skip(want) => feed.skip_line() == *want,
        Step::Held(want) => holds(feed, want),
    }
}

/// Asserts that a new feed does each of the steps.
pub fn assert_steps(rt: &impl Abort, alloc: Global, steps: &[Step]) {
    let mut feed = Feed::new(alloc);
    for (k, step) in steps.iter().enumerate() {
        assert!(rt; does(alloc, &mut feed, step), "step {k}");
    }
}

#[test]
fn feeding(rt: HostRuntime) {
    assert_steps(&rt, rt.alloc(), STEPS);
}
