//! Bodies and extension lists inside one another, up to the deepest that are read and one further: by the readers,
//! and in lines.

use crate::answers::told_line;
use crate::kept::is_kept;
use crate::owned::parses_owned;
use crate::streams::{behind_response, may_be_cut};
use imap_body::readers::{body_extension, body_structure};
use imap_proto::imap_core::{Err, IResult};
use imap_proto::rfc3501::body_structure::{MAX_BODY_DEPTH, MAX_EXTENSION_DEPTH};
use std::alloc::{AllocError, Global};
use std::process::Abort;
use std::test::*;

/// What stands before, in and behind what is nested.
struct Nest {
    before: &'static [u8],
    inside: &'static [u8],
    behind: &'static [u8],
}

/// Puts the bytes behind the line so many times.
pub fn push_times(line: &mut Vec<u8>, bytes: &[u8], times: u32) -> Result<(), AllocError> {
    for _ in 0..times {
        line.extend_from_slice(bytes)?;
    }
    Ok(())
}

// So many levels, the inside being the last.
fn nested(
    alloc: Global,
    start: &[u8],
    nest: &Nest,
    levels: u32,
    end: &[u8],
) -> Result<Vec<u8>, AllocError> {
    let around = levels.saturating_sub(1);
    let mut line = Vec::from_slice(alloc, start)?;
    push_times(&mut line, nest.before, around)?;
    line.extend_from_slice(nest.inside)?;
    push_times(&mut line, nest.behind, around)?;
    line.extend_from_slice(end)?;
    Ok(line)
}

const MULTIPARTS: Nest = Nest {
    before: b"(",
    inside: b"(\"A\" \"B\" NIL NIL NIL \"7BIT\" 1)",
    behind: b" \"M\")",
};

const MESSAGES: Nest = Nest {
    before: b"(\"MESSAGE\" \"RFC822\" NIL NIL NIL NIL 1 (NIL NIL NIL NIL NIL NIL NIL NIL NIL NIL) ",
    inside: b"(\"A\" \"B\" NIL NIL NIL \"7BIT\" 1)",
    behind: b" 1)",
};

const LISTS: Nest = Nest {
    before: b"(",
    inside: b"(1)",
    behind: b")",
};

const BEFORE_LISTS: &[u8] = b"(\"A\" \"B\" NIL NIL NIL \"7BIT\" 1 NIL NIL NIL NIL ";

const BEFORE_BODY_IN_LINE: &[u8] = b"* 1 FETCH (BODYSTRUCTURE ";

const BEFORE_LISTS_IN_LINE: &[u8] =
    b"* 1 FETCH (BODYSTRUCTURE (\"A\" \"B\" NIL NIL NIL \"7BIT\" 1 NIL NIL NIL NIL ";

/// How a reading ended, the value left out.
#[derive(Clone, Copy, PartialEq, Eq)]
enum Ending {
    Whole,
    InPart,
    Denied,
    Neither,
}

fn ending_of<T: Drop>(answer: IResult<&[u8], T>) -> Ending {
    match answer {
        Ok((rest, _)) if rest.is_empty() => Ending::Whole,
        Ok(_) => Ending::InPart,
        Err(Err::Error) => Ending::Denied,
        Err(_) => Ending::Neither,
    }
}

static DEPTHS: &[(u32, Ending)] = &[
    (3, Ending::Whole),
    (99, Ending::Whole),
    (100, Ending::Whole),
    (101, Ending::Denied),
];

// How the reading of a body ends that is nested so.
fn ending_of_body(
    alloc: Global,
    start: &[u8],
    nest: &Nest,
    levels: u32,
    end: &[u8],
) -> Result<Ending, AllocError> {
    let body = nested(alloc, start, nest, levels, end)?;
    Ok(ending_of(body_structure(alloc, &body)))
}

// How the reading of extension data ends that has so many lists inside one another.
fn ending_of_lists(alloc: Global, levels: u32) -> Result<Ending, AllocError> {
    let lists = nested(alloc, b"", &LISTS, levels, b"")?;
    Ok(ending_of(body_extension(alloc, &lists)))
}

/// What is nested, with what stands before and behind it.
type Nests = &'static [(&'static [u8], Nest, &'static [u8])];

static BODIES: Nests = &[
    (b"", MULTIPARTS, b""),
    (b"", MESSAGES, b""),
    (BEFORE_LISTS, LISTS, b")"),
];

fn assert_bodies(rt: &impl Abort, alloc: Global, levels: u32, want: Ending) {
    for (start, nest, end) in BODIES {
        let ending = ending_of_body(alloc, start, nest, levels, end);
        assert!(rt; ending == Ok(want), "{levels} bodies");
    }
}

#[test]
fn nesting(rt: HostRuntime) {
    for (levels, want) in DEPTHS {
        assert_bodies(&rt, rt.alloc(), *levels, *want);
        assert!(rt;
            ending_of_lists(rt.alloc(), *levels) == Ok(*want),
            "{levels} lists"
        );
    }
    assert!(rt; MAX_BODY_DEPTH == 100 && MAX_EXTENSION_DEPTH == 100);
}

static LINES: Nests = &[
    (BEFORE_BODY_IN_LINE, MULTIPARTS, b")\r\n"),
    (BEFORE_BODY_IN_LINE, MESSAGES, b")\r\n"),
    (BEFORE_LISTS_IN_LINE, LISTS, b"))\r\n"),
];

// Lines up to this length are cut. A longer one, of a hundred messages inside one another, is not: each cut reads the
// line anew, so its time grows with the square of its length.
const CUT: usize = 1000;

// Whether the parsing of a line ends so, what is kept of the line and what is made owned are told as what is parsed,
// and a short line may be cut anywhere.
fn line_ends(alloc: Global, line: &[u8], want: Ending) -> Result<bool, AllocError> {
    let parsed = told_line(alloc, line)?;
    Ok(
        ending_of(behind_response(alloc, line)) == want
            && is_kept(alloc, line, parsed.as_str())
            && parses_owned(alloc, line, parsed.as_str())
            && (line.len() > CUT || may_be_cut(alloc, line)),
    )
}

// The same of a line in which something is nested.
fn nested_line_ends(
    alloc: Global,
    start: &[u8],
    nest: &Nest,
    levels: u32,
    end: &[u8],
    want: Ending,
) -> Result<bool, AllocError> {
    let line = nested(alloc, start, nest, levels, end)?;
    line_ends(alloc, &line, want)
}

fn assert_lines(rt: &impl Abort, alloc: Global, levels: u32, want: Ending) {
    for (start, nest, end) in LINES {
        let ends = nested_line_ends(alloc, start, nest, levels, end, want);
        assert!(rt; matches!(ends, Ok(true)), "{levels}");
    }
}

// A body that nests too deep is tried as an unknown attribute, which ends at the first closing bracket: so the line
// is denied.
#[test]
fn nesting_in_lines(rt: HostRuntime) {
    for (levels, want) in DEPTHS {
        assert_lines(&rt, rt.alloc(), *levels, *want);
    }
}
