//! What an answer says, as text.

use crate::streams::may_be_cut;
use imap_bytes::at::Reached;
use imap_bytes::texts::decode;
use imap_proto::Response;
use imap_proto::imap_core::{Err, IResult};
use std::alloc::{AllocError, Global};
use std::borrow::CowStr;
use std::fmt::{Debug, Display};
use std::process::Abort;

/// Inputs, each with what a reader answers.
pub type Rows = &'static [(&'static [u8], &'static str)];

/// What a reader answers that waits for bytes which it can't count.
pub const WAITS: &str = "Incomplete(Unknown)";

/// The debug text of what was read, and the bytes behind it where there are any; or why nothing was read.
pub fn told<T: Debug + Drop>(
    alloc: Global,
    answer: IResult<&[u8], T>,
) -> Result<String, AllocError> {
    match answer {
        Ok((rest, value)) => {
            if rest.is_empty() {
                return format!(in alloc; "{value:?}");
            }
            let rest = decode(alloc, rest)?;
            format!(in alloc; "{value:?} then {rest:?}")
        }
        Err(error) => format!(in alloc; "{error:?}"),
    }
}

/// What stands behind a value that is no reader's answer.
pub const NOTHING: &[u8] = b"";

/// Whether this is the text.
pub fn is_text(text: Result<String, AllocError>, want: &str) -> bool {
    match text {
        Ok(text) => text.as_str() == want,
        Err(_) => false,
    }
}

/// Whether a reader's answer is told so.
pub fn says<T: Debug + Drop>(alloc: Global, answer: IResult<&[u8], T>, want: &str) -> bool {
    is_text(told(alloc, answer), want)
}

/// The debug text of a value, if it was made.
pub fn told_value<T: Debug + Drop>(
    alloc: Global,
    value: Result<T, AllocError>,
) -> Result<String, AllocError> {
    told(alloc, Ok((NOTHING, value?)))
}

/// A reader's answer, with what was made of the value that it read.
pub fn with_value<T>(rest: &[u8], value: Result<T, AllocError>) -> IResult<&[u8], T> {
    Ok((rest, value?))
}

/// A reader's answer without the value.
pub fn without_value<T: Drop>(answer: IResult<&[u8], T>) -> IResult<&[u8], ()> {
    let (rest, _) = answer?;
    Ok((rest, ()))
}

/// Whether a value is told so.
pub fn tells<T: Debug + Drop>(alloc: Global, value: T, want: &str) -> bool {
    says(alloc, Ok((NOTHING, value)), want)
}

/// Whether there is a value, and it is told so.
pub fn shows<T: Debug + Drop, E: Drop>(alloc: Global, value: Result<T, E>, want: &str) -> bool {
    match value {
        Ok(value) => tells(alloc, value, want),
        Err(_) => false,
    }
}

/// What was read, without what is left.
pub fn value_of<T>(answer: IResult<&[u8], T>) -> Result<T, Err> {
    let (_, value) = answer?;
    Ok(value)
}

/// Asserts what a row says; where it fails, the row is told by its text.
pub fn assert_row(rt: &impl Abort, holds: bool, want: &str) {
    assert!(rt; holds, "{want}");
}

/// Asserts that a reader's answer is told so.
pub fn assert_says<T: Debug + Drop>(
    rt: &impl Abort,
    alloc: Global,
    answer: IResult<&[u8], T>,
    want: &str,
) {
    assert_row(rt, says(alloc, answer, want), want);
}

/// The readers of a topic: an enum names them, since a function that is passed by name is proved several times.
pub trait Reads {
    /// Whether this reader's answer is told so.
    fn reads(&self, alloc: Global, input: &[u8], want: &str) -> bool;
}

/// Asserts that the reader answers each input of the table as its row says.
pub fn assert_reads<R: Reads>(rt: &impl Abort, alloc: Global, reader: &R, rows: Rows) {
    for (input, want) in rows {
        assert_row(rt, reader.reads(alloc, input, want), want);
    }
}

/// The same of a table whose rows name their reader.
pub fn assert_each_reads<R: Reads>(rt: &impl Abort, alloc: Global, rows: &[(R, &[u8], &str)]) {
    for (reader, input, want) in rows {
        assert_row(rt, reader.reads(alloc, input, want), want);
    }
}

/// Whether a reader at a position reached this one, and told the value so.
pub fn says_at<T: Debug + Drop>(alloc: Global, answer: Reached<T>, want: &str) -> bool {
    let text = match answer {
        Ok((reached, value)) => format!(in alloc; "{value:?} up to {reached}"),
        Err(error) => format!(in alloc; "{error:?}"),
    };
    is_text(text, want)
}

/// Whether the answer of a reader of byte strings is told so, the string as text.
pub fn says_bytes(alloc: Global, answer: IResult<&[u8], &[u8]>, want: &str) -> bool {
    match answer {
        Ok((rest, bytes)) => match decode(alloc, bytes) {
            Ok(text) => says(alloc, Ok((rest, text)), want),
            Err(_) => false,
        },
        Err(error) => says(alloc, Err::<(&[u8], CowStr<'_>), _>(error), want),
    }
}

/// What `Response::parse` answers. Few functions name a response, since each is proved over all its kinds.
pub fn told_line(alloc: Global, line: &[u8]) -> Result<String, AllocError> {
    told(alloc, Response::parse(alloc, line))
}

/// Whether `Response::parse` answers so.
pub fn parses(alloc: Global, line: &[u8], want: &str) -> bool {
    is_text(told_line(alloc, line), want)
}

// Whether this is the text of a value.
fn displays<T: Display>(alloc: Global, value: &T, want: &str) -> bool {
    is_text(format!(in alloc; "{value}"), want)
}

// Asserts that `Response::parse` answers each line of the table as its row says, and that the line may be cut anywhere.
fn assert_rows(rt: &impl Abort, alloc: Global, rows: Rows) {
    for (line, want) in rows {
        assert_row(rt, parses(alloc, line, want), want);
        assert_row(rt, may_be_cut(alloc, line), want);
    }
}

/// Asserts that `Response::parse` answers each line of the tables as its row says, and that the line may be cut
/// anywhere.
pub fn assert_lines(rt: &impl Abort, alloc: Global, tables: &[Rows]) {
    for rows in tables {
        assert_rows(rt, alloc, *rows);
    }
}

/// A text with its mark.
#[derive(Debug, Drop)]
pub enum Marked<'a> {
    /// Lent by the message.
    Borrowed(&'a str),
    /// Of its own memory.
    Owned(&'a str),
}

/// The text with its mark: whether it is borrowed or owned.
pub fn with_mark<'a>(text: &'a CowStr<'_>) -> Marked<'a> {
    match text {
        CowStr::Borrowed(text) => Marked::Borrowed(*text),
        CowStr::Owned(text) => Marked::Owned(text.as_str()),
    }
}

/// The same of a text that may be missing.
pub fn with_mark_if_any<'a>(text: &'a Option<CowStr<'_>>) -> Option<Marked<'a>> {
    match text {
        None => None,
        Some(text) => Some(with_mark(text)),
    }
}

/// Whether the answer of a reader of texts is told so, with the text's mark.
pub fn says_marked(alloc: Global, answer: IResult<&[u8], CowStr<'_>>, want: &str) -> bool {
    match answer {
        Ok((rest, text)) => says(alloc, Ok((rest, with_mark(&text))), want),
        Err(error) => says(alloc, Err::<(&[u8], CowStr<'_>), _>(error), want),
    }
}

/// Asserts the text of the value in each row.
pub fn assert_texts<T: Display>(rt: &impl Abort, alloc: Global, rows: &[(T, &str)]) {
    for (value, want) in rows {
        assert_row(rt, displays(alloc, value, want), want);
    }
}
