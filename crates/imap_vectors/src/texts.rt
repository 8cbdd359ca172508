//! Texts that bytes are decoded to, each with its mark, and the texts of faults.

use crate::answers::{
    Marked, NOTHING, Reads, Rows, assert_reads, assert_row, assert_says, assert_texts, says,
    says_marked, with_mark,
};
use crate::owned::{attribute_alone, owned};
use imap_proto::Response;
use imap_proto::bodystructure::PartsError;
use imap_proto::imap_core::{
    Err, IResult, Needed, astring_utf8, nstring_utf8, quoted_utf8, string_utf8, text,
};
use imap_proto::rfc3501::{AttributeValue, MailboxDatum};
use imap_proto::stream::FeedError;
use std::alloc::{AllocError, Global};
use std::borrow::CowStr;
use std::collections::HashMap;
use std::test::*;

static TEXTS: Rows = &[
    (b"ab\r\n", r#"Borrowed("ab") then "\r\n""#),
    (b"\xff\xfex\r", r#"Owned("��x") then "\r""#),
    (b"\xe2\x82x\r", r#"Owned("�x") then "\r""#),
    (b"\n", r#"Borrowed("") then "\n""#),
    (b"ab", "Incomplete(Unknown)"),
];

static STRINGS: Rows = &[
    (b"{2}\r\n\xffax", r#"Owned("�a") then "x""#),
    (b"{1}\r\n", "Incomplete(Size(1))"),
];

static QUOTED: Rows = &[
    (b"\"a\\\"\xc3\xa9\"", r#"Borrowed("a\\\"é")"#),
    (b"{1}\r\na", "Error"),
];

static ASTRINGS: Rows = &[
    (b"a]\x80 ", r#"Owned("a]�") then " ""#),
    (b"\"a b\"", r#"Borrowed("a b")"#),
    (b"a", "Incomplete(Unknown)"),
];

/// A reader of texts.
enum Decoder {
    Text,
    Astring,
    Str,
    Quoted,
}

impl Reads for Decoder {
    fn reads(&self, alloc: Global, input: &[u8], want: &str) -> bool {
        let answer = match self {
            Decoder::Text => text(alloc, input),
            Decoder::Astring => astring_utf8(alloc, input),
            Decoder::Str => string_utf8(alloc, input),
            Decoder::Quoted => quoted_utf8(alloc, input),
        };
        says_marked(alloc, answer, want)
    }
}

#[test]
fn decoded(rt: HostRuntime) {
    assert_reads(&rt, rt.alloc(), &Decoder::Text, TEXTS);
    assert_reads(&rt, rt.alloc(), &Decoder::Astring, ASTRINGS);
    assert_reads(&rt, rt.alloc(), &Decoder::Str, STRINGS);
    assert_reads(&rt, rt.alloc(), &Decoder::Quoted, QUOTED);
}

#[test]
fn decoded_or_nil(rt: HostRuntime) {
    assert_says(
        &rt,
        rt.alloc(),
        nstring_utf8(rt.alloc(), b"nil "),
        r#"None then " ""#,
    );
    assert_says(
        &rt,
        rt.alloc(),
        nstring_utf8(rt.alloc(), b"\"nil\""),
        r#"Some("nil")"#,
    );
    assert_says(&rt, rt.alloc(), nstring_utf8(rt.alloc(), b"a"), "Error");
}

// Adds the texts of a list.
fn add_list<'a>(texts: &mut Vec<Marked<'a>>, list: &'a Vec<CowStr<'_>>) -> Result<(), AllocError> {
    for text in list {
        texts.push(with_mark(text))?;
    }
    Ok(())
}

// Adds the texts of the pairs of an identity.
fn add_pairs<'a>(
    texts: &mut Vec<Marked<'a>>,
    pairs: &'a HashMap<CowStr<'_>, CowStr<'_>>,
) -> Result<(), AllocError> {
    for (key, value) in pairs {
        texts.push(with_mark(key))?;
        texts.push(with_mark(value))?;
    }
    Ok(())
}

// Adds the texts of an attribute of a message: dates, flags, labels and ids.
fn add_texts<'a>(
    texts: &mut Vec<Marked<'a>>,
    attribute: &'a AttributeValue<'_>,
) -> Result<(), AllocError> {
    match attribute {
        AttributeValue::InternalDate(text)
        | AttributeValue::EmailId(text)
        | AttributeValue::ThreadId(Some(text))
        | AttributeValue::SaveDate(Some(text)) => texts.push(with_mark(text))?,
        AttributeValue::Flags(list) | AttributeValue::GmailLabels(list) => add_list(texts, list)?,
        _ => {}
    }
    Ok(())
}

/// What has texts.
trait Telling {
    /// Its texts, each with its mark.
    fn texts(&self, alloc: Global) -> Result<Vec<Marked<'_>>, AllocError>;
}

// Adds the texts of a response: the information of a status line, the pairs of an identity, the mailbox and the entries
// of annotations, or what the attributes of a message have.
fn add_all<'a>(texts: &mut Vec<Marked<'a>>, response: &'a Response<'_>) -> Result<(), AllocError> {
    match response {
        Response::Data { outcome, .. } => {
            if let Some(text) = &outcome.information {
                texts.push(with_mark(text))?;
            }
        }
        Response::Id(Some(pairs)) => {
            add_pairs(texts, pairs)?;
        }
        Response::MailboxData(MailboxDatum::MetadataSolicited { mailbox, .. }) => {
            texts.push(with_mark(mailbox))?;
        }
        Response::MailboxData(MailboxDatum::MetadataUnsolicited { mailbox, values }) => {
            texts.push(with_mark(mailbox))?;
            add_list(texts, values)?;
        }
        Response::Fetch(_, attributes) => {
            for attribute in attributes {
                add_texts(texts, attribute)?;
            }
        }
        _ => {}
    }
    Ok(())
}

impl<'a> Telling for Response<'a> {
    fn texts(&self, alloc: Global) -> Result<Vec<Marked<'_>>, AllocError> {
        let mut texts = Vec::new(alloc);
        add_all(&mut texts, self)?;
        Ok(texts)
    }
}

impl<'a> Telling for AttributeValue<'a> {
    fn texts(&self, alloc: Global) -> Result<Vec<Marked<'_>>, AllocError> {
        let mut texts = Vec::new(alloc);
        add_texts(&mut texts, self)?;
        Ok(texts)
    }
}

static MARKED_LINES: Rows = &[
    (b"* OK hi\r\n", r#"[Borrowed("hi")]"#),
    (b"* OK \xff\xfex\r\n", r#"[Owned("��x")]"#),
    (b"* OK [ALERT] x\r\n", r#"[Borrowed("x")]"#),
    (b"* OK [ALERT]\xff\r\n", r#"[Owned("")]"#),
    (b"* OK [ALERT] \xe2\x82x\r\n", r#"[Owned("�x")]"#),
    (
        b"* ID (\"a\" \"1\")\r\n",
        r#"[Borrowed("a"), Borrowed("1")]"#,
    ),
    (
        b"* ID (\"\xff\" \"1\")\r\n",
        r#"[Owned("�"), Borrowed("1")]"#,
    ),
    (
        b"* ID (\"a\" {1}\r\n\xfe)\r\n",
        r#"[Borrowed("a"), Owned("�")]"#,
    ),
    (
        b"* METADATA \"\xff\" (/shared/comment {1}\r\n\xfe)\r\n",
        r#"[Owned("�")]"#,
    ),
    (b"* 1 FETCH (INTERNALDATE \"\xff\")\r\n", r#"[Owned("�")]"#),
    (
        b"* 1 FETCH (INTERNALDATE \"a\" FLAGS (\\Seen \\*) X-GM-LABELS (\\Sent \"\xff\") EMAILID (M1) THREADID (T))\r\n",
        r#"[Borrowed("a"), Borrowed("\\Seen"), Borrowed("\\*"), Borrowed("\\Sent"), Owned("�"), Borrowed("M1"), Borrowed("T")]"#,
    ),
    (
        b"* 1 FETCH (SAVEDATE \"x\" SAVEDATE \"\xff\" SAVEDATE NIL)\r\n",
        r#"[Borrowed("x"), Owned("�")]"#,
    ),
    (
        b"* METADATA \"x\" \"/shared/comment \xff\" /private/comment\r\n",
        r#"[Borrowed("x"), Owned("/shared/comment �"), Borrowed("/private/comment")]"#,
    ),
];

// Lines whose responses are made owned: whichever texts were lent, all are of their own memory then.
static OWNED_LINES: Rows = &[
    (b"* OK [ALERT] x\r\n", r#"[Owned("x")]"#),
    (b"* ID (\"a\" \"1\")\r\n", r#"[Owned("a"), Owned("1")]"#),
    (
        b"* ID (\"a\" {1}\r\n\xfe)\r\n",
        r#"[Owned("a"), Owned("�")]"#,
    ),
    (
        b"* METADATA \"x\" (/shared/comment \"y\")\r\n",
        r#"[Owned("x")]"#,
    ),
    (
        b"* METADATA \"x\" \"/shared/comment \xff\" /private/comment\r\n",
        r#"[Owned("x"), Owned("/shared/comment �"), Owned("/private/comment")]"#,
    ),
    (
        b"* 1 FETCH (INTERNALDATE \"a\" FLAGS (\\Seen \\*) X-GM-LABELS (\\Sent \"\xff\") EMAILID (M1) THREADID (T))\r\n",
        r#"[Owned("a"), Owned("\\Seen"), Owned("\\*"), Owned("\\Sent"), Owned("�"), Owned("M1"), Owned("T")]"#,
    ),
    (
        b"* 1 FETCH (SAVEDATE \"x\" SAVEDATE \"\xff\" SAVEDATE NIL)\r\n",
        r#"[Owned("x"), Owned("�")]"#,
    ),
];

static OWNED_ATTRIBUTES: Rows = &[
    (b"FLAGS (\\Seen a))", r#"[Owned("\\Seen"), Owned("a")]"#),
    (
        b"X-GM-LABELS (\\Sent \"\xff\"))",
        r#"[Owned("\\Sent"), Owned("�")]"#,
    ),
    (b"INTERNALDATE \"d\")", r#"[Owned("d")]"#),
];

// Whether the texts of what was read are told so.
fn has_texts<T: Telling + Drop>(alloc: Global, answer: IResult<&[u8], T>, want: &str) -> bool {
    match answer {
        Ok((rest, value)) => match value.texts(alloc) {
            Ok(texts) => says(alloc, Ok((rest, texts)), want),
            Err(_) => false,
        },
        Err(_) => false,
    }
}

// Whether the texts of a response are told so.
fn line_has(alloc: Global, line: &[u8], want: &str) -> bool {
    has_texts(alloc, Response::parse(alloc, line), want)
}

// The same of a response that is made owned.
fn owned_line_has(alloc: Global, line: &[u8], want: &str) -> bool {
    has_texts(alloc, owned(alloc, Response::parse(alloc, line)), want)
}

/// Whether the texts of an attribute that was made are told so, each with its mark.
pub fn has_marked(
    alloc: Global,
    attribute: Result<AttributeValue<'_>, AllocError>,
    want: &str,
) -> bool {
    match attribute {
        Ok(value) => has_texts(alloc, Ok((NOTHING, value)), want),
        Err(_) => false,
    }
}

// The same of an attribute that is made owned.
fn owned_attribute_has(alloc: Global, i: &[u8], want: &str) -> bool {
    match attribute_alone(alloc, i) {
        Ok(value) => has_texts(alloc, Ok((NOTHING, value)), want),
        Err(_) => false,
    }
}

#[test]
fn lent_and_owned(rt: HostRuntime) {
    let alloc = rt.alloc();
    for (line, want) in MARKED_LINES {
        assert_row(&rt, line_has(alloc, line, want), want);
    }
}

#[test]
fn made_owned(rt: HostRuntime) {
    let alloc = rt.alloc();
    for (line, want) in OWNED_LINES {
        assert_row(&rt, owned_line_has(alloc, line, want), want);
    }
    for (i, want) in OWNED_ATTRIBUTES {
        assert_row(&rt, owned_attribute_has(alloc, i, want), want);
    }
}

static FAULTS: &[(Err, &str)] = &[
    (Err::Incomplete(Needed::Unknown), "more bytes are needed"),
    (Err::Incomplete(Needed::Size(3)), "more bytes are needed"),
    (Err::Error, "denied"),
    (Err::Failure, "out of memory"),
];

static FAULTS_OF_PARTS: &[(PartsError, &str)] = &[
    (PartsError::OutOfMemory, "out of memory"),
    (PartsError::TooManyParts, "too many parts"),
];

static FAULTS_OF_FEEDS: &[(FeedError, &str)] = &[
    (FeedError::Denied, "denied"),
    (FeedError::OutOfMemory, "out of memory"),
];

#[test]
fn texts_of_faults(rt: HostRuntime) {
    assert_texts(&rt, rt.alloc(), FAULTS);
    assert_texts(&rt, rt.alloc(), FAULTS_OF_PARTS);
    assert_texts(&rt, rt.alloc(), FAULTS_OF_FEEDS);
}
