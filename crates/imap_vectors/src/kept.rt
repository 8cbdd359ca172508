//! Fetches that are kept, and attributes as positions: what they tell of their message, and of another one in its
//! place.

use crate::answers::{NOTHING, Rows, assert_row, parses, says, says_at, shows, told, value_of};
use crate::owned::response_alone;
use crate::{codes, extensions, fetches, mailboxes, statuses};
use imap_body::spanned::{SpannedAttribute, attribute_list_at};
use imap_body::spans::Span;
use imap_body::{AttributeValue, owned_attributes};
use imap_bytes::at::Reached;
use imap_proto::Response;
use imap_proto::imap_core::Err;
use imap_proto::kept::KeptFetch;
use std::alloc::{AllocError, Global};
use std::fmt::{self, Debug};
use std::process::Abort;
use std::test::*;

/// What an attribute says, in its place.
#[derive(Drop)]
pub struct Told(String);

impl fmt::Debug for Told {
    fn fmt<W: fmt::Write>(&self, f: &mut fmt::Formatter<W>) -> fmt::Result {
        fmt::Display::fmt(&self.0, f)
    }
}

/// Puts what an attribute says behind what the others say. Over any type, since each kind would be proved to be dropped.
pub fn tell_one<T: Debug + Drop>(
    alloc: Global,
    value: Result<T, AllocError>,
    attributes: &mut Vec<Told>,
) -> Result<(), AllocError> {
    let text = told(alloc, Ok((NOTHING, value?)))?;
    attributes.push(Told(text))?;
    Ok(())
}

// A fetch as a response is told.
#[derive(Debug, Drop)]
struct Fetch(u32, Vec<Told>);

// What is kept, each attribute asked for by its place.
fn told_fetch(alloc: Global, kept: &KeptFetch) -> Result<Fetch, AllocError> {
    let mut attributes = Vec::new(alloc);
    for k in 0..kept.len() {
        tell_one(alloc, kept.attribute(k), &mut attributes)?;
    }
    Ok(Fetch(kept.number(), attributes))
}

/// Whether a kept fetch is told so as a response, with what is left of the line behind its bytes.
pub fn tells(alloc: Global, kept: &KeptFetch, line: &[u8], want: &str) -> bool {
    let front = kept.bytes();
    match (line.get(front.len()..), told_fetch(alloc, kept)) {
        (Some(rest), Ok(fetch)) => {
            line.starts_with(front) && says(alloc, Ok((rest, fetch)), want)
        }
        _ => false,
    }
}

/// Whether the line's fetch is kept and told so, each attribute by its place, or is refused so.
pub fn is_kept(alloc: Global, line: &[u8], want: &str) -> bool {
    match KeptFetch::keep(alloc, line) {
        Ok(Some(kept)) => tells(alloc, &kept, line, want),
        Ok(None) => false,
        Err(error) => says(alloc, Err::<(&[u8], u32), _>(error), want),
    }
}

// What is kept, as a list.
fn kept_attributes<'a>(
    alloc: Global,
    kept: &'a KeptFetch,
) -> Result<Vec<AttributeValue<'a>>, AllocError> {
    let mut attributes = Vec::new(alloc);
    for k in 0..kept.len() {
        attributes.push(kept.attribute(k)?)?;
    }
    Ok(attributes)
}

// The attributes of a response that is a FETCH.
fn attributes_of<'a>(answer: Result<Response<'a>, Err>) -> Option<Vec<AttributeValue<'a>>> {
    match answer {
        Ok(Response::Fetch(_, attributes)) => Some(attributes),
        Ok(other) => {
            drop(other);
            None
        }
        Err(_) => None,
    }
}

// Whether both are there, and are equal.
fn are_equal<T: PartialEq + Drop>(one: Option<T>, other: Option<T>) -> bool {
    match (&one, &other) {
        (Some(one), Some(other)) => one == other,
        _ => false,
    }
}

// Whether what is kept equals what is parsed.
fn equals_parsed<'a>(alloc: Global, kept: &'a KeptFetch, line: &'a [u8]) -> bool {
    are_equal(
        kept_attributes(alloc, kept).ok(),
        attributes_of(value_of(Response::parse(alloc, line))),
    )
}

// What is kept, made owned.
fn owned_kept(alloc: Global, kept: &KeptFetch) -> Option<Vec<AttributeValue<'static>>> {
    match kept_attributes(alloc, kept) {
        Ok(attributes) => {
            let owned = owned_attributes(alloc, &attributes);
            drop(attributes);
            owned.ok()
        }
        Err(_) => None,
    }
}

// Whether what is kept, made owned, equals what is parsed and made owned.
fn equals_owned(alloc: Global, kept: &KeptFetch, line: &[u8]) -> bool {
    are_equal(
        owned_kept(alloc, kept),
        attributes_of(response_alone(alloc, line)),
    )
}

// Whether the line's fetch, if it is kept, equals what is parsed, borrowed and owned.
fn is_equal_kept(alloc: Global, line: &[u8]) -> bool {
    match KeptFetch::keep(alloc, line) {
        Ok(Some(kept)) => equals_parsed(alloc, &kept, line) && equals_owned(alloc, &kept, line),
        Ok(None) => false,
        Err(_) => true,
    }
}

// Whether nothing is kept of the line: another response stands there, or it is refused so.
fn is_not_kept(alloc: Global, line: &[u8], want: &str) -> bool {
    match KeptFetch::keep(alloc, line) {
        Ok(Some(_)) => false,
        Ok(None) => parses(alloc, line, want),
        Err(error) => says(alloc, Err::<(&[u8], u32), _>(error), want),
    }
}

// Each line of the table is told so, and nothing is kept of it.
fn assert_none_of(rt: &impl Abort, alloc: Global, rows: Rows) {
    for (line, want) in rows {
        assert_row(rt, is_not_kept(alloc, line, want), want);
    }
}

// Each line of the tables is told so, and nothing is kept of it.
fn assert_none_kept(rt: &impl Abort, alloc: Global, tables: &[Rows]) {
    for rows in tables {
        assert_none_of(rt, alloc, *rows);
    }
}

fn assert_kept(rt: &impl Abort, alloc: Global, rows: Rows) {
    for (line, want) in rows {
        assert_row(rt, is_kept(alloc, line, want), want);
        assert_row(rt, is_equal_kept(alloc, line), want);
    }
}

#[test]
fn kept_as_parsed(rt: HostRuntime) {
    for rows in &fetches::lines() {
        assert_kept(&rt, rt.alloc(), *rows);
    }
}

#[test]
fn no_fetch_no_keeping(rt: HostRuntime) {
    assert_none_kept(&rt, rt.alloc(), &statuses::lines());
    assert_none_kept(&rt, rt.alloc(), &codes::lines());
    assert_none_kept(&rt, rt.alloc(), &mailboxes::lines());
    assert_none_kept(&rt, rt.alloc(), &extensions::lines());
}

/// A line, what is kept of it, and what its kept bytes say when they are parsed by themselves.
struct KeptLine {
    line: &'static [u8],
    number: u32,
    attributes: &'static [&'static [u8]],
    bytes: usize,
    told: &'static str,
    alone: &'static str,
}

// The first reading may look past the line: where a literal is announced that the line does not have, the attribute
// is no envelope but an unknown one, and the line by itself would wait for the rest of the literal.
static KEPT: &[KeptLine] = &[
    KeptLine {
        line: b"* 2 FETCH (UID 7 FLAGS (\\Seen))\r\nzz",
        number: 2,
        attributes: &[b"UID 7", b"FLAGS (\\Seen)"],
        bytes: 33,
        told: r#"Fetch(2, [Uid(7), Flags(["\\Seen"])]) then "zz""#,
        alone: r#"Fetch(2, [Uid(7), Flags(["\\Seen"])])"#,
    },
    KeptLine {
        line: b"* 1 FETCH (ENVELOPE ({5}\r\n))\r\nxy",
        number: 1,
        attributes: &[b"ENVELOPE ({5}\r\n)"],
        bytes: 30,
        told: r#"Fetch(1, [Unknown]) then "xy""#,
        alone: "Incomplete(Size(1))",
    },
    KeptLine {
        line: b"* 1 FETCH (ENVELOPE ({15}\r\n) UID 7)\r\nabcdex",
        number: 1,
        attributes: &[b"ENVELOPE ({15}\r\n)", b"UID 7"],
        bytes: 37,
        told: r#"Fetch(1, [Unknown, Uid(7)]) then "abcdex""#,
        alone: "Incomplete(Size(5))",
    },
];

// Whether these are the bytes of the attributes.
fn has_spans(kept: &KeptFetch, want: &[&[u8]]) -> bool {
    for k in 0..kept.len() {
        if want.get(k) != Some(&kept.span(k)) {
            return false;
        }
    }
    kept.len() == want.len()
}

// Whether what is kept of the line is this.
fn is_kept_so(alloc: Global, want: &KeptLine) -> bool {
    match KeptFetch::keep(alloc, want.line) {
        Ok(Some(kept)) => {
            kept.number() == want.number
                && has_spans(&kept, want.attributes)
                && kept.bytes().len() == want.bytes
                && tells(alloc, &kept, want.line, want.told)
                && parses(alloc, kept.bytes(), want.alone)
        }
        _ => false,
    }
}

#[test]
fn kept_bytes(rt: HostRuntime) {
    for want in KEPT {
        assert!(rt; is_kept_so(rt.alloc(), want), "{}", want.told);
    }
}

/// Attributes in parentheses from some place of a message on, and what they say of it, and of another message with
/// other bytes in these places.
struct Places {
    message: &'static [u8],
    start: usize,
    spans: &'static str,
    values: &'static str,
    other: &'static [u8],
    others: &'static str,
}

static PLACES: &[Places] = &[
    Places {
        message: b"* 2 FETCH (UID 7 FLAGS (\\Seen))\r\nzz",
        start: 10,
        spans: "[Span { start: 11, end: 16 }, Span { start: 17, end: 30 }] up to 31",
        values: r#"[Uid(7), Flags(["\\Seen"])]"#,
        other: b"* 2 FETCH (UID 7 FLAGS (\\Flag))\r\nzz",
        others: r#"[Uid(7), Flags(["\\Flag"])]"#,
    },
    Places {
        message: b"(BODY[1.MIME]<0> \"ab\" ENVELOPE (\"d\" NIL ((\"n\" NIL {2}\r\nma \"h\")) NIL NIL NIL NIL NIL NIL \"i\") RFC822 {3}\r\na)b RFC822.TEXT NIL RFC822.HEADER \"h\" RFC822.SIZE 9 MODSEQ (5))",
        start: 0,
        spans: "[Span { start: 1, end: 21 }, Span { start: 22, end: 92 }, Span { start: 93, end: 108 }, Span { start: 109, end: 124 }, Span { start: 125, end: 142 }, Span { start: 143, end: 156 }, Span { start: 157, end: 167 }] up to 168",
        values: "[BodySection { section: Some(Part([1], Some(Mime))), index: Some(0), contents: Some([97, 98]) }, Envelope(Envelope { date: Some([100]), subject: None, from: Some([Address { name: Some([110]), adl: None, mailbox: Some([109, 97]), host: Some([104]) }]), sender: None, reply_to: None, to: None, cc: None, bcc: None, in_reply_to: None, message_id: Some([105]) }), Rfc822(Some([97, 41, 98])), Rfc822Text(None), Rfc822Header(Some([104])), Rfc822Size(9), ModSeq(5)]",
        other: &[b'x'; 168],
        others: "[BodySection { section: Some(Part([1], Some(Mime))), index: Some(0), contents: Some([120, 120]) }, Envelope(Envelope { date: Some([120]), subject: None, from: Some([Address { name: Some([120]), adl: None, mailbox: Some([120, 120]), host: Some([120]) }]), sender: None, reply_to: None, to: None, cc: None, bcc: None, in_reply_to: None, message_id: Some([120]) }), Rfc822(Some([120, 120, 120])), Rfc822Text(None), Rfc822Header(Some([120])), Rfc822Size(9), ModSeq(5)]",
    },
    Places {
        message: b"x(INTERNALDATE \"t u\" FLAGS (\\Seen a) X-GM-LABELS (\\Sent \"b c\") X-GM-MSGID 2 EMAILID (M1) THREADID (T) X y)\r\n",
        start: 1,
        spans: "[Span { start: 2, end: 20 }, Span { start: 21, end: 36 }, Span { start: 37, end: 62 }, Span { start: 63, end: 75 }, Span { start: 76, end: 88 }, Span { start: 89, end: 101 }, Span { start: 102, end: 105 }] up to 106",
        values: r#"[InternalDate("t u"), Flags(["\\Seen", "a"]), GmailLabels(["\\Sent", "b c"]), GmailMsgId(2), EmailId("M1"), ThreadId(Some("T")), Unknown]"#,
        other: &[0xff; 108],
        others: r#"[InternalDate("���"), Flags(["�����", "�"]), GmailLabels(["�����", "���"]), GmailMsgId(2), EmailId("��"), ThreadId(Some("�")), Unknown]"#,
    },
    Places {
        message: b"(FLAGS (\\Seen \\Seen) UID 1)",
        start: 0,
        spans: "[Span { start: 1, end: 20 }, Span { start: 21, end: 26 }] up to 27",
        values: r#"[Flags(["\\Seen", "\\Seen"]), Uid(1)]"#,
        other: b"(FLAGS (\\Seen \\Flag) UID 1)",
        others: r#"[Flags(["\\Seen", "\\Flag"]), Uid(1)]"#,
    },
    Places {
        message: b"(ENVELOPE (NIL NIL ((NIL NIL \"a\" \"h\")) ((NIL NIL \"a\" \"h\")) NIL NIL NIL NIL NIL NIL))",
        start: 0,
        spans: "[Span { start: 1, end: 83 }] up to 84",
        values: "[Envelope(Envelope { date: None, subject: None, from: Some([Address { name: None, adl: None, mailbox: Some([97]), host: Some([104]) }]), sender: Some([Address { name: None, adl: None, mailbox: Some([97]), host: Some([104]) }]), reply_to: None, to: None, cc: None, bcc: None, in_reply_to: None, message_id: None })]",
        other: b"(ENVELOPE (NIL NIL ((NIL NIL \"a\" \"h\")) ((NIL NIL \"b\" \"i\")) NIL NIL NIL NIL NIL NIL))",
        others: "[Envelope(Envelope { date: None, subject: None, from: Some([Address { name: None, adl: None, mailbox: Some([97]), host: Some([104]) }]), sender: Some([Address { name: None, adl: None, mailbox: Some([98]), host: Some([105]) }]), reply_to: None, to: None, cc: None, bcc: None, in_reply_to: None, message_id: None })]",
    },
    Places {
        message: b"(SAVEDATE \"x\" savedate NIL SAVEDATE {2}\r\n\xffy SAVEDATE (x))",
        start: 0,
        spans: "[Span { start: 1, end: 13 }, Span { start: 14, end: 26 }, Span { start: 27, end: 43 }, Span { start: 44, end: 56 }] up to 57",
        values: r#"[SaveDate(Some("x")), SaveDate(None), SaveDate(Some("�y")), Unknown]"#,
        other: &[b'z'; 57],
        others: r#"[SaveDate(Some("z")), SaveDate(None), SaveDate(Some("zz")), Unknown]"#,
    },
];

static PLACES_OF_BODIES: &[Places] = &[
    Places {
        message: b"(BODYSTRUCTURE (\"text\" \"plain\" (\"p\" \"q\") \"i\" \"d\" \"XY\" 5 1 \"m\" (\"a\" (\"f\" \"g\")) \"en\" \"l\" (\"e\" 7 NIL)))",
        start: 0,
        spans: "[Span { start: 1, end: 99 }] up to 100",
        values: r#"[BodyStructure(Text { common: BodyContentCommon { ty: ContentType { ty: "TEXT", subtype: "plain", params: Some([("p", "q")]) }, disposition: Some(ContentDisposition { ty: "a", params: Some([("f", "g")]) }), language: Some(["en"]), location: Some("l") }, other: BodyContentSinglePart { id: Some("i"), md5: Some("m"), description: Some("d"), transfer_encoding: Other("XY"), octets: 5 }, lines: 1, extension: Some(List([Str(Some("e")), Num(7), Str(None)])) })]"#,
        other: &[b'z'; 100],
        others: r#"[BodyStructure(Text { common: BodyContentCommon { ty: ContentType { ty: "TEXT", subtype: "zzzzz", params: Some([("z", "z")]) }, disposition: Some(ContentDisposition { ty: "z", params: Some([("z", "z")]) }), language: Some(["zz"]), location: Some("z") }, other: BodyContentSinglePart { id: Some("z"), md5: Some("z"), description: Some("z"), transfer_encoding: Other("zz"), octets: 5 }, lines: 1, extension: Some(List([Str(Some("z")), Num(7), Str(None)])) })]"#,
    },
    Places {
        message: b"FETCH (bodystructure ((\"message\" \"rfc822\" NIL NIL NIL NIL 9 (\"d\" NIL NIL NIL NIL NIL NIL NIL NIL NIL) (\"A\" \"B\" NIL NIL NIL \"base64\" 1) 2) \"M\"))\r\n",
        start: 6,
        spans: "[Span { start: 7, end: 142 }] up to 143",
        values: r#"[BodyStructure(Multipart { common: BodyContentCommon { ty: ContentType { ty: "MULTIPART", subtype: "M", params: None }, disposition: None, language: None, location: None }, bodies: [Message { common: BodyContentCommon { ty: ContentType { ty: "MESSAGE", subtype: "RFC822", params: None }, disposition: None, language: None, location: None }, other: BodyContentSinglePart { id: None, md5: None, description: None, transfer_encoding: SevenBit, octets: 9 }, envelope: Envelope { date: Some([100]), subject: None, from: None, sender: None, reply_to: None, to: None, cc: None, bcc: None, in_reply_to: None, message_id: None }, body: Basic { common: BodyContentCommon { ty: ContentType { ty: "A", subtype: "B", params: None }, disposition: None, language: None, location: None }, other: BodyContentSinglePart { id: None, md5: None, description: None, transfer_encoding: Base64, octets: 1 }, extension: None }, lines: 2, extension: None }], extension: None })]"#,
        other: &[b'y'; 145],
        others: r#"[BodyStructure(Multipart { common: BodyContentCommon { ty: ContentType { ty: "MULTIPART", subtype: "y", params: None }, disposition: None, language: None, location: None }, bodies: [Message { common: BodyContentCommon { ty: ContentType { ty: "MESSAGE", subtype: "RFC822", params: None }, disposition: None, language: None, location: None }, other: BodyContentSinglePart { id: None, md5: None, description: None, transfer_encoding: SevenBit, octets: 9 }, envelope: Envelope { date: Some([121]), subject: None, from: None, sender: None, reply_to: None, to: None, cc: None, bcc: None, in_reply_to: None, message_id: None }, body: Basic { common: BodyContentCommon { ty: ContentType { ty: "y", subtype: "y", params: None }, disposition: None, language: None, location: None }, other: BodyContentSinglePart { id: None, md5: None, description: None, transfer_encoding: Base64, octets: 1 }, extension: None }, lines: 2, extension: None }], extension: None })]"#,
    },
    Places {
        message: b"(BODYSTRUCTURE (\"TEXT\" \"TEXT\" (\"a\" \"a\") NIL NIL \"7BIT\" 1 2))",
        start: 0,
        spans: "[Span { start: 1, end: 59 }] up to 60",
        values: r#"[BodyStructure(Text { common: BodyContentCommon { ty: ContentType { ty: "TEXT", subtype: "TEXT", params: Some([("a", "a")]) }, disposition: None, language: None, location: None }, other: BodyContentSinglePart { id: None, md5: None, description: None, transfer_encoding: SevenBit, octets: 1 }, lines: 2, extension: None })]"#,
        other: b"(BODYSTRUCTURE (\"TEXT\" \"HTML\" (\"a\" \"b\") NIL NIL \"7BIT\" 1 2))",
        others: r#"[BodyStructure(Text { common: BodyContentCommon { ty: ContentType { ty: "TEXT", subtype: "HTML", params: Some([("a", "b")]) }, disposition: None, language: None, location: None }, other: BodyContentSinglePart { id: None, md5: None, description: None, transfer_encoding: SevenBit, octets: 1 }, lines: 2, extension: None })]"#,
    },
];

// Where the attributes stand, and where their list ends.
fn spans_up_to(
    alloc: Global,
    attributes: &[SpannedAttribute],
    reached: usize,
) -> Reached<Vec<Span>> {
    let mut spans = Vec::new(alloc);
    for attribute in attributes {
        spans.push(attribute.span())?;
    }
    Ok((reached, spans))
}

// What the attributes name in a message.
fn told_values(
    alloc: Global,
    attributes: &[SpannedAttribute],
    m: &[u8],
) -> Result<Vec<Told>, AllocError> {
    let mut values = Vec::new(alloc);
    for attribute in attributes {
        tell_one(alloc, attribute.value(alloc, m), &mut values)?;
    }
    Ok(values)
}

// Asserts where the attributes stand, and what they say of their message and of the other one.
fn assert_placed(
    rt: &impl Abort,
    alloc: Global,
    want: &Places,
    reached: usize,
    attributes: &[SpannedAttribute],
) {
    let places = spans_up_to(alloc, attributes, reached);
    assert_row(rt, says_at(alloc, places, want.spans), want.spans);
    let values = told_values(alloc, attributes, want.message);
    assert_row(rt, shows(alloc, values, want.values), want.values);
    let others = told_values(alloc, attributes, want.other);
    assert_row(rt, shows(alloc, others, want.others), want.others);
}

fn assert_place(rt: &impl Abort, alloc: Global, want: &Places) {
    assert!(rt; want.start <= want.message.len());
    match attribute_list_at(alloc, want.message, want.start) {
        Ok((reached, attributes)) => {
            assert_placed(rt, alloc, want, reached, &attributes);
            drop(attributes);
        }
        Err(_) => assert_row(rt, false, want.spans),
    }
}

#[test]
fn positions(rt: HostRuntime) {
    for want in PLACES {
        assert_place(&rt, rt.alloc(), want);
    }
}

#[test]
fn positions_of_bodies(rt: HostRuntime) {
    for want in PLACES_OF_BODIES {
        assert_place(&rt, rt.alloc(), want);
    }
}
