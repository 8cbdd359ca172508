//! Whole lines, and parts of body structures made by hand, with all texts owned.

use crate::answers::{
    Rows, assert_row, says, shows, tells, value_of, with_mark_if_any, with_value,
};
use crate::{codes, extensions, fetches, mailboxes, statuses};
use imap_body::readers::attribute;
use imap_body::{
    AttributeValue, BodyContentCommon, BodyContentSinglePart, BodyExt1Part, BodyExtMPart,
    BodyExtension, ContentDisposition, ContentEncoding, ContentType,
};
use imap_proto::Response;
use imap_proto::imap_core::{Err, IResult};
use std::alloc::{AllocError, Global};
use std::borrow::CowStr;
use std::fmt::Debug;
use std::process::Abort;
use std::test::*;

/// What may have texts that are lent.
pub trait Lending {
    /// The same with all texts owned.
    type Owned: Debug + Drop;

    /// Makes all texts owned.
    fn made_owned(self, alloc: Global) -> Result<Self::Owned, AllocError>;
}

/// A reader's answer, with all texts of the value owned.
pub fn owned<T: Lending>(alloc: Global, answer: IResult<&[u8], T>) -> IResult<&[u8], T::Owned> {
    let (rest, value) = answer?;
    with_value(rest, value.made_owned(alloc))
}

/// Whether a reader's answer is told so, with all texts of the value owned.
pub fn says_owned<T: Lending>(alloc: Global, answer: IResult<&[u8], T>, want: &str) -> bool {
    says(alloc, owned(alloc, answer), want)
}

impl Lending for Response<'_> {
    type Owned = Response<'static>;

    fn made_owned(self, alloc: Global) -> Result<Response<'static>, AllocError> {
        self.into_owned(alloc)
    }
}

const NAME: CowStr<'static> = CowStr::Borrowed("a");

const DISPOSITION: ContentDisposition<'static> = ContentDisposition {
    ty: CowStr::Borrowed("d"),
    params: None,
};

const TYPE: ContentType<'static> = ContentType {
    ty: CowStr::Borrowed("t"),
    subtype: CowStr::Borrowed("s"),
    params: None,
};

#[test]
fn parts_of_bodies(rt: HostRuntime) {
    let alloc = rt.alloc();
    let encoding = ContentEncoding::Other(NAME);
    let want = r#"Other("a")"#;
    assert_row(&rt, shows(alloc, encoding.into_owned(alloc), want), want);
    let want = r#"ContentDisposition { ty: "d", params: None }"#;
    assert_row(&rt, shows(alloc, DISPOSITION.into_owned(alloc), want), want);
    let want = r#"ContentType { ty: "t", subtype: "s", params: None }"#;
    assert_row(&rt, shows(alloc, TYPE.into_owned(alloc), want), want);
}

#[test]
fn common_content(rt: HostRuntime) {
    let alloc = rt.alloc();
    let common = BodyContentCommon {
        ty: TYPE,
        disposition: Some(DISPOSITION),
        language: None,
        location: Some(NAME),
    };
    let want =
        r#"BodyContentCommon { ty: ContentType { ty: "t", subtype: "s", params: None }, disposition: Some(ContentDisposition { ty: "d", params: None }), language: None, location: Some("a") }"#;
    assert_row(&rt, shows(alloc, common.into_owned(alloc), want), want);
}

#[test]
fn content_of_a_part(rt: HostRuntime) {
    let alloc = rt.alloc();
    let other = BodyContentSinglePart {
        id: Some(NAME),
        md5: None,
        description: Some(CowStr::Borrowed("e")),
        transfer_encoding: ContentEncoding::Binary,
        octets: 7,
    };
    let want =
        r#"BodyContentSinglePart { id: Some("a"), md5: None, description: Some("e"), transfer_encoding: Binary, octets: 7 }"#;
    assert_row(&rt, shows(alloc, other.into_owned(alloc), want), want);
}

// Extension data has no debug text of its own: it is told field by field, texts with their mark where they stand alone.
fn tells_single(alloc: Global, data: &BodyExt1Part<'_>, want: &str) -> bool {
    let (md5, location) = (
        with_mark_if_any(&data.md5),
        with_mark_if_any(&data.location),
    );
    let fields = (
        md5,
        &data.disposition,
        &data.language,
        location,
        &data.extension,
    );
    tells(alloc, fields, want)
}

#[test]
fn extension_data(rt: HostRuntime) -> Result<(), Fail> {
    let alloc = rt.alloc();
    let language = Vec::from_array(alloc, [CowStr::Borrowed("en")])?;
    let single = BodyExt1Part {
        md5: Some(NAME),
        disposition: Some(DISPOSITION),
        language: Some(language),
        location: Some(CowStr::Borrowed("l")),
        extension: Some(BodyExtension::Str(Some(NAME))),
    };
    let want =
        r#"(Some(Owned("a")), Some(ContentDisposition { ty: "d", params: None }), Some(["en"]), Some(Owned("l")), Some(Str(Some("a"))))"#;
    let data = single.into_owned(alloc)?;
    assert_row(&rt, tells_single(alloc, &data, want), want);
    drop(data);
    Ok(())
}

// The same of a multipart.
fn tells_multipart(alloc: Global, data: &BodyExtMPart<'_>, want: &str) -> bool {
    let location = with_mark_if_any(&data.location);
    let fields = (
        &data.param,
        &data.disposition,
        &data.language,
        location,
        &data.extension,
    );
    tells(alloc, fields, want)
}

#[test]
fn extension_data_of_a_multipart(rt: HostRuntime) -> Result<(), Fail> {
    let alloc = rt.alloc();
    let param = Vec::from_array(alloc, [(NAME, CowStr::Borrowed("b"))])?;
    let multipart = BodyExtMPart {
        param: Some(param),
        disposition: Some(DISPOSITION),
        language: None,
        location: Some(CowStr::Borrowed("l")),
        extension: Some(BodyExtension::Num(7)),
    };
    let want =
        r#"(Some([("a", "b")]), Some(ContentDisposition { ty: "d", params: None }), None, Some(Owned("l")), Some(Num(7)))"#;
    let data = multipart.into_owned(alloc)?;
    assert_row(&rt, tells_multipart(alloc, &data, want), want);
    drop(data);
    Ok(())
}

/// The attribute at the front of a copy of these bytes, made owned: the copy is gone when it is answered.
pub fn attribute_alone(alloc: Global, i: &[u8]) -> Result<AttributeValue<'static>, Err> {
    let copy = Vec::from_slice(alloc, i)?;
    let value = value_of(attribute(alloc, &copy))?;
    Ok(AttributeValue::into_owned(value, alloc)?)
}

fn is_attribute(alloc: Global, i: &[u8], want: &str) -> bool {
    shows(alloc, attribute_alone(alloc, i), want)
}

static ATTRIBUTES: Rows = &[
    (b"FLAGS (\\Seen a))", r#"Flags(["\\Seen", "a"])"#),
    (
        b"BODYSTRUCTURE (\"TEXT\" \"PLAIN\" (\"a\" \"b\") NIL NIL \"7BIT\" 5 1))",
        r#"BodyStructure(Text { common: BodyContentCommon { ty: ContentType { ty: "TEXT", subtype: "PLAIN", params: Some([("a", "b")]) }, disposition: None, language: None, location: None }, other: BodyContentSinglePart { id: None, md5: None, description: None, transfer_encoding: SevenBit, octets: 5 }, lines: 1, extension: None })"#,
    ),
    (
        b"BODY[1.2.MIME]<0> {2}\r\nab)",
        "BodySection { section: Some(Part([1, 2], Some(Mime))), index: Some(0), contents: Some([97, 98]) }",
    ),
];

#[test]
fn attributes(rt: HostRuntime) {
    let alloc = rt.alloc();
    for (i, want) in ATTRIBUTES {
        assert_row(&rt, is_attribute(alloc, i, want), want);
    }
}

/// Whether the answer of `Response::parse` to a line is told so, its response made owned.
pub fn parses_owned(alloc: Global, line: &[u8], want: &str) -> bool {
    says_owned(alloc, Response::parse(alloc, line), want)
}

/// The response at the front of a copy of these bytes, made owned: the copy is gone when it is answered.
pub fn response_alone(alloc: Global, line: &[u8]) -> Result<Response<'static>, Err> {
    let copy = Vec::from_slice(alloc, line)?;
    value_of(owned(alloc, Response::parse(alloc, &copy)))
}

// Whether two values are equal, or neither is there. Over any type, since a response that is dropped in place is proved
// to be dropped part by part.
fn are_equal<T: PartialEq + Drop>(one: Result<T, Err>, other: Result<T, Err>) -> bool {
    match (one, other) {
        (Ok(one), Ok(other)) => one == other,
        (Err(_), Err(_)) => true,
        _ => false,
    }
}

// Whether a line's response equals what a second reading gives, made owned, if there is a response.
fn equals_owned(alloc: Global, line: &'static [u8]) -> bool {
    are_equal(
        response_alone(alloc, line),
        value_of(Response::parse(alloc, line)),
    )
}

// Asserts of each line of the table that its response made owned is told as its row says, and equals the borrowed one.
fn assert_rows(rt: &impl Abort, alloc: Global, rows: Rows) {
    for (line, want) in rows {
        assert_row(rt, parses_owned(alloc, line, want), want);
        assert_row(rt, equals_owned(alloc, *line), want);
    }
}

// The same of each line of the tables.
fn assert_owned(rt: &impl Abort, alloc: Global, tables: &[Rows]) {
    for rows in tables {
        assert_rows(rt, alloc, *rows);
    }
}

// The tables of whole lines have each variant of each enum.
#[test]
fn whole_lines(rt: HostRuntime) {
    assert_owned(&rt, rt.alloc(), &statuses::lines());
    assert_owned(&rt, rt.alloc(), &codes::lines());
    assert_owned(&rt, rt.alloc(), &mailboxes::lines());
    assert_owned(&rt, rt.alloc(), &extensions::lines());
    assert_owned(&rt, rt.alloc(), &fetches::lines());
}

static READ: Rows = &[
    (
        b"* CAPABILITY IMAP4rev1 AUTH=PLAIN IDLE\r\n",
        r#"Capabilities([Imap4rev1, Auth("PLAIN"), Atom("IDLE")])"#,
    ),
    (
        b"a1 OK [PERMANENTFLAGS (\\Seen \\*)] done \xff\r\n",
        "Done { tag: RequestId(\"a1\"), status: Ok, outcome: Outcome { code: Some(PermanentFlags([\"\\\\Seen\", \"\\\\*\"])), information: Some(\"done \u{fffd}\") } }",
    ),
    (b"* 2 FETCH (UID 7)\r\n", "Fetch(2, [Uid(7)])"),
    (b"* ID (\"a\" \"1\")\r\n", r#"Id(Some({"a": "1"}))"#),
    (b"* ID (\"name\" \"d\")\r\n", r#"Id(Some({"name": "d"}))"#),
    (
        b"* QUOTAROOT b a c\r\n",
        r#"QuotaRoot(QuotaRoot { mailbox_name: "b", quota_root_names: ["a", "c"] })"#,
    ),
];

fn is_told_alone(alloc: Global, line: &[u8], want: &str) -> bool {
    shows(alloc, response_alone(alloc, line), want)
}

#[test]
fn bytes_that_are_gone(rt: HostRuntime) {
    let alloc = rt.alloc();
    for (line, want) in READ {
        assert_row(&rt, is_told_alone(alloc, line, want), want);
    }
}
