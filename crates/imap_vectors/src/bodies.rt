//! Body structures, their fields and extension data, as they are read and with all texts owned.

use crate::answers::{Rows, assert_row, says, with_value};
use crate::owned::{Lending, says_owned};
use imap_body::readers::{body_extension, body_fields, body_structure};
use imap_proto::imap_core::IResult;
use imap_proto::rfc3501::body_structure::{
    BodyExtension, BodyFields, BodyParams, BodyStructure, ContentEncoding,
};
use std::alloc::{AllocError, Global};
use std::borrow::CowStr;
use std::process::Abort;
use std::test::*;

/// The fields of a body, in order.
type Told<'a> = (
    BodyParams<'a>,
    Option<CowStr<'a>>,
    Option<CowStr<'a>>,
    ContentEncoding<'a>,
    u32,
);

fn in_order(fields: BodyFields<'_>) -> Told<'_> {
    (
        fields.param,
        fields.id,
        fields.description,
        fields.transfer_encoding,
        fields.octets,
    )
}

fn fields(alloc: Global, i: &[u8]) -> IResult<&[u8], Told<'_>> {
    let (i, value) = body_fields(alloc, i)?;
    Ok((i, in_order(value)))
}

impl Lending for BodyFields<'_> {
    type Owned = Told<'static>;

    fn made_owned(self, alloc: Global) -> Result<Told<'static>, AllocError> {
        Ok(in_order(self.into_owned(alloc)?))
    }
}

impl Lending for BodyExtension<'_> {
    type Owned = BodyExtension<'static>;

    fn made_owned(self, alloc: Global) -> Result<BodyExtension<'static>, AllocError> {
        self.into_owned(alloc)
    }
}

static FIELDS: Rows = &[
    (
        b"NIL NIL NIL {4}\r\n7BIT 5)",
        r#"(None, None, None, Other("7BIT"), 5) then ")""#,
    ),
    (
        b"(\"a\" \"b\" \"c\" {1}\r\n\xff) \"i\" \"d\" NIL 0 ",
        r#"(Some([("a", "b"), ("c", "�")]), Some("i"), Some("d"), SevenBit, 0) then " ""#,
    ),
    (
        b"NIL NIL NIL \"7bit\" 1)",
        r#"(None, None, None, SevenBit, 1) then ")""#,
    ),
    (
        b"NIL NIL NIL \"8BIT\" 2)",
        r#"(None, None, None, EightBit, 2) then ")""#,
    ),
    (
        b"(\"a\" \"b\" \t) NIL NIL \"8bit\" 2)",
        r#"(Some([("a", "b")]), None, None, EightBit, 2) then ")""#,
    ),
    (
        b"NIL NIL NIL \"binary\" 3)",
        r#"(None, None, None, Binary, 3) then ")""#,
    ),
    (
        b"NIL NIL NIL \"BINARY\" 3)",
        r#"(None, None, None, Binary, 3) then ")""#,
    ),
    (
        b"NIL NIL NIL \"base64\" 4)",
        r#"(None, None, None, Base64, 4) then ")""#,
    ),
    (
        b"NIL NIL NIL \"Quoted-Printable\" 4294967295)",
        r#"(None, None, None, QuotedPrintable, 4294967295) then ")""#,
    ),
    (
        b"NIL NIL NIL \"7BITS\" 6)",
        r#"(None, None, None, Other("7BITS"), 6) then ")""#,
    ),
    (b"NIL NIL NIL \"7BIT\" 4294967296)", "Error"),
    (b"() NIL NIL \"7BIT\" 1)", "Error"),
    (b"(\"a\") NIL NIL \"7BIT\" 1)", "Error"),
    (b"NIL NIL \"7BIT\" 1)", "Error"),
    (b"NIL NIL NIL \"7BIT\" 1", "Incomplete(Unknown)"),
    (b"NIL NIL NIL {4}\r\n7", "Incomplete(Size(3))"),
];

static EXTENSIONS: Rows = &[
    (b"7)", r#"Num(7) then ")""#),
    (b"\"a\"", r#"Str(Some("a"))"#),
    (b"nil)", r#"Str(None) then ")""#),
    (
        b"(1 {1}\r\n\xff (NIL) 2 \t)x",
        r#"List([Num(1), Str(Some("�")), List([Str(None)]), Num(2)]) then "x""#,
    ),
    (b"()", "Error"),
    (b"(1  2)", "Error"),
    (b"4294967296)", "Error"),
    (b"(1", "Incomplete(Unknown)"),
];

static SINGLE_PARTS: Rows = &[
    (
        b"(\"A\" \"B\" NIL NIL NIL NIL 1)",
        r#"Basic { common: BodyContentCommon { ty: ContentType { ty: "A", subtype: "B", params: None }, disposition: None, language: None, location: None }, other: BodyContentSinglePart { id: None, md5: None, description: None, transfer_encoding: SevenBit, octets: 1 }, extension: None }"#,
    ),
    (
        b"(\"text\" \"plain\" NIL NIL NIL \"7bit\" 5)",
        r#"Basic { common: BodyContentCommon { ty: ContentType { ty: "text", subtype: "plain", params: None }, disposition: None, language: None, location: None }, other: BodyContentSinglePart { id: None, md5: None, description: None, transfer_encoding: SevenBit, octets: 5 }, extension: None }"#,
    ),
    (
        b"(\"text\" \"plain\" NIL NIL NIL \"7bit\" 5 1 (\"inline\" NIL))",
        r#"Text { common: BodyContentCommon { ty: ContentType { ty: "TEXT", subtype: "plain", params: None }, disposition: Some(ContentDisposition { ty: "inline", params: None }), language: None, location: None }, other: BodyContentSinglePart { id: None, md5: None, description: None, transfer_encoding: SevenBit, octets: 5 }, lines: 1, extension: None }"#,
    ),
    (
        b"({4}\r\nTEXT \"PLAIN\" NIL NIL NIL {4}\r\n7BIT 5)x",
        r#"Basic { common: BodyContentCommon { ty: ContentType { ty: "TEXT", subtype: "PLAIN", params: None }, disposition: None, language: None, location: None }, other: BodyContentSinglePart { id: None, md5: None, description: None, transfer_encoding: Other("7BIT"), octets: 5 }, extension: None } then "x""#,
    ),
    (
        b"(\"A\" \"B\" (\"p\" \"q\") \"i\" \"d\" \"8BIT\" 1 \"m\" (\"attachment\" (\"f\" \"g\")) (\"en\" \"de\") \"l\" (1 (NIL)))",
        r#"Basic { common: BodyContentCommon { ty: ContentType { ty: "A", subtype: "B", params: Some([("p", "q")]) }, disposition: Some(ContentDisposition { ty: "attachment", params: Some([("f", "g")]) }), language: Some(["en", "de"]), location: Some("l") }, other: BodyContentSinglePart { id: Some("i"), md5: Some("m"), description: Some("d"), transfer_encoding: EightBit, octets: 1 }, extension: Some(List([Num(1), List([Str(None)])])) }"#,
    ),
    (
        b"(\"TEXT\" \"x\" NIL NIL NIL \"BINARY\" 5 7 NIL NIL \"en\" NIL \"e\")",
        r#"Text { common: BodyContentCommon { ty: ContentType { ty: "TEXT", subtype: "x", params: None }, disposition: None, language: Some(["en"]), location: None }, other: BodyContentSinglePart { id: None, md5: None, description: None, transfer_encoding: Binary, octets: 5 }, lines: 7, extension: Some(Str(Some("e"))) }"#,
    ),
    (
        b"(\"A\" \"B\" NIL NIL NIL NIL 1 7)",
        r#"Basic { common: BodyContentCommon { ty: ContentType { ty: "A", subtype: "B", params: None }, disposition: None, language: None, location: None }, other: BodyContentSinglePart { id: None, md5: None, description: None, transfer_encoding: SevenBit, octets: 1 }, extension: Some(Num(7)) }"#,
    ),
    (
        b"(\"A\" \"B\" NIL NIL NIL NIL 1 (\"d\" NIL) (\"en\") 7)",
        r#"Basic { common: BodyContentCommon { ty: ContentType { ty: "A", subtype: "B", params: None }, disposition: Some(ContentDisposition { ty: "d", params: None }), language: Some(["en"]), location: None }, other: BodyContentSinglePart { id: None, md5: None, description: None, transfer_encoding: SevenBit, octets: 1 }, extension: Some(Num(7)) }"#,
    ),
    (
        b"(\"message\" \"rfc822\" NIL NIL NIL \"7BIT\" 9)",
        r#"Basic { common: BodyContentCommon { ty: ContentType { ty: "message", subtype: "rfc822", params: None }, disposition: None, language: None, location: None }, other: BodyContentSinglePart { id: None, md5: None, description: None, transfer_encoding: SevenBit, octets: 9 }, extension: None }"#,
    ),
];

static DECODED_PARTS: Rows = &[
    (
        b"(\"\xff\" {1}\r\n\xff (\"\xff\" \"\xff\") {1}\r\n\xff {1}\r\n\xff \"\xff\" 0010 {1}\r\n\xff (\"\xff\" NIL) {1}\r\n\xff {1}\r\n\xff ({1}\r\n\xff 0))",
        r#"Basic { common: BodyContentCommon { ty: ContentType { ty: "�", subtype: "�", params: Some([("�", "�")]) }, disposition: Some(ContentDisposition { ty: "�", params: None }), language: Some(["�"]), location: Some("�") }, other: BodyContentSinglePart { id: Some("�"), md5: Some("�"), description: Some("�"), transfer_encoding: Other("�"), octets: 10 }, extension: Some(List([Str(Some("�")), Num(0)])) }"#,
    ),
    (
        b"({1}\r\na \"b\" (\"z\" \"1\" \"a\" \"2\" \"a\" \"2\") \"\xff\" \"\xff\" {1}\r\n\xff 4294967295 \"\xff\" ({1}\r\na ({1}\r\nb {1}\r\nc)) (\"\xff\" {2}\r\nen \"en\") \"\xff\" 004294967295)",
        r#"Basic { common: BodyContentCommon { ty: ContentType { ty: "a", subtype: "b", params: Some([("z", "1"), ("a", "2"), ("a", "2")]) }, disposition: Some(ContentDisposition { ty: "a", params: Some([("b", "c")]) }), language: Some(["�", "en", "en"]), location: Some("�") }, other: BodyContentSinglePart { id: Some("�"), md5: Some("�"), description: Some("�"), transfer_encoding: Other("�"), octets: 4294967295 }, extension: Some(Num(4294967295)) }"#,
    ),
    (
        b"(\"Text\" {1}\r\n\xff NIL NIL NIL NIL 0 004294967295)",
        r#"Text { common: BodyContentCommon { ty: ContentType { ty: "TEXT", subtype: "�", params: None }, disposition: None, language: None, location: None }, other: BodyContentSinglePart { id: None, md5: None, description: None, transfer_encoding: SevenBit, octets: 0 }, lines: 4294967295, extension: None }"#,
    ),
];

static NO_PARTS: Rows = &[
    (b"()", "Error"),
    (b"\"A\"", "Error"),
    (b"(\"A\" \"B\" NIL NIL NIL NIL x)", "Error"),
    (b"(\"A\" \"B\" NIL NIL NIL NIL 1 )", "Error"),
    (b"(", "Incomplete(Unknown)"),
    (b"(\"A\" \"B\" NIL NIL NIL NIL 1", "Incomplete(Unknown)"),
    (b"(\"A\" \"B\" NIL {2}\r\n", "Incomplete(Size(2))"),
];

static MESSAGES: Rows = &[
    (
        b"(\"Message\" \"rfc822\" NIL NIL NIL \"7BIT\" 9 (\"d\" NIL NIL NIL NIL NIL NIL NIL NIL NIL) (\"A\" \"B\" NIL NIL NIL NIL 1) 2 \"m\" NIL NIL NIL 3)",
        r#"Message { common: BodyContentCommon { ty: ContentType { ty: "MESSAGE", subtype: "RFC822", params: None }, disposition: None, language: None, location: None }, other: BodyContentSinglePart { id: None, md5: Some("m"), description: None, transfer_encoding: SevenBit, octets: 9 }, envelope: Envelope { date: Some([100]), subject: None, from: None, sender: None, reply_to: None, to: None, cc: None, bcc: None, in_reply_to: None, message_id: None }, body: Basic { common: BodyContentCommon { ty: ContentType { ty: "A", subtype: "B", params: None }, disposition: None, language: None, location: None }, other: BodyContentSinglePart { id: None, md5: None, description: None, transfer_encoding: SevenBit, octets: 1 }, extension: None }, lines: 2, extension: Some(Num(3)) }"#,
    ),
    (
        b"(\"MESSAGE\" \"RFC822\" (\"p\" \"q\" ) \"i\" \"d\" \"8bit\" 9 (NIL NIL NIL NIL NIL NIL NIL NIL NIL NIL) (\"A\" \"B\" NIL NIL NIL NIL 1) 2 \"m\" (\"attachment\" (\"f\" \"g\")) (\"en\" \t) \"l\")",
        r#"Message { common: BodyContentCommon { ty: ContentType { ty: "MESSAGE", subtype: "RFC822", params: Some([("p", "q")]) }, disposition: Some(ContentDisposition { ty: "attachment", params: Some([("f", "g")]) }), language: Some(["en"]), location: Some("l") }, other: BodyContentSinglePart { id: Some("i"), md5: Some("m"), description: Some("d"), transfer_encoding: EightBit, octets: 9 }, envelope: Envelope { date: None, subject: None, from: None, sender: None, reply_to: None, to: None, cc: None, bcc: None, in_reply_to: None, message_id: None }, body: Basic { common: BodyContentCommon { ty: ContentType { ty: "A", subtype: "B", params: None }, disposition: None, language: None, location: None }, other: BodyContentSinglePart { id: None, md5: None, description: None, transfer_encoding: SevenBit, octets: 1 }, extension: None }, lines: 2, extension: None }"#,
    ),
    (
        b"(\"MESSAGE\" \"RFC822\" NIL NIL NIL NIL 9 (NIL NIL NIL NIL NIL NIL NIL NIL NIL NIL) (\"A\" \"B\" NIL NIL NIL NIL 1) 004294967295)",
        r#"Message { common: BodyContentCommon { ty: ContentType { ty: "MESSAGE", subtype: "RFC822", params: None }, disposition: None, language: None, location: None }, other: BodyContentSinglePart { id: None, md5: None, description: None, transfer_encoding: SevenBit, octets: 9 }, envelope: Envelope { date: None, subject: None, from: None, sender: None, reply_to: None, to: None, cc: None, bcc: None, in_reply_to: None, message_id: None }, body: Basic { common: BodyContentCommon { ty: ContentType { ty: "A", subtype: "B", params: None }, disposition: None, language: None, location: None }, other: BodyContentSinglePart { id: None, md5: None, description: None, transfer_encoding: SevenBit, octets: 1 }, extension: None }, lines: 4294967295, extension: None }"#,
    ),
];

static MULTIPARTS: Rows = &[
    (
        b"((\"TEXT\" \"PLAIN\" NIL NIL NIL \"7BIT\" 5 1)(\"IMAGE\" \"PNG\" NIL NIL NIL \"BASE64\" 9) \"MIXED\")",
        r#"Multipart { common: BodyContentCommon { ty: ContentType { ty: "MULTIPART", subtype: "MIXED", params: None }, disposition: None, language: None, location: None }, bodies: [Text { common: BodyContentCommon { ty: ContentType { ty: "TEXT", subtype: "PLAIN", params: None }, disposition: None, language: None, location: None }, other: BodyContentSinglePart { id: None, md5: None, description: None, transfer_encoding: SevenBit, octets: 5 }, lines: 1, extension: None }, Basic { common: BodyContentCommon { ty: ContentType { ty: "IMAGE", subtype: "PNG", params: None }, disposition: None, language: None, location: None }, other: BodyContentSinglePart { id: None, md5: None, description: None, transfer_encoding: Base64, octets: 9 }, extension: None }], extension: None }"#,
    ),
    (
        b"((\"A\" \"B\" NIL NIL NIL NIL 1) \"M\" (\"b\" \"c\") (\"d\" NIL) (\"en\") \"l\" (1))x",
        r#"Multipart { common: BodyContentCommon { ty: ContentType { ty: "MULTIPART", subtype: "M", params: Some([("b", "c")]) }, disposition: Some(ContentDisposition { ty: "d", params: None }), language: Some(["en"]), location: Some("l") }, bodies: [Basic { common: BodyContentCommon { ty: ContentType { ty: "A", subtype: "B", params: None }, disposition: None, language: None, location: None }, other: BodyContentSinglePart { id: None, md5: None, description: None, transfer_encoding: SevenBit, octets: 1 }, extension: None }], extension: Some(List([Num(1)])) } then "x""#,
    ),
    (
        b"((\"A\" \"B\" NIL NIL NIL NIL 1) \"M\" (\"d\" NIL) \"en\" 7)",
        r#"Multipart { common: BodyContentCommon { ty: ContentType { ty: "MULTIPART", subtype: "M", params: None }, disposition: Some(ContentDisposition { ty: "d", params: None }), language: Some(["en"]), location: None }, bodies: [Basic { common: BodyContentCommon { ty: ContentType { ty: "A", subtype: "B", params: None }, disposition: None, language: None, location: None }, other: BodyContentSinglePart { id: None, md5: None, description: None, transfer_encoding: SevenBit, octets: 1 }, extension: None }], extension: Some(Num(7)) }"#,
    ),
    (
        b"((\"A\" \"B\" NIL NIL NIL NIL 1) {1}\r\n\xff)",
        r#"Multipart { common: BodyContentCommon { ty: ContentType { ty: "MULTIPART", subtype: "�", params: None }, disposition: None, language: None, location: None }, bodies: [Basic { common: BodyContentCommon { ty: ContentType { ty: "A", subtype: "B", params: None }, disposition: None, language: None, location: None }, other: BodyContentSinglePart { id: None, md5: None, description: None, transfer_encoding: SevenBit, octets: 1 }, extension: None }], extension: None }"#,
    ),
    (b"((\"A\" \"B\" NIL NIL NIL NIL 1))", "Error"),
    (
        b"((\"A\" \"B\" NIL NIL NIL NIL 1) (\"A\" \"B\" NIL NIL NIL NIL 1) \"M\")",
        "Error",
    ),
    (
        b"((\"A\" \"B\" NIL NIL NIL NIL 1) \"M\"",
        "Incomplete(Unknown)",
    ),
];

// Whether fields are read so, and told so with all texts owned.
fn are_fields(alloc: Global, input: &[u8], want: &str) -> bool {
    says(alloc, fields(alloc, input), want) && says_owned(alloc, body_fields(alloc, input), want)
}

#[test]
fn fields_of_bodies(rt: HostRuntime) {
    let alloc = rt.alloc();
    for (input, want) in FIELDS {
        assert_row(&rt, are_fields(alloc, input, want), want);
    }
}

// The same of extension data.
fn is_extension(alloc: Global, input: &[u8], want: &str) -> bool {
    says(alloc, body_extension(alloc, input), want)
        && says_owned(alloc, body_extension(alloc, input), want)
}

#[test]
fn extensions_of_bodies(rt: HostRuntime) {
    let alloc = rt.alloc();
    for (input, want) in EXTENSIONS {
        assert_row(&rt, is_extension(alloc, input, want), want);
    }
}

// Matched, and not taken apart by `?`: each step between is proved over all kinds of bodies.
fn owned_body(alloc: Global, i: &[u8]) -> IResult<&[u8], BodyStructure<'static>> {
    match body_structure(alloc, i) {
        Ok((rest, body)) => with_value(rest, body.into_owned(alloc)),
        Err(error) => Err(error),
    }
}

// The same of a body.
fn is_body(alloc: Global, input: &[u8], want: &str) -> bool {
    says(alloc, body_structure(alloc, input), want) && says(alloc, owned_body(alloc, input), want)
}

fn assert_bodies(rt: &impl Abort, alloc: Global, rows: Rows) {
    for (input, want) in rows {
        assert_row(rt, is_body(alloc, input, want), want);
    }
}

#[test]
fn single_parts(rt: HostRuntime) {
    assert_bodies(&rt, rt.alloc(), SINGLE_PARTS);
    assert_bodies(&rt, rt.alloc(), NO_PARTS);
}

#[test]
fn decoded_parts(rt: HostRuntime) {
    assert_bodies(&rt, rt.alloc(), DECODED_PARTS);
}

#[test]
fn messages_and_multiparts(rt: HostRuntime) {
    assert_bodies(&rt, rt.alloc(), MESSAGES);
    assert_bodies(&rt, rt.alloc(), MULTIPARTS);
}
