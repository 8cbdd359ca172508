//! Lines that tell of a message, and the readers of attributes by themselves.

use crate::answers::{Reads, Rows, assert_lines, assert_reads, says};
use imap_body::readers::{attribute, attribute_list};
use imap_proto::rfc3501::body::msg_att_body_section;
use std::alloc::Global;
use std::test::*;

static FLAGS_AND_NUMBERS: Rows = &[
    (
        b"* 1 FETCH (UID abc FLAGS (\\Seen))\r\n",
        r#"Fetch(1, [Unknown, Flags(["\\Seen"])])"#,
    ),
    (
        b"* 2 FETCH (UID 7 FLAGS (\\Seen))\r\nzz",
        r#"Fetch(2, [Uid(7), Flags(["\\Seen"])]) then "zz""#,
    ),
    (
        b"* 3 FETCH (FLAGS (\\Answered \\* $Forwarded ) uid 4294967295 )\r\n",
        r#"Fetch(3, [Flags(["\\Answered", "\\*", "$Forwarded"]), Uid(4294967295)])"#,
    ),
    (
        b"* 4294967295 fetch (flags () UID 4294967296)\r\n",
        "Fetch(4294967295, [Flags([]), Unknown])",
    ),
    (
        b"* 1 FETCH (RFC822.SIZE 007 MODSEQ (18446744073709551615))\r\n",
        "Fetch(1, [Rfc822Size(7), ModSeq(18446744073709551615)])",
    ),
    (
        b"* 1 FETCH (MODSEQ (18446744073709551616) MODSEQ 5)\r\n",
        "Fetch(1, [Unknown, Unknown])",
    ),
    (
        b"* 1 FETCH (X-GM-LABELS (\"\\\\\" \\Important a) X-GM-MSGID 1278455344230334865 X-GM-THRID 3)\r\n",
        r#"Fetch(1, [GmailLabels(["\\\\", "\\Important", "a"]), GmailMsgId(1278455344230334865), GmailThrId(3)])"#,
    ),
    (
        b"* 1 FETCH (EMAILID (M1) THREADID (T6d) THREADID NIL EMAILID NIL)\r\n",
        r#"Fetch(1, [EmailId("M1"), ThreadId(Some("T6d")), ThreadId(None), Unknown])"#,
    ),
    (
        b"* 1 FETCH (X-GM-LABELS (\"\\\\\"))\r\n",
        r#"Fetch(1, [GmailLabels(["\\\\"])])"#,
    ),
    (b"* 1 FETCH (FLAGS (\xff))\r\n", "Fetch(1, [Unknown])"),
    (
        b"* 0070000 FETCH (UID 0070000 RFC822.SIZE 4294967295 MODSEQ (09007199254740993) X-GM-MSGID 018446744073709551615 X-GM-THRID 018446744073709551615)\r\n",
        "Fetch(70000, [Uid(70000), Rfc822Size(4294967295), ModSeq(9007199254740993), GmailMsgId(18446744073709551615), GmailThrId(18446744073709551615)])",
    ),
    (
        b"* 1 FETCH (EMAILID (M\xc3\xa9) EMAILID (\xff) THREADID (a]\xc3\xa9) THREADID (\xff) \xc3\xa9 1 FLAGS (\\\xc3\xa9+ $a+]\xc3\xa9 $b $b))\r\n",
        r#"Fetch(1, [EmailId("Mé"), Unknown, ThreadId(Some("a]é")), Unknown, Unknown, Flags(["\\é+", "$a+]é", "$b", "$b"])])"#,
    ),
];

static TEXTS_AND_BYTES: Rows = &[
    (
        b"* 1 FETCH (INTERNALDATE \"17-Jul-1996 02:44:25 -0700\")\r\n",
        r#"Fetch(1, [InternalDate("17-Jul-1996 02:44:25 -0700")])"#,
    ),
    (b"* 1 FETCH (INTERNALDATE NIL)\r\n", "Fetch(1, [Unknown])"),
    (
        b"* 1 FETCH (INTERNALDATE \"\xff\")\r\n",
        r#"Fetch(1, [InternalDate("�")])"#,
    ),
    (
        b"* 1 FETCH (RFC822.HEADER  \"h\" MODSEQ (5) EMAILID (M1) THREADID NIL)\r\n",
        r#"Fetch(1, [Rfc822Header(Some([104])), ModSeq(5), EmailId("M1"), ThreadId(None)])"#,
    ),
    (
        b"* 1 FETCH (RFC822 NIL RFC822.HEADER NIL RFC822.TEXT NIL BODY[] NIL THREADID NIL)\r\n",
        "Fetch(1, [Rfc822(None), Rfc822Header(None), Rfc822Text(None), BodySection { section: None, index: None, contents: None }, ThreadId(None)])",
    ),
    (
        b"* 1 FETCH (rfc822 {3}\r\na)\xff rfc822.text \"\\\\\")\r\n",
        "Fetch(1, [Rfc822(Some([97, 41, 255])), Rfc822Text(Some([92, 92]))])",
    ),
    (
        b"* 0 FETCH (envelope (NIL NIL NIL NIL NIL NIL NIL NIL NIL NIL) internaldate \"\" modseq (0) rfc822.header NIL rfc822.size 0 uid 0 emailid (a]+) threadid (T) body[header]<0> NIL)\r\n",
        r#"Fetch(0, [Envelope(Envelope { date: None, subject: None, from: None, sender: None, reply_to: None, to: None, cc: None, bcc: None, in_reply_to: None, message_id: None }), InternalDate(""), ModSeq(0), Rfc822Header(None), Rfc822Size(0), Uid(0), EmailId("a]+"), ThreadId(Some("T")), BodySection { section: Some(Full(Header)), index: Some(0), contents: None }])"#,
    ),
    (
        b"* 1 FETCH (RFC822X 1 RFC822.SIZES 2)\r\n",
        "Fetch(1, [Unknown, Unknown])",
    ),
    (
        b"* 1 FETCH (BODY[1.2.MIME]<0> {4}\r\nab\r\n)\r\n",
        "Fetch(1, [BodySection { section: Some(Part([1, 2], Some(Mime))), index: Some(0), contents: Some([97, 98, 13, 10]) }])",
    ),
    (
        b"* 2 FETCH (BODY[HEADER.FIELDS.NOT (\"DATE\")] {2}\r\nab UID 7)\r\n",
        "Fetch(2, [BodySection { section: Some(Full(Header)), index: None, contents: Some([97, 98]) }, Uid(7)])",
    ),
    (
        b"* 1 FETCH (RFC822 \"a\" RFC822.HEADER {1}\r\nb RFC822.TEXT {1}\r\nc INTERNALDATE {26}\r\n 7-Jul-1996 02:44:25 +0000 BODY[] \"e\")\r\n",
        r#"Fetch(1, [Rfc822(Some([97])), Rfc822Header(Some([98])), Rfc822Text(Some([99])), InternalDate(" 7-Jul-1996 02:44:25 +0000"), BodySection { section: None, index: None, contents: Some([101]) }])"#,
    ),
    (
        b"* 1 FETCH (BODY[4294967295.0070000.3.text]<4294967295> NIL body[1.mime]<007> NIL BODY[HEADER.FIELDS (a] \"b\" c )] NIL)\r\n",
        "Fetch(1, [BodySection { section: Some(Part([4294967295, 70000, 3], Some(Text))), index: Some(4294967295), contents: None }, BodySection { section: Some(Part([1], Some(Mime))), index: Some(7), contents: None }, BodySection { section: Some(Full(Header)), index: None, contents: None }])",
    ),
    (b"* 1 FETCH (BODY[3]<4294967296> NIL)\r\n", "Error"),
];

static SAVE_DATES: Rows = &[
    (
        b"* 1 FETCH (SAVEDATE \"x\")\r\n",
        r#"Fetch(1, [SaveDate(Some("x"))])"#,
    ),
    (
        b"* 1 FETCH (SAVEDATE NIL)\r\n",
        "Fetch(1, [SaveDate(None)])",
    ),
    (
        b"* 1 FETCH (SAVEDATE 5 savedate NIL)\r\n",
        "Fetch(1, [Unknown, SaveDate(None)])",
    ),
    (b"* 1 FETCH (SAVEDATE (x))\r\n", "Fetch(1, [Unknown])"),
    (
        b"* 1 FETCH (SAVEDATE \"\xff\")\r\n",
        r#"Fetch(1, [SaveDate(Some("�"))])"#,
    ),
    (
        b"* 1 FETCH (UID 7 SAVEDATE {26}\r\n 7-Jul-1996 02:44:25 +0000 SAVEDATES 1)\r\n",
        r#"Fetch(1, [Uid(7), SaveDate(Some(" 7-Jul-1996 02:44:25 +0000")), Unknown])"#,
    ),
    (b"* 1 FETCH (SAVEDATE {3}\r\nx", "Incomplete(Size(2))"),
];

static STRUCTURES: Rows = &[
    (
        b"* 1 FETCH (BODYSTRUCTURE (\"text\" \"plain\" NIL NIL NIL \"7bit\" 5))\r\n",
        r#"Fetch(1, [BodyStructure(Basic { common: BodyContentCommon { ty: ContentType { ty: "text", subtype: "plain", params: None }, disposition: None, language: None, location: None }, other: BodyContentSinglePart { id: None, md5: None, description: None, transfer_encoding: SevenBit, octets: 5 }, extension: None })])"#,
    ),
    (
        b"* 1 FETCH (BODYSTRUCTURE (\"text\" \"plain\" NIL NIL NIL \"7bit\" 5 1 NIL (\"inline\" NIL)))\r\n",
        r#"Fetch(1, [BodyStructure(Text { common: BodyContentCommon { ty: ContentType { ty: "TEXT", subtype: "plain", params: None }, disposition: Some(ContentDisposition { ty: "inline", params: None }), language: None, location: None }, other: BodyContentSinglePart { id: None, md5: None, description: None, transfer_encoding: SevenBit, octets: 5 }, lines: 1, extension: None })])"#,
    ),
    (
        b"* 1 FETCH (BODYSTRUCTURE (\"text\" \"plain\" NIL NIL NIL \"7bit\" 5 1 (\"inline\" NIL)))\r\n",
        r#"Fetch(1, [BodyStructure(Text { common: BodyContentCommon { ty: ContentType { ty: "TEXT", subtype: "plain", params: None }, disposition: Some(ContentDisposition { ty: "inline", params: None }), language: None, location: None }, other: BodyContentSinglePart { id: None, md5: None, description: None, transfer_encoding: SevenBit, octets: 5 }, lines: 1, extension: None })])"#,
    ),
    (
        b"* 1 FETCH (BODYSTRUCTURE ((\"TEXT\" \"PLAIN\" NIL NIL NIL \"7BIT\" 5 1)(\"IMAGE\" \"PNG\" NIL NIL NIL \"BASE64\" 9) \"MIXED\"))\r\n",
        r#"Fetch(1, [BodyStructure(Multipart { common: BodyContentCommon { ty: ContentType { ty: "MULTIPART", subtype: "MIXED", params: None }, disposition: None, language: None, location: None }, bodies: [Text { common: BodyContentCommon { ty: ContentType { ty: "TEXT", subtype: "PLAIN", params: None }, disposition: None, language: None, location: None }, other: BodyContentSinglePart { id: None, md5: None, description: None, transfer_encoding: SevenBit, octets: 5 }, lines: 1, extension: None }, Basic { common: BodyContentCommon { ty: ContentType { ty: "IMAGE", subtype: "PNG", params: None }, disposition: None, language: None, location: None }, other: BodyContentSinglePart { id: None, md5: None, description: None, transfer_encoding: Base64, octets: 9 }, extension: None }], extension: None })])"#,
    ),
    (
        b"* 1 FETCH (BODYSTRUCTURE ({4}\r\nTEXT \"PLAIN\" NIL NIL NIL {4}\r\n7BIT 5))\r\n",
        r#"Fetch(1, [BodyStructure(Basic { common: BodyContentCommon { ty: ContentType { ty: "TEXT", subtype: "PLAIN", params: None }, disposition: None, language: None, location: None }, other: BodyContentSinglePart { id: None, md5: None, description: None, transfer_encoding: Other("7BIT"), octets: 5 }, extension: None })])"#,
    ),
    (
        b"* 12 FETCH (ENVELOPE (\"d\" \"s\" ((\"T\" NIL \"gray\" \"cac\")) NIL NIL NIL NIL NIL NIL \"<i>\"))\r\n",
        "Fetch(12, [Envelope(Envelope { date: Some([100]), subject: Some([115]), from: Some([Address { name: Some([84]), adl: None, mailbox: Some([103, 114, 97, 121]), host: Some([99, 97, 99]) }]), sender: None, reply_to: None, to: None, cc: None, bcc: None, in_reply_to: None, message_id: Some([60, 105, 62]) })])",
    ),
    (
        b"* 1 FETCH (bodystructure (\"A\" \"B\" NIL NIL NIL NIL 1))\r\n",
        r#"Fetch(1, [BodyStructure(Basic { common: BodyContentCommon { ty: ContentType { ty: "A", subtype: "B", params: None }, disposition: None, language: None, location: None }, other: BodyContentSinglePart { id: None, md5: None, description: None, transfer_encoding: SevenBit, octets: 1 }, extension: None })])"#,
    ),
    (
        b"* 1 FETCH (BODY (\"TEXT\" \"PLAIN\" NIL NIL NIL \"7BIT\" 5 1))\r\n",
        "Fetch(1, [Unknown])",
    ),
    (
        b"* 1 FETCH (BODY (\"TEXT\" \"PLAIN\" (\"CHARSET\" \"UTF-8\") NIL NIL \"7BIT\" 5 1))\r\n",
        "Error",
    ),
];

static UNKNOWN: Rows = &[
    (
        b"* 1 FETCH (X-Y (q) UID 4 )\r\n",
        "Fetch(1, [Unknown, Uid(4)])",
    ),
    (b"* 1 FETCH (X a\r\nb)\r\n", "Fetch(1, [Unknown])"),
    (
        b"* 1 FETCH (X () Y (\0\t) Z a\0\t(\"{\x80)\r\n",
        "Fetch(1, [Unknown, Unknown, Unknown])",
    ),
    (b"* 1 FETCH (X \"a) b\" Y {3}\r\n) )Z z UID 4)\r\n", "Error"),
    (
        b"* 1 FETCH (X \"a) b\" Y {3}\r\n) ) Z z UID 4)\r\n",
        "Fetch(1, [Unknown, Unknown, Unknown, Uid(4)])",
    ),
    (b"* 1 FETCH (X NILFOO)\r\n", "Error"),
    (b"* 1 FETCH (\xff 1)\r\n", "Error"),
    (b"* 1 FETCH (BINARY[1] {2}\r\nab)\r\n", "Error"),
    (b"* 1 FETCH ()\r\n", "Error"),
    (b"* 1 FETCH UID 4\r\n", "Error"),
    (
        b"* 1 FETCH (UID NIL FLAGS NIL ENVELOPE NIL EMAILID NIL MODSEQ NIL)\r\n",
        "Fetch(1, [Unknown, Unknown, Unknown, Unknown, Unknown])",
    ),
    (
        b"* 1 FETCH (ENVELOPE ({5}\r\n))\r\nxy",
        r#"Fetch(1, [Unknown]) then "xy""#,
    ),
    (
        b"* 1 FETCH (ENVELOPE ({15}\r\n) UID 7)\r\nabcdex",
        r#"Fetch(1, [Unknown, Uid(7)]) then "abcdex""#,
    ),
];

static WAITING: Rows = &[
    (b"* 1 FETCH (U", "Incomplete(Unknown)"),
    (b"* 1 FETCH (", "Incomplete(Unknown)"),
    (b"* 1 FET", "Incomplete(Unknown)"),
    (b"* 1 FETCH (BODYS", "Incomplete(Unknown)"),
    (b"* 1 FETCH (RFC822.", "Incomplete(Unknown)"),
    (b"* 1 FETCH (X (a", "Incomplete(Unknown)"),
    (b"* 1 FETCH (ENVELOPE ({5}\r\n))\r\n", "Incomplete(Size(1))"),
    (
        b"* 1 FETCH (RFC822 {4294967295}\r\n",
        "Incomplete(Size(4294967295))",
    ),
    (b"* 1 FETCH (RFC822 {4294967296}\r\n", "Incomplete(Unknown)"),
    (
        b"* 1 FETCH (RFC822 {4294967296}\r\n)\r\n",
        "Fetch(1, [Unknown])",
    ),
];

/// The tables of these lines.
pub fn lines() -> [Rows; 6] {
    [
        FLAGS_AND_NUMBERS,
        TEXTS_AND_BYTES,
        SAVE_DATES,
        STRUCTURES,
        UNKNOWN,
        WAITING,
    ]
}

#[test]
fn attributes(rt: HostRuntime) {
    assert_lines(&rt, rt.alloc(), &lines());
}

static SECTIONS: Rows = &[
    (
        b"BODY[TEXT]<5> \"a\")",
        r#"BodySection { section: Some(Full(Text)), index: Some(5), contents: Some([97]) } then ")""#,
    ),
    (
        b"body[] NIL)",
        r#"BodySection { section: None, index: None, contents: None } then ")""#,
    ),
    (b"BODY[]  NIL)", "Error"),
    (b"BODYSTRUCTURE", "Error"),
    (b"BODY[] {2}\r\na", "Incomplete(Size(1))"),
];

static SINGLE: Rows = &[
    (b"UID 7 ", r#"Uid(7) then " ""#),
    (b"Uid 7x)", r#"Uid(7) then "x)""#),
    (b"X \"a\"b", r#"Unknown then "b""#),
    (b"SAVEDATE \"x\")", r#"SaveDate(Some("x")) then ")""#),
    (b"UID 7", "Incomplete(Unknown)"),
    (b"(", "Error"),
];

static LISTS: Rows = &[
    (b"(UID 7 \t )x", r#"[Uid(7)] then "x""#),
    (b"(UID 7  UID 8)", "Error"),
    (b"(UID 7", "Incomplete(Unknown)"),
];

/// A reader of attributes.
enum Reader {
    Section,
    Attribute,
    List,
}

impl Reads for Reader {
    fn reads(&self, alloc: Global, input: &[u8], want: &str) -> bool {
        match self {
            Reader::Section => says(alloc, msg_att_body_section(alloc, input), want),
            Reader::Attribute => says(alloc, attribute(alloc, input), want),
            Reader::List => says(alloc, attribute_list(alloc, input), want),
        }
    }
}

#[test]
fn sections_of_bodies(rt: HostRuntime) {
    assert_reads(&rt, rt.alloc(), &Reader::Section, SECTIONS);
}

#[test]
fn single_attributes(rt: HostRuntime) {
    assert_reads(&rt, rt.alloc(), &Reader::Attribute, SINGLE);
}

#[test]
fn lists_of_attributes(rt: HostRuntime) {
    assert_reads(&rt, rt.alloc(), &Reader::List, LISTS);
}
