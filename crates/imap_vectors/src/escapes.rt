//! Kept fetches without the escapes of quoted strings: what they tell, and which texts are borrowed.

use crate::answers::{Rows, assert_row, shows};
use crate::kept::{Told, tell_one};
use crate::texts::has_marked;
use imap_proto::kept::KeptFetch;
use std::alloc::{AllocError, Global};
use std::test::*;

/// A line of a FETCH whose strings have escapes, what its attributes say with them, and what without.
struct Escaped {
    line: &'static [u8],
    sent: &'static str,
    unescaped: &'static str,
}

// Quoted strings, literals, atoms, `NIL`, and quoted strings without an escape.
static ESCAPED: &[Escaped] = &[
    Escaped {
        line: b"* 1 FETCH (X-GM-LABELS (\\Inbox \"a\\\"b\" \"\\\\Important\" \"c d\") SAVEDATE {4}\r\ne\\\\f)\r\n",
        sent: r#"[GmailLabels(["\\Inbox", "a\\\"b", "\\\\Important", "c d"]), SaveDate(Some("e\\\\f"))]"#,
        unescaped: r#"[GmailLabels(["\\Inbox", "a\"b", "\\Important", "c d"]), SaveDate(Some("e\\\\f"))]"#,
    },
    Escaped {
        line: b"* 2 FETCH (ENVELOPE (\"\\\"\" {2}\r\n\\\\ ((\"a\\\\\" NIL \"b\" \"c\")) NIL NIL NIL NIL NIL NIL NIL))\r\n",
        sent: "[Envelope(Envelope { date: Some([92, 34]), subject: Some([92, 92]), from: Some([Address { name: Some([97, 92, 92]), adl: None, mailbox: Some([98]), host: Some([99]) }]), sender: None, reply_to: None, to: None, cc: None, bcc: None, in_reply_to: None, message_id: None })]",
        unescaped: "[Envelope(Envelope { date: Some([34]), subject: Some([92, 92]), from: Some([Address { name: Some([97, 92]), adl: None, mailbox: Some([98]), host: Some([99]) }]), sender: None, reply_to: None, to: None, cc: None, bcc: None, in_reply_to: None, message_id: None })]",
    },
    Escaped {
        line: b"* 3 FETCH (BODYSTRUCTURE (\"TEXT\" \"x\\\"y\" (\"name\" \"\\\"a\\\\b\\\"\") NIL NIL \"7BIT\" 1 2 NIL (\"inline\" (\"filename\" {2}\r\n\\\"))))\r\n",
        sent: r#"[BodyStructure(Text { common: BodyContentCommon { ty: ContentType { ty: "TEXT", subtype: "x\\\"y", params: Some([("name", "\\\"a\\\\b\\\"")]) }, disposition: Some(ContentDisposition { ty: "inline", params: Some([("filename", "\\\"")]) }), language: None, location: None }, other: BodyContentSinglePart { id: None, md5: None, description: None, transfer_encoding: SevenBit, octets: 1 }, lines: 2, extension: None })]"#,
        unescaped: r#"[BodyStructure(Text { common: BodyContentCommon { ty: ContentType { ty: "TEXT", subtype: "x\"y", params: Some([("name", "\"a\\b\"")]) }, disposition: Some(ContentDisposition { ty: "inline", params: Some([("filename", "\\\"")]) }), language: None, location: None }, other: BodyContentSinglePart { id: None, md5: None, description: None, transfer_encoding: SevenBit, octets: 1 }, lines: 2, extension: None })]"#,
    },
    Escaped {
        line: b"* 4 FETCH (FLAGS (\\Seen) BODY[1] \"\\\\\\\"\" RFC822 {2}\r\n\\\\ RFC822.TEXT NIL UID 7)\r\n",
        sent: r#"[Flags(["\\Seen"]), BodySection { section: Some(Part([1], None)), index: None, contents: Some([92, 92, 92, 34]) }, Rfc822(Some([92, 92])), Rfc822Text(None), Uid(7)]"#,
        unescaped: r#"[Flags(["\\Seen"]), BodySection { section: Some(Part([1], None)), index: None, contents: Some([92, 34]) }, Rfc822(Some([92, 92])), Rfc822Text(None), Uid(7)]"#,
    },
];

// What is kept, without the escapes of quoted strings.
fn told_unescaped(alloc: Global, kept: &KeptFetch) -> Result<Vec<Told>, AllocError> {
    let mut attributes = Vec::new(alloc);
    for k in 0..kept.len() {
        tell_one(alloc, kept.unescaped(k), &mut attributes)?;
    }
    Ok(attributes)
}

// What is kept, one attribute behind another.
fn told_in_turn(alloc: Global, kept: &KeptFetch) -> Result<Vec<Told>, AllocError> {
    let mut attributes = Vec::new(alloc);
    for attribute in kept.attributes() {
        tell_one(alloc, attribute, &mut attributes)?;
    }
    Ok(attributes)
}

fn is_kept_escaped(alloc: Global, want: &Escaped) -> bool {
    match KeptFetch::keep(alloc, want.line) {
        Ok(Some(kept)) => {
            shows(alloc, told_in_turn(alloc, &kept), want.sent)
                && shows(alloc, told_unescaped(alloc, &kept), want.unescaped)
        }
        _ => false,
    }
}

#[test]
fn escapes(rt: HostRuntime) {
    for want in ESCAPED {
        assert_row(&rt, is_kept_escaped(rt.alloc(), want), want.unescaped);
    }
}

// Whether the first attribute that is kept of the line, without escapes, has these texts, borrowed or owned.
fn has_unescaped(alloc: Global, line: &[u8], want: &str) -> bool {
    match KeptFetch::keep(alloc, line) {
        Ok(Some(kept)) if kept.len() > 0 => has_marked(alloc, kept.unescaped(0), want),
        _ => false,
    }
}

// Borrowed stays what has no escape, and what is in no quotes.
static UNESCAPED: Rows = &[
    (
        b"* 1 FETCH (X-GM-LABELS (\\Inbox \"a\\\"b\" \"c d\" \"\xff\" \"\\\\\xff\"))\r\n",
        r#"[Borrowed("\\Inbox"), Owned("a\"b"), Borrowed("c d"), Owned("�"), Owned("\\�")]"#,
    ),
    (b"* 1 FETCH (SAVEDATE \"\\\\\")\r\n", r#"[Owned("\\")]"#),
    (
        b"* 1 FETCH (SAVEDATE {2}\r\n\\\")\r\n",
        r#"[Borrowed("\\\"")]"#,
    ),
    (b"* 1 FETCH (INTERNALDATE \"x\")\r\n", r#"[Borrowed("x")]"#),
];

#[test]
fn lent_or_unescaped(rt: HostRuntime) {
    for (line, want) in UNESCAPED {
        assert_row(&rt, has_unescaped(rt.alloc(), line, want), want);
    }
}
