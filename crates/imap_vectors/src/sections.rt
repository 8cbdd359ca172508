//! Sections of bodies: which part of a message is meant.

use crate::answers::{Reads, Rows, WAITS, assert_reads, is_text, says};
use imap_proto::rfc3501::body::{
    MessageSection, SectionPath, section, section_msgtext, section_part,
};
use std::alloc::{AllocError, Global};
use std::test::*;

static SECTIONS: Rows = &[
    (b"[1.2.MIME]x", r#"Some(Part([1, 2], Some(Mime))) then "x""#),
    (b"[]", "None"),
    (b"[TEXT.MIME]", "Error"),
    (b"[text]", "Some(Full(Text))"),
    (b"[HEADER.FIELDS.NOT (\"a\" b)]", "Some(Full(Header))"),
    (b"[3]", "Some(Part([3], None))"),
    (b"[MIME]", "Error"),
    (b"[1.]", "Error"),
    (b"[4294967296]", "Error"),
    (b"[", WAITS),
    (b"[1.2", WAITS),
    (b"[1.HEADER.FIELDS (a {3}\r\nab", "Incomplete(Size(1))"),
];

static PARTS: Rows = &[
    (b"1.2.TEXT", r#"[1, 2] then ".TEXT""#),
    (b"007.0]", r#"[7, 0] then "]""#),
    (
        b"1.2.3.4.5.6.7.8.9.10.11.12.13.14.15.16.17.18.19.20.21.22.23.24.25]",
        r#"[1, 2, 3, 4, 5, 6, 7, 8, 9, 10, 11, 12, 13, 14, 15, 16, 17, 18, 19, 20, 21, 22, 23, 24, 25] then "]""#,
    ),
    (b"1.2", WAITS),
    (b"1.", WAITS),
    (b".1]", "Error"),
];

static TEXTS: Rows = &[
    (b"HEADER.FIELDS (DATE FROM)x", r#"Header then "x""#),
    (b"HEADER.FIELDSX", r#"Header then ".FIELDSX""#),
    (b"HEADER.FIELDS ()x", r#"Header then "x""#),
    (b"Header.Fields.Not ({1}\r\n\xff)x", r#"Header then "x""#),
    (b"HEADER]", r#"Header then "]""#),
    (b"TEXT", "Text"),
    (b"HEADER", WAITS),
    (b"HEADER.FIELDS (DATE", WAITS),
];

static NO_TEXT: Rows = &[(b"MIME]", "Error")];

static TEXTS_OF_PARTS: Rows = &[
    (b"mime]", r#"Mime then "]""#),
    (b"MIM", WAITS),
    (b"x", "Error"),
];

static PATHS: Rows = &[
    (b"1.2.MIME]", r#"Part([1, 2], Some(Mime)) then "]""#),
    (b"4.HEADER]", r#"Part([4], Some(Header)) then "]""#),
    (b"1.x", r#"Part([1], None) then ".x""#),
    (b"TEXT]", r#"Full(Text) then "]""#),
    (b"MIME]", "Error"),
    (b"]", "Error"),
];

static SHOWN: Rows = &[
    (b"1.2.mime]", "1.2.MIME"),
    (b"007]", "7"),
    (b"1.12.header.fields.not (a)]", "1.12.HEADER"),
    (b"4294967295.2.3.4]", "4294967295.2.3.4"),
    (b"text]", "TEXT"),
    (b"x", "Error"),
];

// How the path at the front is shown.
fn shown(alloc: Global, input: &[u8]) -> Result<String, AllocError> {
    match SectionPath::parse(alloc, input) {
        Ok((_, path)) => format!(in alloc; "{path}"),
        Err(error) => format!(in alloc; "{error:?}"),
    }
}

/// A reader of sections.
enum Reader {
    Section,
    Part,
    Text,
    MessageSection,
    Path,
    ShownPath,
}

impl Reads for Reader {
    fn reads(&self, alloc: Global, input: &[u8], want: &str) -> bool {
        match self {
            Reader::Section => says(alloc, section(alloc, input), want),
            Reader::Part => says(alloc, section_part(alloc, input), want),
            Reader::Text => says(alloc, section_msgtext(input), want),
            Reader::MessageSection => says(alloc, MessageSection::parse(input), want),
            Reader::Path => says(alloc, SectionPath::parse(alloc, input), want),
            Reader::ShownPath => is_text(shown(alloc, input), want),
        }
    }
}

#[test]
fn sections(rt: HostRuntime) {
    assert_reads(&rt, rt.alloc(), &Reader::Section, SECTIONS);
}

#[test]
fn parts_and_paths(rt: HostRuntime) {
    assert_reads(&rt, rt.alloc(), &Reader::Part, PARTS);
    assert_reads(&rt, rt.alloc(), &Reader::Path, PATHS);
    assert_reads(&rt, rt.alloc(), &Reader::ShownPath, SHOWN);
}

// `MIME` is of parts alone.
#[test]
fn texts(rt: HostRuntime) {
    let alloc = rt.alloc();
    assert_reads(&rt, alloc, &Reader::Text, TEXTS);
    assert_reads(&rt, alloc, &Reader::Text, NO_TEXT);
    assert_reads(&rt, alloc, &Reader::MessageSection, TEXTS);
    assert_reads(&rt, alloc, &Reader::MessageSection, TEXTS_OF_PARTS);
}
