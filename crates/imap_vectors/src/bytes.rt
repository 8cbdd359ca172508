//! Bytes: classes, numbers, strings and sets.

use crate::answers::{Reads, Rows, WAITS, assert_reads, says, says_bytes};
use imap_proto::imap_core::{
    astring, atom, is_astring_char, is_atom_char, is_atom_specials, is_char, is_list_wildcards,
    is_quoted_specials, is_resp_specials, is_text_char, literal, nil, nstring, number, number_64,
    quoted, sequence_range, sequence_set, string,
};
use std::alloc::Global;
use std::process::Abort;
use std::test::*;

const ATOM_SPECIALS: &[u8] =
    b"\0\x01\x02\x03\x04\x05\x06\x07\x08\t\n\x0b\x0c\r\x0e\x0f\x10\x11\x12\x13\x14\x15\x16\x17\x18\x19\x1a\x1b\x1c\x1d\x1e\x1f \"%()*\\]{";

const NO_ASTRING_CHARS: &[u8] =
    b"\0\x01\x02\x03\x04\x05\x06\x07\x08\t\n\x0b\x0c\r\x0e\x0f\x10\x11\x12\x13\x14\x15\x16\x17\x18\x19\x1a\x1b\x1c\x1d\x1e\x1f \"%()*\\{";

/// A class of bytes.
#[derive(Clone, Copy)]
enum Class {
    Char,
    TextChar,
    ListWildcards,
    QuotedSpecials,
    RespSpecials,
    AtomSpecials,
    AtomChar,
    AstringChar,
}

fn is_in(class: Class, c: u8) -> bool {
    match class {
        Class::Char => is_char(c),
        Class::TextChar => is_text_char(c),
        Class::ListWildcards => is_list_wildcards(c),
        Class::QuotedSpecials => is_quoted_specials(c),
        Class::RespSpecials => is_resp_specials(c),
        Class::AtomSpecials => is_atom_specials(c),
        Class::AtomChar => is_atom_char(c),
        Class::AstringChar => is_astring_char(c),
    }
}

/// Which bytes are in a class.
#[derive(Clone, Copy)]
enum Members {
    /// These and no others.
    Has(&'static [u8]),
    /// All but these.
    Lacks(&'static [u8]),
}

fn is_member(members: Members, c: u8) -> bool {
    match members {
        Members::Has(bytes) => bytes.contains(&c),
        Members::Lacks(bytes) => !bytes.contains(&c),
    }
}

static CLASSES: &[(Class, Members)] = &[
    (Class::Char, Members::Lacks(b"\0")),
    (Class::TextChar, Members::Lacks(b"\0\n\r")),
    (Class::ListWildcards, Members::Has(b"%*")),
    (Class::QuotedSpecials, Members::Has(b"\"\\")),
    (Class::RespSpecials, Members::Has(b"]")),
    (Class::AtomSpecials, Members::Has(ATOM_SPECIALS)),
    (Class::AtomChar, Members::Lacks(ATOM_SPECIALS)),
    (Class::AstringChar, Members::Lacks(NO_ASTRING_CHARS)),
];

fn assert_members(rt: &impl Abort, class: Class, members: Members) {
    for c in 0..=255u8 {
        assert!(rt; is_in(class, c) == is_member(members, c), "byte {c}");
    }
}

#[test]
fn classes(rt: HostRuntime) {
    for (class, members) in CLASSES {
        assert_members(&rt, *class, *members);
    }
}

/// A reader of numbers, sets, strings or atoms.
enum Reader {
    Number,
    LargeNumber,
    Range,
    Set,
    Quoted,
    Literal,
    Str,
    Astring,
    Atom,
    Nil,
    MaybeString,
}

impl Reads for Reader {
    fn reads(&self, alloc: Global, input: &[u8], want: &str) -> bool {
        match self {
            Reader::Number => says(alloc, number(input), want),
            Reader::LargeNumber => says(alloc, number_64(input), want),
            Reader::Range => says(alloc, sequence_range(input), want),
            Reader::Set => says(alloc, sequence_set(alloc, input), want),
            Reader::Quoted => says_bytes(alloc, quoted(input), want),
            Reader::Literal => says_bytes(alloc, literal(input), want),
            Reader::Str => says_bytes(alloc, string(input), want),
            Reader::Astring => says_bytes(alloc, astring(input), want),
            Reader::Atom => says(alloc, atom(input), want),
            Reader::Nil => says_bytes(alloc, nil(input), want),
            Reader::MaybeString => says(alloc, nstring(input), want),
        }
    }
}

static NUMBERS: Rows = &[
    (b"007 ", r#"7 then " ""#),
    (b"0x", r#"0 then "x""#),
    (b"4294967295x", r#"4294967295 then "x""#),
    (b"0000000000004294967295 ", r#"4294967295 then " ""#),
    (b"4294967296x", "Error"),
    (b"x", "Error"),
    (b"-1 ", "Error"),
    (b"", WAITS),
    (b"7", WAITS),
    (b"4294967296", WAITS),
];

static LARGE_NUMBERS: Rows = &[
    (b"4294967296x", r#"4294967296 then "x""#),
    (b"18446744073709551615 ", r#"18446744073709551615 then " ""#),
    (
        b"0018446744073709551615 ",
        r#"18446744073709551615 then " ""#,
    ),
    (b"18446744073709551616 ", "Error"),
    (b"x", "Error"),
    (b"7", WAITS),
];

static RANGES: Rows = &[
    (b"5:3 ", r#"5..=3 then " ""#),
    (b"5 ", "Error"),
    (b"5:", WAITS),
];

static SETS: Rows = &[
    (b"1,2:3,x", r#"[1..=1, 2..=3] then ",x""#),
    (b"1:x", r#"[1..=1] then ":x""#),
    (b"1:", WAITS),
    (b"1,", WAITS),
    (b"*", "Error"),
    (b"4294967296 ", "Error"),
];

#[test]
fn numbers(rt: HostRuntime) {
    assert_reads(&rt, rt.alloc(), &Reader::Number, NUMBERS);
}

#[test]
fn large_numbers(rt: HostRuntime) {
    assert_reads(&rt, rt.alloc(), &Reader::LargeNumber, LARGE_NUMBERS);
}

#[test]
fn ranges(rt: HostRuntime) {
    assert_reads(&rt, rt.alloc(), &Reader::Range, RANGES);
}

#[test]
fn sets(rt: HostRuntime) {
    assert_reads(&rt, rt.alloc(), &Reader::Set, SETS);
}

static QUOTED: Rows = &[
    (b"\"a\\\"b\"x", r#""a\\\"b" then "x""#),
    (b"\"\\\\\"\"", r#""\\\\" then "\"""#),
    (b"\"\"x", r#""" then "x""#),
    (
        b"\"\x01\t\x7f\x80(){]%*\"x",
        r#""\u{1}\t\u{7f}�(){]%*" then "x""#,
    ),
    (b"\"a\\xb\"", "Error"),
    (b"\"a\r\n\"", "Error"),
    (b"\"a\n\"", "Error"),
    (b"\"a\r\"", "Error"),
    (b"\"\0\"", "Error"),
    (b"a\"", "Error"),
    (b"\"ab", WAITS),
    (b"\"a\\", WAITS),
    (b"\"a\\\"", WAITS),
];

static LITERALS: Rows = &[
    (b"{0}\r\n", r#""""#),
    (b"{1}\r\n\0", r#""\0""#),
    (b"{4}\r\na\r\nbx", r#""a\r\nb" then "x""#),
    (b"{3}\r\nab", "Incomplete(Size(1))"),
    (b"{4294967295}\r\n", "Incomplete(Size(4294967295))"),
    (b"{3}\r", WAITS),
    (b"{}", "Error"),
    (b"{1x", "Error"),
    (b"{3}x", "Error"),
    (b"{4294967296}", "Error"),
];

static STRINGS: Rows = &[
    (b"\"a b\"x", r#""a b" then "x""#),
    (b"{3}\r\na bx", r#""a b" then "x""#),
    (b"{3}\r\na", "Incomplete(Size(2))"),
    (b"ab ", "Error"),
];

static ASTRINGS: Rows = &[
    (b"a]b ", r#""a]b" then " ""#),
    (b"\"a b\"x", r#""a b" then "x""#),
    (b"{2}\r\n()", r#""()""#),
    (b"ab", WAITS),
    (b"(ab ", "Error"),
];

#[test]
fn quoted_strings(rt: HostRuntime) {
    assert_reads(&rt, rt.alloc(), &Reader::Quoted, QUOTED);
}

#[test]
fn literals(rt: HostRuntime) {
    assert_reads(&rt, rt.alloc(), &Reader::Literal, LITERALS);
}

#[test]
fn strings(rt: HostRuntime) {
    assert_reads(&rt, rt.alloc(), &Reader::Str, STRINGS);
}

#[test]
fn astrings(rt: HostRuntime) {
    assert_reads(&rt, rt.alloc(), &Reader::Astring, ASTRINGS);
}

static ATOMS: Rows = &[
    (b"a]b", r#""a" then "]b""#),
    (b"\xc3\xa9 ", r#""é" then " ""#),
    (b"\xff ", "Error"),
    (b"\"a\"", "Error"),
    (b"\xff", WAITS),
];

static NILS: Rows = &[
    (b"nilx", r#""nil" then "x""#),
    (b"NIL", r#""NIL""#),
    (b"ni", WAITS),
    (b"nix", "Error"),
];

// A byte string within a value is told as its numbers.
static MAYBE_STRINGS: Rows = &[
    (b"NIL)", r#"None then ")""#),
    (b"\"N\")", r#"Some([78]) then ")""#),
    (b"{0}\r\n)", r#"Some([]) then ")""#),
    (b"{2}\r\n", "Incomplete(Size(2))"),
    (b"a ", "Error"),
];

#[test]
fn atoms(rt: HostRuntime) {
    assert_reads(&rt, rt.alloc(), &Reader::Atom, ATOMS);
}

#[test]
fn nils(rt: HostRuntime) {
    assert_reads(&rt, rt.alloc(), &Reader::Nil, NILS);
}

#[test]
fn maybe_strings(rt: HostRuntime) {
    assert_reads(&rt, rt.alloc(), &Reader::MaybeString, MAYBE_STRINGS);
}
