//! Lines with long texts, and with long lists.

use crate::answers::parses;
use crate::owned::parses_owned;
use std::alloc::{AllocError, Global};
use std::test::*;

// A text so many times, between two others.
fn repeated(
    alloc: Global,
    before: &str,
    item: &str,
    times: u32,
    after: &str,
) -> Result<String, AllocError> {
    let mut text = String::from_str(alloc, before)?;
    for _ in 0..times {
        text.push_str(item)?;
    }
    text.push_str(after)?;
    Ok(text)
}

// So many letters between two texts.
fn long(alloc: Global, before: &str, letters: u32, after: &str) -> Result<String, AllocError> {
    repeated(alloc, before, "x", letters, after)
}

/// A line in which a long text stands, and what it says.
struct Stretched {
    before: &'static str,
    letters: u32,
    after: &'static str,
    says_before: &'static str,
    says_after: &'static str,
}

fn is_told(alloc: Global, row: &Stretched) -> Result<bool, AllocError> {
    let line = long(alloc, row.before, row.letters, row.after)?;
    let told = long(alloc, row.says_before, row.letters, row.says_after)?;
    Ok(parses(alloc, line.as_bytes(), told.as_str()))
}

static INFORMATION: Stretched = Stretched {
    before: "* OK ",
    letters: 70000,
    after: "\r\n",
    says_before: "Data { status: Ok, outcome: Outcome { code: None, information: Some(\"",
    says_after: "\") } }",
};

// The information of a status line.
#[test]
fn long_information(rt: HostRuntime) {
    assert!(rt; matches!(is_told(rt.alloc(), &INFORMATION), Ok(true)));
}

static NAME: Stretched = Stretched {
    before: "* STATUS ",
    letters: 300,
    after: " ()\r\n",
    says_before: "MailboxData(Status { mailbox: \"",
    says_after: "\", status: [] })",
};

// The name of the mailbox that a state is of.
#[test]
fn long_name(rt: HostRuntime) {
    assert!(rt; matches!(is_told(rt.alloc(), &NAME), Ok(true)));
}

static LISTED_NAME: Stretched = Stretched {
    before: "* LIST () NIL ",
    letters: 300,
    after: "\r\n",
    says_before: "MailboxData(List(MailboxListData { name_attributes: [], delimiter: None, name: \"",
    says_after: "\" }))",
};

// The name of a mailbox that is listed.
#[test]
fn long_listed_name(rt: HostRuntime) {
    assert!(rt; matches!(is_told(rt.alloc(), &LISTED_NAME), Ok(true)));
}

// Whether a hundred flags are read, and made owned.
fn are_owned(alloc: Global) -> Result<bool, AllocError> {
    let line = repeated(alloc, "* FLAGS (x", " x", 99, ")\r\n")?;
    let told = repeated(alloc, "MailboxData(Flags([\"x\"", ", \"x\"", 99, "]))")?;
    Ok(parses_owned(alloc, line.as_bytes(), told.as_str()))
}

#[test]
fn many_owned_texts(rt: HostRuntime) {
    assert!(rt; matches!(are_owned(rt.alloc()), Ok(true)));
}
