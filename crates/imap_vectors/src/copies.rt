//! Copies, equality, hashes and conversions of values.

use crate::answers::{Rows, assert_row, value_of};
use imap_data::readers::{
    id, mailbox_datum, metadata_solicited, metadata_unsolicited, quota, quota_root,
};
use imap_proto::Response;
use imap_proto::imap_core::{Err, IResult};
use imap_proto::rfc2087::{Quota, QuotaResource, QuotaResourceName};
use imap_proto::rfc3501::{MailboxDatum, MailboxListData, NameAttribute, Outcome};
use imap_proto::rfc4314::AclRight;
use imap_proto::rfc4315::UidSetMember;
use imap_proto::rfc5464::Metadata;
use std::alloc::{AllocError, Global};
use std::borrow::CowStr;
use std::collections::HashSet;
use std::hash::Hash;
use std::process::Abort;
use std::test::*;

// Whether a copy was made, and equals the value.
fn is_equal<T: PartialEq + Drop>(value: &T, copy: Result<T, AllocError>) -> bool {
    match &copy {
        Ok(copy) => copy == value,
        Err(_) => false,
    }
}

// The same of a value that is let go: over any type that is one step, and in a test each part of each kind would be
// proved to be dropped.
fn equals<T: PartialEq + Drop>(value: T, copy: Result<T, AllocError>) -> bool {
    is_equal(&value, copy)
}

static DATA_OF_MAILBOXES: Rows = &[
    (b"18 EXISTS\r", "exists"),
    (b"5 RECENT\r", "recent"),
    (b"FLAGS (\\Seen \\*)\r", "flags"),
    (
        b"LIST (\\Noinferiors \\Noselect \\Marked \\Unmarked \\All \\Archive \\Drafts \\Flagged \\Junk \\Sent \\Trash \\X) \"/\" \"\xff\"\r",
        "names",
    ),
    (b"LSUB () NIL x\r", "no delimiter"),
    (b"SEARCH 2 3\r", "search"),
    (b"SORT 3 2\r", "sort"),
    (
        b"STATUS x (HIGHESTMODSEQ 1 MESSAGES 2 RECENT 3 UIDNEXT 4 UIDVALIDITY 5 UNSEEN 6)\r",
        "states",
    ),
    (b"X-GM-LABELS (\\Inbox \"a\xff\")\r", "labels"),
    (b"X-GM-MSGID 7\r", "message"),
    (b"X-GM-THRID 8\r", "thread"),
];

// Whether a datum was read, and equals its copy.
fn is_copied(answer: IResult<&[u8], MailboxDatum<'_>>) -> bool {
    match answer {
        Ok((_, datum)) => {
            let copy = datum.clone();
            equals(datum, copy)
        }
        Err(_) => false,
    }
}

#[test]
fn data_of_mailboxes(rt: HostRuntime) {
    let alloc = rt.alloc();
    for (line, told) in DATA_OF_MAILBOXES {
        assert_row(&rt, is_copied(mailbox_datum(alloc, line)), told);
    }
}

#[test]
fn annotations(rt: HostRuntime) {
    let alloc = rt.alloc();
    let line = b"METADATA \"\xff\" (/shared/comment NIL /private/comment \"a\")\r";
    assert_row(
        &rt,
        is_copied(metadata_solicited(alloc, line)),
        "metadata_solicited",
    );
    let line = b"METADATA \"x\" /shared/comment\r";
    assert_row(
        &rt,
        is_copied(metadata_unsolicited(alloc, line)),
        "metadata_unsolicited",
    );
}

#[test]
fn quotas(rt: HostRuntime) -> Result<(), Fail> {
    let alloc = rt.alloc();
    let line = b"QUOTA a\xff (STORAGE 1 2 MESSAGE 3 4 \"x\xff\" 5 6 y 7 8)\r";
    let (_, limits) = quota(alloc, line)?;
    let copy = limits.clone();
    assert_row(&rt, equals(limits, copy), "limits");
    let (_, root) = quota_root(alloc, b"QUOTAROOT b\xff a \xffc\r")?;
    let copy = root.clone();
    assert_row(&rt, equals(root, copy), "root");
    Ok(())
}

#[test]
fn parts_of_lists(rt: HostRuntime) {
    let names = MailboxListData {
        name_attributes: Vec::new(rt.alloc()),
        delimiter: Some(CowStr::Borrowed("/")),
        name: CowStr::Borrowed("x"),
    };
    let copy = names.clone();
    assert_row(&rt, equals(names, copy), "names");
    let sent = NameAttribute::Sent;
    let copy = sent.clone();
    assert_row(&rt, equals(sent, copy), "sent");
}

#[test]
fn parts_of_annotations_and_quotas(rt: HostRuntime) -> Result<(), Fail> {
    let annotation = Metadata {
        entry: String::from_str(rt.alloc(), "/shared/comment")?,
        value: None,
    };
    let copy = annotation.clone();
    assert_row(&rt, equals(annotation, copy), "annotation");
    let resource = QuotaResource {
        name: QuotaResourceName::Message,
        usage: 1,
        limit: 2,
    };
    let copy = resource.clone();
    assert_row(&rt, equals(resource, copy), "resource");
    let name = QuotaResourceName::Atom(CowStr::Borrowed("x"));
    let copy = name.clone();
    assert_row(&rt, equals(name, copy), "name");
    Ok(())
}

#[test]
fn members_of_sets(rt: HostRuntime) {
    let range = UidSetMember::UidRange(1..=8);
    let copy: Result<_, AllocError> = range.clone();
    assert_row(&rt, equals(UidSetMember::from(1..=8), copy), "range");
    let single = Ok(UidSetMember::Uid(5));
    assert_row(&rt, equals(UidSetMember::from(5), single), "single");
}

// Whether a set of the first value has the second.
fn is_found<T: Eq + Hash + Drop>(alloc: Global, one: T, other: &T) -> bool {
    let mut values = HashSet::new(alloc);
    values.insert(one).is_ok() && values.contains(other)
}

// Whether two values are equal, and copies of one hash as both do.
fn are_alike<T: Eq + Hash + Drop>(
    alloc: Global,
    one: T,
    copy: Result<T, AllocError>,
    other: Result<T, Err>,
) -> bool {
    match (copy, other) {
        (Ok(copy), Ok(other)) => {
            one == other && is_found(alloc, copy, &one) && is_found(alloc, one, &other)
        }
        _ => false,
    }
}

const LENT: &[u8] = b"QUOTA \xef\xbf\xbd (STORAGE 1 2)\r";

// Whether the quota is equal to its copy made owned, and hashes so.
fn is_owned_alike(alloc: Global) -> Result<bool, Err> {
    let (_, lent) = quota(alloc, LENT)?;
    let copy = lent.clone();
    let made_owned = copy_made_owned(alloc, &lent);
    Ok(are_alike(alloc, lent, copy, made_owned))
}

fn copy_made_owned(alloc: Global, quota: &Quota<'_>) -> Result<Quota<'static>, Err> {
    Ok(quota.clone()?.into_owned(alloc)?)
}

// Texts compare and hash by content, whichever are borrowed.
#[test]
fn equality_and_hashes(rt: HostRuntime) -> Result<(), Fail> {
    let alloc = rt.alloc();
    let (_, lent) = quota(alloc, LENT)?;
    let copy = lent.clone();
    let owned = value_of(quota(alloc, b"QUOTA \"\xff\" (STORAGE 1 2)\r"));
    assert_row(&rt, are_alike(alloc, lent, copy, owned), "decoded");
    assert_row(&rt, matches!(is_owned_alike(alloc), Ok(true)), "made owned");
    Ok(())
}

// Whether two values were read, and are equal.
fn are_same<T: PartialEq + Drop>(one: Result<T, Err>, other: Result<T, Err>) -> bool {
    match (one, other) {
        (Ok(one), Ok(other)) => one == other,
        _ => false,
    }
}

// Identities compare as finite maps.
#[test]
fn equal_identities(rt: HostRuntime) {
    let alloc = rt.alloc();
    let in_order = value_of(id(alloc, b"ID (\"a\" \"1\" \"b\" \"2\")\r"));
    let turned = value_of(id(alloc, b"ID (\"b\" \"2\" \"a\" \"1\")\r"));
    assert!(rt; are_same(in_order, turned));
}

fn assert_letter(rt: &impl Abort, letter: char) {
    assert!(rt; char::from(AclRight::from(letter)) == letter, "{letter}");
}

fn assert_right(rt: &impl Abort, letter: char, right: AclRight) {
    assert!(rt; AclRight::from(letter) == right, "{letter}");
}

#[test]
fn letters_of_rights(rt: HostRuntime) {
    for letter in "lrswipkxteancdz\u{e9}".chars() {
        assert_letter(&rt, letter);
    }
    assert_right(&rt, 'l', AclRight::Lookup);
    assert_right(&rt, 'd', AclRight::OldDelete);
    assert_right(&rt, 'z', AclRight::Custom('z'));
    assert_right(&rt, char::from(AclRight::Custom('l')), AclRight::Lookup);
}

// Whether the tag and the outcome of a tagged line are these.
fn has_these_parts(response: &Response<'_>) -> bool {
    match response {
        Response::Done { tag, outcome, .. } => {
            tag.as_bytes() == b"a1".as_slice()
                && is_equal(tag, tag.clone())
                && is_equal(outcome, Ok(Outcome::default()))
        }
        _ => false,
    }
}

// Whether the line is read with this tag and this outcome.
fn is_read_so(alloc: Global, line: &[u8]) -> bool {
    match Response::parse(alloc, line) {
        Ok((_, response)) => {
            let has_these_parts = has_these_parts(&response);
            drop(response);
            has_these_parts
        }
        Err(_) => false,
    }
}

#[test]
fn parts_of_status_lines(rt: HostRuntime) {
    assert_row(&rt, is_read_so(rt.alloc(), b"a1 OK\r\n"), "tag and outcome");
}
