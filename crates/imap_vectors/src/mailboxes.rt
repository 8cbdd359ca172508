//! Data of mailboxes: counts, names, flags, states, Gmail's items and annotations.

use crate::answers::{Rows, assert_lines};
use std::test::*;

static NUMBERS: Rows = &[
    (b"* 18 EXISTS\r\nxy", r#"MailboxData(Exists(18)) then "xy""#),
    (b"* 5 recent\r\n", "MailboxData(Recent(5))"),
    (b"* 18 exists  \r\n", "MailboxData(Exists(18))"),
    (b"* 4 expunge  \r\n", "Expunge(4)"),
    (b"* 4 EXPUNGE \t\r\n", "Error"),
    (b"* 4 EXPUNGE\r\n", "Expunge(4)"),
    (b"* 0 EXPUNGE\r\n", "Expunge(0)"),
    (
        b"* SEARCH 4294967295\r\n",
        "MailboxData(Search([4294967295]))",
    ),
    (b"* SEARCH 4294967296\r\n", "Error"),
    (b"* SEARCH \r\n", "MailboxData(Search([]))"),
    (b"* search 9 0 5\r\n", "MailboxData(Search([9, 0, 5]))"),
    (b"* SEARCH 2 (MODSEQ 5)\r\n", "Error"),
    (b"* SORT 2 3 6\r\n", "MailboxData(Sort([2, 3, 6]))"),
    (b"* sort 6 2 3\r\n", "MailboxData(Sort([6, 2, 3]))"),
    (
        b"* SORT 04294967295 0\r\n",
        "MailboxData(Sort([4294967295, 0]))",
    ),
    (b"* ESEARCH (TAG \"A1\") UID ALL 1:3\r\n", "Error"),
];

static NAMES: Rows = &[
    (
        b"* LIST (\\HasNoChildren) \"/\" inbox\r\n",
        r#"MailboxData(List(MailboxListData { name_attributes: [Extension("\\HasNoChildren")], delimiter: Some("/"), name: "INBOX" }))"#,
    ),
    (
        b"* LIST (\\Noselect \\Sent) \"\\\\\" \"a\\\"b\"\r\n",
        r#"MailboxData(List(MailboxListData { name_attributes: [NoSelect, Sent], delimiter: Some("\\\\"), name: "a\\\"b" }))"#,
    ),
    (
        b"* LSUB (\\Noinferiors \\MARKED \\unmarked \\All \\Archive \\Drafts \\Flagged \\Junk \\Trash) NIL x\r\n",
        r#"MailboxData(List(MailboxListData { name_attributes: [NoInferiors, Marked, Unmarked, All, Archive, Drafts, Flagged, Junk, Trash], delimiter: None, name: "x" }))"#,
    ),
    (
        b"* list (\\TRASH \\sent \\JUNK \\flagged \\DRAFTS \\archive \\ALL \\noSelect \\noInferiors) nil \"Inbox\"\r\n",
        r#"MailboxData(List(MailboxListData { name_attributes: [Trash, Sent, Junk, Flagged, Drafts, Archive, All, NoSelect, NoInferiors], delimiter: None, name: "INBOX" }))"#,
    ),
    (
        b"* list (\\NOINFERIORS \\NOSELECT \\ALL \\ARCHIVE \\DRAFTS \\FLAGGED \\JUNK \\SENT \\TRASH \\ ) NIL x\r\n",
        r#"MailboxData(List(MailboxListData { name_attributes: [NoInferiors, NoSelect, All, Archive, Drafts, Flagged, Junk, Sent, Trash, Extension("\\")], delimiter: None, name: "x" }))"#,
    ),
    (
        b"* LIST (\\\xc3\xa9) \"\xff\" {5}\r\nInbox\r\n",
        r#"MailboxData(List(MailboxListData { name_attributes: [Extension("\\é")], delimiter: Some("�"), name: "INBOX" }))"#,
    ),
    (
        b"* LIST () \"/\" INBOX\r\n",
        r#"MailboxData(List(MailboxListData { name_attributes: [], delimiter: Some("/"), name: "INBOX" }))"#,
    ),
    (b"* LIST (|Sent) \"/\" x\r\n", "Error"),
    (b"* LIST (\\All2) \"/\" x\r\n", "Error"),
    (
        b"* LIST () \"/\" x (\"CHILDINFO\" (\"SUBSCRIBED\"))\r\n",
        "Error",
    ),
];

static STATES: Rows = &[
    (
        b"* STATUS \"x\" ()\r\n",
        r#"MailboxData(Status { mailbox: "x", status: [] })"#,
    ),
    (
        b"* STATUS x (HIGHESTMODSEQ 18446744073709551615 MESSAGES 1 recent 2 UIDNEXT 3 UIDVALIDITY 4 UNSEEN 5)\r\n",
        r#"MailboxData(Status { mailbox: "x", status: [HighestModSeq(18446744073709551615), Messages(1), Recent(2), UidNext(3), UidValidity(4), Unseen(5)] })"#,
    ),
    (
        b"* status inbox (unseen 5 uidvalidity 4 uidnext 3 messages 1 highestmodseq 2)\r\n",
        r#"MailboxData(Status { mailbox: "INBOX", status: [Unseen(5), UidValidity(4), UidNext(3), Messages(1), HighestModSeq(2)] })"#,
    ),
    (
        b"* status a+b (highestmodseq 0 messages 0 recent 0 uidnext 0 uidvalidity 0 unseen 0 )\r\n",
        r#"MailboxData(Status { mailbox: "a+b", status: [HighestModSeq(0), Messages(0), Recent(0), UidNext(0), UidValidity(0), Unseen(0)] })"#,
    ),
    (
        b"* STATUS a]\xff (HIGHESTMODSEQ 01 MESSAGES 4294967295 RECENT 04294967295 UIDNEXT 04294967295 UIDVALIDITY 04294967295 UNSEEN 04294967295 MESSAGES 007)\r\n",
        r#"MailboxData(Status { mailbox: "a]�", status: [HighestModSeq(1), Messages(4294967295), Recent(4294967295), UidNext(4294967295), UidValidity(4294967295), Unseen(4294967295), Messages(7)] })"#,
    ),
    (b"* STATUS x (UNSEEN 1 SIZE 5)\r\n", "Error"),
    (b"* STATUS x (MAILBOXID (F1))\r\n", "Error"),
];

static FLAGS: Rows = &[
    (
        b"* FLAGS (OIB-Seen-[Gmail]/All)\r\n",
        r#"MailboxData(Flags(["OIB-Seen-[Gmail]/All"]))"#,
    ),
    (
        b"* FLAGS (\\Answered \\*)\r\n",
        r#"MailboxData(Flags(["\\Answered", "\\*"]))"#,
    ),
    (
        b"* FLAGS (\\Answered $Forwarded )\r\n",
        r#"MailboxData(Flags(["\\Answered", "$Forwarded"]))"#,
    ),
    (b"* flags ()\r\n", "MailboxData(Flags([]))"),
    (b"* FLAGS (\xff)\r\n", "Error"),
    (
        b"* X-GM-LABELS (\\Inbox \"\\\\\" \"a b\")\r\n",
        r#"MailboxData(GmailLabels(["\\Inbox", "\\\\", "a b"]))"#,
    ),
    (
        b"* X-GM-MSGID 1278455344230334865\r\n",
        "MailboxData(GmailMsgId(1278455344230334865))",
    ),
    (b"* x-gm-labels ( )\r\n", "MailboxData(GmailLabels([]))"),
    (b"* x-gm-msgid 6\r\n", "MailboxData(GmailMsgId(6))"),
    (b"* x-gm-thrid 7\r\n", "MailboxData(GmailThrId(7))"),
    (
        b"* X-GM-THRID 1266894439832287888\r\n",
        "MailboxData(GmailThrId(1266894439832287888))",
    ),
    (
        b"* X-GM-LABELS (\\\xc3\xa9 a] \"\xff\")\r\n",
        r#"MailboxData(GmailLabels(["\\é", "a]", "�"]))"#,
    ),
];

static ANNOTATIONS: Rows = &[
    (
        b"* METADATA \"x\" (/shared/comment {1}\r\na /private/vendor/v/a \"\" \"/shared/admin *\" nil)\r\n",
        r#"MailboxData(MetadataSolicited { mailbox: "x", values: [Metadata { entry: "/shared/comment", value: Some("a") }, Metadata { entry: "/private/vendor/v/a", value: Some("") }, Metadata { entry: "/shared/admin *", value: None }] })"#,
    ),
    (
        b"* METADATA \"\xff\" (/shared/comment {1}\r\n\xfe)\r\n",
        r#"MailboxData(MetadataSolicited { mailbox: "�", values: [Metadata { entry: "/shared/comment", value: Some("�") }] })"#,
    ),
    (
        b"* METADATA \"x\" \r\n",
        r#"MailboxData(MetadataUnsolicited { mailbox: "x", values: [] })"#,
    ),
    (
        b"* METADATA \"x\" /shared/comment /private/vendor/v/a\r\n",
        r#"MailboxData(MetadataUnsolicited { mailbox: "x", values: ["/shared/comment", "/private/vendor/v/a"] })"#,
    ),
    (
        b"* metadata \"inbox\" /shared/vendor/cmu/cyrus-imapd.2/A_b /shared/admin /private/comment/1\r\n",
        r#"MailboxData(MetadataUnsolicited { mailbox: "inbox", values: ["/shared/vendor/cmu/cyrus-imapd.2/A_b", "/shared/admin", "/private/comment/1"] })"#,
    ),
    (
        b"* metadata \"x\" /shared/vendor/a /private/comment//b/\r\n",
        r#"MailboxData(MetadataUnsolicited { mailbox: "x", values: ["/shared/vendor/a", "/private/comment//b/"] })"#,
    ),
    (
        b"* METADATA \"x\" ({22}\r\n/private/comment/\x1a\x1f \"\x7f NIL)\r\n",
        r#"MailboxData(MetadataSolicited { mailbox: "x", values: [Metadata { entry: "/private/comment/\u{1a}\u{1f} \"\u{7f}", value: None }] })"#,
    ),
    (
        b"* METADATA \"x\" ({18}\r\n/private/comment\r% NIL {20}\r\n/private/comment/a\r% NIL\t )\r\n",
        r#"MailboxData(MetadataSolicited { mailbox: "x", values: [Metadata { entry: "/private/comment\r%", value: None }, Metadata { entry: "/private/comment/a\r%", value: None }] })"#,
    ),
    (
        b"* METADATA \"x\" (/shared/comment/a] \" \xff\xc3\xa9A \" \"/shared/comment \xff\" \"b\")\r\n",
        r#"MailboxData(MetadataSolicited { mailbox: "x", values: [Metadata { entry: "/shared/comment/a]", value: Some(" �éA ") }, Metadata { entry: "/shared/comment �", value: Some("b") }] })"#,
    ),
];

static NO_ANNOTATIONS: Rows = &[
    (b"* METADATA x /shared/comment\r\n", "Error"),
    (
        b"* METADATA \"x\" (\"/private/comment/a *\" NIL)\r\n",
        "Error",
    ),
    (b"* METADATA \"x\" (/private/comment/\x80 NIL)\r\n", "Error"),
    (
        b"* METADATA \"x\" ({18}\r\n/private/comment/\x19 NIL)\r\n",
        "Error",
    ),
    (b"* METADATA \"x\" (\"/shared/vendor/a%\" NIL)\r\n", "Error"),
    (b"* METADATA \"x\" (/private/vendor NIL)\r\n", "Error"),
    (b"* METADATA \"x\" (/private/vendor/ NIL)\r\n", "Error"),
    (
        b"* METADATA \"x\" ({18}\r\n/private/comment/\0 NIL)\r\n",
        "Error",
    ),
    (
        b"* METADATA \"x\" (\"/private/comment/%\" NIL)\r\n",
        "Error",
    ),
    (
        b"* METADATA \"x\" (\"/shared/comment/a*b\" NIL)\r\n",
        "Error",
    ),
    (b"* METADATA \"x\" (/private/admin NIL)\r\n", "Error"),
    (b"* METADATA \"x\" (/Shared/comment NIL)\r\n", "Error"),
    (b"* METADATA \"x\" (/shared/commented NIL)\r\n", "Error"),
    (b"* METADATA \"x\" ()\r\n", "Error"),
    (b"* METADATA \"x\" (\"/shared/vendor//a\" NIL)\r\n", "Error"),
    (b"* METADATA \"x\" \"/shared/vendor x\"\r\n", "Error"),
];

/// The tables of these lines.
pub fn lines() -> [Rows; 6] {
    [NUMBERS, NAMES, STATES, FLAGS, ANNOTATIONS, NO_ANNOTATIONS]
}

#[test]
fn lines_of_mailboxes(rt: HostRuntime) {
    assert_lines(&rt, rt.alloc(), &lines());
}
