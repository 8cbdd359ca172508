//! The readers of data, called by themselves.

use crate::answers::{
    Reads, Rows, assert_each_reads, assert_reads, assert_row, says, says_at, says_marked,
};
use imap_data::at;
use imap_data::readers::{
    acl, capability_data, enabled_data, flag, flag_list, flag_perm, gmail_label_list, gmail_msgid,
    gmail_thrid, id, list_or_lsub, list_rights, mailbox, mailbox_datum, metadata_solicited,
    metadata_unsolicited, my_rights, quota, quota_root, response_code, status, uid_set, vanished,
};
use std::alloc::Global;
use std::test::*;

/// A reader of statuses, flags, codes or capabilities.
enum Words {
    Status,
    Flag,
    PermanentFlag,
    Flags,
    Labels,
    Code,
    Capabilities,
    Enabled,
}

impl Reads for Words {
    fn reads(&self, alloc: Global, input: &[u8], want: &str) -> bool {
        match self {
            Words::Status => says(alloc, status(input), want),
            Words::Flag => says(alloc, flag(input), want),
            Words::PermanentFlag => says(alloc, flag_perm(input), want),
            Words::Flags => says(alloc, flag_list(alloc, input), want),
            Words::Labels => says(alloc, gmail_label_list(alloc, input), want),
            Words::Code => says(alloc, response_code(alloc, input), want),
            Words::Capabilities => says(alloc, capability_data(alloc, input), want),
            Words::Enabled => says(alloc, enabled_data(alloc, input), want),
        }
    }
}

static STATUSES_AND_FLAGS: &[(Words, &[u8], &str)] = &[
    (Words::Status, b"PreAuth ", r#"PreAuth then " ""#),
    (Words::Status, b"FINE ", "Error"),
    (Words::Flag, b"\\Seen)", r#""\\Seen" then ")""#),
    (Words::PermanentFlag, b"\\*)", r#""\\*" then ")""#),
    (
        Words::Flags,
        b"(\\Answered $Forwarded )x",
        r#"["\\Answered", "$Forwarded"] then "x""#,
    ),
    (
        Words::Labels,
        b"X-GM-LABELS (\"\\\\\")\r",
        r#"["\\\\"] then "\r""#,
    ),
];

#[test]
fn statuses_and_flags(rt: HostRuntime) {
    assert_each_reads(&rt, rt.alloc(), STATUSES_AND_FLAGS);
}

static CODES_AND_CAPABILITIES: &[(Words, &[u8], &str)] = &[
    (
        Words::Code,
        b"[appenduid 38505 4:2]x",
        r#"AppendUid(38505, [UidRange(2..=4)]) then "x""#,
    ),
    (Words::Code, b"[CAPABILITY X]", "Error"),
    (Words::Code, b"[READ-ONLYX]", "Error"),
    (Words::Code, b"[UIDNEXT 4294967296]", "Error"),
    (Words::Code, b"[NOMODSEQ]", "Error"),
    (Words::Code, b"[UIDNEXT 42", "Incomplete(Unknown)"),
    (Words::Code, b"[BADCHARSET ({5}\r\n", "Incomplete(Size(5))"),
    (
        Words::Capabilities,
        b"CAPABILITY IMAP4rev12\r",
        r#"[Imap4rev1] then "2\r""#,
    ),
    (Words::Capabilities, b"CAPABILITY\r", "Error"),
    (
        Words::Enabled,
        b"ENABLED IMAP4rev1\r",
        r#"[Atom("IMAP4rev1")] then "\r""#,
    ),
];

#[test]
fn codes_and_capabilities(rt: HostRuntime) {
    assert_each_reads(&rt, rt.alloc(), CODES_AND_CAPABILITIES);
}

/// A reader of what is said of mailboxes.
enum OfMailboxes {
    Name,
    Datum,
    List,
    Annotations,
    ChangedAnnotations,
    MessageId,
    ThreadId,
}

impl Reads for OfMailboxes {
    fn reads(&self, alloc: Global, input: &[u8], want: &str) -> bool {
        match self {
            OfMailboxes::Name => says_marked(alloc, mailbox(alloc, input), want),
            OfMailboxes::Datum => says(alloc, mailbox_datum(alloc, input), want),
            OfMailboxes::List => says(alloc, list_or_lsub(alloc, input), want),
            OfMailboxes::Annotations => says(alloc, metadata_solicited(alloc, input), want),
            OfMailboxes::ChangedAnnotations => {
                says(alloc, metadata_unsolicited(alloc, input), want)
            }
            OfMailboxes::MessageId => says(alloc, gmail_msgid(input), want),
            OfMailboxes::ThreadId => says(alloc, gmail_thrid(input), want),
        }
    }
}

static MAILBOXES: &[(OfMailboxes, &[u8], &str)] = &[
    (
        OfMailboxes::Name,
        b"inBOX ",
        r#"Borrowed("INBOX") then " ""#,
    ),
    (OfMailboxes::Name, b"\"inbox 2\"", r#"Borrowed("inbox 2")"#),
    (OfMailboxes::Name, b"\"\xff\"", r#"Owned("�")"#),
    (
        OfMailboxes::MessageId,
        b"X-GM-MSGID 1278455344230334865)",
        r#"1278455344230334865 then ")""#,
    ),
    (OfMailboxes::ThreadId, b"x-gm-thrid 7)", r#"7 then ")""#),
    (
        OfMailboxes::List,
        b"lsub (\\Marked) NIL inbox\r",
        r#"List(MailboxListData { name_attributes: [Marked], delimiter: None, name: "INBOX" }) then "\r""#,
    ),
    (OfMailboxes::List, b"SEARCH 1\r", "Error"),
    (
        OfMailboxes::Annotations,
        b"METADATA \"x\" (/shared/comment NIL)\r",
        r#"MetadataSolicited { mailbox: "x", values: [Metadata { entry: "/shared/comment", value: None }] } then "\r""#,
    ),
    (
        OfMailboxes::ChangedAnnotations,
        b"METADATA \"x\" /shared/comment\r",
        r#"MetadataUnsolicited { mailbox: "x", values: ["/shared/comment"] } then "\r""#,
    ),
];

#[test]
fn mailboxes(rt: HostRuntime) {
    assert_each_reads(&rt, rt.alloc(), MAILBOXES);
}

static DATA_OF_MAILBOXES: Rows = &[
    (b"18 EXISTS\r", r#"Exists(18) then "\r""#),
    (b"SEARCH 4294967296\r", r#"Search([]) then "4294967296\r""#),
    (b"SORT 2 3", "Incomplete(Unknown)"),
    (b"LIST (\\All2) \"/\" x\r", "Error"),
    (b"LIST (\\Noselect", "Incomplete(Unknown)"),
    (b"STATUS x (UNSEEN 1 SIZE 5)", "Error"),
];

#[test]
fn data_of_mailboxes(rt: HostRuntime) {
    assert_reads(&rt, rt.alloc(), &OfMailboxes::Datum, DATA_OF_MAILBOXES);
}

/// A reader of sets, or of lines of extensions.
enum Extension {
    Uids,
    Vanished,
    Quota,
    QuotaRoot,
    Id,
    Acl,
    ListRights,
    MyRights,
}

impl Reads for Extension {
    fn reads(&self, alloc: Global, input: &[u8], want: &str) -> bool {
        match self {
            Extension::Uids => says(alloc, uid_set(alloc, input), want),
            Extension::Vanished => says(alloc, vanished(alloc, input), want),
            Extension::Quota => says(alloc, quota(alloc, input), want),
            Extension::QuotaRoot => says(alloc, quota_root(alloc, input), want),
            Extension::Id => says(alloc, id(alloc, input), want),
            Extension::Acl => says(alloc, acl(alloc, input), want),
            Extension::ListRights => says(alloc, list_rights(alloc, input), want),
            Extension::MyRights => says(alloc, my_rights(alloc, input), want),
        }
    }
}

static SETS_QUOTAS_AND_IDENTITIES: &[(Extension, &[u8], &str)] = &[
    (
        Extension::Uids,
        b"3,9:9,8:1,x",
        r#"[Uid(3), UidRange(9..=9), UidRange(1..=8)] then ",x""#,
    ),
    (
        Extension::Vanished,
        b"VANISHED (EARLIER) 41,43:116\r",
        r#"(true, [41..=41, 43..=116]) then "\r""#,
    ),
    (
        Extension::Quota,
        b"QUOTA \"\" (STORAGE 1 2)\r",
        r#"Quota { root_name: "", resources: [QuotaResource { name: Storage, usage: 1, limit: 2 }] } then "\r""#,
    ),
    (
        Extension::QuotaRoot,
        b"QUOTAROOT INBOX user\r",
        r#"QuotaRoot { mailbox_name: "INBOX", quota_root_names: ["user"] } then "\r""#,
    ),
    (
        Extension::Id,
        b"id\t(\"a\" {1}\r\n1  \"b\" nil )\r",
        r#"Some({"a": "1"}) then "\r""#,
    ),
];

#[test]
fn sets_quotas_and_identities(rt: HostRuntime) {
    assert_each_reads(&rt, rt.alloc(), SETS_QUOTAS_AND_IDENTITIES);
}

static RIGHTS: &[(Extension, &[u8], &str)] = &[
    (
        Extension::Acl,
        b"acl inbox Fred lr \"My Name\" a\r",
        r#"Acl { mailbox: "INBOX", acls: [AclEntry { identifier: "Fred", rights: [Lookup, Read] }, AclEntry { identifier: "My Name", rights: [Administer] }] } then "\r""#,
    ),
    (
        Extension::ListRights,
        b"LISTRIGHTS INBOX smith \"\" la\r",
        r#"ListRights { mailbox: "INBOX", identifier: "smith", required: [], optional: [Lookup, Administer] } then "\r""#,
    ),
    (
        Extension::MyRights,
        b"MYRIGHTS INBOX rw\r",
        r#"MyRights { mailbox: "INBOX", rights: [Read, Write] } then "\r""#,
    ),
];

#[test]
fn rights(rt: HostRuntime) {
    assert_each_reads(&rt, rt.alloc(), RIGHTS);
}

#[test]
fn lists_at_positions(rt: HostRuntime) {
    let alloc = rt.alloc();
    let flags = at::flag_list(alloc, b"FLAGS (\\Seen \\* $x )x", 6);
    let want =
        "[Span { start: 7, end: 12 }, Span { start: 13, end: 15 }, Span { start: 16, end: 18 }] up to 20";
    assert_row(&rt, says_at(alloc, flags, want), want);
    let seen = at::flag_list(alloc, b"* 2 FETCH (UID 7 FLAGS (\\Seen))\r\n", 23);
    let want = "[Span { start: 24, end: 29 }] up to 30";
    assert_row(&rt, says_at(alloc, seen, want), want);
    let none = at::flag_list(alloc, b"(\xc3)", 0);
    assert_row(&rt, says_at(alloc, none, "Error"), "no flags");
    let labels = at::gmail_label_list(alloc, b"(x-gm-labels (\\Sent \"a b\")\r", 1);
    let want = "[Span { start: 14, end: 19 }, Span { start: 21, end: 24 }] up to 26";
    assert_row(&rt, says_at(alloc, labels, want), want);
}
