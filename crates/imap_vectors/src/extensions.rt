//! Lines of extensions: VANISHED, QUOTA, QUOTAROOT, ID, ACL, LISTRIGHTS and MYRIGHTS.

use crate::answers::{Rows, assert_lines};
use std::test::*;

static VANISHED: Rows = &[
    (
        b"* VANISHED 4:2\r\n",
        "Vanished { earlier: false, uids: [4..=2] }",
    ),
    (
        b"* VANISHED (EARLIER) 41,43:116\r\n",
        "Vanished { earlier: true, uids: [41..=41, 43..=116] }",
    ),
    (
        b"* vanished\t (earlier) \t9,0,7\r\n",
        "Vanished { earlier: true, uids: [9..=9, 0..=0, 7..=7] }",
    ),
    (
        b"* VANISHED 04294967295,0:04294967295,04294967295:0\r\n",
        "Vanished { earlier: false, uids: [4294967295..=4294967295, 0..=4294967295, 4294967295..=0] }",
    ),
    (b"* VANISHED", "Incomplete(Unknown)"),
    (b"* VANISHED (EARLY) 1\r\n", "Error"),
];

static QUOTAS: Rows = &[
    (
        b"* QUOTA \"\" (\"STORAGE\" 1 2)\r\n",
        r#"Quota(Quota { root_name: "", resources: [QuotaResource { name: Atom("STORAGE"), usage: 1, limit: 2 }] })"#,
    ),
    (
        b"* QUOTA \"\" (STORAGE 1 2)\r\n",
        r#"Quota(Quota { root_name: "", resources: [QuotaResource { name: Storage, usage: 1, limit: 2 }] })"#,
    ),
    (
        b"* QUOTA a (message 3\t4)\r\n",
        r#"Quota(Quota { root_name: "a", resources: [QuotaResource { name: Message, usage: 3, limit: 4 }] })"#,
    ),
    (
        b"* quota \tA\t (storage\t 18446744073709551615 \t4294967296\t x 0 0 \tmessage 3 4)\r\n",
        r#"Quota(Quota { root_name: "A", resources: [QuotaResource { name: Storage, usage: 18446744073709551615, limit: 4294967296 }, QuotaResource { name: Atom("x"), usage: 0, limit: 0 }, QuotaResource { name: Message, usage: 3, limit: 4 }] })"#,
    ),
    (
        b"* QUOTA \"\" ()\r\n",
        r#"Quota(Quota { root_name: "", resources: [] })"#,
    ),
    (b"* QUOTA \"\" (STORAGE2 1 2)\r\n", "Error"),
    (
        b"* QUOTA \"\" (STORAGE 18446744073709551616 2)\r\n",
        "Error",
    ),
    (
        b"* QUOTAROOT NIL\r\n",
        r#"QuotaRoot(QuotaRoot { mailbox_name: "NIL", quota_root_names: [] })"#,
    ),
    (
        b"* QUOTAROOT INBOX \"\" user\r\n",
        r#"QuotaRoot(QuotaRoot { mailbox_name: "INBOX", quota_root_names: ["", "user"] })"#,
    ),
    (
        b"* quotaroot\t inbox \tb\t a c\r\n",
        r#"QuotaRoot(QuotaRoot { mailbox_name: "inbox", quota_root_names: ["b", "a", "c"] })"#,
    ),
    (
        b"* QUOTA {5}\r\nuser\xff (STORAGE 0512 18446744073709551615 MESSAGE 18446744073709551615 010 {1}\r\n\xff 1 2 a]\xff 3 4)\r\n",
        r#"Quota(Quota { root_name: "user�", resources: [QuotaResource { name: Storage, usage: 512, limit: 18446744073709551615 }, QuotaResource { name: Message, usage: 18446744073709551615, limit: 10 }, QuotaResource { name: Atom("�"), usage: 1, limit: 2 }, QuotaResource { name: Atom("a]�"), usage: 3, limit: 4 }] })"#,
    ),
    (
        b"* QUOTAROOT \"inbox\xff\" \"\xff\" a]\xff {1}\r\nb\r\n",
        r#"QuotaRoot(QuotaRoot { mailbox_name: "inbox�", quota_root_names: ["�", "a]�", "b"] })"#,
    ),
];

static IDENTITIES: Rows = &[
    (
        b"* ID (\"a\" \"1\" \"b\" NIL \"a\" \"2\")\r\n",
        r#"Id(Some({"a": "2"}))"#,
    ),
    (
        b"* ID \t(\"A\"\t \"1\" \t\"A\"\t\tNIL\t \t)\r\n",
        r#"Id(Some({"A": "1"}))"#,
    ),
    (b"* ID (\"a\" NIL)\r\n", "Id(Some({}))"),
    (b"* ID NIL\r\n", "Id(None)"),
    (
        b"* ID (\"\xfe\" \"1\" {1}\r\n\xff \"Cyrus \xc3\xa9\xff\")\r\n",
        r#"Id(Some({"�": "Cyrus é�"}))"#,
    ),
    (b"* I", "Incomplete(Unknown)"),
    (b"* ID (\"a\" \"1\"", "Incomplete(Unknown)"),
    (b"* ID ()\r\n", "Error"),
];

static LISTS_OF_RIGHTS: Rows = &[
    (
        b"* LISTRIGHTS INBOX smith la r swi\r\n",
        r#"ListRights(ListRights { mailbox: "INBOX", identifier: "smith", required: [Lookup, Administer], optional: [Read, Seen, Write, Insert] })"#,
    ),
    (
        b"* MYRIGHTS INBOX rwz\r\n",
        r#"MyRights(MyRights { mailbox: "INBOX", rights: [Read, Write, Custom('z')] })"#,
    ),
    (
        b"* MYRIGHTS x lrswipkxteancd\r\n",
        r#"MyRights(MyRights { mailbox: "x", rights: [Lookup, Read, Seen, Write, Insert, Post, CreateMailbox, DeleteMailbox, DeleteMessage, Expunge, Administer, Annotation, OldCreate, OldDelete] })"#,
    ),
    (
        b"* listrights\t inbox \tb\t wl \tr\t as\r\n",
        r#"ListRights(ListRights { mailbox: "INBOX", identifier: "b", required: [Write, Lookup], optional: [Read, Administer, Seen] })"#,
    ),
    (
        b"* myrights \tinbox\t wl\r\n",
        r#"MyRights(MyRights { mailbox: "INBOX", rights: [Write, Lookup] })"#,
    ),
    (
        b"* listrights\t x \tsmith\t \"l\"\"r\"\t s\r\n",
        r#"ListRights(ListRights { mailbox: "x", identifier: "smith", required: [Lookup], optional: [Read, Seen] })"#,
    ),
    (
        b"* LISTRIGHTS \"a]\" \"b\xff\" zLL] \"\" {3}\r\nlr\xff lz\r\n",
        r#"ListRights(ListRights { mailbox: "a]", identifier: "b�", required: [Custom('z'), Custom('L'), Custom('L'), Custom(']')], optional: [Lookup, Read, Custom('�'), Lookup, Custom('z')] })"#,
    ),
    (
        b"* MYRIGHTS \"x\" {4}\r\nllL\xff\r\n",
        r#"MyRights(MyRights { mailbox: "x", rights: [Lookup, Lookup, Custom('L'), Custom('�')] })"#,
    ),
    (
        b"* MYRIGHTS \"\" \"\"\r\n",
        r#"MyRights(MyRights { mailbox: "", rights: [] })"#,
    ),
    (b"* MYRIGHTS", "Incomplete(Unknown)"),
    (b"* MYRIGHTS x", "Incomplete(Unknown)"),
    (b"* LISTRIGHTS x smith la r", "Incomplete(Unknown)"),
];

static RIGHTS: Rows = &[
    (
        b"* ACL INBOX Fred lrz\r\n",
        r#"Acl(Acl { mailbox: "INBOX", acls: [AclEntry { identifier: "Fred", rights: [Lookup, Read, Custom('z')] }] })"#,
    ),
    (
        b"* ACL INBOX\r\n",
        r#"Acl(Acl { mailbox: "INBOX", acls: [] })"#,
    ),
    (
        b"* acl \tinbox\t b \twr a\tl\r\n",
        r#"Acl(Acl { mailbox: "INBOX", acls: [AclEntry { identifier: "b", rights: [Write, Read] }, AclEntry { identifier: "a", rights: [Lookup] }] })"#,
    ),
    (
        b"* ACL\t \"x\"fred \tl\t y\t\tr\r\n",
        r#"Acl(Acl { mailbox: "x", acls: [AclEntry { identifier: "fred", rights: [Lookup] }, AclEntry { identifier: "y", rights: [Read] }] })"#,
    ),
    (b"* ACL x \t\r\n", r#"Acl(Acl { mailbox: "x", acls: [] })"#),
    (
        b"* ACL {5}\r\nInbox {2}\r\na\xff {2}\r\nlr b] \"\" \"c\" LL]\xff\r\n",
        r#"Acl(Acl { mailbox: "INBOX", acls: [AclEntry { identifier: "a�", rights: [Lookup, Read] }, AclEntry { identifier: "b]", rights: [] }, AclEntry { identifier: "c", rights: [Custom('L'), Custom('L'), Custom(']'), Custom('�')] }] })"#,
    ),
    (b"* ACL", "Incomplete(Unknown)"),
    (b"* ACL\r\n", "Error"),
];

/// The tables of these lines.
pub fn lines() -> [Rows; 5] {
    [VANISHED, QUOTAS, IDENTITIES, RIGHTS, LISTS_OF_RIGHTS]
}

#[test]
fn lines_of_extensions(rt: HostRuntime) {
    assert_lines(&rt, rt.alloc(), &lines());
}
