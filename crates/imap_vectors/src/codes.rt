//! Response codes and capabilities.

use crate::answers::{Rows, assert_lines};
use std::test::*;

static WITHOUT_DATA: Rows = &[
    (
        b"* OK [ALERT] \r\n",
        r#"Data { status: Ok, outcome: Outcome { code: Some(Alert), information: Some("") } }"#,
    ),
    (
        b"* OK [ALERT]\r\n",
        "Data { status: Ok, outcome: Outcome { code: Some(Alert), information: None } }",
    ),
    (
        b"* OK [ALERT]\xc3\xa9\r\n",
        r#"Data { status: Ok, outcome: Outcome { code: Some(Alert), information: Some("") } }"#,
    ),
    (
        b"* NO [Parse] x\r\n",
        r#"Data { status: No, outcome: Outcome { code: Some(Parse), information: Some("x") } }"#,
    ),
    (
        b"+ [READ-ONLY]\r\n",
        "Continue(Outcome { code: Some(ReadOnly), information: None })",
    ),
    (
        b"+ [READ-WRITE]\r\n",
        "Continue(Outcome { code: Some(ReadWrite), information: None })",
    ),
    (
        b"+ [TRYCREATE]\r\n",
        "Continue(Outcome { code: Some(TryCreate), information: None })",
    ),
    (
        b"+ [UIDNOTSTICKY]\r\n",
        "Continue(Outcome { code: Some(UidNotSticky), information: None })",
    ),
    (
        b"+ [METADATA TOOMANY]\r\n",
        "Continue(Outcome { code: Some(MetadataTooMany), information: None })",
    ),
    (
        b"+ [METADATA NOPRIVATE]\r\n",
        "Continue(Outcome { code: Some(MetadataNoPrivate), information: None })",
    ),
];

static WITH_NUMBERS: Rows = &[
    (
        b"* OK [UIDNEXT 4392] x\r\n",
        r#"Data { status: Ok, outcome: Outcome { code: Some(UidNext(4392)), information: Some("x") } }"#,
    ),
    (
        b"+ [UIDVALIDITY 3857529045]\r\n",
        "Continue(Outcome { code: Some(UidValidity(3857529045)), information: None })",
    ),
    (
        b"+ [UNSEEN 12]\r\n",
        "Continue(Outcome { code: Some(Unseen(12)), information: None })",
    ),
    (
        b"+ [HIGHESTMODSEQ 18446744073709551615]\r\n",
        "Continue(Outcome { code: Some(HighestModSeq(18446744073709551615)), information: None })",
    ),
    (
        b"+ [METADATA LONGENTRIES 4294967296]\r\n",
        "Continue(Outcome { code: Some(MetadataLongEntries(4294967296)), information: None })",
    ),
    (
        b"+ [METADATA MAXSIZE 1024]\r\n",
        "Continue(Outcome { code: Some(MetadataMaxSize(1024)), information: None })",
    ),
    (
        b"+ [metadata maxsize 18446744073709551615]\r\n",
        "Continue(Outcome { code: Some(MetadataMaxSize(18446744073709551615)), information: None })",
    ),
    (
        b"+ [metadata longentries 2]\r\n",
        "Continue(Outcome { code: Some(MetadataLongEntries(2)), information: None })",
    ),
    (
        b"+ [uidnext 0]\r\n",
        "Continue(Outcome { code: Some(UidNext(0)), information: None })",
    ),
    (
        b"+ [uidvalidity 0]\r\n",
        "Continue(Outcome { code: Some(UidValidity(0)), information: None })",
    ),
    (
        b"+ [unseen 0]\r\n",
        "Continue(Outcome { code: Some(Unseen(0)), information: None })",
    ),
    (
        b"+ [highestmodseq 6]\r\n",
        "Continue(Outcome { code: Some(HighestModSeq(6)), information: None })",
    ),
];

static WITH_ZEROS_IN_FRONT: Rows = &[
    (
        b"* OK [UIDNEXT 04294967295] Predicted next UID\r\n",
        r#"Data { status: Ok, outcome: Outcome { code: Some(UidNext(4294967295)), information: Some("Predicted next UID") } }"#,
    ),
    (
        b"* OK [UIDVALIDITY 04294967295] UIDs valid\r\n",
        r#"Data { status: Ok, outcome: Outcome { code: Some(UidValidity(4294967295)), information: Some("UIDs valid") } }"#,
    ),
    (
        b"* OK [UNSEEN 04294967295] First unseen\r\n",
        r#"Data { status: Ok, outcome: Outcome { code: Some(Unseen(4294967295)), information: Some("First unseen") } }"#,
    ),
    (
        b"* OK [HIGHESTMODSEQ 00]\r\n",
        "Data { status: Ok, outcome: Outcome { code: Some(HighestModSeq(0)), information: None } }",
    ),
    (
        b"* OK [METADATA LONGENTRIES 018446744073709551615]\r\n",
        "Data { status: Ok, outcome: Outcome { code: Some(MetadataLongEntries(18446744073709551615)), information: None } }",
    ),
    (
        b"* OK [METADATA LONGENTRIES 00]\r\n",
        "Data { status: Ok, outcome: Outcome { code: Some(MetadataLongEntries(0)), information: None } }",
    ),
    (
        b"* OK [METADATA MAXSIZE 00]\r\n",
        "Data { status: Ok, outcome: Outcome { code: Some(MetadataMaxSize(0)), information: None } }",
    ),
];

static WITH_LISTS: Rows = &[
    (
        b"+ [BADCHARSET]\r\n",
        "Continue(Outcome { code: Some(BadCharset(None)), information: None })",
    ),
    (
        b"+ [BADCHARSET (US-ASCII \"UTF-8\" )]\r\n",
        r#"Continue(Outcome { code: Some(BadCharset(Some(["US-ASCII", "UTF-8"]))), information: None })"#,
    ),
    (
        b"* OK [CAPABILITY IMAP4rev1 AUTH=PLAIN X] r\r\n",
        r#"Data { status: Ok, outcome: Outcome { code: Some(Capabilities([Imap4rev1, Auth("PLAIN"), Atom("X")])), information: Some("r") } }"#,
    ),
    (
        b"* OK [PERMANENTFLAGS (\\Seen \\*)] l\r\n",
        r#"Data { status: Ok, outcome: Outcome { code: Some(PermanentFlags(["\\Seen", "\\*"])), information: Some("l") } }"#,
    ),
    (
        b"+ [badcharset (b a)]\r\n",
        r#"Continue(Outcome { code: Some(BadCharset(Some(["b", "a"]))), information: None })"#,
    ),
    (
        b"+ [capability imap4REV1 auth=x]\r\n",
        r#"Continue(Outcome { code: Some(Capabilities([Imap4rev1, Auth("x")])), information: None })"#,
    ),
    (
        b"+ [permanentflags (b \\a)]\r\n",
        r#"Continue(Outcome { code: Some(PermanentFlags(["b", "\\a"])), information: None })"#,
    ),
    (
        b"* NO [BADCHARSET (UTF-8 {1}\r\n\xff a]\xff \t )] x\r\n",
        r#"Data { status: No, outcome: Outcome { code: Some(BadCharset(Some(["UTF-8", "�", "a]�"]))), information: Some("x") } }"#,
    ),
    (
        b"* OK [PERMANENTFLAGS ()] No permanent flags permitted\r\n",
        r#"Data { status: Ok, outcome: Outcome { code: Some(PermanentFlags([])), information: Some("No permanent flags permitted") } }"#,
    ),
];

static WITH_SETS: Rows = &[
    (
        b"* OK [APPENDUID 38505 4:2]\r\n",
        "Data { status: Ok, outcome: Outcome { code: Some(AppendUid(38505, [UidRange(2..=4)])), information: None } }",
    ),
    (
        b"+ [appenduid 1 9,7]\r\n",
        "Continue(Outcome { code: Some(AppendUid(1, [Uid(9), Uid(7)])), information: None })",
    ),
    (
        b"+ [copyuid 0 0:0 0,4:3]\r\n",
        "Continue(Outcome { code: Some(CopyUid(0, [UidRange(0..=0)], [Uid(0), UidRange(3..=4)])), information: None })",
    ),
    (
        b"* OK [COPYUID 9 1:2,5 7] d\r\n",
        r#"Data { status: Ok, outcome: Outcome { code: Some(CopyUid(9, [UidRange(1..=2), Uid(5)], [Uid(7)])), information: Some("d") } }"#,
    ),
    (
        b"* OK [APPENDUID 04294967295 04294967295,0:04294967295]\r\n",
        "Data { status: Ok, outcome: Outcome { code: Some(AppendUid(4294967295, [Uid(4294967295), UidRange(0..=4294967295)])), information: None } }",
    ),
    (
        b"* OK [APPENDUID 0 5]\r\n",
        "Data { status: Ok, outcome: Outcome { code: Some(AppendUid(0, [Uid(5)])), information: None } }",
    ),
    (
        b"* OK [COPYUID 04294967295 3 4:2,9] Done\r\n",
        r#"Data { status: Ok, outcome: Outcome { code: Some(CopyUid(4294967295, [Uid(3)], [UidRange(2..=4), Uid(9)])), information: Some("Done") } }"#,
    ),
];

// What is no code is text, in which a literal that was promised is still waited for.
static TEXT_IN_BRACKETS: Rows = &[
    (b"* OK [BADCHARSET ({5}\r\n", "Incomplete(Size(5))"),
    (
        b"* OK [BADCHARSET ({5}\r\nabcdex",
        r#"Data { status: Ok, outcome: Outcome { code: None, information: Some("[BADCHARSET ({5}") } } then "abcdex""#,
    ),
    (
        b"* OK [CAPABILITY X] r\r\n",
        r#"Data { status: Ok, outcome: Outcome { code: None, information: Some("[CAPABILITY X] r") } }"#,
    ),
    (
        b"* OK [MAILBOXID (F1)] x\r\n",
        r#"Data { status: Ok, outcome: Outcome { code: None, information: Some("[MAILBOXID (F1)] x") } }"#,
    ),
    (
        b"* NO [BADCHARSET ()] x\r\n",
        r#"Data { status: No, outcome: Outcome { code: None, information: Some("[BADCHARSET ()] x") } }"#,
    ),
];

static CAPABILITIES: Rows = &[
    (
        b"* CAPABILITY IMAP4rev1 AUTH=PLAIN X\r\n",
        r#"Capabilities([Imap4rev1, Auth("PLAIN"), Atom("X")])"#,
    ),
    (
        b"* capability auth=PLAIN AUTH= X imap4REV1 imap4REV1\r\n",
        r#"Capabilities([Auth("PLAIN"), Atom("AUTH="), Atom("X"), Imap4rev1, Imap4rev1])"#,
    ),
    (b"* CAPABILITY IMAP4rev2\r\n", "Error"),
    (b"* CAPABILITY IMAP4rev12\r\n", "Error"),
    (b"* ENABLED\r\n", "Capabilities([])"),
    (
        b"* enabled b a\r\n",
        r#"Capabilities([Atom("b"), Atom("a")])"#,
    ),
    (
        b"* ENABLED IMAP4rev1\r\n",
        r#"Capabilities([Atom("IMAP4rev1")])"#,
    ),
    (
        b"* ENABLED IMAP4rev1x\r\n",
        r#"Capabilities([Atom("IMAP4rev1x")])"#,
    ),
    (
        b"* CAPABILITY IMAP4rev1 LITERAL+ AUTH=\xc3\xa9+ \xc3\xa9 \r\n",
        r#"Capabilities([Imap4rev1, Atom("LITERAL+"), Auth("é+"), Atom("é")])"#,
    ),
    (
        b"* ENABLED \xc3\xa9+ CONDSTORE QRESYNC   \r\n",
        r#"Capabilities([Atom("é+"), Atom("CONDSTORE"), Atom("QRESYNC")])"#,
    ),
];

/// The tables of these lines.
pub fn lines() -> [Rows; 7] {
    [
        WITHOUT_DATA,
        WITH_NUMBERS,
        WITH_ZEROS_IN_FRONT,
        WITH_LISTS,
        WITH_SETS,
        TEXT_IN_BRACKETS,
        CAPABILITIES,
    ]
}

#[test]
fn lines_with_codes_and_capabilities(rt: HostRuntime) {
    assert_lines(&rt, rt.alloc(), &lines());
}
