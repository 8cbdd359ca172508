//! Responses as lines of JSON.

use crate::answers::{Rows, assert_row, is_text};
use imap_json::{skipped_to_json, to_json};
use imap_proto::Response;
use std::alloc::{AllocError, Global};
use std::process::Abort;
use std::test::*;

// A line of each kind.
static KINDS: Rows = &[
    (
        b"* CAPABILITY IMAP4rev1 AUTH=PLAIN IDLE\r\n",
        r#"{"kind":"capabilities","capabilities":["Imap4rev1",{"Auth":"PLAIN"},{"Atom":"IDLE"}]}"#,
    ),
    (
        b"+ idling\r\n",
        r#"{"kind":"continue","outcome":{"code":null,"information":"idling"}}"#,
    ),
    (
        b"a1 OK [READ-WRITE] done\r\n",
        r#"{"kind":"done","tag":"a1","status":"Ok","outcome":{"code":"ReadWrite","information":"done"}}"#,
    ),
    (
        b"* PREAUTH\r\n",
        r#"{"kind":"data","status":"PreAuth","outcome":{"code":null,"information":null}}"#,
    ),
    (b"* 3 EXPUNGE\r\n", r#"{"kind":"expunge","number":3}"#),
    (
        b"* VANISHED (EARLIER) 41,43:116,4:2\r\n",
        r#"{"kind":"vanished","earlier":true,"uids":[[41,41],[43,116],[4,2]]}"#,
    ),
    (
        b"* 1 FETCH (UID 5)\r\n",
        r#"{"kind":"fetch","number":1,"attributes":[{"Uid":5}]}"#,
    ),
    (
        b"* 18 EXISTS\r\n",
        r#"{"kind":"mailboxdata","datum":{"Exists":18}}"#,
    ),
    (
        b"* QUOTA \"\" (STORAGE 10 512 MESSAGE 0 1 x 3 18446744073709551615)\r\n",
        r#"{"kind":"quota","quota":{"root_name":"","resources":[{"name":"Storage","usage":10,"limit":512},{"name":"Message","usage":0,"limit":1},{"name":{"Atom":"x"},"usage":3,"limit":18446744073709551615}]}}"#,
    ),
    (
        b"* QUOTAROOT INBOX \"\" a\r\n",
        r#"{"kind":"quotaroot","quota_root":{"mailbox_name":"INBOX","quota_root_names":["","a"]}}"#,
    ),
    (
        b"* ID (\"name\" \"Cyrus\" \"date\" \"2026\" \"a\\\"\" \"\xff\" \"Z\" \"\")\r\n",
        r#"{"kind":"id","id":{"Z":"","a\\\"":"�","date":"2026","name":"Cyrus"}}"#,
    ),
    (
        b"* ACL INBOX Fred lrz b w\r\n",
        r#"{"kind":"acl","acl":{"mailbox":"INBOX","acls":[{"identifier":"Fred","rights":["Lookup","Read",{"Custom":"z"}]},{"identifier":"b","rights":["Write"]}]}}"#,
    ),
    (
        b"* LISTRIGHTS INBOX smith la r\r\n",
        r#"{"kind":"listrights","list_rights":{"mailbox":"INBOX","identifier":"smith","required":["Lookup","Administer"],"optional":["Read"]}}"#,
    ),
    (
        b"* MYRIGHTS x lrswipkxteancd\r\n",
        r#"{"kind":"myrights","my_rights":{"mailbox":"x","rights":["Lookup","Read","Seen","Write","Insert","Post","CreateMailbox","DeleteMailbox","DeleteMessage","Expunge","Administer","Annotation","OldCreate","OldDelete"]}}"#,
    ),
];

static CODES: Rows = &[
    (
        b"* OK [BADCHARSET] x\r\n",
        r#"{"kind":"data","status":"Ok","outcome":{"code":{"BadCharset":null},"information":"x"}}"#,
    ),
    (
        b"* NO [BADCHARSET (utf-8 \"b\")] x\r\n",
        r#"{"kind":"data","status":"No","outcome":{"code":{"BadCharset":["utf-8","b"]},"information":"x"}}"#,
    ),
    (
        b"* BAD [CAPABILITY IMAP4rev1] x\r\n",
        r#"{"kind":"data","status":"Bad","outcome":{"code":{"Capabilities":["Imap4rev1"]},"information":"x"}}"#,
    ),
    (
        b"* BYE [ALERT] \"q\\uoted\\\"\r\n",
        r#"{"kind":"data","status":"Bye","outcome":{"code":"Alert","information":"\"q\\uoted\\\""}}"#,
    ),
    (
        b"* OK [PERMANENTFLAGS (\\Seen \\*)] \x01\t\x1f\r\n",
        r#"{"kind":"data","status":"Ok","outcome":{"code":{"PermanentFlags":["\\Seen","\\*"]},"information":"\u0001\t\u001f"}}"#,
    ),
    (
        b"a2 OK [APPENDUID 38505 3955,3960:3957] x\r\n",
        r#"{"kind":"done","tag":"a2","status":"Ok","outcome":{"code":{"AppendUid":[38505,[{"Uid":3955},{"UidRange":[3957,3960]}]]},"information":"x"}}"#,
    ),
    (
        b"a3 OK [COPYUID 7 2:4 5,6] x\r\n",
        r#"{"kind":"done","tag":"a3","status":"Ok","outcome":{"code":{"CopyUid":[7,[{"UidRange":[2,4]}],[{"Uid":5},{"Uid":6}]]},"information":"x"}}"#,
    ),
    (
        b"* OK [HIGHESTMODSEQ 9007199254740993] x\r\n",
        r#"{"kind":"data","status":"Ok","outcome":{"code":{"HighestModSeq":9007199254740993},"information":"x"}}"#,
    ),
    (
        b"* OK [UIDNEXT 4294967295] x\r\n",
        r#"{"kind":"data","status":"Ok","outcome":{"code":{"UidNext":4294967295},"information":"x"}}"#,
    ),
    (
        b"* OK [UIDVALIDITY 2] x\r\n",
        r#"{"kind":"data","status":"Ok","outcome":{"code":{"UidValidity":2},"information":"x"}}"#,
    ),
    (
        b"* OK [UNSEEN 0] x\r\n",
        r#"{"kind":"data","status":"Ok","outcome":{"code":{"Unseen":0},"information":"x"}}"#,
    ),
    (
        b"* OK [METADATA LONGENTRIES 5] x\r\n",
        r#"{"kind":"data","status":"Ok","outcome":{"code":{"MetadataLongEntries":5},"information":"x"}}"#,
    ),
    (
        b"* OK [METADATA MAXSIZE 6] x\r\n",
        r#"{"kind":"data","status":"Ok","outcome":{"code":{"MetadataMaxSize":6},"information":"x"}}"#,
    ),
    (
        b"* OK [METADATA TOOMANY] x\r\n",
        r#"{"kind":"data","status":"Ok","outcome":{"code":"MetadataTooMany","information":"x"}}"#,
    ),
];

static MAILBOXES: Rows = &[
    (
        b"* FLAGS ()\r\n",
        r#"{"kind":"mailboxdata","datum":{"Flags":[]}}"#,
    ),
    (
        b"* FLAGS (\\Answered $x)\r\n",
        r#"{"kind":"mailboxdata","datum":{"Flags":["\\Answered","$x"]}}"#,
    ),
    (
        b"* LIST (\\Noselect \\All \\X) \"/\" \"a\xff\"\r\n",
        r#"{"kind":"mailboxdata","datum":{"List":{"name_attributes":["NoSelect","All",{"Extension":"\\X"}],"delimiter":"/","name":"a�"}}}"#,
    ),
    (
        b"* LSUB () NIL inbox\r\n",
        r#"{"kind":"mailboxdata","datum":{"List":{"name_attributes":[],"delimiter":null,"name":"INBOX"}}}"#,
    ),
    (
        b"* SEARCH\r\n",
        r#"{"kind":"mailboxdata","datum":{"Search":[]}}"#,
    ),
    (
        b"* SORT 2 84\r\n",
        r#"{"kind":"mailboxdata","datum":{"Sort":[2,84]}}"#,
    ),
    (
        b"* STATUS x (MESSAGES 231 RECENT 0 UIDNEXT 3 UIDVALIDITY 4 UNSEEN 5 HIGHESTMODSEQ 6)\r\n",
        r#"{"kind":"mailboxdata","datum":{"Status":{"mailbox":"x","status":[{"Messages":231},{"Recent":0},{"UidNext":3},{"UidValidity":4},{"Unseen":5},{"HighestModSeq":6}]}}}"#,
    ),
    (
        b"* 5 RECENT\r\n",
        r#"{"kind":"mailboxdata","datum":{"Recent":5}}"#,
    ),
    (
        b"* METADATA \"INBOX\" (/private/comment \"my\\\"c\" /shared/comment NIL)\r\n",
        r#"{"kind":"mailboxdata","datum":{"MetadataSolicited":{"mailbox":"INBOX","values":[{"entry":"/private/comment","value":"my\\\"c"},{"entry":"/shared/comment","value":null}]}}}"#,
    ),
    (
        b"* METADATA \"\" /shared/comment\r\n",
        r#"{"kind":"mailboxdata","datum":{"MetadataUnsolicited":{"mailbox":"","values":["/shared/comment"]}}}"#,
    ),
    (
        b"* X-GM-LABELS (\"a b\" c)\r\n",
        r#"{"kind":"mailboxdata","datum":{"GmailLabels":["a b","c"]}}"#,
    ),
    (
        b"* X-GM-MSGID 1278455344230334865\r\n",
        r#"{"kind":"mailboxdata","datum":{"GmailMsgId":1278455344230334865}}"#,
    ),
    (
        b"* X-GM-THRID 1\r\n",
        r#"{"kind":"mailboxdata","datum":{"GmailThrId":1}}"#,
    ),
];

static ATTRIBUTES: Rows = &[
    (
        b"* 1 FETCH (BODY[1.2.MIME]<3> {4}\r\na\xffb\x01 BODY[HEADER] \"h\" BODY[] NIL BODY[4] \"\")\r\n",
        r#"{"kind":"fetch","number":1,"attributes":[{"BodySection":{"section":{"Part":[[1,2],"Mime"]},"index":3,"contents":{"base64":"Yf9iAQ=="}}},{"BodySection":{"section":{"Full":"Header"},"index":null,"contents":"h"}},{"BodySection":{"section":null,"index":null,"contents":null}},{"BodySection":{"section":{"Part":[[4],null]},"index":null,"contents":""}}]}"#,
    ),
    (
        b"* 2 FETCH (BODY[TEXT] {10}\r\n\x01\t\r\n\"\\/\x1f\xc3\xa9)\r\n",
        r#"{"kind":"fetch","number":2,"attributes":[{"BodySection":{"section":{"Full":"Text"},"index":null,"contents":"\u0001\t\r\n\"\\/\u001fé"}}]}"#,
    ),
    (
        b"* 3 FETCH (FLAGS () INTERNALDATE \"17-Jul-1996 02:44:25 -0700\" MODSEQ (18446744073709551615) RFC822 NIL RFC822.HEADER \"\xfe\" RFC822.SIZE 44 RFC822.TEXT \"t\" UID 5)\r\n",
        r#"{"kind":"fetch","number":3,"attributes":[{"Flags":[]},{"InternalDate":"17-Jul-1996 02:44:25 -0700"},{"ModSeq":18446744073709551615},{"Rfc822":null},{"Rfc822Header":{"base64":"/g=="}},{"Rfc822Size":44},{"Rfc822Text":"t"},{"Uid":5}]}"#,
    ),
    (
        b"* 4 FETCH (X-GM-LABELS (\\Inbox) X-GM-MSGID 1 X-GM-THRID 2 EMAILID (M1) THREADID (T8) THREADID NIL SAVEDATE NIL XYZ 1)\r\n",
        r#"{"kind":"fetch","number":4,"attributes":[{"GmailLabels":["\\Inbox"]},{"GmailMsgId":1},{"GmailThrId":2},{"EmailId":"M1"},{"ThreadId":"T8"},{"ThreadId":null},{"SaveDate":null},"Unknown"]}"#,
    ),
    (
        b"* 5 FETCH (ENVELOPE (\"d\" \"s\xff\" ((\"n\" NIL \"m\" \"h\")(NIL \"r\" NIL NIL)) NIL NIL ((NIL NIL \"t\" \"\")) NIL NIL NIL \"<id>\"))\r\n",
        r#"{"kind":"fetch","number":5,"attributes":[{"Envelope":{"date":"d","subject":{"base64":"c/8="},"from":[{"name":"n","adl":null,"mailbox":"m","host":"h"},{"name":null,"adl":"r","mailbox":null,"host":null}],"sender":null,"reply_to":null,"to":[{"name":null,"adl":null,"mailbox":"t","host":""}],"cc":null,"bcc":null,"in_reply_to":null,"message_id":"<id>"}}]}"#,
    ),
];

static BODIES: Rows = &[
    (
        b"* 1 FETCH (BODYSTRUCTURE (\"TEXT\" \"PLAIN\" (\"CHARSET\" \"utf-8\") NIL NIL \"7BIT\" 3 1))\r\n",
        r#"{"kind":"fetch","number":1,"attributes":[{"BodyStructure":{"Text":{"common":{"ty":{"ty":"TEXT","subtype":"PLAIN","params":[["CHARSET","utf-8"]]},"disposition":null,"language":null,"location":null},"other":{"id":null,"md5":null,"description":null,"transfer_encoding":"SevenBit","octets":3},"lines":1,"extension":null}}}]}"#,
    ),
    (
        b"* 1 FETCH (BODYSTRUCTURE (\"APPLICATION\" \"PDF\" NIL \"i\" \"d\" \"X\" 3 \"m\" (\"inline\" (\"a\" \"b\")) (\"en\" \"de\") \"loc\" (1 (\"x\" NIL) 2)))\r\n",
        r#"{"kind":"fetch","number":1,"attributes":[{"BodyStructure":{"Basic":{"common":{"ty":{"ty":"APPLICATION","subtype":"PDF","params":null},"disposition":{"ty":"inline","params":[["a","b"]]},"language":["en","de"],"location":"loc"},"other":{"id":"i","md5":"m","description":"d","transfer_encoding":{"Other":"X"},"octets":3},"extension":{"List":[{"Num":1},{"List":[{"Str":"x"},{"Str":null}]},{"Num":2}]}}}}]}"#,
    ),
    (
        b"* 1 FETCH (BODYSTRUCTURE ((\"MESSAGE\" \"RFC822\" NIL NIL NIL \"BASE64\" 3 (NIL \"s\" NIL NIL NIL NIL NIL NIL NIL NIL) ((\"A\" \"B\" NIL NIL NIL \"8BIT\" 4) \"MIXED\") 5) \"ALTERNATIVE\" (\"boundary\" \"b\")))\r\n",
        r#"{"kind":"fetch","number":1,"attributes":[{"BodyStructure":{"Multipart":{"common":{"ty":{"ty":"MULTIPART","subtype":"ALTERNATIVE","params":[["boundary","b"]]},"disposition":null,"language":null,"location":null},"bodies":[{"Message":{"common":{"ty":{"ty":"MESSAGE","subtype":"RFC822","params":null},"disposition":null,"language":null,"location":null},"other":{"id":null,"md5":null,"description":null,"transfer_encoding":"Base64","octets":3},"envelope":{"date":null,"subject":"s","from":null,"sender":null,"reply_to":null,"to":null,"cc":null,"bcc":null,"in_reply_to":null,"message_id":null},"body":{"Multipart":{"common":{"ty":{"ty":"MULTIPART","subtype":"MIXED","params":null},"disposition":null,"language":null,"location":null},"bodies":[{"Basic":{"common":{"ty":{"ty":"A","subtype":"B","params":null},"disposition":null,"language":null,"location":null},"other":{"id":null,"md5":null,"description":null,"transfer_encoding":"EightBit","octets":4},"extension":null}}],"extension":null}},"lines":5,"extension":null}}],"extension":null}}}]}"#,
    ),
];

// The JSON of the response that the line reads as.
fn json_of(alloc: Global, line: &[u8]) -> Result<String, AllocError> {
    match Response::parse(alloc, line) {
        Ok((_, response)) => {
            let text = to_json(alloc, &response);
            drop(response); // By a call, as a large value is dropped.
            text
        }
        Err(error) => format!(in alloc; "{error:?}"),
    }
}

fn assert_json(rt: &impl Abort, alloc: Global, rows: Rows) {
    for (line, want) in rows {
        assert_row(rt, is_text(json_of(alloc, line), want), want);
    }
}

#[test]
fn responses_as_json(rt: HostRuntime) {
    for rows in &[KINDS, CODES, MAILBOXES, ATTRIBUTES, BODIES] {
        assert_json(&rt, rt.alloc(), *rows);
    }
}

// A range of which each number was taken, as no line gives it.
fn spent(alloc: Global) -> Result<String, AllocError> {
    let mut range = 7..=7;
    let _ = range.next();
    let uids = Vec::from_array(alloc, [range, 7..=7])?;
    let response = Response::Vanished {
        earlier: false,
        uids,
    };
    let text = to_json(alloc, &response);
    drop(response);
    text
}

#[test]
fn spent_range_as_json(rt: HostRuntime) {
    let want = r#"{"kind":"vanished","earlier":false,"uids":[{"Spent":[7,7]},[7,7]]}"#;
    assert_row(&rt, is_text(spent(rt.alloc()), want), want);
}

static SKIPPED: Rows = &[
    (
        b"* NAMESPACE ((\"\" \"/\")) NIL NIL\r\n",
        r#"{"kind":"skipped","bytes":"* NAMESPACE ((\"\" \"/\")) NIL NIL\r\n"}"#,
    ),
    (
        b"* X \xff {3}\r\na\r\n\r\n",
        r#"{"kind":"skipped","bytes":{"base64":"KiBYIP8gezN9DQphDQoNCg=="}}"#,
    ),
    (b"\r\n", r#"{"kind":"skipped","bytes":"\r\n"}"#),
];

#[test]
fn skipped_lines_as_json(rt: HostRuntime) {
    for (line, want) in SKIPPED {
        assert_row(&rt, is_text(skipped_to_json(rt.alloc(), line), want), want);
    }
}
