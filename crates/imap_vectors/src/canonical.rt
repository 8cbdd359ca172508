//! The canonical text of responses is read as the lines are that they came from, whatever follows.

ghost use Rattle.std.specs.Prelude.{◌≡◌, ◌∷◌, [], codes, false, true, None};
ghost use Rattle.imap_shared.specs.Capabilities.{Imap4rev1};
ghost use Rattle.imap_data.specs.Codes as code;
ghost use Rattle.imap_data.specs.DatumValues as datum;
ghost use Rattle.imap_proto.specs.Responses.{Capabilities, Expunge, MailboxData};
ghost use Rattle.imap_proto.specs.LineTexts.{has_bracket, canonical_bytes};
ghost use Rattle.imap_vectors.specs.CanonicalRows as value;

use crate::answers::{assert_row, parses};
use crate::streams::may_be_cut;
use std::alloc::{AllocError, Global};
use std::test::*;

// A line, the canonical text of its response, and what both answer.
struct Row {
    line: &'static [u8],
    canonical: &'static [u8],
    says: &'static str,
}

static ROWS: &[Row] = &[
    Row {
        line: b"* ID (\"a\" NIL)\r\n",
        canonical: b"* ID ({0}\r\n NIL)\r\n",
        says: "Id(Some({}))",
    },
    Row {
        line: b"* ID (\"a\" \"1\" \"b\" NIL \"a\" \"2\")\r\n",
        canonical: b"* ID ({1}\r\na {1}\r\n2)\r\n",
        says: r#"Id(Some({"a": "2"}))"#,
    },
    Row {
        line: b"* id nil\r\n",
        canonical: b"* ID NIL\r\n",
        says: "Id(None)",
    },
    Row {
        line: b"* LIST (\\HasNoChildren) \"/\" inbox\r\n",
        canonical: b"* LIST (\\HasNoChildren) \"/\" {5}\r\nINBOX\r\n",
        says: r#"MailboxData(List(MailboxListData { name_attributes: [Extension("\\HasNoChildren")], delimiter: Some("/"), name: "INBOX" }))"#,
    },
    Row {
        line: b"* QUOTA \"\" (\"STORAGE\" 1 2)\r\n",
        canonical: b"* QUOTA {0}\r\n ({7}\r\nSTORAGE 1 2)\r\n",
        says: r#"Quota(Quota { root_name: "", resources: [QuotaResource { name: Atom("STORAGE"), usage: 1, limit: 2 }] })"#,
    },
    Row {
        line: b"* QUOTA \"\" (STORAGE 1 2)\r\n",
        canonical: b"* QUOTA {0}\r\n (STORAGE 1 2)\r\n",
        says: r#"Quota(Quota { root_name: "", resources: [QuotaResource { name: Storage, usage: 1, limit: 2 }] })"#,
    },
    Row {
        line: b"* 1 FETCH (X-GM-LABELS (\"\\\\\"))\r\n",
        canonical: b"* 1 FETCH (X-GM-LABELS (\"\\\\\"))\r\n",
        says: r#"Fetch(1, [GmailLabels(["\\\\"])])"#,
    },
    Row {
        line: b"* ENABLED IMAP4rev1x\r\n",
        canonical: b"* ENABLED IMAP4rev1x\r\n",
        says: r#"Capabilities([Atom("IMAP4rev1x")])"#,
    },
    Row {
        line: b"* 1 FETCH (BODYSTRUCTURE ({4}\r\nTEXT \"PLAIN\" NIL NIL NIL {4}\r\n7BIT 5))\r\n",
        canonical: b"* 1 FETCH (BODYSTRUCTURE ({4}\r\nTEXT {5}\r\nPLAIN NIL NIL NIL {4}\r\n7BIT 5 NIL NIL NIL NIL))\r\n",
        says: r#"Fetch(1, [BodyStructure(Basic { common: BodyContentCommon { ty: ContentType { ty: "TEXT", subtype: "PLAIN", params: None }, disposition: None, language: None, location: None }, other: BodyContentSinglePart { id: None, md5: None, description: None, transfer_encoding: Other("7BIT"), octets: 5 }, extension: None })])"#,
    },
    Row {
        line: b"* 12 FETCH (ENVELOPE (\"d\" \"s\" ((\"T\" NIL \"gray\" \"cac\")) NIL NIL NIL NIL NIL NIL \"<i>\"))\r\n",
        canonical: b"* 12 FETCH (ENVELOPE ({1}\r\nd {1}\r\ns (({1}\r\nT NIL {4}\r\ngray {3}\r\ncac)) NIL NIL NIL NIL NIL NIL {3}\r\n<i>))\r\n",
        says: "Fetch(12, [Envelope(Envelope { date: Some([100]), subject: Some([115]), from: Some([Address { name: Some([84]), adl: None, mailbox: Some([103, 114, 97, 121]), host: Some([99, 97, 99]) }]), sender: None, reply_to: None, to: None, cc: None, bcc: None, in_reply_to: None, message_id: Some([60, 105, 62]) })])",
    },
    Row {
        line: b"* 1 FETCH (BODYSTRUCTURE (\"text\" \"plain\" NIL NIL NIL \"7bit\" 5 1 (\"inline\" NIL)))\r\n",
        canonical: b"* 1 FETCH (BODYSTRUCTURE (\"TEXT\" {5}\r\nplain NIL NIL NIL \"7BIT\" 5 1 NIL ({6}\r\ninline NIL) NIL NIL))\r\n",
        says: r#"Fetch(1, [BodyStructure(Text { common: BodyContentCommon { ty: ContentType { ty: "TEXT", subtype: "plain", params: None }, disposition: Some(ContentDisposition { ty: "inline", params: None }), language: None, location: None }, other: BodyContentSinglePart { id: None, md5: None, description: None, transfer_encoding: SevenBit, octets: 5 }, lines: 1, extension: None })])"#,
    },
    Row {
        line: b"* VANISHED 4:2\r\n",
        canonical: b"* VANISHED 4:2\r\n",
        says: "Vanished { earlier: false, uids: [4..=2] }",
    },
    Row {
        line: b"* 1 FETCH (X-Y (q) UID 4 )\r\n",
        canonical: b"* 1 FETCH (X NIL UID 4)\r\n",
        says: "Fetch(1, [Unknown, Uid(4)])",
    },
    Row {
        line: b"* 1 FETCH (SAVEDATE \"x\")\r\n",
        canonical: b"* 1 FETCH (SAVEDATE {1}\r\nx)\r\n",
        says: r#"Fetch(1, [SaveDate(Some("x"))])"#,
    },
    Row {
        line: b"* 1 FETCH (SAVEDATE 5 savedate NIL)\r\n",
        canonical: b"* 1 FETCH (X NIL SAVEDATE NIL)\r\n",
        says: "Fetch(1, [Unknown, SaveDate(None)])",
    },
    Row {
        line: b"* 1 FETCH (SAVEDATE (x))\r\n",
        canonical: b"* 1 FETCH (X NIL)\r\n",
        says: "Fetch(1, [Unknown])",
    },
    Row {
        line: b"* 1 FETCH (SAVEDATE \"\xff\")\r\n",
        canonical: b"* 1 FETCH (SAVEDATE {3}\r\n\xef\xbf\xbd)\r\n",
        says: r#"Fetch(1, [SaveDate(Some("�"))])"#,
    },
    Row {
        line: b"* 1 FETCH (SAVEDATE NIL)\r\n",
        canonical: b"* 1 FETCH (SAVEDATE NIL)\r\n",
        says: "Fetch(1, [SaveDate(None)])",
    },
];

/// What the canonical texts of the rows' values are, by definition.
pub fn texts_by_definition()
    ensures no_field { canonical_bytes value.no_field ≡ codes "* ID ({0}\r\n NIL)\r\n" }
    ensures a_field { canonical_bytes value.a_field ≡ codes "* ID ({1}\r\na {1}\r\n2)\r\n" }
    ensures no_list { canonical_bytes value.no_list ≡ codes "* ID NIL\r\n" }
    ensures a_name { canonical_bytes value.a_name
        ≡ codes "* LIST (\\HasNoChildren) \"/\" {5}\r\nINBOX\r\n" }
    ensures a_quota_of_any_name { canonical_bytes value.a_quota_of_any_name
        ≡ codes "* QUOTA {0}\r\n ({7}\r\nSTORAGE 1 2)\r\n" }
    ensures a_quota { canonical_bytes value.a_quota ≡ codes "* QUOTA {0}\r\n (STORAGE 1 2)\r\n" }
    ensures a_label { canonical_bytes value.a_label
        ≡ codes "* 1 FETCH (X-GM-LABELS (\"\\\\\"))\r\n" }
    ensures enabled { canonical_bytes value.enabled ≡ codes "* ENABLED IMAP4rev1x\r\n" }
    ensures a_basic { canonical_bytes value.a_basic
        ≡ codes "* 1 FETCH (BODYSTRUCTURE ({4}\r\nTEXT {5}\r\nPLAIN NIL NIL NIL {4}\r\n7BIT 5 NIL NIL NIL NIL))\r\n" }
    ensures an_envelope { canonical_bytes value.an_envelope
        ≡ codes "* 12 FETCH (ENVELOPE ({1}\r\nd {1}\r\ns (({1}\r\nT NIL {4}\r\ngray {3}\r\ncac)) NIL NIL NIL NIL NIL NIL {3}\r\n<i>))\r\n" }
    ensures a_text { canonical_bytes value.a_text
        ≡ codes "* 1 FETCH (BODYSTRUCTURE (\"TEXT\" {5}\r\nplain NIL NIL NIL \"7BIT\" 5 1 NIL ({6}\r\ninline NIL) NIL NIL))\r\n" }
    ensures gone { canonical_bytes value.gone ≡ codes "* VANISHED 4:2\r\n" }
    ensures a_bracket { has_bracket value.a_bracket ≡ true }
    ensures no_bracket { has_bracket value.a_greeting ≡ false }
    ensures unknown { canonical_bytes value.unknown ≡ codes "* 1 FETCH (X NIL UID 4)\r\n" }
{}

/// The canonical texts of status lines, and of each response code.
pub fn texts_of_status_lines()
    ensures an_answer { canonical_bytes value.an_answer ≡ codes "a1 NO [READ-ONLY] x\r\n" }
    ensures a_short_answer { canonical_bytes value.a_short_answer ≡ codes "a1 BAD\r\n" }
    ensures a_greeting { canonical_bytes value.a_greeting ≡ codes "* PREAUTH hi\r\n" }
    ensures a_farewell { canonical_bytes value.a_farewell ≡ codes "* BYE\r\n" }
    ensures an_invitation { canonical_bytes value.an_invitation ≡ codes "+ idling\r\n" }
    ensures a_bare_invitation { canonical_bytes value.a_bare_invitation ≡ codes "+ \r\n" }
    ensures alert { canonical_bytes (value.with_code code.Alert) ≡ codes "* OK [ALERT]\r\n" }
    ensures bad_charset { canonical_bytes (value.with_code (code.BadCharset None))
        ≡ codes "* OK [BADCHARSET]\r\n" }
    ensures charsets { canonical_bytes (value.with_code value.charsets)
        ≡ codes "* OK [BADCHARSET ({1}\r\na {1}\r\nb)]\r\n" }
    ensures capable { canonical_bytes (value.with_code value.capable)
        ≡ codes "* OK [CAPABILITY IMAP4rev1 AUTH=PLAIN]\r\n" }
    ensures parse { canonical_bytes (value.with_code code.Parse) ≡ codes "* OK [PARSE]\r\n" }
    ensures flags_to_change { canonical_bytes (value.with_code value.flags_to_change)
        ≡ codes "* OK [PERMANENTFLAGS (\\Seen \\*)]\r\n" }
    ensures read_only { canonical_bytes (value.with_code code.ReadOnly)
        ≡ codes "* OK [READ-ONLY]\r\n" }
    ensures read_write { canonical_bytes (value.with_code code.ReadWrite)
        ≡ codes "* OK [READ-WRITE]\r\n" }
    ensures try_create { canonical_bytes (value.with_code code.TryCreate)
        ≡ codes "* OK [TRYCREATE]\r\n" }
    ensures uid_next { canonical_bytes (value.with_code (code.UidNext 3))
        ≡ codes "* OK [UIDNEXT 3]\r\n" }
    ensures uid_validity { canonical_bytes (value.with_code (code.UidValidity 4))
        ≡ codes "* OK [UIDVALIDITY 4]\r\n" }
    ensures unseen { canonical_bytes (value.with_code (code.Unseen 5))
        ≡ codes "* OK [UNSEEN 5]\r\n" }
    ensures highest_mod_seq { canonical_bytes (value.with_code (code.HighestModSeq 6))
        ≡ codes "* OK [HIGHESTMODSEQ 6]\r\n" }
    ensures appended { canonical_bytes (value.with_code value.appended)
        ≡ codes "* OK [APPENDUID 1 9,3:4]\r\n" }
    ensures copied { canonical_bytes (value.with_code value.copied)
        ≡ codes "* OK [COPYUID 1 2 3:4]\r\n" }
    ensures uid_not_sticky { canonical_bytes (value.with_code code.UidNotSticky)
        ≡ codes "* OK [UIDNOTSTICKY]\r\n" }
    ensures long_entries { canonical_bytes (value.with_code (code.MetadataLongEntries 7))
        ≡ codes "* OK [METADATA LONGENTRIES 7]\r\n" }
    ensures max_size { canonical_bytes (value.with_code (code.MetadataMaxSize 8))
        ≡ codes "* OK [METADATA MAXSIZE 8]\r\n" }
    ensures too_many { canonical_bytes (value.with_code code.MetadataTooMany)
        ≡ codes "* OK [METADATA TOOMANY]\r\n" }
    ensures no_private { canonical_bytes (value.with_code code.MetadataNoPrivate)
        ≡ codes "* OK [METADATA NOPRIVATE]\r\n" }
{}

/// The canonical texts of what is said of mailboxes.
pub fn texts_of_mailboxes()
    ensures exists { canonical_bytes (MailboxData (datum.Exists 18)) ≡ codes "* 18 EXISTS\r\n" }
    ensures recent { canonical_bytes (MailboxData (datum.Recent 5)) ≡ codes "* 5 RECENT\r\n" }
    ensures expunge { canonical_bytes (Expunge 4) ≡ codes "* 4 EXPUNGE\r\n" }
    ensures flags { canonical_bytes value.flags ≡ codes "* FLAGS (\\Answered \\*)\r\n" }
    ensures a_status { canonical_bytes value.a_status
        ≡ codes "* STATUS {1}\r\nx (HIGHESTMODSEQ 1 MESSAGES 2 RECENT 3 UIDNEXT 4 UIDVALIDITY 5 UNSEEN 6)\r\n" }
    ensures search { canonical_bytes (MailboxData (datum.Search (9 ∷ 2 ∷ [])))
        ≡ codes "* SEARCH 9 2\r\n" }
    ensures nothing_found { canonical_bytes (MailboxData (datum.Search [])) ≡ codes "* SEARCH\r\n" }
    ensures sort { canonical_bytes (MailboxData (datum.Sort (6 ∷ 2 ∷ [])))
        ≡ codes "* SORT 6 2\r\n" }
    ensures message_identifier { canonical_bytes (MailboxData (datum.GmailMsgId 6))
        ≡ codes "* X-GM-MSGID 6\r\n" }
    ensures thread_identifier { canonical_bytes (MailboxData (datum.GmailThrId 7))
        ≡ codes "* X-GM-THRID 7\r\n" }
    ensures annotations { canonical_bytes value.annotations
        ≡ codes "* METADATA \"x\" ({13}\r\n/shared/admin {1}\r\na {15}\r\n/shared/comment NIL)\r\n" }
    ensures changed_annotations { canonical_bytes value.changed_annotations
        ≡ codes "* METADATA \"x\" {13}\r\n/shared/admin {15}\r\n/shared/comment\r\n" }
{}

/// The canonical texts of lines of extensions.
pub fn texts_of_extensions()
    ensures capable { canonical_bytes (Capabilities (Imap4rev1 ∷ []))
        ≡ codes "* CAPABILITY IMAP4rev1\r\n" }
    ensures none_enabled { canonical_bytes (Capabilities []) ≡ codes "* ENABLED\r\n" }
    ensures gone_earlier { canonical_bytes value.gone_earlier
        ≡ codes "* VANISHED (EARLIER) 41:41,43:116\r\n" }
    ensures a_quota_root { canonical_bytes value.a_quota_root
        ≡ codes "* QUOTAROOT {1}\r\nx {0}\r\n {4}\r\nuser\r\n" }
    ensures a_list_of_rights { canonical_bytes value.a_list_of_rights
        ≡ codes "* ACL {5}\r\nINBOX {4}\r\nFred {2}\r\nlz {1}\r\nb {1}\r\nr\r\n" }
    ensures possible_rights { canonical_bytes value.possible_rights
        ≡ codes "* LISTRIGHTS {5}\r\nINBOX {5}\r\nsmith {2}\r\nla {3}\r\nrsw\r\n" }
    ensures no_further_rights { canonical_bytes value.no_further_rights
        ≡ codes "* LISTRIGHTS {5}\r\nINBOX {5}\r\nsmith {2}\r\nla\r\n" }
    ensures own_rights { canonical_bytes value.own_rights
        ≡ codes "* MYRIGHTS {1}\r\nx {2}\r\nwl\r\n" }
{}

/// The canonical texts of attributes and bodies.
pub fn texts_of_attributes()
    ensures numbers { canonical_bytes value.numbers
        ≡ codes "* 1 FETCH (FLAGS (\\Seen a) MODSEQ (5) RFC822.SIZE 7 X-GM-MSGID 8 X-GM-THRID 9)\r\n" }
    ensures texts { canonical_bytes value.texts
        ≡ codes "* 1 FETCH (INTERNALDATE {1}\r\nd RFC822 {1}\r\na RFC822.HEADER NIL RFC822.TEXT {1}\r\nb EMAILID (M1) THREADID (T6) THREADID NIL)\r\n" }
    ensures a_save_date { canonical_bytes value.a_save_date
        ≡ codes "* 1 FETCH (SAVEDATE {1}\r\nx)\r\n" }
    ensures no_save_date { canonical_bytes value.no_save_date
        ≡ codes "* 1 FETCH (X NIL SAVEDATE NIL)\r\n" }
    ensures a_section { canonical_bytes value.a_section
        ≡ codes "* 1 FETCH (BODY[1.2.MIME]<0> {1}\r\na BODY[] NIL)\r\n" }
    ensures a_message { canonical_bytes value.a_message
        ≡ codes "* 1 FETCH (BODYSTRUCTURE (\"MESSAGE\" \"RFC822\" ({1}\r\np {1}\r\nq) {1}\r\ni {1}\r\nd \"8BIT\" 9 (NIL NIL NIL NIL NIL NIL NIL NIL NIL NIL) (\"TEXT\" {5}\r\nplain NIL NIL NIL \"7BIT\" 5 1 NIL ({6}\r\ninline NIL) NIL NIL) 2 {1}\r\nm ({10}\r\nattachment ({1}\r\nf {1}\r\ng)) ({2}\r\nen {2}\r\nde) {1}\r\nl 3))\r\n" }
    ensures a_multipart { canonical_bytes value.a_multipart
        ≡ codes "* 1 FETCH (BODYSTRUCTURE ((\"TEXT\" {5}\r\nplain NIL NIL NIL \"7BIT\" 5 1 NIL ({6}\r\ninline NIL) NIL NIL)({4}\r\nTEXT {5}\r\nPLAIN NIL NIL NIL {4}\r\n7BIT 5 NIL NIL NIL NIL) {5}\r\nMIXED ({1}\r\np {1}\r\nq) ({10}\r\nattachment ({1}\r\nf {1}\r\ng)) ({2}\r\nen {2}\r\nde) {1}\r\nl (NIL {1}\r\ne)))\r\n" }
{}

// Information that begins with `[`, as a code does: no canonical text is promised.
const BRACKETED: &[u8] = b"* OK [BADCHARSET ({5}\r\nabcdex";

// Whether both texts, and the canonical one with more behind it, answer so, and both may be cut anywhere.
fn reads_back(alloc: Global, row: &Row) -> Result<bool, AllocError> {
    let mut followed = Vec::from_slice(alloc, row.canonical)?;
    followed.extend_from_slice(b"xy")?;
    let says_followed = format!(in alloc; "{} then \"xy\"", row.says)?;
    Ok(
        parses(alloc, row.line, row.says)
            && parses(alloc, row.canonical, row.says)
            && parses(alloc, followed.as_slice(), says_followed.as_str())
            && may_be_cut(alloc, row.line)
            && may_be_cut(alloc, row.canonical),
    )
}

// Whether that was made, and holds.
fn is_canonical(alloc: Global, row: &Row) -> bool {
    matches!(reads_back(alloc, row), Ok(true))
}

#[test]
fn canonical_texts(rt: HostRuntime) {
    let alloc = rt.alloc();
    for row in ROWS {
        assert_row(&rt, is_canonical(alloc, row), row.says);
    }
}

// The texts that are promised, and a line that has none.
#[test]
fn canonical_texts_by_definition(rt: HostRuntime) {
    texts_by_definition();
    texts_of_status_lines();
    texts_of_mailboxes();
    texts_of_extensions();
    texts_of_attributes();
    let want =
        r#"Data { status: Ok, outcome: Outcome { code: None, information: Some("[BADCHARSET ({5}") } } then "abcdex""#;
    assert_row(&rt, parses(rt.alloc(), BRACKETED, want), want);
}
