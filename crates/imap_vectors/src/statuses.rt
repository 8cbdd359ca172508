//! Status lines: tagged, untagged, and continuations.

use crate::answers::{Rows, assert_lines};
use std::test::*;

static TAGGED: Rows = &[
    (
        b"a1 OK\r\n",
        r#"Done { tag: RequestId("a1"), status: Ok, outcome: Outcome { code: None, information: None } }"#,
    ),
    (
        b"a1 NO [READ-ONLYX] x\r\n",
        r#"Done { tag: RequestId("a1"), status: No, outcome: Outcome { code: None, information: Some("[READ-ONLYX] x") } }"#,
    ),
    (
        b"a]1 bad \r\nxy",
        r#"Done { tag: RequestId("a]1"), status: Bad, outcome: Outcome { code: None, information: None } } then "xy""#,
    ),
    (
        b"a1 no\r\n",
        r#"Done { tag: RequestId("a1"), status: No, outcome: Outcome { code: None, information: None } }"#,
    ),
    (
        b"!#$&',-./09:;<=>?@AZ[]^_`az|}~\x7f\xc3\xa9 NO\r\n",
        r#"Done { tag: RequestId("!#$&',-./09:;<=>?@AZ[]^_`az|}~\u{7f}é"), status: No, outcome: Outcome { code: None, information: None } }"#,
    ),
    (b"a+1 OK\r\n", "Error"),
    (b"a1 XX", "Error"),
    (b"\xff OK\r\n", "Error"),
    (b"a1 OK", "Incomplete(Unknown)"),
    (b"a1 PR", "Incomplete(Unknown)"),
];

static CONTINUATIONS: Rows = &[
    (
        b"+ idling\r\n",
        r#"Continue(Outcome { code: None, information: Some("idling") })"#,
    ),
    (
        b"+\r\n",
        "Continue(Outcome { code: None, information: None })",
    ),
    (b"+", "Incomplete(Unknown)"),
];

static UNTAGGED: Rows = &[
    (b"", "Incomplete(Unknown)"),
    (b"* ", "Incomplete(Unknown)"),
    (
        b"* OK hi\r\n",
        r#"Data { status: Ok, outcome: Outcome { code: None, information: Some("hi") } }"#,
    ),
    (
        b"* PreAuth\r\n",
        "Data { status: PreAuth, outcome: Outcome { code: None, information: None } }",
    ),
    (
        b"* BYE \r\n",
        "Data { status: Bye, outcome: Outcome { code: None, information: None } }",
    ),
    (
        b"* ok\r\n",
        "Data { status: Ok, outcome: Outcome { code: None, information: None } }",
    ),
    (
        b"* bye\r\n",
        "Data { status: Bye, outcome: Outcome { code: None, information: None } }",
    ),
    (
        b"* OK \xff\xfex\r\n",
        r#"Data { status: Ok, outcome: Outcome { code: None, information: Some("��x") } }"#,
    ),
    (
        b"* OK \xe2\x82x\r\n",
        r#"Data { status: Ok, outcome: Outcome { code: None, information: Some("�x") } }"#,
    ),
    (
        b"* OK  \"a\\b\" {3} %*](\xc3\xa9\t\x01\x7f \r\n",
        r#"Data { status: Ok, outcome: Outcome { code: None, information: Some(" \"a\\b\" {3} %*](é\t\u{1}\u{7f} ") } }"#,
    ),
    (b"* OKAY\r\n", "Error"),
    (b"* X\r\n", "Error"),
    (b"* OK a\0b\r\n", "Error"),
];

/// The tables of these lines.
pub fn lines() -> [Rows; 3] {
    [TAGGED, CONTINUATIONS, UNTAGGED]
}

#[test]
fn lines_of_status(rt: HostRuntime) {
    assert_lines(&rt, rt.alloc(), &lines());
}
