//! Envelopes and addresses, as they are read and with all texts owned. Their byte strings are told as numbers.

use crate::answers::{Rows, assert_says};
use imap_body::readers::{address, envelope};
use imap_body::{Address, Envelope};
use imap_proto::imap_core::IResult;
use std::alloc::Global;
use std::test::*;

static ADDRESSES: Rows = &[
    (
        b"(\"T\" NIL \"gray\" \"cac\")",
        "Address { name: Some([84]), adl: None, mailbox: Some([103, 114, 97, 121]), host: Some([99, 97, 99]) }",
    ),
    (
        b"(NIL {1}\r\n\xff nil \"\")x",
        r#"Address { name: None, adl: Some([255]), mailbox: None, host: Some([]) } then "x""#,
    ),
    (b"(NIL NIL NIL)", "Error"),
    (b"(NIL  NIL NIL NIL)", "Error"),
    (b"()", "Error"),
    (b"NIL", "Error"),
    (b"(NIL NIL", "Incomplete(Unknown)"),
    (b"(NIL {3}\r\nab", "Incomplete(Size(1))"),
];

static ENVELOPES: Rows = &[
    (
        b"(\"d\" \"s\" ((\"T\" NIL \"gray\" \"cac\")) NIL NIL NIL NIL NIL NIL \"<i>\")",
        "Envelope { date: Some([100]), subject: Some([115]), from: Some([Address { name: Some([84]), adl: None, mailbox: Some([103, 114, 97, 121]), host: Some([99, 97, 99]) }]), sender: None, reply_to: None, to: None, cc: None, bcc: None, in_reply_to: None, message_id: Some([60, 105, 62]) }",
    ),
    (
        b"(NIL NIL NIL ((\"a\" NIL NIL NIL)(\"b\" NIL NIL NIL) (\"c\" NIL NIL NIL) ) ((NIL \"d\" NIL NIL)) nil NIL NIL \"r\" NIL)x",
        r#"Envelope { date: None, subject: None, from: None, sender: Some([Address { name: Some([97]), adl: None, mailbox: None, host: None }, Address { name: Some([98]), adl: None, mailbox: None, host: None }, Address { name: Some([99]), adl: None, mailbox: None, host: None }]), reply_to: Some([Address { name: None, adl: Some([100]), mailbox: None, host: None }]), to: None, cc: None, bcc: None, in_reply_to: Some([114]), message_id: None } then "x""#,
    ),
    (
        b"(NIL NIL NIL NIL NIL ((NIL NIL NIL \"t\")) ((NIL NIL NIL \"c\")) ((NIL NIL NIL \"b\")) NIL NIL)",
        "Envelope { date: None, subject: None, from: None, sender: None, reply_to: None, to: Some([Address { name: None, adl: None, mailbox: None, host: Some([116]) }]), cc: Some([Address { name: None, adl: None, mailbox: None, host: Some([99]) }]), bcc: Some([Address { name: None, adl: None, mailbox: None, host: Some([98]) }]), in_reply_to: None, message_id: None }",
    ),
    (b"(NIL NIL () NIL NIL NIL NIL NIL NIL NIL)", "Error"),
    (b"(NIL NIL NIL NIL NIL NIL NIL NIL NIL)", "Error"),
    (b"(NIL NIL \"x\" NIL NIL NIL NIL NIL NIL NIL)", "Error"),
    (b"(\"d\" NIL ((NIL NIL", "Incomplete(Unknown)"),
    (b"(\"d\" {2}\r\n", "Incomplete(Size(2))"),
];

fn owned_address(alloc: Global, i: &[u8]) -> IResult<&[u8], Address<'static>> {
    let (i, value) = address(i)?;
    Ok((i, value.into_owned(alloc)?))
}

fn owned_envelope(alloc: Global, i: &[u8]) -> IResult<&[u8], Envelope<'static>> {
    let (i, value) = envelope(alloc, i)?;
    Ok((i, value.into_owned(alloc)?))
}

#[test]
fn addresses(rt: HostRuntime) {
    let alloc = rt.alloc();
    for (input, want) in ADDRESSES {
        assert_says(&rt, alloc, address(input), want);
        assert_says(&rt, alloc, owned_address(alloc, input), want);
    }
}

#[test]
fn envelopes(rt: HostRuntime) {
    let alloc = rt.alloc();
    for (input, want) in ENVELOPES {
        assert_says(&rt, alloc, envelope(alloc, input), want);
        assert_says(&rt, alloc, owned_envelope(alloc, input), want);
    }
}
