//! What C is answered of some bytes, in numbers.

ghost use Rattle.std.specs.Prelude.{◌≡◌};
ghost use Rattle.imap_proto.specs.Responses.{response_value};
ghost use Rattle.imap_c.specs.Numbers.{kind_number, status_number, status_of, number_of};
ghost use Rattle.imap_c.specs.Answers.{response_answer, no_response, missing_bytes, fault_answer};

use imap_proto::{Err, MailboxDatum, Needed, Response, Status};

/// What stands at the front of some bytes.
#[repr(C)]
#[derive(Clone, Copy)]
pub struct Answer {
    /// 0: a response. 1: more bytes are needed. 2: no response begins so. 3: memory ran out. 4: the cursor begins
    /// behind the bytes.
    pub outcome: u32,
    /// The kind of the response, from 1 to 14; else 0.
    pub kind: u32,
    /// Of a status line 1 OK, 2 NO, 3 BAD, 4 PREAUTH, 5 BYE; else 0.
    pub status: u32,
    /// The number of a FETCH, EXPUNGE, EXISTS or RECENT; else 0.
    pub number: u32,
    /// How many bytes the response has; else 0.
    pub consumed: usize,
    /// How many bytes a literal lacks; 0 where that is not known, and where no bytes are needed.
    pub missing: usize,
}

/// The logical line at the front of some bytes.
#[repr(C)]
#[derive(Clone, Copy)]
pub struct LineAnswer {
    /// How many bytes it has, with its CRLF; 0 where it isn't whole.
    pub consumed: usize,
    /// Where it isn't whole, how many bytes its last literal lacks, or 0 where that is not known; else 0.
    pub missing: usize,
}

fn kind_of(response: &Response<'_>) -> u32
    ensures { result ≡ kind_number (response_value response.now) }
{
    match response {
        Response::Capabilities(_) => 1,
        Response::Continue(_) => 2,
        Response::Done { .. } => 3,
        Response::Data { .. } => 4,
        Response::Expunge(_) => 5,
        Response::Vanished { .. } => 6,
        Response::Fetch(_, _) => 7,
        Response::MailboxData(_) => 8,
        Response::Quota(_) => 9,
        Response::QuotaRoot(_) => 10,
        Response::Id(_) => 11,
        Response::Acl(_) => 12,
        Response::ListRights(_) => 13,
        Response::MyRights(_) => 14,
    }
}

fn number_of_status(status: &Status) -> u32
    ensures { result ≡ status_number status.now }
{
    match status {
        Status::Ok => 1,
        Status::No => 2,
        Status::Bad => 3,
        Status::PreAuth => 4,
        Status::Bye => 5,
    }
}

fn status_of(response: &Response<'_>) -> u32
    ensures { result ≡ status_of (response_value response.now) }
{
    match response {
        Response::Done { status, .. } | Response::Data { status, .. } => number_of_status(status),
        _ => 0,
    }
}

fn number_of(response: &Response<'_>) -> u32
    ensures { result ≡ number_of (response_value response.now) }
{
    match response {
        Response::Fetch(n, _)
        | Response::Expunge(n)
        | Response::MailboxData(MailboxDatum::Exists(n) | MailboxDatum::Recent(n)) => *n,
        _ => 0,
    }
}

/// A response that has so many bytes.
pub(crate) fn found(response: &Response<'_>, consumed: usize) -> Answer
    ensures { result ≡ response_answer (response_value response.now) consumed }
{
    Answer {
        outcome: 0,
        kind: kind_of(response),
        status: status_of(response),
        number: number_of(response),
        consumed,
        missing: 0,
    }
}

/// No response, and why.
pub(crate) fn without_response(outcome: u32, missing: usize) -> Answer
    ensures { result ≡ no_response outcome missing }
{
    Answer {
        outcome,
        kind: 0,
        status: 0,
        number: 0,
        consumed: 0,
        missing,
    }
}

/// How many bytes are missing, or 0 where that is not known.
pub(crate) fn missing(needed: Needed) -> usize
    ensures { result ≡ missing_bytes needed }
{
    match needed {
        Needed::Unknown => 0,
        Needed::Size(n) => n,
    }
}

/// Why there is no response.
pub(crate) fn refused(error: &Err) -> Answer
    ensures { result ≡ fault_answer error.now }
{
    match error {
        Err::Incomplete(needed) => without_response(1, missing(*needed)),
        Err::Error => without_response(2, 0),
        Err::Failure => without_response(3, 0),
    }
}
