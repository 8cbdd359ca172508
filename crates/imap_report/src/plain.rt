//! The words of `imap_cat`.

ghost use Rattle.std.specs.Prelude.{◌≡◌, IfOk, string_bytes};
ghost use Rattle.imap_proto.specs.Responses.{response_value};
ghost use Rattle.imap_report.specs.Plain.{name_of, counted, plain};

use crate::outcome::Finish;
use crate::wording::{OnDenied, Wording};
use imap_proto::Response;
use std::alloc::{AllocError, Global};

/// A name and a number in each line: of a response its kind in lower case and how many bytes it has, as `fetch 12`;
/// of a skipped line `skipped` and how many; of the end `waiting` or `denied` and how many bytes are left, or `end`
/// where none is.
#[derive(Clone, Copy, Debug, PartialEq, Eq)]
pub struct Plain {
    /// What is done with a denied line.
    pub on_denied: OnDenied,
}

fn name(response: &Response<'_>) -> &'static str
    ensures { result.now ≡ name_of (response_value response.now) }
{
    match response {
        Response::Capabilities(_) => "capabilities",
        Response::Continue(_) => "continue",
        Response::Done { .. } => "done",
        Response::Data { .. } => "data",
        Response::Expunge(_) => "expunge",
        Response::Vanished { .. } => "vanished",
        Response::Fetch(_, _) => "fetch",
        Response::MailboxData(_) => "mailboxdata",
        Response::Quota(_) => "quota",
        Response::QuotaRoot(_) => "quotaroot",
        Response::Id(_) => "id",
        Response::Acl(_) => "acl",
        Response::ListRights(_) => "listrights",
        Response::MyRights(_) => "myrights",
    }
}

fn counted(alloc: Global, name: &str, n: usize) -> Result<String, AllocError>
    ensures { IfOk result (λ s. string_bytes s ≡ counted name.now n) }
{
    let mut text = String::from_str(alloc, name)?;
    text.push_str(" ")?;
    text.push_str(&n.to_string(alloc)?)?;
    Ok(text)
}

impl Wording for Plain {
    ghost words = { λ p. plain p.on_denied };

    fn on_denied(&self) -> OnDenied {
        self.on_denied
    }

    fn response(
        &self,
        alloc: Global,
        response: &Response<'static>,
        size: usize,
    ) -> Result<String, AllocError> {
        counted(alloc, name(response), size)
    }

    fn skipped(&self, alloc: Global, line: &[u8]) -> Result<String, AllocError> {
        counted(alloc, "skipped", line.len())
    }

    fn last(&self, alloc: Global, finish: Finish, left: usize) -> Result<String, AllocError> {
        match finish {
            Finish::End => String::from_str(alloc, "end"),
            Finish::Waiting => counted(alloc, "waiting", left),
            Finish::Denied => counted(alloc, "denied", left),
        }
    }
}
