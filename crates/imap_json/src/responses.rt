//! Responses, and the function that this library is for.

ghost use Rattle.std.specs.Prelude.{◌≡◌, ◌≤◌, [], ◌∷◌, IfOk, OnOk, string_bytes};
ghost use Rattle.std.specs.List.{All};
ghost use Rattle.serde_json.specs.Written.{compact_text};
ghost use Rattle.imap_proto.specs.Responses.{OutcomeValue, outcome_value, ResponseValue, response_value};
ghost use Rattle.imap_json.specs.Forms.{Tells};
ghost use Rattle.imap_json.specs.Responses.{outcome_json, kind_json, json_of};

use crate::forms::{ToJson, field};
use crate::output::Output;
use imap_proto::{Outcome, Response};
use std::alloc::{AllocError, Global};

impl<'a> ToJson for Outcome<'a> {
    ghost meaning = { OutcomeValue };

    ghost said = { outcome_value };

    ghost json = { outcome_json };

    fn write(&self, out: &mut Output) -> Result<(), AllocError> {
        out.begin_object()?;
        field(out, "code", &self.code)?;
        field(out, "information", &self.information)?;
        out.end_object()
    }
}

// A response of one field.
fn of_one<A: ToJson>(out: &mut Output, kind: &str, name: &str, value: &A) -> Result<(), AllocError>
    ensures { OnOk result (Tells out.old out.new
        (kind_json kind.now ((name.now, A.json (A.said value.now)) ∷ []))) }
{
    out.begin_object()?;
    field(out, "kind", &kind)?;
    field(out, name, value)?;
    out.end_object()
}

// A response of two fields.
fn of_two<A: ToJson, B: ToJson>(
    out: &mut Output,
    kind: &str,
    first: (&str, &A),
    second: (&str, &B),
) -> Result<(), AllocError>
    ensures { OnOk result (Tells out.old out.new
        (kind_json kind.now
        ((first.entry.0.now, A.json (A.said first.entry.1.now))
        ∷ (second.entry.0.now, B.json (B.said second.entry.1.now))
        ∷ []))) }
{
    out.begin_object()?;
    field(out, "kind", &kind)?;
    field(out, first.0, first.1)?;
    field(out, second.0, second.1)?;
    out.end_object()
}

// A response of three fields.
fn of_three<A: ToJson, B: ToJson, C: ToJson>(
    out: &mut Output,
    kind: &str,
    first: (&str, &A),
    second: (&str, &B),
    third: (&str, &C),
) -> Result<(), AllocError>
    ensures { OnOk result (Tells out.old out.new
        (kind_json kind.now
        ((first.entry.0.now, A.json (A.said first.entry.1.now))
        ∷ (second.entry.0.now, B.json (B.said second.entry.1.now))
        ∷ (third.entry.0.now, C.json (C.said third.entry.1.now))
        ∷ []))) }
{
    out.begin_object()?;
    field(out, "kind", &kind)?;
    field(out, first.0, first.1)?;
    field(out, second.0, second.1)?;
    field(out, third.0, third.1)?;
    out.end_object()
}

impl<'a> ToJson for Response<'a> {
    ghost meaning = { ResponseValue };

    ghost said = { response_value };

    ghost json = { json_of };

    fn write(&self, out: &mut Output) -> Result<(), AllocError> {
        match self {
            Response::Capabilities(capabilities) => {
                of_one(out, "capabilities", "capabilities", capabilities)
            }
            Response::Continue(outcome) => of_one(out, "continue", "outcome", outcome),
            Response::Done {
                tag,
                status,
                outcome,
            } => of_three(
                out,
                "done",
                ("tag", &tag.0),
                ("status", status),
                ("outcome", outcome),
            ),
            Response::Data { status, outcome } => {
                of_two(out, "data", ("status", status), ("outcome", outcome))
            }
            Response::Expunge(number) => of_one(out, "expunge", "number", number),
            Response::Vanished { earlier, uids } => {
                of_two(out, "vanished", ("earlier", earlier), ("uids", uids))
            }
            Response::Fetch(number, attributes) => of_two(
                out,
                "fetch",
                ("number", number),
                ("attributes", attributes),
            ),
            Response::MailboxData(datum) => of_one(out, "mailboxdata", "datum", datum),
            Response::Quota(quota) => of_one(out, "quota", "quota", quota),
            Response::QuotaRoot(root) => of_one(out, "quotaroot", "quota_root", root),
            Response::Id(id) => of_one(out, "id", "id", id),
            Response::Acl(acl) => of_one(out, "acl", "acl", acl),
            Response::ListRights(rights) => of_one(out, "listrights", "list_rights", rights),
            Response::MyRights(rights) => of_one(out, "myrights", "my_rights", rights),
        }
    }
}

/// The response as one line of JSON (RFC 8259), without a line end, in the form that `docs/JSON.md` of the repository
/// says.
///
/// Responses that say the same have the same text, and responses that don't have another one (`laws`). The text has no
/// byte below 32, so neither CR nor LF, and each response is one line of JSON Lines.
///
/// It takes memory for the text, for a byte string that isn't UTF-8 also for its base64, and for an ID also for its
/// keys in order. `Err`: memory ran out.
pub fn to_json(alloc: Global, response: &Response<'_>) -> Result<String, AllocError>
    ensures text { IfOk result (λ s.
        string_bytes s ≡ compact_text (json_of (response_value response.now))) }
    ensures one_line { IfOk result (λ s. All (λ b. 32 ≤ b) (string_bytes s)) }
{
    let mut out = Output::new(alloc);
    response.write(&mut out)?;
    Ok(out.into_text())
}
