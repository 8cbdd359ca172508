//! Reports whose lines are JSON.

ghost use Rattle.std.specs.Prelude.{◌≡◌, IfOk, string_bytes};
ghost use Rattle.imap_jsonl.specs.JsonLines.{end_name, end_text, json_lines};

use imap_json::{skipped_to_json, to_json};
use imap_proto::Response;
use imap_report::{Finish, OnDenied, Wording};
use std::alloc::{AllocError, Global};

/// A line of JSON for each response, for each skipped line, and for the end.
#[derive(Clone, Copy)]
pub struct JsonLines {
    /// What is done with a denied line.
    pub on_denied: OnDenied,
}

fn end_name(finish: Finish) -> &'static str
    ensures { result.now ≡ end_name finish }
{
    match finish {
        Finish::End => "end",
        Finish::Waiting => "waits",
        Finish::Denied => "denied",
    }
}

fn end_text(alloc: Global, finish: Finish, left: usize) -> Result<String, AllocError>
    ensures { IfOk result (λ s. string_bytes s ≡ end_text finish left) }
{
    let mut text = String::from_str(alloc, "{\"end\":\"")?;
    text.push_str(end_name(finish))?;
    text.push_str("\",\"left\":")?;
    text.push_str(&left.to_string(alloc)?)?;
    text.push_str("}")?;
    Ok(text)
}

impl Wording for JsonLines {
    ghost words = { λ j. json_lines j.on_denied };

    fn on_denied(&self) -> OnDenied {
        self.on_denied
    }

    fn response(
        &self,
        alloc: Global,
        response: &Response<'static>,
        _size: usize,
    ) -> Result<String, AllocError> {
        to_json(alloc, response)
    }

    fn skipped(&self, alloc: Global, line: &[u8]) -> Result<String, AllocError> {
        skipped_to_json(alloc, line)
    }

    fn last(&self, alloc: Global, finish: Finish, left: usize) -> Result<String, AllocError> {
        end_text(alloc, finish, left)
    }
}
