//! How a report is worded.

ghost use Rattle.std.specs.Prelude.{◌≡◌, IfOk, length, string_bytes};
ghost use Rattle.imap_proto.specs.Owned.{owned_response};
ghost use Rattle.imap_proto.specs.Responses.{ResponseValue, response_value};
ghost use Rattle.imap_proto.specs.Skipping.{Taken, Skipped};
ghost use Rattle.imap_report.specs.Report.{Words};

use crate::outcome::Finish;
use imap_proto::Response;
use std::alloc::{AllocError, Global};

/// What a run does where no response begins with what is left.
#[derive(Clone, Copy, Debug, PartialEq, Eq)]
pub enum OnDenied {
    /// It counts the bytes that are left, and ends.
    Stop,
    /// It skips the logical line in front, as `Feed::skip_line` of `imap_proto` does, and goes on behind that. Where
    /// the input ends before the line is whole, it ends.
    Skip,
}

/// The words of a report: the text of each line, without a line end.
pub trait Wording {
    /// What is done with a denied line, and the texts.
    ghost words: { Self → Words };

    /// What is done with a denied line. No memory.
    fn on_denied(&self) -> OnDenied
        ensures { result ≡ (words self.now).on_denied };

    /// The text of a response that a feed gave of so many bytes, with all its texts owned. `Err`: memory ran out.
    fn response(
        &self,
        alloc: Global,
        response: &Response<'static>,
        size: usize,
    ) -> Result<String, AllocError>
        ensures { IfOk result (λ text.
            (v : ResponseValue) →
            response_value response.now ≡ owned_response v →
            string_bytes text ≡ (words self.now).of_item (Taken v) size) };

    /// The text of a denied line that is skipped. `Err`: memory ran out.
    fn skipped(&self, alloc: Global, line: &[u8]) -> Result<String, AllocError>
        ensures { IfOk result (λ text.
            string_bytes text ≡ (words self.now).of_item (Skipped line.now) (length line.now)) };

    /// The text of the last line, where so many bytes are left. `Err`: memory ran out.
    fn last(&self, alloc: Global, finish: Finish, left: usize) -> Result<String, AllocError>
        ensures { IfOk result (λ text.
            string_bytes text ≡ (words self.now).of_end finish left) };
}
