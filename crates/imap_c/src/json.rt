//! The response at the front of some bytes, as a line of JSON.

ghost use Rattle.std.specs.Prelude.{◌≡◌, ◌⊎◌};
ghost use Rattle.imap_proto.specs.Memory.{MayWantMemory};
ghost use Rattle.imap_c.specs.Numbers.{out_of_memory};
ghost use Rattle.imap_c.specs.Json.{BeginsWithOne, PutsJson, PutsText};

use crate::answers::refused;
use crate::texts::{TextAnswer, put, without_text};
use imap_json::to_json;
use imap_proto::Response;
use std::alloc::{AllocError, Global};

// Puts out a text, or tells that memory ran out.
fn put_text(out: &mut [u8], made: Result<String, AllocError>) -> TextAnswer
    ensures { PutsText made out.old out.new result }
{
    match made {
        Ok(text) => put(out, text.as_bytes()),
        Err(AllocError) => without_text(3),
    }
}

/// The response at the front of the bytes as a line of JSON, without a line end, in the form that `docs/JSON.md` says:
/// what `to_json` of `imap_json` makes of what `Response::parse` of `imap_proto` gives. Where there is no response the
/// buffer stays as it is, and the outcome is that of `imap_parse`. It takes memory for the response and the text, and
/// gives it back.
#[unsafe(no_mangle)]
pub extern "C" fn imap_json(alloc: Global, bytes: &[u8], out: &mut [u8]) -> TextAnswer
    ensures answer { PutsJson bytes.now out.old out.new result }
    ensures failure { result.outcome ≡ out_of_memory →
        MayWantMemory bytes.now ⊎ BeginsWithOne bytes.now }
{
    match Response::parse(alloc, bytes) {
        Ok((_, response)) => {
            let text = to_json(alloc, &response);
            drop(response); // By a call: dropped in place, each of its kinds would be proved here.
            put_text(out, text)
        }
        Err(error) => without_text(refused(&error).outcome),
    }
}
