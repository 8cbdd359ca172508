//! Lines that were skipped.

ghost use Rattle.std.specs.Prelude.{◌≡◌, ◌≤◌, IfOk, OnOk, string_bytes};
ghost use Rattle.std.specs.List.{All};
ghost use Rattle.serde_json.specs.Written.{compact_text};
ghost use Rattle.imap_json.specs.Forms.{Tells};
ghost use Rattle.imap_json.specs.Skipped.{skipped_json};

use crate::forms::field;
use crate::output::Output;
use crate::texts::write_bytes;
use std::alloc::{AllocError, Global};

fn write_skipped(line: &[u8], out: &mut Output) -> Result<(), AllocError>
    ensures { OnOk result (Tells out.old out.new (skipped_json line.now)) }
{
    out.begin_object()?;
    field(out, "kind", &"skipped")?;
    out.key("bytes")?;
    write_bytes(line, out)?;
    out.end_object()
}

/// A line that no response is, and that was skipped, as one line of JSON without a line end: its kind is `skipped`, and
/// it has the line's `bytes`, a string where they are UTF-8, else base64. The text has no byte below 32.
///
/// It takes memory for the text, and for bytes that aren't UTF-8 also for their base64. `Err`: memory ran out.
pub fn skipped_to_json(alloc: Global, line: &[u8]) -> Result<String, AllocError>
    ensures text { IfOk result (λ s. string_bytes s ≡ compact_text (skipped_json line.now)) }
    ensures one_line { IfOk result (λ s. All (λ b. 32 ≤ b) (string_bytes s)) }
{
    let mut out = Output::new(alloc);
    write_skipped(line, &mut out)?;
    Ok(out.into_text())
}
