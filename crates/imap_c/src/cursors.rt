//! Cursors over a buffer that the caller holds.

ghost use Rattle.std.specs.Prelude.{◌≡◌, ◌+◌, ◌<◌, ◌≤◌, ◌^◌, ◌⊎◌};

use crate::answers::Answer;

/// How far a caller's buffer is read. The caller puts what comes behind what the buffer holds. `{ 0, 0 }` is a cursor
/// at its front.
#[repr(C)]
#[derive(Clone, Copy)]
pub struct Cursor {
    /// Where the next response begins.
    pub start: usize,
    /// How many bytes have to stand from there on before they are read again.
    pub wanted: usize,
}

/// The cursor behind an answer on so many bytes that stand from its start on.
pub(crate) fn moved(start: usize, held: usize, answer: Answer) -> Cursor
    requires within { answer.consumed ≤ held }
    requires fits { start + held < 2 ^ 64 }
    ensures start { result.start ≡ start + answer.consumed }
    ensures nothing { answer.missing ≡ 0 → result.wanted ≡ 0 }
    ensures wanted { (0 < answer.missing) →
        (result.wanted ≡ held + answer.missing)
        ⊎ ((result.wanted ≡ 0) × (2 ^ 64 ≤ held + answer.missing)) }
{
    let wanted = match answer.missing {
        0 => 0,
        missing => held.checked_add(missing).unwrap_or(0),
    };
    Cursor {
        start: start + answer.consumed,
        wanted,
    }
}
