//! Bytes as text.

ghost use Rattle.std.specs.Prelude.{◌≡◌, IfOk, IsOk, IsUtf8, string_bytes};
ghost use Rattle.std.specs.Str.Lossy.{utf8_lossy};
ghost use Rattle.imap_grammar.specs.Text.{text_of, decoded};

use bstr::ByteSlice;
use std::alloc::{AllocError, Global};
use std::borrow::CowStr;
use std::str;

// The text of bytes that are not UTF-8. A call of its own, so that `decode`, which is inlined, stays short; and it
// answers a `String`, since of a function with a loop the compiler doesn't see that it writes its whole answer, and
// callers would clear the room for a larger one.
#[cold]
#[inline(never)]
fn lossy(alloc: Global, bytes: &[u8]) -> Result<String, AllocError>
    ensures { IfOk result (λ s. string_bytes s ≡ utf8_lossy bytes.now) }
{
    let mut text = String::new(alloc);
    bytes.to_str_lossy_into(&mut text)?;
    Ok(text)
}

/// The text of the bytes: borrowed where they are UTF-8, and else with one U+FFFD for each ill-formed part.
///
/// It takes memory only for bytes that are not UTF-8; `Err`: memory ran out.
#[inline(always)]
pub fn decode(alloc: Global, bytes: &[u8]) -> Result<CowStr<'_>, AllocError>
    ensures text { IfOk result (λ t. text_of t ≡ decoded bytes.now) }
    ensures memory { IsUtf8 bytes.now → IsOk result }
{
    match str::from_utf8(bytes) {
        Ok(text) => Ok(CowStr::Borrowed(text)),
        Err(_) => Ok(CowStr::Owned(lossy(alloc, bytes)?)),
    }
}
