//! Tags of commands (RFC 3501, section 2.2.1).

ghost use Rattle.std.specs.Prelude.{◌≡◌, ◌↔◌, IfOk, IsTrue};
ghost use Rattle.imap_session.specs.Tags.{tag, line};

use itoa::Buffer;
use std::alloc::{AllocError, Global};

// The line of a command with these args, with the tag of this number.
pub(crate) fn line(alloc: Global, number: u64, args: &[u8]) -> Result<Vec<u8>, AllocError>
    ensures { IfOk result (λ v. v.items ≡ line (tag number) args.now) }
{
    let mut buffer = Buffer::new();
    let mut line = Vec::from_slice(alloc, b"A")?;
    line.extend_from_slice(buffer.format(number).as_bytes())?;
    line.extend_from_slice(b" ")?;
    line.extend_from_slice(args)?;
    line.extend_from_slice(b"\r\n")?;
    Ok(line)
}

// Whether it is the tag of this number. No memory.
pub(crate) fn is_tag(text: &[u8], number: u64) -> bool
    ensures { IsTrue result ↔ (text.now ≡ tag number) }
{
    let mut buffer = Buffer::new();
    match text.split_first() {
        Some((b'A', digits)) => digits == buffer.format(number).as_bytes(),
        _ => false,
    }
}
