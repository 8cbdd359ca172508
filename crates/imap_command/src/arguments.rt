//! Arguments: their judgement, and their quoting.

ghost use Rattle.std.specs.Prelude.{◌≡◌, ◌++◌, IfOk, OnOk, codes};
ghost use Rattle.std.specs.Option.{option_or};
ghost use Rattle.imap_command.specs.Arguments.{refusal, refused_byte, judgement, quoted, escaped_byte, Judges};

use crate::BuildError;
use std::alloc::{AllocError, Global};

/// A command's word with one argument behind it.
pub(crate) fn with_argument(
    alloc: Global,
    word: &[u8],
    argument: &str,
) -> Result<Vec<u8>, BuildError>
    ensures judged { Judges (refusal argument.now) result }
    ensures text { IfOk result (λ args. args.items ≡ word.now ++ quoted argument.now) }
{
    judge(argument)?;
    let mut args = Vec::from_slice(alloc, word)?;
    push_quoted(&mut args, argument)?;
    Ok(args)
}

/// A command's word with two arguments behind it, a space between them.
pub(crate) fn with_arguments(
    alloc: Global,
    word: &[u8],
    first: &str,
    second: &str,
) -> Result<Vec<u8>, BuildError>
    ensures judged { Judges (option_or (refusal first.now) (refusal second.now)) result }
    ensures text { IfOk result (λ args. args.items
        ≡ word.now ++ (quoted first.now ++ (codes " " ++ quoted second.now))) }
{
    judge(first)?;
    judge(second)?;
    let mut args = Vec::from_slice(alloc, word)?;
    push_pair(&mut args, first, second)?;
    Ok(args)
}

/// The argument as a quoted string (RFC 3501, section 9: quoted), as the calls of a builder write it.
///
/// `CarriageReturn`, `LineFeed`, `Nul`: the first such byte of the argument. It takes memory; `OutOfMemory`: memory ran
/// out.
pub fn quoted_string(alloc: Global, argument: &str) -> Result<Vec<u8>, BuildError>
    ensures judged { Judges (refusal argument.now) result }
    ensures text { IfOk result (λ text. text.items ≡ quoted argument.now) }
{
    with_argument(alloc, b"", argument)
}

fn refused(byte: u8) -> Option<BuildError>
    ensures { result ≡ refused_byte byte }
{
    match byte {
        b'\r' => Some(BuildError::CarriageReturn),
        b'\n' => Some(BuildError::LineFeed),
        0 => Some(BuildError::Nul),
        _ => None,
    }
}

// Refuses an argument that a quoted string can't hold, and names its first such byte.
pub(crate) fn judge(argument: &str) -> Result<(), BuildError>
    ensures { result ≡ judgement (refusal argument.now) }
{
    for byte in argument.as_bytes() {
        if let Some(refusal) = refused(*byte) {
            return Err(refusal);
        }
    }
    Ok(())
}

// Adds the argument as a quoted string (RFC 3501, section 9: quoted).
pub(crate) fn push_quoted(out: &mut Vec<u8>, argument: &str) -> Result<(), AllocError>
    ensures { OnOk result (out.new.items ≡ out.old.items ++ quoted argument.now) }
{
    out.push(b'"')?;
    for byte in argument.as_bytes() {
        push_escaped(out, *byte)?;
    }
    out.push(b'"')?;
    Ok(())
}

fn push_pair(out: &mut Vec<u8>, first: &str, second: &str) -> Result<(), AllocError>
    ensures { OnOk result (out.new.items ≡ out.old.items
        ++ (quoted first.now ++ (codes " " ++ quoted second.now))) }
{
    push_quoted(out, first)?;
    out.push(b' ')?;
    push_quoted(out, second)
}

fn push_escaped(out: &mut Vec<u8>, byte: u8) -> Result<(), AllocError>
    ensures { OnOk result (out.new.items ≡ out.old.items ++ escaped_byte byte) }
{
    if byte == b'"' || byte == b'\\' {
        out.push(b'\\')?;
    }
    out.push(byte)?;
    Ok(())
}
