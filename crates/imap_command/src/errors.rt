//! Why a command isn't built.

ghost use Rattle.std.specs.Prelude.{◌≡◌};

use std::alloc::AllocError;
use thiserror::Error;

/// Why a command isn't built. The first three name the first byte of the arguments, the first
/// argument first, that a quoted string can't have (RFC 3501, section 9: quoted). Bytes from 128 on
/// pass as they are, though RFC 3501 has only seven-bit characters in a quoted string.
#[derive(Debug, Drop, Error, PartialEq, Eq)]
pub enum BuildError {
    /// Byte 13.
    #[error("carriage return in an argument")]
    CarriageReturn,
    /// Byte 10.
    #[error("line feed in an argument")]
    LineFeed,
    /// Byte 0.
    #[error("zero byte in an argument")]
    Nul,
    /// A command's name isn't made of words of letters, digits, `-` and `.` with a single space between two.
    #[error("not the name of a command")]
    BadName,
    /// A word is empty, or has a byte that isn't from 33 to 126, or `"`, `(`, `)` or `{`.
    #[error("not a word")]
    BadWord,
    /// A section has a part number 0, MIME without a part, a list of no names, or a count of 0.
    #[error("not a section")]
    BadSection,
    /// Memory ran out.
    #[error("out of memory")]
    OutOfMemory,
}

impl From<AllocError> for BuildError {
    ghost use Rattle.imap_command.specs.declared.errors.BuildError.TheVariants.{OutOfMemory};

    ghost from_gives = { λ _ error. error ≡ OutOfMemory };

    fn from(_: AllocError) -> BuildError {
        BuildError::OutOfMemory
    }
}
