//! What readers answer.

ghost use Rattle.std.specs.Prelude.{◌≡◌};
ghost use Rattle.imap_grammar.specs.declared.answer.Err.TheVariants.{Failure};

use std::alloc::{AllocError, AllocFailed};
use thiserror::Error;

/// How many bytes are missing, as far as that is known.
#[derive(Clone, Copy, Debug, PartialEq, Eq)]
pub enum Needed {
    /// More bytes, and it is not known how many.
    Unknown,
    /// So many more bytes, at least one. Only a literal knows (RFC 3501, section 4.3).
    Size(usize),
}

/// Why a reader has no value.
#[derive(Clone, Debug, Drop, PartialEq, Eq, Error)]
pub enum Err {
    /// More bytes are needed to tell. Mostly some of them make a value; but a number, an atom or the name of an entry
    /// is judged behind the byte that ends it, so one that can't stand there is still waited for before that.
    #[error("more bytes are needed")]
    Incomplete(Needed),
    /// No bytes behind these can make a value.
    #[error("denied")]
    Error,
    /// Memory ran out, and nothing else.
    #[error("out of memory")]
    Failure,
}

impl From<AllocError> for Err {
    ghost from_gives = { λ _ e. e ≡ Failure };

    fn from(_error: AllocError) -> Err {
        Err::Failure
    }
}

impl<T: Drop> From<AllocFailed<T>> for Err {
    ghost from_gives = { λ _ e. e ≡ Failure };

    fn from(_failed: AllocFailed<T>) -> Err {
        Err::Failure
    }
}

/// What is left of the input and the value that was read, or why there is none.
pub type IResult<I, T> = Result<(I, T), Err>;
