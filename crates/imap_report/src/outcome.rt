//! How a run ends.

ghost use Rattle.std.specs.Prelude.{◌≡◌};
ghost use Rattle.imap_report.specs.declared.outcome.Fault.TheVariants.{OutOfMemory};

use std::alloc::AllocError;
use thiserror::Error;

/// What was left at the end of the input.
#[derive(Clone, Copy, Debug, PartialEq, Eq)]
pub enum Finish {
    /// Nothing.
    End,
    /// A beginning of a response, perhaps.
    Waiting,
    /// Bytes that no response begins with.
    Denied,
}

/// Why a run broke off.
#[derive(Clone, Copy, Debug, PartialEq, Eq, Error)]
pub enum Fault {
    /// The reader failed.
    #[error("read failed")]
    Read,
    /// The writer failed.
    #[error("write failed")]
    Write,
    /// At least 2^64 - 1 bytes were read.
    #[error("input too long")]
    TooLong,
    /// Memory ran out.
    #[error("out of memory")]
    OutOfMemory,
}

impl From<AllocError> for Fault {
    ghost from_gives = { λ _ e. e ≡ OutOfMemory };

    fn from(_error: AllocError) -> Fault {
        Fault::OutOfMemory
    }
}
