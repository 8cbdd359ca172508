//! Why a session gives no line, and why it gives no event.

ghost use Rattle.std.specs.Prelude.{◌≡◌};

use std::alloc::AllocError;
use thiserror::Error;

/// Why a command isn't sent, judged in this order. The session is then as it was before.
#[derive(Debug, PartialEq, Eq, Drop, Error)]
pub enum SendError {
    /// The server has not finished the command before.
    #[error("a command is pending")]
    Busy,
    /// The last tag was given, that with the number 18,446,744,073,709,551,615.
    #[error("no tag is left")]
    Exhausted,
    /// Memory ran out.
    #[error("out of memory")]
    OutOfMemory,
}

impl From<AllocError> for SendError {
    ghost use Rattle.imap_session.specs.declared.errors.SendError.TheVariants.{OutOfMemory};

    ghost from_gives = { λ _ error. error ≡ OutOfMemory };

    fn from(_: AllocError) -> SendError {
        SendError::OutOfMemory
    }
}

/// Why a session gives no event.
#[derive(Debug, PartialEq, Eq, Drop, Error)]
pub enum SessionError {
    /// No response begins with what it holds, whatever is fed behind that. Every later call of `next` says so again,
    /// until `skip_line` has dropped the line.
    #[error("denied")]
    Denied,
    /// A tagged line has another tag than the pending command, or no command is pending. Every later call of `next`
    /// says so again, until `skip_line` has dropped the line.
    #[error("strange tag")]
    StrangeTag,
    /// Memory ran out. The session is as it was before, and the same call may be made again.
    #[error("out of memory")]
    OutOfMemory,
}
