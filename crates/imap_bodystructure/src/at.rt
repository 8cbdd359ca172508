//! Readers that walk positions in one message.
//!
//! Each reads its message, m or that of its input, from p on, and answers the position after what it read. p must be at
//! most the message's length.
//!
//! Each answers `Error` where its rule denies what stands there, whatever follows; `Incomplete` where more bytes are
//! needed to tell; and `Failure` only where memory ran out.

pub mod bodies;
pub mod extensions;
pub mod fields;
