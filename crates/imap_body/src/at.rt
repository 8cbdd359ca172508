//! Readers that walk positions in one message.
//!
//! Each reads its message, m or that of its input, from p on, and answers the position after what it read. p must be at
//! most the message's length; where `keep` holds a message, that must be m.
//!
//! Each answers `Error` where its rule denies what stands there, whatever follows; `Incomplete` where more bytes are
//! needed to tell; and `Failure` only where memory ran out.

// `lists` reads one attribute after another by `attributes`, which tells by the first byte what may stand there:
// `messages`, `worded` and `skipped` have the readers of these. What they keep of it, `crate::keep` says.
pub(crate) mod attributes;
pub(crate) mod lists;
pub(crate) mod messages;
mod skipped;
mod worded;

pub use imap_bodystructure::at::{bodies, extensions, fields};
pub use imap_envelopes::at::{envelopes, texts};
pub use imap_sections::at::sections;
