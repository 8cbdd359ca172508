//! The parser and the builder of commands for C: a static library, whose header is `bindings/c/imap.h`.
//!
//! C holds the bytes that a server sent, and is answered numbers: what stands at their front, and how many bytes it
//! has. A text goes into a buffer of the caller's, as much of it as fits, and the call answers how long it is. Nothing
//! else crosses: no call hands out memory, and none keeps anything.
#![tactic(auto)]

mod answers;
mod commands;
mod cursors;
mod json;
pub mod laws;
mod parsing;
mod refusals;
mod texts;

pub use answers::{Answer, LineAnswer};
pub use cursors::Cursor;
pub use texts::TextAnswer;
