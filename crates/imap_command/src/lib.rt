//! Commands of an IMAP client (RFC 3501, section 6), each built by calls that the types allow.
//!
//! A [`CommandBuilder`] begins a command, later calls add to it, and the finished [`Command`] holds
//! its text without tag and line end, and the state that it leads to. A call that takes memory
//! answers an error where memory ran out, and the command is then given up.
//!
//! Where later calls may follow, a command ends in one of two ways. After `attr` or `cond_store` a list is
//! still open, and `into_command` closes it, which takes memory; after `select`, `examine`, `attr_macro` or
//! `changed_since` none is, and `Command::from` takes no memory. `check`, `close`, `list` and `login`
//! answer a finished command.
//!
//! `other` begins any other command by its name. Each later call adds an argument behind a space, and `into_command`
//! takes the state that the command leads to, and no memory.
//!
//! ```rust
//! // UID FETCH 1:10 (FLAGS)
//! let fetch = CommandBuilder::uid_fetch(alloc)?
//!     .range(1..=10)?
//!     .attr(Attribute::Flags)?
//!     .into_command()?;
//! // SELECT "INBOX"
//! let select = Command::from(CommandBuilder::select(alloc, "INBOX")?);
//! // UID STORE 1:5,7 +FLAGS.SILENT (\Seen)
//! let store = CommandBuilder::other(alloc, "UID STORE")?
//!     .range(1..=5)?
//!     .num(7)?
//!     .word("+FLAGS.SILENT")?
//!     .list(&["\\Seen"])?
//!     .into_command(None);
//! ```
#![tactic(auto)]

mod arguments;
mod builder;
mod command;
mod errors;
pub mod fetch;
mod fetching;
mod judging;
pub mod laws;
mod listing;
mod numbers;
pub mod other;
mod others;
mod sections;
pub mod select;
mod selecting;
mod words;

pub use arguments::quoted_string;
pub use builder::CommandBuilder;
pub use command::{Command, State};
pub use errors::BuildError;
pub use fetching::FetchCommand;
pub use others::OtherCommand;
pub use sections::{Partial, Section, SectionText};
pub use selecting::SelectCommand;
pub use words::{AttrMacro, Attribute};
