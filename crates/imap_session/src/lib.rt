//! A client's session with a server (RFC 3501, section 3): which command is pending, which line ends it, and which
//! state the connection is in.
//!
//! A [`Session`] knows no network: its caller writes what [`Session::send`] gives to the server, and feeds it what the
//! server answers.
//!
//! ```rust
//! let mut session = Session::new(alloc);
//! let line = session.send(CommandBuilder::login(alloc, "user", "password")?)?;
//! // .. the line goes to the server, and what that answers is in `bytes`
//! session.feed(bytes)?;
//! while let Some(event) = session.next()? {
//!     // an event each: a response, or how the command was finished
//! }
//! ```
#![tactic(auto)]

mod errors;
mod event;
pub mod laws;
mod pending;
mod session;
mod states;
mod tags;

pub use errors::{SendError, SessionError};
pub use event::Event;
pub use session::Session;
