//! Which section of a message a server means: types, rules and readers. Part search, which finds a body inside a body,
//! and answers its path.
#![tactic(auto)]

pub mod at;
pub mod laws;
pub mod readers;
pub mod search;
mod types;

pub use readers::sections::{section, section_msgtext, section_part};
pub use search::{BodyStructParser, PartsError};
pub use types::sections::{MessageSection, SectionPath};
