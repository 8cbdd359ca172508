//! Types generic in their texts: spans of a message while it is read, and texts or byte strings for a caller.
//!
//! `S` stands for a text that is decoded, `B` for a byte string.

pub mod bodies;
pub mod envelopes;
pub mod extensions;
pub mod fields;
