//! The public types: the shapes at texts of std.

pub mod bodies;
pub mod envelopes;
pub mod extensions;
pub mod fields;
