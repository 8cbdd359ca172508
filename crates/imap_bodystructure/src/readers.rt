//! Readers of slices, each of the rule of its name.
//!
//! Each answers `Error` where its rule denies what stands there, whatever follows; `Incomplete` where more bytes are
//! needed to tell; and `Failure` only where memory ran out.

pub mod bodies;
pub mod extensions;
pub mod fields;

pub use bodies::body_structure;
pub use extensions::body_extension;
pub use fields::body_fields;
