//! The public types.

pub mod sections;
