//! Structures of bodies: their rules, and readers at a position and of slices.
#![tactic(auto)]

pub mod at;
mod limits;
pub mod readers;

pub use limits::{MAX_BODY_DEPTH, MAX_EXTENSION_DEPTH};
