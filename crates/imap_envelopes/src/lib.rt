//! Strings of a message as a reader keeps them, and envelopes: their rules, and readers at a position and of slices.
#![tactic(auto)]

pub mod at;
pub mod input;
pub mod keep;
pub mod kept;
pub mod readers;

pub use input::Input;
pub use keep::{Keep, Positions, Values};
