//! Callers of the library whose own contracts follow from its contracts alone: a client's author may copy from these.
#![tactic(auto)]

pub mod commands;
pub mod messages;
pub mod parts;
pub mod sessions;
pub mod streams;
