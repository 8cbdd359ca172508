//! What an [`OtherCommand`](crate::OtherCommand) has been told so far.

/// A name, and arguments.
#[derive(Drop)]
pub struct Arguments;

/// A name and arguments, of which the last is a set that may go on.
#[derive(Drop)]
pub struct Numbers;

/// A name and arguments, of which the last announces a literal; nothing may follow on the line.
#[derive(Drop)]
pub struct Announced;

/// The states in which an argument may be added.
pub trait Open {}

impl Open for Arguments {}

impl Open for Numbers {}
