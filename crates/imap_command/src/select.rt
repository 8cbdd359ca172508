//! What a [`SelectCommand`](crate::SelectCommand) has been told so far.

/// A mailbox.
#[derive(Drop)]
pub struct NoParams;

/// A mailbox and a parameter.
#[derive(Drop)]
pub struct Params;
