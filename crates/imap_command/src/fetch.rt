//! What a [`FetchCommand`](crate::FetchCommand) has been told so far.

/// Neither messages nor attributes.
#[derive(Drop)]
pub struct Empty;

/// Messages, and no attributes yet.
#[derive(Drop)]
pub struct Messages;

/// Messages and a list of attributes that is still open.
#[derive(Drop)]
pub struct Attributes;

/// Messages and attributes; only modifiers may follow.
#[derive(Drop)]
pub struct Modifiers;
