//! Finished commands.

/// The states of a connection (RFC 3501, section 3). No command that is built here leads to
/// `NotAuthenticated` or `Logout`.
#[derive(Clone, Copy, Debug, PartialEq, Eq)]
pub enum State {
    /// The client has yet to say who it is.
    NotAuthenticated,
    /// It may select a mailbox.
    Authenticated,
    /// A mailbox is selected.
    Selected,
    /// The connection is about to be closed.
    Logout,
}

/// A finished command.
#[derive(Drop)]
pub struct Command {
    /// Its text, without tag and line end.
    pub args: Vec<u8>,
    /// The state that it leads to where the server answers `OK`, if it leads to one. A SELECT or EXAMINE
    /// that fails leaves no mailbox selected (RFC 3501, section 6.3.1): the state is then `Authenticated`.
    pub next_state: Option<State>,
}
