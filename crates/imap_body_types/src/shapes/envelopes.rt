//! Envelopes and addresses.

/// An address (RFC 3501, section 9: address). Its strings are raw: backslashes of a quoted one stay.
#[derive(Debug, Drop, PartialEq, Eq)]
pub struct Address<B> {
    /// The person's name, encoded words and all; `None` is `NIL`, as in each field.
    pub name: Option<B>,
    /// The source route.
    pub adl: Option<B>,
    /// What stands before the `@`; `None` ends a group, and a mailbox without a host begins one.
    pub mailbox: Option<B>,
    /// What stands behind the `@`.
    pub host: Option<B>,
}

/// An envelope (RFC 3501, section 9: envelope). Its strings are raw: backslashes of a quoted one stay.
#[derive(Debug, Drop, PartialEq, Eq)]
pub struct Envelope<B> {
    /// The date, as it stands in the message; `None` is `NIL`, as in each field.
    pub date: Option<B>,
    /// The subject, encoded words and all.
    pub subject: Option<B>,
    /// Who wrote the message.
    pub from: Option<Vec<Address<B>>>,
    /// Who sent it.
    pub sender: Option<Vec<Address<B>>>,
    /// Where answers go.
    pub reply_to: Option<Vec<Address<B>>>,
    /// To whom it went.
    pub to: Option<Vec<Address<B>>>,
    /// Who got a copy.
    pub cc: Option<Vec<Address<B>>>,
    /// Who got a copy that the others don't see.
    pub bcc: Option<Vec<Address<B>>>,
    /// The id of the message that this one answers.
    pub in_reply_to: Option<B>,
    /// The message's own id.
    pub message_id: Option<B>,
}
