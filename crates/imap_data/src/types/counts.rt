//! Items of STATUS.

/// An item of STATUS (RFC 3501, section 7.2.4; RFC 4551, section 3.6).
#[derive(Clone, Copy, Debug, PartialEq, Eq)]
pub enum StatusAttribute {
    /// `HIGHESTMODSEQ`: the highest of the messages' modification sequences.
    HighestModSeq(u64),
    /// `MESSAGES`: how many messages there are.
    Messages(u32),
    /// `RECENT`: how many of them are recent.
    Recent(u32),
    /// `UIDNEXT`: the least UID that the next message can have.
    UidNext(u32),
    /// `UIDVALIDITY`: while it stays, UIDs stay valid.
    UidValidity(u32),
    /// `UNSEEN`: how many messages are not seen.
    Unseen(u32),
}
