//! What several kinds of line share: statuses, capabilities, flags, Gmail's items, UID sets, mailbox names, rights,
//! and copies of texts.
#![tactic(auto)]

pub mod at;
pub mod copies;
pub mod laws;
pub mod owned;
pub mod readers;
mod types;

pub use types::capabilities::Capability;
pub use types::rights::AclRight;
pub use types::statuses::Status;
pub use types::uid_sets::UidSetMember;
