//! Data of IMAP servers: response codes and mailbox data. The items of `imap_shared` and the lines of
//! `imap_extensions` are re-exported.
#![tactic(auto)]

pub mod at;
pub mod laws;
pub mod readers;
mod types;

pub use imap_extensions::{
    Acl, AclEntry, IdMap, ListRights, MyRights, Quota, QuotaResource, QuotaResourceName, QuotaRoot,
};
pub use imap_shared::{AclRight, Capability, Status, UidSetMember};
pub use types::annotations::Metadata;
pub use types::codes::ResponseCode;
pub use types::counts::StatusAttribute;
pub use types::mailbox_data::MailboxDatum;
pub use types::names::{MailboxListData, NameAttribute};
