//! The lines of extensions: QUOTA and QUOTAROOT, ID, ACL with LISTRIGHTS and MYRIGHTS, and VANISHED.
#![tactic(auto)]

pub mod laws;
pub mod readers;
mod types;

pub use types::acls::{Acl, AclEntry, ListRights, MyRights};
pub use types::ids::{IdMap, owned_id_map};
pub use types::quotas::{Quota, QuotaResource, QuotaResourceName, QuotaRoot};
