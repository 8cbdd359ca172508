//! Readers of the lines of extensions, each of the rule of its name.
//!
//! Each answers `Error` where its rule denies what stands there, whatever follows; `Incomplete` where more bytes are
//! needed to tell; and `Failure` only where memory ran out.

pub mod acls;
pub mod ids;
pub mod quotas;
pub mod vanishings;

pub use acls::{acl, list_rights, my_rights};
pub use ids::id;
pub use quotas::{quota, quota_root};
pub use vanishings::vanished;
