//! Readers of shared items, each of the rule of its name.
//!
//! Each answers `Error` where its rule denies what stands there, whatever follows; `Incomplete` where more bytes are
//! needed to tell; and `Failure` only where memory ran out.

pub mod capabilities;
pub mod flags;
pub mod gmail;
pub mod mailboxes;
pub mod rights;
pub mod statuses;
pub mod uid_sets;

pub use capabilities::{capability_data, enabled_data};
pub use flags::{flag, flag_list, flag_perm};
pub use gmail::{gmail_label_list, gmail_msgid, gmail_thrid};
pub use mailboxes::mailbox;
pub use statuses::status;
pub use uid_sets::uid_set;
