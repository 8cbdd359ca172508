//! Readers of data, each of the rule of its name.
//!
//! Each answers `Error` where its rule denies what stands there, whatever follows; `Incomplete` where more bytes are
//! needed to tell; and `Failure` only where memory ran out.

/// Reads the word in any case, then what the reader reads after it. It is `Ok` of what follows and of the
/// reader's value in the variant; an error of either is returned from the function.
macro_rules! worded {
    ($i:ident: $word:expr, $reader:ident $(($alloc:ident))? => $variant:path) => {{
        let (rest, _) = imap_bytes::tags::word($word, $i)?;
        let (rest, found) = $reader($($alloc,)? rest)?;
        Ok((rest, $variant(found)))
    }};
}

pub mod annotations;
pub mod codes;
pub mod counts;
pub mod mailbox_data;

pub use annotations::{metadata_solicited, metadata_unsolicited};
pub use codes::response_code;
pub use imap_extensions::readers::{
    acl, acls, id, ids, list_rights, my_rights, quota, quota_root, quotas, vanished, vanishings,
};
pub use imap_shared::readers::{
    capabilities, capability_data, enabled_data, flag, flag_list, flag_perm, flags, gmail,
    gmail_label_list, gmail_msgid, gmail_thrid, mailbox, mailboxes, rights, status, statuses,
    uid_set, uid_sets,
};
pub use mailbox_data::{list_or_lsub, mailbox_datum};
