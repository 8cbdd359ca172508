//! Readers that walk positions in one message: of the data of LIST; re-exports those of `imap_shared`.

pub(crate) mod names;

pub use imap_shared::at::{
    flag_list, flags, gmail, gmail_label_list, gmail_msgid, gmail_thrid, mailbox, mailboxes,
};
