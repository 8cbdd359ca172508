//! Readers that walk positions in one message, and tell texts by their spans, as those of `imap_bytes::at` do.
//!
//! Each reads m from p on as the reader of the same name reads a slice, and answers the position behind what it read
//! in place of the rest. The condition of each is that p is at most m's length. Those of lists take memory for the
//! list alone, those of mailbox names for bytes that are not UTF-8, those of numbers none.

pub mod flags;
pub mod gmail;
pub mod mailboxes;

pub use flags::flag_list;
pub use gmail::{gmail_label_list, gmail_msgid, gmail_thrid};
pub use mailboxes::mailbox;
