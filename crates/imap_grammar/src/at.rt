//! Readers that walk positions in one message. What they find of it is told by spans.
//!
//! Each reads m from p on as the reader of the same name reads a slice, and answers the position behind what it read
//! in place of the rest. The condition of each is that p is at most m's length; `cut0` and `cut1` name their own.
//! Words and runs come as their span, so that reading them takes no memory.

pub mod lists;
pub mod span;
pub mod tags;

use crate::answer::Err;
pub use lists::{opt_opt, paren_delimited, parenthesized_list, parenthesized_nonempty_list};
pub use span::Span;

/// The position behind what was read and its value, or why there is none.
pub type Reached<T> = Result<(usize, T), Err>;
