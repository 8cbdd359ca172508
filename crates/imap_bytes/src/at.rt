//! Readers that walk positions in one message. What they find of it is told by spans.
//!
//! Each reads m from p on as the reader of the same name reads a slice, and answers the position behind what it read
//! in place of the rest; runs (`.._chars`) stand here alone. The condition of each is that p is at most m's length.
//! Strings come as the span of their content, so that reading them takes no memory; `texts::quoted_utf8` and
//! `texts::astring_utf8` decode it.

pub mod numbers;
pub mod sets;
pub mod strings;
pub mod texts;

pub use imap_grammar::at::{
    Reached, Span, lists, opt_opt, paren_delimited, parenthesized_list,
    parenthesized_nonempty_list, span, tags,
};
pub use numbers::{number, number_64};
pub use sets::{sequence_range, sequence_set};
pub use strings::{astring, atom, literal, nil, nstring, quoted, string};
pub use texts::text;
