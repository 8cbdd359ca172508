//! Readers of numbers, strings, texts and sequence sets; re-exports the answers, classes, words and lists of
//! `imap_grammar`.
//!
//! Each answers `Error` where its rule denies what stands there, whatever follows; `Incomplete` where more bytes are
//! needed to tell; and `Failure` only where memory ran out.
#![tactic(auto)]

pub mod at;
pub mod laws;
pub mod numbers;
pub mod sets;
pub mod strings;
pub mod texts;

pub use imap_grammar::{
    Err, IResult, Needed, classes, first, is_astring_char, is_atom_char, is_atom_specials, is_char,
    is_list_wildcards, is_quoted_specials, is_resp_specials, is_text_char, lists, maybe, on_word,
    opt_opt, paren_delimited, parenthesized_list, parenthesized_nonempty_list, tags,
};
pub use numbers::{number, number_64};
pub use sets::{sequence_range, sequence_set};
pub use strings::{astring, atom, literal, nil, nstring, quoted, string};
pub use texts::{astring_utf8, nstring_utf8, quoted_utf8, string_utf8, text};
