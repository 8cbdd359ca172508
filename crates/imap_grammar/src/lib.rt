//! The grammar's language, readers of its forms, and lists over a reader that is passed.
#![tactic(auto)]

mod answer;
pub mod at;
pub mod classes;
pub mod laws;
pub mod lists;
pub mod scanning;
pub mod tags;
pub mod text;

pub use answer::{Err, IResult, Needed};
pub use classes::{
    is_astring_char, is_atom_char, is_atom_specials, is_char, is_list_wildcards,
    is_quoted_specials, is_resp_specials, is_text_char,
};
pub use lists::{opt_opt, paren_delimited, parenthesized_list, parenthesized_nonempty_list};
