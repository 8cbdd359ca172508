//! For each type, a map that changes its texts: into owned ones, or from spans to what they name in a message.

/// The value that `$answer` is `Ok` of. Where `$answer` is an error, the values `$before` are dropped, and the error is
/// returned from the function.
///
/// Each of `$before` is dropped by a call: where `?` drops large values in place, what is in them is proved there
/// again, part by part, at each `?`. It also spares a large value the copy that `?` makes.
#[macro_export]
macro_rules! or_drop {
    ($answer:expr $(, $before:ident)*) => {
        match $answer {
            Ok(made) => made,
            Err(error) => {
                $(drop($before);)*
                return Err(error);
            }
        }
    };
}

pub mod bodies;
pub mod change;
pub mod changes;
pub mod envelopes;
pub mod extensions;
pub mod fields;
pub mod parts;
