//! Words, spaces and runs: the parts that other readers are made of. None takes memory.
//!
//! Each reader answers `Error` where the bytes that it wants can't stand there, whatever follows, and `Incomplete`
//! where more bytes are needed to tell.

ghost use Rattle.std.specs.Prelude.{◌≡◌, ◌==◌, ◌<◌, ℕ, Bool, length, position, slice_get};
ghost use Rattle.std.specs.Option.{option_copied, option_map, ForSome};
ghost use Rattle.imap_grammar.specs.Answer.{Answers, StepsExactly};
ghost use Rattle.imap_grammar.specs.Memory.{NeverFails};
ghost use Rattle.imap_grammar.specs.Meaning.{outside};
ghost use Rattle.imap_grammar.specs.Rule.{tag_by, run0, run1};
ghost use Rattle.imap_grammar.specs.Tags as tags;
ghost use Rattle.imap_grammar.specs.Tags.{same_letter};

use crate::answer::IResult;
use crate::at;
use crate::at::span::sliced;

/// Returns `$value` from the function where the word stands in front, ASCII letters in either case; in a message, with
/// the position behind it, where it stands at `$p`.
///
/// Where `word` denies, the function goes on; its `Incomplete` is returned. It takes no memory of its own.
#[macro_export]
macro_rules! on_word {
    ($text:expr, $i:expr, $value:expr) => {
        $crate::first!($crate::tags::word($text, $i), _ => $value)
    };
    ($text:expr, $m:expr, $p:expr, $value:expr) => {
        $crate::first!($crate::at::tags::word($text, $m, $p), _ => $value)
    };
}

/// Returns from the function what the reader answers, or with a pattern `$value`, which is made of what it found.
///
/// Where the reader denies, the function goes on; its `Incomplete` and `Failure` are returned. It takes no memory of
/// its own.
#[macro_export]
macro_rules! first {
    ($answer:expr) => {
        match $answer {
            Err($crate::Err::Error) => {}
            other => return other,
        }
    };
    ($answer:expr, $found:pat => $value:expr) => {
        match $answer {
            Ok((rest, $found)) => return Ok((rest, $value)),
            Err($crate::Err::Error) => {}
            Err(e) => return Err(e),
        }
    };
}

/// The reader's answer with its value as `Some`, and `None` where it denies: then nothing of `$i` is taken.
///
/// `Incomplete` and `Failure` stay as they are. It does not return from the function, and takes no memory of its own.
#[macro_export]
macro_rules! maybe {
    ($answer:expr, $i:expr) => {
        match $answer {
            Ok((rest, value)) => Ok((rest, Some(value))),
            Err($crate::Err::Error) => Ok(($i, None)),
            Err(e) => Err(e),
        }
    };
}

/// The second byte, if there is one: it tells alternatives apart that begin with the same byte. No memory.
pub fn second(i: &[u8]) -> Option<&u8>
    ensures { option_copied result ≡ slice_get i.now 1 }
{
    i.get(1)
}

/// Exactly these bytes; others are `Error`. No memory.
#[tactic(auto, using(crate::proofs::Agreement::exact_answer))]
pub fn tag<'a>(text: &[u8], i: &'a [u8]) -> IResult<&'a [u8], &'a [u8]>
    ensures steps { StepsExactly (tag_by ◌==◌ text.now) (λ x. x.now) i.now result }
    ensures answer { Answers (tag_by ◌==◌ text.now) (λ x. x.now) i.now result }
    ensures no_failure { NeverFails result }
{
    sliced(i, at::tags::tag(text, i, 0))
}

/// These bytes, ASCII letters in either case; others are `Error`. No memory.
#[tactic(auto, using(crate::proofs::Agreement::exact_answer))]
pub fn word<'a>(text: &[u8], i: &'a [u8]) -> IResult<&'a [u8], &'a [u8]>
    ensures steps { StepsExactly (tag_by same_letter text.now) (λ x. x.now) i.now result }
    ensures answer { Answers (tag_by same_letter text.now) (λ x. x.now) i.now result }
    ensures no_failure { NeverFails result }
{
    sliced(i, at::tags::word(text, i, 0))
}

/// A space, or nothing. No memory.
pub fn maybe_space(i: &[u8]) -> IResult<&[u8], Option<&[u8]>>
    ensures steps { StepsExactly tags.maybe_space (option_map (λ y. y.now)) i.now result }
    ensures no_failure { NeverFails result }
{
    maybe!(tag(b" ", i), i)
}

/// The run of a class in front: the bytes before `end`, where the first byte outside the class stands. No memory.
///
/// `None`: no such byte is there yet, so the answer is `Incomplete`. `end`, where there is one, must be below i's
/// length.
pub fn cut0(end: Option<usize>, i: &[u8]) -> IResult<&[u8], &[u8]>
    requires { ForSome end (λ n. n < length i.now) }
    ensures steps { (class : ℕ → Bool) →
        end ≡ position (outside class) i.now →
        StepsExactly (run0 class) (λ x. x.now) i.now result }
    ensures no_failure { NeverFails result }
{
    sliced(i, at::tags::cut0(end, i, 0))
}

/// The run of a class in front, at least one byte: the bytes before `end`, where the first byte outside the class
/// stands. No memory.
///
/// An `end` of 0 is `Error`. `None`: no such byte is there yet, so the answer is `Incomplete`. `end`, where there is
/// one, must be below i's length.
pub fn cut1(end: Option<usize>, i: &[u8]) -> IResult<&[u8], &[u8]>
    requires { ForSome end (λ n. n < length i.now) }
    ensures steps { (class : ℕ → Bool) →
        end ≡ position (outside class) i.now →
        StepsExactly (run1 class) (λ x. x.now) i.now result }
    ensures no_failure { NeverFails result }
{
    sliced(i, at::tags::cut1(end, i, 0))
}

/// Spaces and tabs, maybe none. No memory.
pub fn blanks0(i: &[u8]) -> IResult<&[u8], &[u8]>
    ensures steps { StepsExactly tags.blanks0 (λ x. x.now) i.now result }
    ensures no_failure { NeverFails result }
{
    sliced(i, at::tags::blanks0(i, 0))
}

/// Spaces and tabs, at least one; another byte in front is `Error`. No memory.
pub fn blanks1(i: &[u8]) -> IResult<&[u8], &[u8]>
    ensures steps { StepsExactly tags.blanks1 (λ x. x.now) i.now result }
    ensures no_failure { NeverFails result }
{
    sliced(i, at::tags::blanks1(i, 0))
}
