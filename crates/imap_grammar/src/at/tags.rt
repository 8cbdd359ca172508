//! Words, spaces and runs at a position: the parts that other readers are made of. None takes memory.
//!
//! Each answers `Error` where the bytes that it wants can't stand there, whatever follows, and `Incomplete` where more
//! bytes are needed to tell.

ghost use Rattle.std.specs.Prelude.{◌≡◌, ◌==◌, ◌≤◌, ◌<◌, ◌+◌, ℕ, Bool, length, drop, position, IfSome};
ghost use Rattle.std.specs.Option.{ForSome};
ghost use Rattle.std.specs.List.{zip, list_all};
ghost use Rattle.imap_grammar.specs.Memory.{NeverFails};
ghost use Rattle.imap_grammar.specs.Positions.{Ahead, Inside, MaybeInside, named_in, maybe_in, StepsExactlyAt};
ghost use Rattle.imap_grammar.specs.Meaning.{outside};
ghost use Rattle.imap_grammar.specs.Rule.{tag_by, run0, run1};
ghost use Rattle.imap_grammar.specs.Classes as classes;
ghost use Rattle.imap_grammar.specs.Tags as tags;
ghost use Rattle.imap_grammar.specs.Tags.{same_letter};

use crate::answer::{Err, Needed};
use crate::at::Reached;
use crate::at::span::Span;
use crate::classes::is_blank;
use crate::maybe;

// Whether the bytes are the same as far as both go.
fn agrees(word: &[u8], i: &[u8]) -> bool
    ensures { result ≡ list_all (λ p. p.0 == p.1) (zip word.now i.now) }
{
    word.iter().zip(i).all(|(a, b)| a == b)
}

// Asked of a word's letter, which is known where it stands in the code: then it is one comparison.
fn is_same_letter(a: u8, b: u8) -> bool
    ensures { result ≡ same_letter a b }
{
    b == a.to_ascii_lowercase() || b == a.to_ascii_uppercase()
}

fn agrees_in_any_case(word: &[u8], i: &[u8]) -> bool
    ensures { result ≡ list_all (λ p. same_letter p.0 p.1) (zip word.now i.now) }
{
    word.iter().zip(i).all(|(a, b)| is_same_letter(*a, *b))
}

/// Exactly these bytes; others are `Error`. No memory.
#[tactic(auto, using(crate::proofs::Positions::word_cut), unfolding(crate::specs::Step::tag_step))]
#[inline(always)]
pub fn tag(text: &[u8], m: &[u8], p: usize) -> Reached<Span>
    requires { p ≤ length m.now }
    ensures steps { StepsExactlyAt (tag_by ◌==◌ text.now) (named_in m.now) m.now p result }
    ensures inside { Inside m.now p result }
    ensures no_failure { NeverFails result }
{
    let (_, i) = m.split_at(p);
    if i.len() < text.len() {
        if agrees(text, i) {
            return Err(Err::Incomplete(Needed::Unknown));
        }
        return Err(Err::Error);
    }
    // A front as long as the word is compared at once.
    let (front, _) = i.split_at(text.len());
    if !agrees(text, front) {
        return Err(Err::Error);
    }
    let q = p + text.len();
    Ok((q, Span { start: p, end: q }))
}

/// These bytes, ASCII letters in either case; others are `Error`. No memory.
#[tactic(auto, using(crate::proofs::Positions::stepped), unfolding(crate::specs::Step::tag_step))]
pub fn word(text: &[u8], m: &[u8], p: usize) -> Reached<Span>
    requires { p ≤ length m.now }
    ensures steps { StepsExactlyAt (tag_by same_letter text.now) (named_in m.now) m.now p result }
    ensures inside { Inside m.now p result }
    ensures no_failure { NeverFails result }
{
    let (_, i) = m.split_at(p);
    if !agrees_in_any_case(text, i) {
        return Err(Err::Error);
    }
    if i.len() < text.len() {
        return Err(Err::Incomplete(Needed::Unknown));
    }
    let q = p + text.len();
    Ok((q, Span { start: p, end: q }))
}

/// A space, or nothing. No memory.
pub fn maybe_space(m: &[u8], p: usize) -> Reached<Option<Span>>
    requires { p ≤ length m.now }
    ensures steps { StepsExactlyAt tags.maybe_space (maybe_in m.now) m.now p result }
    ensures ahead { Ahead m.now p result }
    ensures inside { MaybeInside p result }
    ensures no_failure { NeverFails result }
{
    maybe!(tag(b" ", m, p), p)
}

/// The run of a class from p on: `end` bytes, up to where the first byte outside the class stands. No memory.
///
/// `None`: no such byte is there yet, so the answer is `Incomplete`. `end`, where there is one, must be a place in m:
/// p and `end` together are below m's length.
#[tactic(auto, using(crate::proofs::Positions::stepped), unfolding(crate::specs::Step::run0_step))]
pub fn cut0(end: Option<usize>, m: &[u8], p: usize) -> Reached<Span>
    requires { ForSome end (λ n. p + n < length m.now) }
    ensures steps { (class : ℕ → Bool) →
        end ≡ position (outside class) (drop p m.now) →
        StepsExactlyAt (run0 class) (named_in m.now) m.now p result }
    ensures inside { Inside m.now p result }
    ensures no_failure { NeverFails result }
{
    match end {
        None => Err(Err::Incomplete(Needed::Unknown)),
        Some(n) => {
            let q = p + n;
            Ok((q, Span { start: p, end: q }))
        }
    }
}

/// The run of a class from p on, at least one byte: `end` bytes, up to where the first byte outside the class stands.
/// No memory.
///
/// An `end` of 0 is `Error`. `None`: no such byte is there yet, so the answer is `Incomplete`. `end`, where there is
/// one, must be a place in m: p and `end` together are below m's length.
pub fn cut1(end: Option<usize>, m: &[u8], p: usize) -> Reached<Span>
    requires { ForSome end (λ n. p + n < length m.now) }
    ensures steps { (class : ℕ → Bool) →
        end ≡ position (outside class) (drop p m.now) →
        StepsExactlyAt (run1 class) (named_in m.now) m.now p result }
    ensures inside { Inside m.now p result }
    ensures no_failure { NeverFails result }
{
    match end {
        None => Err(Err::Incomplete(Needed::Unknown)),
        Some(0) => Err(Err::Error),
        Some(n) => {
            let q = p + n;
            Ok((q, Span { start: p, end: q }))
        }
    }
}

fn blanks_end(i: &[u8]) -> Option<usize>
    ensures at { result ≡ position (outside classes.is_blank) i.now }
    ensures within { IfSome result (λ n. n < length i.now) }
{
    i.iter().position(|c| !is_blank(*c))
}

/// Spaces and tabs, maybe none. No memory.
pub fn blanks0(m: &[u8], p: usize) -> Reached<Span>
    requires { p ≤ length m.now }
    ensures steps { StepsExactlyAt tags.blanks0 (named_in m.now) m.now p result }
    ensures inside { Inside m.now p result }
    ensures no_failure { NeverFails result }
{
    let (_, i) = m.split_at(p);
    cut0(blanks_end(i), m, p)
}

/// Spaces and tabs, at least one; another byte in front is `Error`. No memory.
pub fn blanks1(m: &[u8], p: usize) -> Reached<Span>
    requires { p ≤ length m.now }
    ensures steps { StepsExactlyAt tags.blanks1 (named_in m.now) m.now p result }
    ensures inside { Inside m.now p result }
    ensures no_failure { NeverFails result }
{
    let (_, i) = m.split_at(p);
    cut1(blanks_end(i), m, p)
}
