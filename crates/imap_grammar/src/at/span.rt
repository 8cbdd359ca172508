//! Spans of a message.

ghost use Rattle.std.specs.Prelude.{◌≡◌, ◌≤◌, List, ℕ, length, drop, IfOk, IsOk, IsUtf8};
ghost use Rattle.imap_grammar.specs.Answer.{Exactly};
ghost use Rattle.imap_grammar.specs.Memory.{NeverFails};
ghost use Rattle.imap_grammar.specs.Step.{Step};
ghost use Rattle.imap_grammar.specs.Positions.{named_in, Inside, ExactlyAt};
ghost use Rattle.imap_grammar.specs.Text.{text_of, decoded};

use crate::answer::IResult;
use crate::at::Reached;
use crate::text::decode;
use std::alloc::{AllocError, Global};
use std::borrow::CowStr;
use std::cmp::min;

/// A part of a message, from one position up to another.
#[derive(Clone, Copy, Debug, PartialEq, Eq)]
pub struct Span {
    /// Where it starts.
    pub start: usize,
    /// Where it ends: the position behind its last byte.
    pub end: usize,
}

impl Span {
    /// The bytes that it names in m. Its start must be at most its end, and its end at most m's length. No memory.
    pub fn bytes<'a>(&self, m: &'a [u8]) -> &'a [u8]
        requires ordered { self.now.start ≤ self.now.end }
        requires within { self.now.end ≤ length m.now }
        ensures { result.now ≡ named_in m.now self.now }
    {
        let (_, from) = m.split_at(self.start);
        let (content, _) = from.split_at(self.end - self.start);
        content
    }

    /// The bytes that it names in m, as far as m has them: any span and any m will do. No memory.
    #[tactic(auto, using(crate::proofs::Positions::as_far))]
    pub fn part<'a>(&self, m: &'a [u8]) -> &'a [u8]
        ensures { result.now ≡ named_in m.now self.now }
    {
        let end = min(self.end, m.len());
        let (front, _) = m.split_at(end);
        let (_, content) = front.split_at(min(self.start, end));
        content
    }

    /// The text of the bytes that it names: borrowed from m where they are UTF-8, and else with one U+FFFD for each
    /// ill-formed part.
    ///
    /// Its start must be at most its end, and its end at most m's length. It takes memory only for bytes that are not
    /// UTF-8; `Err`: memory ran out.
    pub fn text<'a>(&self, alloc: Global, m: &'a [u8]) -> Result<CowStr<'a>, AllocError>
        requires ordered { self.now.start ≤ self.now.end }
        requires within { self.now.end ≤ length m.now }
        ensures text { IfOk result (λ t. text_of t ≡ decoded (named_in m.now self.now)) }
        ensures memory { IsUtf8 (named_in m.now self.now) → IsOk result }
    {
        decode(alloc, self.bytes(m))
    }
}

/// What is left of m from p on. p must be at most m's length. No memory.
pub fn rest(m: &[u8], p: usize) -> &[u8]
    requires { p ≤ length m.now }
    ensures { result.now ≡ drop p m.now }
{
    let (_, rest) = m.split_at(p);
    rest
}

/// What was reached from the start of m, as slices of it: the rest, and the bytes of the span. No memory.
///
/// The span's start must be at most its end, its end at most the position that was reached, and that at most m's
/// length.
pub fn sliced(m: &[u8], reached: Reached<Span>) -> IResult<&[u8], &[u8]>
    requires { Inside m.now 0 reached }
    ensures steps { (s : Step (List ℕ)) →
        ExactlyAt (named_in m.now) m.now reached s →
        Exactly (λ x. x.now) result s }
    ensures no_failure { NeverFails reached → NeverFails result }
{
    match reached {
        Ok((q, span)) => Ok((rest(m, q), span.bytes(m))),
        Err(e) => Err(e),
    }
}
