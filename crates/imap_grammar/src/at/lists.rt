//! Lists at a position, over a reader of positions that is passed: f takes a position of m, and answers one that is
//! not before it, and not past m's end.

ghost use Rattle.std.specs.Prelude.{◌≤◌, ℕ, length};
ghost use Rattle.imap_grammar.specs.Positions.{Ahead, named_in, StepsExactlyAt};
ghost use Rattle.imap_grammar.specs.PositionLists.{FollowsAt, Advances, KeepsAhead, Onward};
ghost use Rattle.imap_grammar.specs.Rule.{meaning};
ghost use Rattle.imap_grammar.specs.Meaning.{many_means};
ghost use Rattle.imap_grammar.specs.Lists.{or_memory_behind, separator as separator_rule, behind_means, list1_means};
ghost use Rattle.imap_grammar.specs.Lists.{list0_means, opened_means, list_means, nonempty_list_means, delimited_means};
ghost use Rattle.imap_grammar.specs.Lists.{opt_opt_means};

use crate::at::Reached;
use crate::at::span::Span;
use crate::at::tags::{blanks0, blanks1, maybe_space, tag};
use crate::lists::{Separator, tried};
use std::alloc::Global;

// How many elements a list that has one gets room for: as many as most lists of a response have, so that it seldom
// grows.
const ROOM: usize = 8;

fn read_separator(between: Separator, m: &[u8], p: usize) -> Reached<Span>
    requires { p ≤ length m.now }
    ensures steps { StepsExactlyAt (separator_rule between) (named_in m.now) m.now p result }
    ensures ahead { Ahead m.now p result }
{
    match between {
        Separator::Space => tag(b" ", m, p),
        Separator::Comma => tag(b",", m, p),
        Separator::Blanks => blanks1(m, p),
    }
}

// What f reads behind a separator.
fn next_item<O: Drop, F: Fn(usize) -> Reached<O>>(
    between: Separator,
    f: &F,
    m: &[u8],
    p: usize,
) -> Reached<O>
    requires start { p ≤ length m.now }
    requires may { (k : ℕ) → k ≤ length m.now → F.pre f.now k }
    requires advances { Advances m.now (F.post f.now) }
    ensures follows { FollowsAt (behind_means (meaning (separator_rule between))) (F.post f.now)
        (λ x. x) m.now p result }
    ensures onward { Onward m.now p result }
{
    let (q, _) = read_separator(between, m, p)?;
    f(q)
}

// What f reads: by the contract of this call the loop knows what f answered, and that it went on.
fn one_item<O: Drop, F: Fn(usize) -> Reached<O>>(f: &F, m: &[u8], p: usize) -> Reached<O>
    requires start { p ≤ length m.now }
    requires may { (k : ℕ) → k ≤ length m.now → F.pre f.now k }
    requires advances { Advances m.now (F.post f.now) }
    ensures follows { FollowsAt (λ a. a) (F.post f.now) (λ x. x) m.now p result }
    ensures onward { Onward m.now p result }
{
    f(p)
}

/// What f reads, as often as it does, with nothing between.
///
/// f has to consume at least a byte. Its `Incomplete` and `Failure` go through. It takes memory for the list, and only
/// once f read a first item.
pub fn repeated<O: Drop, F: Fn(usize) -> Reached<O>>(
    alloc: Global,
    f: F,
    m: &[u8],
    p: usize,
) -> Reached<Vec<O>>
    requires start { p ≤ length m.now }
    requires may { (k : ℕ) → k ≤ length m.now → F.pre f k }
    requires advances { Advances m.now (F.post f) }
    ensures follows { FollowsAt (λ a. or_memory_behind a (many_means a)) (F.post f) (λ x. x.items)
        m.now p result }
    ensures ahead { Ahead m.now p result }
{
    let mut q = p;
    let mut items = Vec::new(alloc);
    while let Some((next, item)) = tried(one_item(&f, m, q))? {
        items.push(item)?;
        q = next;
    }
    Ok((q, items))
}

/// What f reads, and again behind each separator: one or more.
///
/// It ends before a separator behind which f denies. `Error` where f denies at once; f's other faults go through. f has
/// to consume at least a byte. It takes memory for the list, and only once f read a first item.
pub fn separated<O: Drop, F: Fn(usize) -> Reached<O>>(
    alloc: Global,
    between: Separator,
    f: F,
    m: &[u8],
    p: usize,
) -> Reached<Vec<O>>
    requires start { p ≤ length m.now }
    requires may { (k : ℕ) → k ≤ length m.now → F.pre f k }
    requires advances { Advances m.now (F.post f) }
    ensures follows { FollowsAt
        (λ a. or_memory_behind a (list1_means (meaning (separator_rule between)) a))
        (F.post f) (λ x. x.items) m.now p result }
    ensures ahead { Ahead m.now p result }
{
    let (mut q, first) = f(p)?;
    let mut items = Vec::with_capacity(alloc, ROOM)?;
    items.push_reserved(first);
    while let Some((next, item)) = tried(next_item(between, &f, m, q))? {
        items.push(item)?;
        q = next;
    }
    Ok((q, items))
}

/// What f reads, zero or more times, with a separator between.
///
/// It ends as `separated` does. f has to consume at least a byte. Its `Incomplete` and `Failure` go through.
/// It takes memory for the list, and only once f read a first item.
pub fn maybe_separated<O: Drop, F: Fn(usize) -> Reached<O>>(
    alloc: Global,
    between: Separator,
    f: F,
    m: &[u8],
    p: usize,
) -> Reached<Vec<O>>
    requires start { p ≤ length m.now }
    requires may { (k : ℕ) → k ≤ length m.now → F.pre f k }
    requires advances { Advances m.now (F.post f) }
    ensures follows { FollowsAt
        (λ a. or_memory_behind a (list0_means (meaning (separator_rule between)) a))
        (F.post f) (λ x. x.items) m.now p result }
    ensures ahead { Ahead m.now p result }
{
    match tried(separated(alloc, between, f, m, p))? {
        Some(found) => Ok(found),
        None => Ok((p, Vec::new(alloc))),
    }
}

/// A list in parentheses of zero or more: what f reads, with one space between, and maybe a space before the `)`.
///
/// `Error` where no `(` stands, or the list isn't closed where f denies. f has to consume at least a byte. Its
/// `Incomplete` and `Failure` go through. It takes memory for the list, and only once f read a first item.
pub fn parenthesized_list<O: Drop, F: Fn(usize) -> Reached<O>>(
    alloc: Global,
    f: F,
    m: &[u8],
    p: usize,
) -> Reached<Vec<O>>
    requires start { p ≤ length m.now }
    requires may { (k : ℕ) → k ≤ length m.now → F.pre f k }
    requires advances { Advances m.now (F.post f) }
    ensures follows { FollowsAt (λ a. or_memory_behind (opened_means a) (list_means a)) (F.post f)
        (λ x. x.items) m.now p result }
    ensures ahead { Ahead m.now p result }
{
    let (p, _) = tag(b"(", m, p)?;
    let (p, items) = maybe_separated(alloc, Separator::Space, f, m, p)?;
    let (p, _) = maybe_space(m, p)?;
    let (p, _) = tag(b")", m, p)?;
    Ok((p, items))
}

/// A list in parentheses of one or more: what f reads, with one space between, and maybe spaces and tabs before the
/// `)`.
///
/// `Error` where no `(` stands, f denies at once, or the list isn't closed where f denies. f has to consume at least a
/// byte. Its `Incomplete` and `Failure` go through. It takes memory for the list, and only once f read a first item.
pub fn parenthesized_nonempty_list<O: Drop, F: Fn(usize) -> Reached<O>>(
    alloc: Global,
    f: F,
    m: &[u8],
    p: usize,
) -> Reached<Vec<O>>
    requires start { p ≤ length m.now }
    requires may { (k : ℕ) → k ≤ length m.now → F.pre f k }
    requires advances { Advances m.now (F.post f) }
    ensures follows { FollowsAt (λ a. or_memory_behind (opened_means a) (nonempty_list_means a))
        (F.post f) (λ x. x.items) m.now p result }
    ensures ahead { Ahead m.now p result }
{
    let (p, _) = tag(b"(", m, p)?;
    let (p, items) = separated(alloc, Separator::Space, f, m, p)?;
    let (p, _) = blanks0(m, p)?;
    let (p, _) = tag(b")", m, p)?;
    Ok((p, items))
}

/// What f reads, in parentheses; `Error` where one is missing or f denies. It takes no memory of its own; f's
/// `Incomplete` and `Failure` go through.
pub fn paren_delimited<O: Drop, F: Fn(usize) -> Reached<O>>(f: F, m: &[u8], p: usize) -> Reached<O>
    requires start { p ≤ length m.now }
    requires may { (k : ℕ) → k ≤ length m.now → F.pre f k }
    requires keeps { KeepsAhead m.now (F.post f) }
    ensures follows { FollowsAt delimited_means (F.post f) (λ x. x) m.now p result }
    ensures ahead { Ahead m.now p result }
{
    let (p, _) = tag(b"(", m, p)?;
    let (p, item) = f(p)?;
    let (p, _) = tag(b")", m, p)?;
    Ok((p, item))
}

/// What f reads, and `None` at this place where it denies. It takes no memory of its own; f's `Incomplete` and
/// `Failure` go through.
pub fn opt_opt<O: Drop, F: Fn(usize) -> Reached<Option<O>>>(
    f: F,
    m: &[u8],
    p: usize,
) -> Reached<Option<O>>
    requires start { p ≤ length m.now }
    requires may { (k : ℕ) → k ≤ length m.now → F.pre f k }
    requires keeps { KeepsAhead m.now (F.post f) }
    ensures follows { FollowsAt opt_opt_means (F.post f) (λ x. x) m.now p result }
    ensures ahead { Ahead m.now p result }
{
    match tried(f(p))? {
        Some(found) => Ok(found),
        None => Ok((p, None)),
    }
}
