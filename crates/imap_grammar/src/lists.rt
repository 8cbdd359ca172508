//! Readers of lists over a reader f of slices. Each calls the reader of its name in `at::lists`, and passes it what f
//! reads from a position on.
//!
//! f has to be callable on any input. Its rest has to be an end of its input, and in lists shorter than it.

ghost use Rattle.std.specs.Prelude.{◌≡◌, ◌≤◌, length};
ghost use Rattle.std.specs.Fn.{FnReturnsAt};
ghost use Rattle.imap_grammar.specs.Rule.{meaning};
ghost use Rattle.imap_grammar.specs.Meaning.{many_means};
ghost use Rattle.imap_grammar.specs.Positions.{Ahead};
ghost use Rattle.imap_grammar.specs.PositionLists.{CalledAt};
ghost use Rattle.imap_grammar.specs.Lists.{Shortens, Ends, Follows, or_memory_behind, separator as separator_rule};
ghost use Rattle.imap_grammar.specs.Lists.{list1_means, list0_means, opened_means, list_means, nonempty_list_means};
ghost use Rattle.imap_grammar.specs.Lists.{delimited_means, opt_opt_means, tried_of};

use crate::answer::{Err, IResult};
use crate::at::span::rest;
use crate::at::{self, Reached};
use std::alloc::Global;

/// What stands between the elements of a list.
#[derive(Clone, Copy, Debug, PartialEq, Eq)]
pub enum Separator {
    /// One space.
    Space,
    /// A comma.
    Comma,
    /// Spaces and tabs, at least one.
    Blanks,
}

/// The answer of a reader, where a denial is `None`. It takes no memory.
pub fn tried<I, T>(answer: IResult<I, T>) -> Result<Option<(I, T)>, Err>
    ensures { result ≡ tried_of answer }
{
    match answer {
        Ok(found) => Ok(Some(found)),
        Err(Err::Error) => Ok(None),
        Err(Err::Incomplete(needed)) => Err(Err::Incomplete(needed)),
        Err(Err::Failure) => Err(Err::Failure),
    }
}

// What f reads of m from p on.
fn read_at<'a, O: Drop, F: Fn(&'a [u8]) -> IResult<&'a [u8], O>>(
    f: &F,
    m: &'a [u8],
    p: usize,
) -> Reached<O>
    requires start { p ≤ length m.now }
    requires may { F.IsAlwaysCallable f.now }
    requires ends { Ends (FnReturnsAt F.Fn f.now) }
    ensures answers { CalledAt (FnReturnsAt F.Fn f.now) m.now p result }
    ensures ahead { Ahead m.now p result }
{
    let (after, item) = f(rest(m, p))?;
    Ok((m.len() - after.len(), item))
}

/// What f reads, and again behind each separator: one or more.
///
/// It ends before a separator behind which f denies. `Error` where f denies at once; f's other faults go through. f has
/// to consume at least a byte, and its rest has to be an end of its input. It takes memory for the list, and only
/// once f read a first item.
pub fn separated<'a, O: Drop, F: Fn(&'a [u8]) -> IResult<&'a [u8], O>>(
    alloc: Global,
    between: Separator,
    f: F,
    i: &'a [u8],
) -> IResult<&'a [u8], Vec<O>>
    requires may { F.IsAlwaysCallable f }
    requires shortens { Shortens (FnReturnsAt F.Fn f) }
    requires ends { Ends (FnReturnsAt F.Fn f) }
    ensures { Follows (λ a. or_memory_behind a (list1_means (meaning (separator_rule between)) a))
        (FnReturnsAt F.Fn f) (λ x. x.items) i.now result }
{
    let item = |p: usize|
        requires start { p ≤ length i.now }
        requires may { F.IsAlwaysCallable f }
        requires ends { Ends (FnReturnsAt F.Fn f) }
        ensures answers { CalledAt (FnReturnsAt F.Fn f) i.entry.now p result }
        ensures ahead { Ahead i.entry.now p result }
    { read_at(&f, i, p) };
    let (q, items) = at::lists::separated(alloc, between, item, i, 0)?;
    Ok((rest(i, q), items))
}

/// What f reads, as often as it does, with nothing between.
///
/// f has to consume at least a byte, and its rest has to be an end of its input. Its `Incomplete` and `Failure` go
/// through. It takes memory for the list, and only once f read a first item.
pub fn repeated<'a, O: Drop, F: Fn(&'a [u8]) -> IResult<&'a [u8], O>>(
    alloc: Global,
    f: F,
    i: &'a [u8],
) -> IResult<&'a [u8], Vec<O>>
    requires may { F.IsAlwaysCallable f }
    requires shortens { Shortens (FnReturnsAt F.Fn f) }
    requires ends { Ends (FnReturnsAt F.Fn f) }
    ensures { Follows (λ a. or_memory_behind a (many_means a)) (FnReturnsAt F.Fn f)
        (λ x. x.items) i.now result }
{
    let item = |p: usize|
        requires start { p ≤ length i.now }
        requires may { F.IsAlwaysCallable f }
        requires ends { Ends (FnReturnsAt F.Fn f) }
        ensures answers { CalledAt (FnReturnsAt F.Fn f) i.entry.now p result }
        ensures ahead { Ahead i.entry.now p result }
    { read_at(&f, i, p) };
    let (q, items) = at::lists::repeated(alloc, item, i, 0)?;
    Ok((rest(i, q), items))
}

/// What f reads, zero or more times, with a separator between.
///
/// It ends as `separated` does. f has to consume at least a byte, and its rest has to be an end of its input.
/// Its `Incomplete` and `Failure` go through. It takes memory for the list, and only once f read a first item.
pub fn maybe_separated<'a, O: Drop, F: Fn(&'a [u8]) -> IResult<&'a [u8], O>>(
    alloc: Global,
    between: Separator,
    f: F,
    i: &'a [u8],
) -> IResult<&'a [u8], Vec<O>>
    requires may { F.IsAlwaysCallable f }
    requires shortens { Shortens (FnReturnsAt F.Fn f) }
    requires ends { Ends (FnReturnsAt F.Fn f) }
    ensures { Follows (λ a. or_memory_behind a (list0_means (meaning (separator_rule between)) a))
        (FnReturnsAt F.Fn f) (λ x. x.items) i.now result }
{
    let item = |p: usize|
        requires start { p ≤ length i.now }
        requires may { F.IsAlwaysCallable f }
        requires ends { Ends (FnReturnsAt F.Fn f) }
        ensures answers { CalledAt (FnReturnsAt F.Fn f) i.entry.now p result }
        ensures ahead { Ahead i.entry.now p result }
    { read_at(&f, i, p) };
    let (q, items) = at::lists::maybe_separated(alloc, between, item, i, 0)?;
    Ok((rest(i, q), items))
}

/// A list in parentheses of zero or more: what f reads, with one space between, and maybe a space before the `)`.
///
/// `Error` where no `(` stands, or the list isn't closed where f denies. f has to consume at least a byte, and its rest
/// has to be an end of its input. Its `Incomplete` and `Failure` go through. It takes memory for the list, and only
/// once f read a first item.
pub fn parenthesized_list<'a, O: Drop, F: Fn(&'a [u8]) -> IResult<&'a [u8], O>>(
    alloc: Global,
    f: F,
    i: &'a [u8],
) -> IResult<&'a [u8], Vec<O>>
    requires may { F.IsAlwaysCallable f }
    requires shortens { Shortens (FnReturnsAt F.Fn f) }
    requires ends { Ends (FnReturnsAt F.Fn f) }
    ensures { Follows (λ a. or_memory_behind (opened_means a) (list_means a))
        (FnReturnsAt F.Fn f) (λ x. x.items) i.now result }
{
    let item = |p: usize|
        requires start { p ≤ length i.now }
        requires may { F.IsAlwaysCallable f }
        requires ends { Ends (FnReturnsAt F.Fn f) }
        ensures answers { CalledAt (FnReturnsAt F.Fn f) i.entry.now p result }
        ensures ahead { Ahead i.entry.now p result }
    { read_at(&f, i, p) };
    let (q, items) = at::lists::parenthesized_list(alloc, item, i, 0)?;
    Ok((rest(i, q), items))
}

/// A list in parentheses of one or more: what f reads, with one space between, and maybe spaces and tabs before the
/// `)`.
///
/// `Error` where no `(` stands, f denies at once, or the list isn't closed where f denies. f has to consume at least a
/// byte, and its rest has to be an end of its input. Its `Incomplete` and `Failure` go through. It takes memory for the
/// list, and only once f read a first item.
pub fn parenthesized_nonempty_list<'a, O: Drop, F: Fn(&'a [u8]) -> IResult<&'a [u8], O>>(
    alloc: Global,
    f: F,
    i: &'a [u8],
) -> IResult<&'a [u8], Vec<O>>
    requires may { F.IsAlwaysCallable f }
    requires shortens { Shortens (FnReturnsAt F.Fn f) }
    requires ends { Ends (FnReturnsAt F.Fn f) }
    ensures { Follows (λ a. or_memory_behind (opened_means a) (nonempty_list_means a))
        (FnReturnsAt F.Fn f) (λ x. x.items) i.now result }
{
    let item = |p: usize|
        requires start { p ≤ length i.now }
        requires may { F.IsAlwaysCallable f }
        requires ends { Ends (FnReturnsAt F.Fn f) }
        ensures answers { CalledAt (FnReturnsAt F.Fn f) i.entry.now p result }
        ensures ahead { Ahead i.entry.now p result }
    { read_at(&f, i, p) };
    let (q, items) = at::lists::parenthesized_nonempty_list(alloc, item, i, 0)?;
    Ok((rest(i, q), items))
}

/// What f reads, in parentheses; `Error` where one is missing or f denies. It takes no memory of its own; f's
/// `Incomplete` and `Failure` go through.
///
/// f's rest has to be an end of its input.
pub fn paren_delimited<'a, O: Drop, F: Fn(&'a [u8]) -> IResult<&'a [u8], O>>(
    f: F,
    i: &'a [u8],
) -> IResult<&'a [u8], O>
    requires may { F.IsAlwaysCallable f }
    requires ends { Ends (FnReturnsAt F.Fn f) }
    ensures { Follows delimited_means (FnReturnsAt F.Fn f) (λ x. x) i.now result }
{
    let item = |p: usize|
        requires start { p ≤ length i.now }
        requires may { F.IsAlwaysCallable f }
        requires ends { Ends (FnReturnsAt F.Fn f) }
        ensures answers { CalledAt (FnReturnsAt F.Fn f) i.entry.now p result }
        ensures ahead { Ahead i.entry.now p result }
    { read_at(&f, i, p) };
    let (q, item) = at::lists::paren_delimited(item, i, 0)?;
    Ok((rest(i, q), item))
}

/// What f reads, and `None` at this place where it denies. It takes no memory of its own; f's `Incomplete` and
/// `Failure` go through.
///
/// f's rest has to be an end of its input.
pub fn opt_opt<'a, O: Drop, F: Fn(&'a [u8]) -> IResult<&'a [u8], Option<O>>>(
    f: F,
    i: &'a [u8],
) -> IResult<&'a [u8], Option<O>>
    requires may { F.IsAlwaysCallable f }
    requires ends { Ends (FnReturnsAt F.Fn f) }
    ensures { Follows opt_opt_means (FnReturnsAt F.Fn f) (λ x. x) i.now result }
{
    let item = |p: usize|
        requires start { p ≤ length i.now }
        requires may { F.IsAlwaysCallable f }
        requires ends { Ends (FnReturnsAt F.Fn f) }
        ensures answers { CalledAt (FnReturnsAt F.Fn f) i.entry.now p result }
        ensures ahead { Ahead i.entry.now p result }
    { read_at(&f, i, p) };
    let (q, item) = at::lists::opt_opt(item, i, 0)?;
    Ok((rest(i, q), item))
}
