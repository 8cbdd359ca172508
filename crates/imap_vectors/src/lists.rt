//! Lists and brackets over a reader that is passed, by its name and by a closure: each reader here has the clause that
//! a caller gets from the clause of the reader that it passes.

ghost use Rattle.std.specs.Prelude.{Some};
ghost use Rattle.imap_grammar.specs.Answer.{Steps, StepsExactly};
ghost use Rattle.imap_grammar.specs.Rule.{gives};
ghost use Rattle.imap_grammar.specs.Lists.{delimited, list_of, nonempty_list_of};
ghost use Rattle.imap_bytes.specs.Numbers as rules;

use crate::answers::{Reads, Rows, WAITS, assert_reads, says};
use imap_proto::imap_core::{
    IResult, literal, number, opt_opt, paren_delimited, parenthesized_list,
    parenthesized_nonempty_list,
};
use std::alloc::Global;
use std::test::*;

fn numbers(alloc: Global, i: &[u8]) -> IResult<&[u8], Vec<u32>>
    ensures { Steps (list_of rules.number) (λ x. x.items) i.now result }
{
    parenthesized_list(alloc, number, i)
}

fn numbers_by_closure(alloc: Global, i: &[u8]) -> IResult<&[u8], Vec<u32>>
    ensures { Steps (list_of rules.number) (λ x. x.items) i.now result }
{
    let item = |i|
        ensures { StepsExactly rules.number (λ x. x) i.entry.now result }
    { number(i) };
    parenthesized_list(alloc, item, i)
}

fn some_numbers(alloc: Global, i: &[u8]) -> IResult<&[u8], Vec<u32>>
    ensures { Steps (nonempty_list_of rules.number) (λ x. x.items) i.now result }
{
    parenthesized_nonempty_list(alloc, number, i)
}

fn literals(alloc: Global, i: &[u8]) -> IResult<&[u8], Vec<&[u8]>> {
    parenthesized_list(alloc, literal, i)
}

fn delimited_number(i: &[u8]) -> IResult<&[u8], u32>
    ensures { StepsExactly (delimited rules.number) (λ x. x) i.now result }
{
    paren_delimited(number, i)
}

fn delimited_by_closure(i: &[u8]) -> IResult<&[u8], u32>
    ensures { StepsExactly (delimited rules.number) (λ x. x) i.now result }
{
    let item = |i|
        ensures { StepsExactly rules.number (λ x. x) i.entry.now result }
    { number(i) };
    paren_delimited(item, i)
}

fn some_number(i: &[u8]) -> IResult<&[u8], Option<u32>>
    ensures { StepsExactly (gives Some rules.number) (λ x. x) i.now result }
{
    let (i, n) = number(i)?;
    Ok((i, Some(n)))
}

fn maybe_number(i: &[u8]) -> IResult<&[u8], Option<u32>> {
    opt_opt(some_number, i)
}

static LISTS: Rows = &[
    (b"()", "[]"),
    (b"( )x", r#"[] then "x""#),
    (b"(1 2 )x", r#"[1, 2] then "x""#),
    (b"(1  2)", "Error"),
    (b"(1,2)", "Error"),
    (b"(1 \t)", "Error"),
    (b"1 2)", "Error"),
    (b"", WAITS),
    (b"(1", WAITS),
    (b"(1 ", WAITS),
    (b"(1 2", WAITS),
];

static NONEMPTY_LISTS: Rows = &[
    (b"(1 2)x", r#"[1, 2] then "x""#),
    (b"(1 \t )", "[1]"),
    (b"()", "Error"),
    (b"( 1)", "Error"),
    (b"(1  2)", "Error"),
    (b"(", WAITS),
    (b"(1 \t", WAITS),
];

static LISTS_OF_LITERALS: Rows = &[
    (b"({3}\r\nab", "Incomplete(Size(1))"),
    (b"({1}\r\n) {2}\r\n", "Incomplete(Size(2))"),
];

/// A reader over a reader that it is passed.
enum Reader {
    Numbers,
    NumbersByClosure,
    SomeNumbers,
    Literals,
    Delimited,
    DelimitedByClosure,
    MaybeNumber,
}

impl Reads for Reader {
    fn reads(&self, alloc: Global, input: &[u8], want: &str) -> bool {
        match self {
            Reader::Numbers => says(alloc, numbers(alloc, input), want),
            Reader::NumbersByClosure => says(alloc, numbers_by_closure(alloc, input), want),
            Reader::SomeNumbers => says(alloc, some_numbers(alloc, input), want),
            Reader::Literals => says(alloc, literals(alloc, input), want),
            Reader::Delimited => says(alloc, delimited_number(input), want),
            Reader::DelimitedByClosure => says(alloc, delimited_by_closure(input), want),
            Reader::MaybeNumber => says(alloc, maybe_number(input), want),
        }
    }
}

#[test]
fn lists(rt: HostRuntime) {
    assert_reads(&rt, rt.alloc(), &Reader::Numbers, LISTS);
    assert_reads(&rt, rt.alloc(), &Reader::NumbersByClosure, LISTS);
}

#[test]
fn nonempty_lists(rt: HostRuntime) {
    assert_reads(&rt, rt.alloc(), &Reader::SomeNumbers, NONEMPTY_LISTS);
}

#[test]
fn lists_of_literals(rt: HostRuntime) {
    assert_reads(&rt, rt.alloc(), &Reader::Literals, LISTS_OF_LITERALS);
}

static DELIMITED: Rows = &[
    (b"(7)x", r#"7 then "x""#),
    (b"(7", WAITS),
    (b"(7 )", "Error"),
    (b"()", "Error"),
    (b"7)", "Error"),
];

static MAYBE_NUMBERS: Rows = &[
    (b"x", r#"None then "x""#),
    (b"7)", r#"Some(7) then ")""#),
    (b"7", WAITS),
];

#[test]
fn brackets(rt: HostRuntime) {
    assert_reads(&rt, rt.alloc(), &Reader::Delimited, DELIMITED);
    assert_reads(&rt, rt.alloc(), &Reader::DelimitedByClosure, DELIMITED);
}

#[test]
fn choices(rt: HostRuntime) {
    assert_reads(&rt, rt.alloc(), &Reader::MaybeNumber, MAYBE_NUMBERS);
}
