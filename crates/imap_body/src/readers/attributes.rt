//! Attributes of a message.

ghost use Rattle.std.specs.Prelude.{◌≡◌, ◌≤◌, length, drop, map, IfOk, IfErr};
ghost use Rattle.imap_grammar.specs.Answer.{Answers, Steps};
ghost use Rattle.imap_grammar.specs.Memory.{BeginsWord, FailsOnlyIf};
ghost use Rattle.imap_grammar.specs.Positions.{Ahead, named_in, StepsAt};
ghost use Rattle.imap_grammar.specs.declared.answer.Err.TheVariants.{Failure};
ghost use Rattle.imap_body.specs.AttributeValues.{attribute_value, parts_in};
ghost use Rattle.imap_body.specs.SpannedAttributes.{IsSliced, IsMadeAt};
ghost use Rattle.imap_body.specs.Attributes as rules;

use crate::at;
use crate::at::lists::kept_list;
use crate::attributes::{AttributeSpans, AttributeValue};
use imap_body_types::or_drop;
use imap_bytes::IResult;
use imap_bytes::at::Reached;
use imap_bytes::at::span::rest;
use imap_envelopes::{Input, Positions, Values};
use std::alloc::{AllocError, Global};

// What was reached in i from its start, with the rest as a slice. Over any type: a proof over attributes, which borrow,
// takes ten times as long.
fn sliced<T: Drop>(i: &[u8], reached: Reached<T>) -> IResult<&[u8], T>
    requires { IfOk reached (λ x. x.0 ≤ length i.now) }
    ensures { IsSliced i.now reached result }
{
    match reached {
        Ok((q, value)) => Ok((rest(i, q), value)),
        Err(error) => Err(error),
    }
}

// What was made at q, with the rest as a slice.
fn made_at<T: Drop>(i: &[u8], q: usize, made: Result<T, AllocError>) -> IResult<&[u8], T>
    requires { q ≤ length i.now }
    ensures { IsMadeAt i.now q made result }
{
    match made {
        Ok(value) => Ok((rest(i, q), value)),
        Err(error) => Err(error.into()),
    }
}

// The attribute that these positions in i name, and what follows q.
fn value_at<'a>(
    alloc: Global,
    i: &'a [u8],
    q: usize,
    spans: AttributeSpans,
) -> IResult<&'a [u8], AttributeValue<'a>>
    requires { q ≤ length i.now }
    ensures is { IfOk result (λ x.
        (x.0.now ≡ drop q i.now) × (attribute_value x.1 ≡ parts_in (named_in i.now) spans)) }
    ensures memory { IfErr result (λ e. e ≡ Failure) }
{
    let value = spans.value(alloc, i);
    drop(spans);
    made_at(i, q, value)
}

/// A section of a message's body, maybe from an index on, and its contents (RFC 3501, section 7.4.2:
/// `BODY[<section>]<<origin octet>>`).
///
/// Any other word, brackets that hold no section, or no nstring behind them and a space, is `Error`. A section that is
/// read always takes memory, at least for one attribute; more for the path of a part. Its bytes are borrowed.
#[tactic(auto, using(imap_grammar::proofs::Agreement::answered))]
pub fn msg_att_body_section(alloc: Global, i: &[u8]) -> IResult<&[u8], AttributeValue<'_>>
    ensures steps { Steps rules.msg_att_body_section attribute_value i.now result }
    ensures answer { Answers rules.msg_att_body_section attribute_value i.now result }
{
    let input = Input {
        alloc,
        message: i,
        keep: Positions,
    };
    let (q, spans) = or_drop!(at::messages::msg_att_body_section(&input, 0));
    value_at(alloc, i, q, spans)
}

/// An attribute of a message (RFC 3501, section 9: msg-att; RFC 7162, section 7; RFC 8474, section 7; Gmail's
/// X-GM-EXT-1). Any other, and one of a known name with another value, is `Unknown`, and its value is skipped.
///
/// No atom in front, no space behind it, or no value behind that, is `Error`. An attribute that is read always takes
/// memory, at least for itself; more for lists, envelopes and body structures, and for texts that are not UTF-8.
#[tactic(auto, using(imap_grammar::proofs::Agreement::answered))]
pub fn attribute(alloc: Global, i: &[u8]) -> IResult<&[u8], AttributeValue<'_>>
    ensures steps { Steps rules.attribute attribute_value i.now result }
    ensures answer { Answers rules.attribute attribute_value i.now result }
{
    let input = Input {
        alloc,
        message: i,
        keep: Positions,
    };
    let (q, spans) = or_drop!(at::attributes::attribute(&input, 0));
    value_at(alloc, i, q, spans)
}

/// The attributes of a message in parentheses, one or more, with one space between (RFC 3501, section 9: msg-att).
///
/// An empty list, or one that has no `)` where its attributes end, is `Error`. It takes memory only behind `(`,
/// for the list, for the lists, envelopes and body structures in it, and for texts that are not UTF-8.
#[tactic(auto, using(imap_grammar::proofs::Agreement::answered))]
pub fn attribute_list(alloc: Global, i: &[u8]) -> IResult<&[u8], Vec<AttributeValue<'_>>>
    ensures steps { Steps rules.attribute_list (λ x. map attribute_value x.items) i.now result }
    ensures answer { Answers rules.attribute_list (λ x. map attribute_value x.items) i.now result }
    ensures memory { FailsOnlyIf (BeginsWord "(" i.now) result }
{
    sliced(i, attribute_values_at(alloc, i, 0))
}

/// The attributes of a message in parentheses, from p on (RFC 3501, section 9: msg-att). Its errors and what memory it
/// takes are those of `attribute_list`.
pub fn attribute_values_at(alloc: Global, m: &[u8], p: usize) -> Reached<Vec<AttributeValue<'_>>>
    requires { p ≤ length m.now }
    ensures steps { StepsAt rules.attribute_list (λ x. map attribute_value x.items) m.now p result }
    ensures ahead { Ahead m.now p result }
    ensures memory { FailsOnlyIf (BeginsWord "(" (drop p m.now)) result }
{
    kept_list(&Values { alloc, message: m }, alloc, m, p)
}
