//! What stands behind the number in the line of a `FETCH`: one reader, whatever is kept of the attributes.

ghost use Rattle.std.specs.Prelude.{◌≤◌, List, length, map, drop, IfOk};
ghost use Rattle.imap_grammar.specs.Memory.{BeginsWord, NeverFails, FailsOnlyIf};
ghost use Rattle.imap_grammar.specs.Positions.{Ahead, Inside, named_in, StepsAt, StepsExactlyAt};
ghost use Rattle.imap_grammar.specs.Text.{Bytes};
ghost use Rattle.imap_body.specs.AttributeValues.{AttributeValue as Said, attribute_value};
ghost use Rattle.imap_body.specs.Attributes as rules;
ghost use Rattle.imap_body.specs.SpannedAttributes.{InFront, attribute_in};
ghost use Rattle.imap_proto.specs.Lines as rule;
ghost use Rattle.imap_proto.specs.Lines.{ended};

use imap_body::AttributeValue;
use imap_body::readers::attribute_values_at;
use imap_body::spanned::{SpannedAttribute, attribute_list_at};
use imap_body_types::or_drop;
use imap_bytes::at::Reached;
use imap_bytes::at::span::Span;
use imap_bytes::at::tags::{cut0, tag, word};
use imap_grammar::scanning::{Class, run_end};
use std::alloc::Global;

// A space.
pub(crate) struct Space;

impl Class for Space {
    ghost class = { rule.is_space };

    fn has(c: u8) -> bool {
        c == b' '
    }
}

#[tactic(auto, unfolding(crate::specs::Lines::spaces))]
fn spaces(m: &[u8], p: usize) -> Reached<Span>
    requires { p ≤ length m.now }
    ensures steps { StepsExactlyAt rule.spaces (named_in m.now) m.now p result }
    ensures inside { Inside m.now p result }
    ensures no_failure { NeverFails result }
{
    let (_, i) = m.split_at(p);
    cut0(run_end::<Space>(i), m, p)
}

/// What is kept of the attributes of a message: values, or positions.
pub(crate) trait Attributes<'m>: Drop {
    /// What they say, those of this message.
    ghost said: { Bytes → Self → List Said };

    /// Reads them in parentheses (RFC 3501, section 9: msg-att). It takes memory.
    fn listed(alloc: Global, m: &'m [u8], p: usize) -> Reached<Self>
        requires { p ≤ length m.now }
        ensures steps { StepsAt rules.attribute_list (said m.now) m.now p result }
        ensures ahead { Ahead m.now p result }
        ensures rests { InFront said result };
}

impl<'m> Attributes<'m> for Vec<SpannedAttribute> {
    ghost said = { λ m x. map (attribute_in m) x.items };

    fn listed(alloc: Global, m: &'m [u8], p: usize) -> Reached<Vec<SpannedAttribute>> {
        attribute_list_at(alloc, m, p)
    }
}

impl<'m> Attributes<'m> for Vec<AttributeValue<'m>> {
    ghost said = { λ m x. map attribute_value x.items };

    fn listed(alloc: Global, m: &'m [u8], p: usize) -> Reached<Vec<AttributeValue<'m>>> {
        attribute_values_at(alloc, m, p)
    }
}

/// ` FETCH `, the attributes, and the end of the line (RFC 3501, section 9: message-data).
#[tactic(auto, unfolding(crate::specs::Lines::fetched))]
#[inline(always)]
pub(crate) fn fetched<'m, A: Attributes<'m>>(alloc: Global, m: &'m [u8], p: usize) -> Reached<A>
    requires { p ≤ length m.now }
    ensures steps { StepsAt (ended rule.fetched) (A.said m.now) m.now p result }
    ensures within { IfOk result (λ x. x.0 ≤ length m.now) }
    ensures rests { InFront A.said result }
    ensures failure { FailsOnlyIf (BeginsWord " FETCH " (drop p m.now)) result }
{
    let (p, _) = word(b" FETCH ", m, p)?;
    let (p, attributes) = A::listed(alloc, m, p)?;
    let (p, _) = or_drop!(spaces(m, p), attributes);
    let (p, _) = or_drop!(tag(b"\r\n", m, p), attributes);
    Ok((p, attributes))
}
