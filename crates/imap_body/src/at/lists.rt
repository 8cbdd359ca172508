//! Lists of attributes at a position, whatever is kept of each: one reader for positions and for what these name.

ghost use Rattle.std.specs.Prelude.{◌≤◌, ◌+◌, length, drop, IfOk};
ghost use Rattle.imap_grammar.specs.Memory.{BeginsWord, FailsOnlyIf};
ghost use Rattle.imap_grammar.specs.Positions.{Ahead, StepsAt};
ghost use Rattle.imap_grammar.specs.Rule.{list1, ◌▹◌};
ghost use Rattle.imap_grammar.specs.Step.{step};
ghost use Rattle.imap_grammar.specs.Tags.{sp};
ghost use Rattle.imap_body.specs.SpannedAttributes.{attribute_said, EndsAt, KeepsAt};
ghost use Rattle.imap_body.specs.Attributes as rules;

use crate::at::attributes::attribute;
use crate::keep::KeepAttribute;
use crate::spanned_attribute::SpannedAttribute;
use imap_body_types::or_drop;
use imap_body_types::spans::Span;
use imap_bytes::at::Reached;
use imap_bytes::at::tags::{blanks0, tag};
use imap_bytes::lists::tried;
use imap_envelopes::Input;
use std::alloc::Global;

// The attribute at p, with its span.
#[tactic(auto, using(crate::proofs::Standing::attribute_named))]
#[inline(always)]
fn spanned_attribute<K: KeepAttribute>(
    keep: &K,
    alloc: Global,
    m: &[u8],
    p: usize,
) -> Reached<SpannedAttribute<K::Text, K::Bytes>>
    requires start { p ≤ length m.now }
    requires serves { K.serves keep.now m.now }
    ensures steps { StepsAt rules.attribute (attribute_said K.text_said K.bytes_said m.now) m.now p
        result }
    ensures ahead { Ahead m.now p result }
    ensures stands { IfOk result (λ x. EndsAt K.text_said K.bytes_said m.now p x.0 x.1) }
{
    let (_, message) = m.split_at(p);
    let keep = keep.behind(m, p);
    let input = Input {
        alloc,
        message,
        keep,
    };
    let (size, parts) = or_drop!(attribute(&input, 0));
    let q = p + size;
    let span = Span { start: p, end: q };
    Ok((q, SpannedAttribute { span, parts }))
}

fn spaced_attribute<K: KeepAttribute>(
    keep: &K,
    alloc: Global,
    m: &[u8],
    p: usize,
) -> Reached<SpannedAttribute<K::Text, K::Bytes>>
    requires start { p ≤ length m.now }
    requires serves { K.serves keep.now m.now }
    ensures steps { StepsAt (sp ▹ rules.attribute) (attribute_said K.text_said K.bytes_said m.now)
        m.now p result }
    ensures ahead { Ahead m.now p result }
    ensures stands { IfOk result (λ x. EndsAt K.text_said K.bytes_said m.now (p + 1) x.0 x.1) }
{
    let (p, _) = tag(b" ", m, p)?;
    spanned_attribute(keep, alloc, m, p)
}

fn some_attributes<K: KeepAttribute>(
    keep: &K,
    alloc: Global,
    m: &[u8],
    p: usize,
) -> Reached<Vec<K::Attribute>>
    requires start { p ≤ length m.now }
    requires serves { K.serves keep.now m.now }
    ensures kept { KeepsAt K.text_said K.bytes_said (K.keeps keep.now) m.now p result
        (step (list1 sp rules.attribute) (drop p m.now)) }
    ensures ahead { Ahead m.now p result }
{
    // The list first: an attribute that is read before it is taken apart, and put together to be handed on.
    let mut kept = keep.start(alloc)?;
    let (mut q, first) = or_drop!(spanned_attribute(keep, alloc, m, p), kept);
    keep.add(first, &mut kept)?;
    'attributes: while let Some((after, attribute)) = tried(spaced_attribute(keep, alloc, m, q))? {
        keep.add(attribute, &mut kept)?;
        q = after;
    }
    Ok((q, kept))
}

/// The attributes of a message in parentheses, one or more, with one space between (RFC 3501, section 9: msg-att).
///
/// It takes memory for the list, and for the lists, envelopes and body structures in it; where values are kept, for
/// texts that are not UTF-8.
#[tactic(auto, unfolding(crate::specs::Attributes::attribute_list))]
pub(crate) fn kept_list<K: KeepAttribute>(
    keep: &K,
    alloc: Global,
    m: &[u8],
    p: usize,
) -> Reached<Vec<K::Attribute>>
    requires start { p ≤ length m.now }
    requires serves { K.serves keep.now m.now }
    ensures kept { KeepsAt K.text_said K.bytes_said (K.keeps keep.now) m.now (p + 1) result
        (step rules.attribute_list (drop p m.now)) }
    ensures ahead { Ahead m.now p result }
    ensures memory { FailsOnlyIf (BeginsWord "(" (drop p m.now)) result }
{
    let (p, _) = tag(b"(", m, p)?;
    let (p, kept) = some_attributes(keep, alloc, m, p)?;
    let (p, _) = blanks0(m, p)?;
    let (p, _) = tag(b")", m, p)?;
    Ok((p, kept))
}
