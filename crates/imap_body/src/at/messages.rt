//! Attributes that are bodies and messages, as they are or in parts.

ghost use Rattle.std.specs.Prelude.{◌≤◌, length};
ghost use Rattle.imap_grammar.specs.Positions.{Ahead, StepsExactlyAt};
ghost use Rattle.imap_grammar.specs.Rule.{opt};
ghost use Rattle.imap_body.specs.Attributes as rules;
ghost use Rattle.imap_body.specs.Reading.{ReadsAttribute, ReadsAttributeExactly};

use crate::attributes::AttributeParts;
use crate::keep::{Answer, KeepAttribute};
use imap_bodystructure::at::bodies::body_structure;
use imap_bytes::at::Reached;
use imap_bytes::at::numbers::number;
use imap_bytes::at::tags::{maybe_space, tag, word};
use imap_bytes::{first, maybe};
use imap_envelopes::Input;
use imap_envelopes::at::texts::{byte_string, spaced_byte_string};
use imap_envelopes::kept::kept_bytes;
use imap_sections::at::sections::section;

#[tactic(auto, unfolding(crate::specs::Attributes::origin))]
fn origin(m: &[u8], p: usize) -> Reached<u32>
    requires { p ≤ length m.now }
    ensures steps { StepsExactlyAt rules.origin (λ x. x) m.now p result }
    ensures ahead { Ahead m.now p result }
{
    let (p, _) = tag(b"<", m, p)?;
    let (p, index) = number(m, p)?;
    let (p, _) = tag(b">", m, p)?;
    Ok((p, index))
}

fn maybe_origin(m: &[u8], p: usize) -> Reached<Option<u32>>
    requires { p ≤ length m.now }
    ensures steps { StepsExactlyAt (opt rules.origin) (λ x. x) m.now p result }
    ensures ahead { Ahead m.now p result }
{
    maybe!(origin(m, p), p)
}

#[tactic(auto, unfolding(crate::specs::Attributes::section_contents))]
fn section_contents<K: KeepAttribute>(input: &Input<K>, p: usize) -> Answer<K>
    requires { p ≤ length input.now }
    ensures { ReadsAttribute K.text_said K.bytes_said rules.section_contents input.now p result }
{
    let (p, section) = section(input.alloc, input.message, p)?;
    let (p, index) = maybe_origin(input.message, p)?;
    let (p, contents) = spaced_byte_string(input.message, p)?;
    Ok((
        p,
        AttributeParts::BodySection {
            section,
            index,
            contents: kept_bytes(&input.keep, input.message, contents),
        },
    ))
}

/// A section of a message's body (RFC 3501, section 7.4.2: `BODY[<section>]<<origin octet>>`).
///
/// It takes memory for the path of a part.
#[tactic(auto, unfolding(crate::specs::Attributes::msg_att_body_section))]
pub(crate) fn msg_att_body_section<K: KeepAttribute>(input: &Input<K>, p: usize) -> Answer<K>
    requires { p ≤ length input.now }
    ensures { ReadsAttribute K.text_said K.bytes_said rules.msg_att_body_section input.now p result }
{
    let (p, _) = word(b"BODY", input.message, p)?;
    section_contents(input, p)
}

#[tactic(auto, using(crate::proofs::Resting::structure_rests), unfolding(crate::specs::Attributes::structure))]
fn structure<K: KeepAttribute>(input: &Input<K>, p: usize) -> Answer<K>
    requires { p ≤ length input.now }
    ensures { ReadsAttribute K.text_said K.bytes_said rules.structure input.now p result }
{
    let (p, _) = word(b"STRUCTURE ", input.message, p)?;
    let (p, body) = body_structure(input, p)?;
    Ok((p, AttributeParts::BodyStructure(body)))
}

// `BODY` is read once, whether a section or `STRUCTURE` stands behind it.
#[tactic(auto, unfolding(crate::specs::Attributes::body_attribute))]
pub(crate) fn body_attribute<K: KeepAttribute>(input: &Input<K>, p: usize) -> Answer<K>
    requires { p ≤ length input.now }
    ensures { ReadsAttribute K.text_said K.bytes_said rules.body_attribute input.now p result }
{
    let (p, _) = word(b"BODY", input.message, p)?;
    first!(section_contents(input, p));
    structure(input, p)
}

#[tactic(auto, unfolding(crate::specs::Attributes::whole_message))]
fn whole_message<K: KeepAttribute>(input: &Input<K>, p: usize) -> Answer<K>
    requires { p ≤ length input.now }
    ensures { ReadsAttributeExactly K.text_said K.bytes_said rules.whole_message input.now p result }
{
    let (p, _) = word(b" ", input.message, p)?;
    let (p, message) = byte_string(input.message, p)?;
    Ok((
        p,
        AttributeParts::Rfc822(kept_bytes(&input.keep, input.message, message)),
    ))
}

#[tactic(auto, unfolding(crate::specs::Attributes::message_header))]
fn message_header<K: KeepAttribute>(input: &Input<K>, p: usize) -> Answer<K>
    requires { p ≤ length input.now }
    ensures { ReadsAttributeExactly K.text_said K.bytes_said rules.message_header input.now p result }
{
    let (p, _) = word(b"HEADER ", input.message, p)?;
    let (p, _) = maybe_space(input.message, p)?;
    let (p, header) = byte_string(input.message, p)?;
    Ok((
        p,
        AttributeParts::Rfc822Header(kept_bytes(&input.keep, input.message, header)),
    ))
}

#[tactic(auto, unfolding(crate::specs::Attributes::message_size))]
fn message_size<K: KeepAttribute>(input: &Input<K>, p: usize) -> Answer<K>
    requires { p ≤ length input.now }
    ensures { ReadsAttributeExactly K.text_said K.bytes_said rules.message_size input.now p result }
{
    let (p, _) = word(b"SIZE ", input.message, p)?;
    let (p, size) = number(input.message, p)?;
    Ok((p, AttributeParts::Rfc822Size(size)))
}

#[tactic(auto, unfolding(crate::specs::Attributes::message_text))]
fn message_text<K: KeepAttribute>(input: &Input<K>, p: usize) -> Answer<K>
    requires { p ≤ length input.now }
    ensures { ReadsAttributeExactly K.text_said K.bytes_said rules.message_text input.now p result }
{
    let (p, _) = word(b"TEXT ", input.message, p)?;
    let (p, text) = byte_string(input.message, p)?;
    Ok((
        p,
        AttributeParts::Rfc822Text(kept_bytes(&input.keep, input.message, text)),
    ))
}

#[tactic(auto, unfolding(crate::specs::Attributes::message_part))]
fn message_part<K: KeepAttribute>(input: &Input<K>, p: usize) -> Answer<K>
    requires { p ≤ length input.now }
    ensures { ReadsAttributeExactly K.text_said K.bytes_said rules.message_part input.now p result }
{
    let (p, _) = word(b".", input.message, p)?;
    first!(message_header(input, p));
    first!(message_size(input, p));
    message_text(input, p)
}

// `RFC822` is read once, whether the whole message or a part of it is meant.
#[tactic(auto, unfolding(crate::specs::Attributes::message_attribute))]
pub(crate) fn message_attribute<K: KeepAttribute>(input: &Input<K>, p: usize) -> Answer<K>
    requires { p ≤ length input.now }
    ensures { ReadsAttributeExactly K.text_said K.bytes_said rules.message_attribute input.now p result }
{
    let (p, _) = word(b"RFC822", input.message, p)?;
    first!(whole_message(input, p));
    message_part(input, p)
}
