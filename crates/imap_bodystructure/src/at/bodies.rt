//! Structures of bodies at a position.

ghost use Rattle.std.specs.Prelude.{◌≡◌, ◌≤◌, ◌<◌, List, [], ◌∷◌, ◌++◌, IfOk, length, map};
ghost use Rattle.imap_grammar.specs.Memory.{FailsOnlyIf};
ghost use Rattle.imap_grammar.specs.Positions.{Ahead, named_in, StepsExactlyAt};
ghost use Rattle.imap_envelopes.specs.Envelopes as envelopes;
ghost use Rattle.imap_envelopes.specs.Envelopes.{spaced};
ghost use Rattle.imap_envelopes.specs.Reading.{Reads};
ghost use Rattle.imap_bodystructure.specs.Bodies as bodies;
ghost use Rattle.imap_bodystructure.specs.Kept.{PutsAt, Leaves, Reaches};
ghost use Rattle.imap_body_types.specs.EnvelopeValues.{envelope_seen};
ghost use Rattle.imap_body_types.specs.BodyValues.{body_seen, boxed_seen};

use crate::at::extensions::{body_ext_1part, body_ext_mpart};
use crate::at::fields::spaced_fields;
use crate::limits::MAX_BODY_DEPTH;
use imap_body_types::or_drop;
use imap_body_types::shapes::bodies::{
    BodyContentCommon, BodyContentSinglePart, BodyStructure, ContentType,
};
use imap_body_types::shapes::envelopes::Envelope;
use imap_body_types::spans::{Span, SpannedText};
use imap_bytes::at::Reached;
use imap_bytes::at::tags::{tag, word};
use imap_bytes::{Err, Needed, first};
use imap_envelopes::at::envelopes::envelope;
use imap_envelopes::at::texts::{spaced_number, spaced_string_text, string_text};
use imap_envelopes::{Input, Keep};
use std::alloc::{AllocError, Global};

/// A structure alone. It is boxed, since it is large, and handed on through several calls.
pub type BoxedBody<S, B> = Box<BodyStructure<S, B>>;

/// Structures. A reader puts the one that it reads behind the others: each call that answers one would copy it.
pub type Bodies<S, B> = Vec<BodyStructure<S, B>>;

// Drops the last one. This and `boxed_only` are never inlined: each clears room for a structure, and a reader that
// inlined them would clear it at each call.
#[inline(never)]
fn drop_last<T: Drop>(items: &mut Vec<T>)
    ensures { (others : List T) (last : T) →
        items.old.items ≡ others ++ last ∷ [] →
        items.new.items ≡ others }
{
    drop(items.pop());
}

// The only one of a list, in a box. Its caller has put one there; the error for an empty list only gives the function a
// value.
#[inline(never)]
fn boxed_only<T: Drop>(alloc: Global, mut items: Vec<T>) -> Result<Box<T>, AllocError>
    ensures { (only : T) → items.items ≡ only ∷ [] → IfOk result (λ b. b.value ≡ only) }
{
    match items.pop() {
        None => Err(AllocError),
        Some(item) => Ok(Box::new(alloc, item)?),
    }
}

// A single part of a kind: what each has, moved out of what was read of it, and what this kind has more.
macro_rules! single_part {
    (
        $kind:ident, $ty:ident, $subtype:ident, $fields:ident, $extension:ident
        $(, $name:ident: $more:ident)*
    ) => {
        BodyStructure::$kind {
            common: BodyContentCommon {
                ty: ContentType {
                    ty: $ty,
                    subtype: $subtype,
                    params: $fields.param,
                },
                disposition: $extension.disposition,
                language: $extension.language,
                location: $extension.location,
            },
            other: BodyContentSinglePart {
                id: $fields.id,
                md5: $extension.md5,
                description: $fields.description,
                transfer_encoding: $fields.transfer_encoding,
                octets: $fields.octets,
            },
            $($name: $more,)*
            extension: $extension.extension,
        }
    };
}

// A text (RFC 3501, section 9: body-type-text).
#[tactic(auto, unfolding(crate::specs::Bodies::body_type_text))]
fn body_type_text<K: Keep>(
    input: &Input<K>,
    p: usize,
    others: &mut Bodies<K::Text, K::Bytes>,
) -> Result<usize, Err>
    requires { p ≤ length input.now }
    ensures puts { PutsAt bodies.body_type_text (λ n. body_seen (K.text_said n) (K.bytes_said n))
        input.now p others.old.items others.new.items result }
    ensures leaves { Leaves others.old.items others.new.items result }
    ensures ahead { Reaches input.now p result }
{
    let (p, _) = word(b"\"TEXT\"", input.message, p)?;
    others.reserve(1)?;
    let (p, subtype) = spaced_string_text(input.message, p)?;
    let ty = input.text(SpannedText::Text)?;
    let subtype = input.text(subtype)?;
    let (p, fields) = spaced_fields(input, p)?;
    let (p, lines) = or_drop!(spaced_number(input.message, p), fields);
    let (p, extension_data) = or_drop!(body_ext_1part(input, p), fields);
    others.push_reserved(single_part!(Text, ty, subtype, fields, extension_data, lines: lines));
    Ok(p)
}

// A single part of any type (RFC 3501, section 9: body-type-basic).
#[tactic(auto, unfolding(crate::specs::Bodies::body_type_basic))]
fn body_type_basic<K: Keep>(
    input: &Input<K>,
    p: usize,
    others: &mut Bodies<K::Text, K::Bytes>,
) -> Result<usize, Err>
    requires { p ≤ length input.now }
    ensures puts { PutsAt bodies.body_type_basic (λ n. body_seen (K.text_said n) (K.bytes_said n))
        input.now p others.old.items others.new.items result }
    ensures leaves { Leaves others.old.items others.new.items result }
    ensures ahead { Reaches input.now p result }
{
    let (p, ty) = string_text(input.message, p)?;
    let (p, subtype) = spaced_string_text(input.message, p)?;
    others.reserve(1)?;
    let ty = input.text(ty)?;
    let subtype = input.text(subtype)?;
    let (p, fields) = spaced_fields(input, p)?;
    let (p, extension_data) = or_drop!(body_ext_1part(input, p), fields);
    others.push_reserved(single_part!(Basic, ty, subtype, fields, extension_data));
    Ok(p)
}

fn spaced_envelope<K: Keep>(input: &Input<K>, p: usize) -> Reached<Envelope<K::Bytes>>
    requires { p ≤ length input.now }
    ensures { Reads (spaced envelopes.envelope)
        (λ n. envelope_seen (K.bytes_said n)) input.now p result }
{
    let (p, _) = tag(b" ", input.message, p)?;
    envelope(input, p)
}

#[tactic(auto, unfolding(crate::specs::Bodies::message_word))]
fn message_word(m: &[u8], p: usize) -> Reached<Span>
    requires { p ≤ length m.now }
    ensures steps { StepsExactlyAt bodies.message_word (named_in m.now) m.now p result }
    ensures ahead { Ahead m.now p result }
{
    word(b"\"MESSAGE\" \"RFC822\"", m, p)
}

/// Reads a body with at most `level` inside one another, itself counted (RFC 3501, section 9: body), and puts it after
/// the others in the list. At level 0 it denies without looking.
///
/// Where no body is read, the others are as they were. It takes memory for the tree, and, where values are kept of its
/// strings, for texts that are not UTF-8.
#[cycle(body)]
pub fn body<K: Keep>(
    input: &Input<K>,
    level: u32,
    p: usize,
    others: &mut Bodies<K::Text, K::Bytes>,
) -> Result<usize, Err>
    requires { p ≤ length input.now }
    ensures puts { PutsAt (bodies.body level) (λ n. body_seen (K.text_said n) (K.bytes_said n))
        input.now p others.old.items others.new.items result }
    ensures leaves { Leaves others.old.items others.new.items result }
    ensures ahead { Reaches input.now p result }
    ensures memory { FailsOnlyIf (0 < level) result }
{
    if level == 0 {
        return Err(Err::Error);
    }
    bracketed_body(input, level - 1, p, others)
}

#[cycle(body)]
#[tactic(auto, unfolding(crate::specs::Bodies::bracketed_body))]
fn bracketed_body<K: Keep>(
    input: &Input<K>,
    level: u32,
    p: usize,
    others: &mut Bodies<K::Text, K::Bytes>,
) -> Result<usize, Err>
    requires { p ≤ length input.now }
    ensures puts { PutsAt (bodies.bracketed_body (bodies.body level))
        (λ n. body_seen (K.text_said n) (K.bytes_said n)) input.now p others.old.items others.new.items
        result }
    ensures leaves { Leaves others.old.items others.new.items result }
    ensures ahead { Reaches input.now p result }
{
    let (p, _) = tag(b"(", input.message, p)?;
    let p = body_type(input, level, p, others)?;
    match tag(b")", input.message, p) {
        Ok((p, _)) => Ok(p),
        Err(error) => {
            drop_last(others);
            Err(error)
        }
    }
}

// What stands in the parentheses of a body, where the bodies inside have this level.
#[cycle(body)]
fn body_type<K: Keep>(
    input: &Input<K>,
    level: u32,
    p: usize,
    others: &mut Bodies<K::Text, K::Bytes>,
) -> Result<usize, Err>
    requires { p ≤ length input.now }
    ensures puts { PutsAt (bodies.body_type (bodies.body level))
        (λ n. body_seen (K.text_said n) (K.bytes_said n)) input.now p others.old.items others.new.items
        result }
    ensures leaves { Leaves others.old.items others.new.items result }
    ensures ahead { Reaches input.now p result }
{
    match input.byte_at(p) {
        None => Err(Err::Incomplete(Needed::Unknown)),
        Some(b'"') => quoted_type(input, level, p, others),
        Some(b'{') => body_type_basic(input, p, others),
        Some(b'(') => body_type_mpart(input, level, p, others),
        Some(_) => Err(Err::Error),
    }
}

#[cycle(body)]
#[tactic(auto, unfolding(crate::specs::Bodies::quoted_type))]
fn quoted_type<K: Keep>(
    input: &Input<K>,
    level: u32,
    p: usize,
    others: &mut Bodies<K::Text, K::Bytes>,
) -> Result<usize, Err>
    requires { p ≤ length input.now }
    ensures puts { PutsAt (bodies.quoted_type (bodies.body level))
        (λ n. body_seen (K.text_said n) (K.bytes_said n)) input.now p others.old.items others.new.items
        result }
    ensures leaves { Leaves others.old.items others.new.items result }
    ensures ahead { Reaches input.now p result }
{
    first!(body_type_text(input, p, others));
    first!(body_type_msg(input, level, p, others));
    body_type_basic(input, p, others)
}

// A message (RFC 3501, section 9: body-type-msg).
#[cycle(body)]
#[tactic(auto, unfolding(crate::specs::Bodies::body_type_msg))]
fn body_type_msg<K: Keep>(
    input: &Input<K>,
    level: u32,
    p: usize,
    others: &mut Bodies<K::Text, K::Bytes>,
) -> Result<usize, Err>
    requires { p ≤ length input.now }
    ensures puts { PutsAt (bodies.body_type_msg (bodies.body level))
        (λ n. body_seen (K.text_said n) (K.bytes_said n)) input.now p others.old.items others.new.items
        result }
    ensures leaves { Leaves others.old.items others.new.items result }
    ensures ahead { Reaches input.now p result }
{
    let (p, _) = message_word(input.message, p)?;
    others.reserve(1)?;
    let ty = input.text(SpannedText::Message)?;
    let subtype = input.text(SpannedText::Rfc822)?;
    let (p, fields) = spaced_fields(input, p)?;
    let (p, envelope) = or_drop!(spaced_envelope(input, p), fields);
    let (p, inner) = or_drop!(spaced_body(input, level, p), envelope, fields);
    let (p, lines) = or_drop!(spaced_number(input.message, p), inner, envelope, fields);
    let (p, extension_data) = or_drop!(body_ext_1part(input, p), inner, envelope, fields);
    others.push_reserved(single_part!(
        Message, ty, subtype, fields, extension_data, envelope: envelope, body: inner, lines: lines
    ));
    Ok(p)
}

#[cycle(body)]
fn spaced_body<K: Keep>(
    input: &Input<K>,
    level: u32,
    p: usize,
) -> Reached<BoxedBody<K::Text, K::Bytes>>
    requires { p ≤ length input.now }
    ensures { Reads (spaced (bodies.body level))
        (λ n. boxed_seen (K.text_said n) (K.bytes_said n)) input.now p result }
{
    let (p, _) = tag(b" ", input.message, p)?;
    one_body(input, level, p)
}

// Several parts (RFC 3501, section 9: body-type-mpart).
#[cycle(body)]
#[tactic(auto, unfolding(crate::specs::Bodies::body_type_mpart))]
fn body_type_mpart<K: Keep>(
    input: &Input<K>,
    level: u32,
    p: usize,
    others: &mut Bodies<K::Text, K::Bytes>,
) -> Result<usize, Err>
    requires { p ≤ length input.now }
    ensures puts { PutsAt (bodies.body_type_mpart (bodies.body level))
        (λ n. body_seen (K.text_said n) (K.bytes_said n)) input.now p others.old.items others.new.items
        result }
    ensures leaves { Leaves others.old.items others.new.items result }
    ensures ahead { Reaches input.now p result }
{
    others.reserve(1)?;
    let ty = input.text(SpannedText::Multipart)?;
    let (p, parts) = some_bodies(input, level, p)?;
    let (p, subtype) = or_drop!(spaced_string_text(input.message, p), parts);
    let subtype = input.text(subtype)?;
    let (p, extension_data) = or_drop!(body_ext_mpart(input, p), parts);
    others.push_reserved(BodyStructure::Multipart {
        common: BodyContentCommon {
            ty: ContentType {
                ty,
                subtype,
                params: extension_data.param,
            },
            disposition: extension_data.disposition,
            language: extension_data.language,
            location: extension_data.location,
        },
        bodies: parts,
        extension: extension_data.extension,
    });
    Ok(p)
}

#[cycle(body)]
#[tactic(auto, unfolding(crate::specs::Bodies::some_bodies))]
fn some_bodies<K: Keep>(
    input: &Input<K>,
    level: u32,
    p: usize,
) -> Reached<Bodies<K::Text, K::Bytes>>
    requires { p ≤ length input.now }
    ensures { Reads (bodies.some_bodies (bodies.body level))
        (λ n x. map (body_seen (K.text_said n) (K.bytes_said n)) x.items) input.now p result }
{
    let mut items = Vec::new(input.alloc);
    let mut q = or_drop!(body(input, level, p, &mut items), items);
    'bodies: loop {
        match body(input, level, q, &mut items) {
            Ok(after) => q = after,
            Err(error) => match error {
                Err::Error => return Ok((q, items)),
                _ => {
                    drop(items);
                    return Err(error);
                }
            },
        }
    }
}

#[cycle(body)]
fn one_body<K: Keep>(
    input: &Input<K>,
    level: u32,
    p: usize,
) -> Reached<BoxedBody<K::Text, K::Bytes>>
    requires { p ≤ length input.now }
    ensures { Reads (bodies.body level)
        (λ n. boxed_seen (K.text_said n) (K.bytes_said n)) input.now p result }
{
    let mut bodies = Vec::with_capacity(input.alloc, 1)?;
    let p = or_drop!(body(input, level, p, &mut bodies), bodies);
    Ok((p, boxed_only(input.alloc, bodies)?))
}

/// A body alone, up to `MAX_BODY_DEPTH` inside one another (RFC 3501, section 9: body). It takes memory as `body` does.
#[tactic(auto, unfolding(crate::specs::Bodies::body_structure))]
pub fn body_structure<K: Keep>(input: &Input<K>, p: usize) -> Reached<BoxedBody<K::Text, K::Bytes>>
    requires { p ≤ length input.now }
    ensures { Reads bodies.body_structure
        (λ n. boxed_seen (K.text_said n) (K.bytes_said n)) input.now p result }
{
    one_body(input, MAX_BODY_DEPTH, p)
}
