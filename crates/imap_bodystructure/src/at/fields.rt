//! Parameters, encodings and fields of bodies at a position.

ghost use Rattle.std.specs.Prelude.{◌≤◌, length, map};
ghost use Rattle.imap_grammar.specs.Memory.{NeverFails};
ghost use Rattle.imap_envelopes.specs.Envelopes.{spaced};
ghost use Rattle.imap_envelopes.specs.Reading.{Reads, ReadsExactly};
ghost use Rattle.imap_bodystructure.specs.Fields as fields;
ghost use Rattle.imap_bodystructure.specs.Spanned.{pair_in, encoding_in};
ghost use Rattle.imap_body_types.specs.FieldValues.{pair_seen, params_seen, fields_seen};

use imap_body_types::shapes::fields::{BodyFields, BodyParams, ContentEncoding};
use imap_body_types::spans::SpannedText;
use imap_bytes::at::Reached;
use imap_bytes::at::strings::nil;
use imap_bytes::at::tags::{blanks0, tag, word};
use imap_bytes::lists::tried;
use imap_bytes::{Err, Needed, first};
use imap_envelopes::at::lists::list_of_one;
use imap_envelopes::at::texts::{
    spaced_nstring_text, spaced_number, spaced_string_text, string_text,
};
use imap_envelopes::kept::{kept_encoding, kept_pair, kept_text};
use imap_envelopes::{Input, Keep};

#[tactic(auto, unfolding(crate::specs::Fields::body_param))]
#[inline(always)]
fn param(m: &[u8], p: usize) -> Reached<(SpannedText, SpannedText)>
    requires { p ≤ length m.now }
    ensures { ReadsExactly fields.body_param pair_in m.now p result }
{
    let (p, key) = string_text(m, p)?;
    let (p, value) = spaced_string_text(m, p)?;
    Ok((p, (key, value)))
}

#[inline(always)]
fn spaced_param(m: &[u8], p: usize) -> Reached<(SpannedText, SpannedText)>
    requires { p ≤ length m.now }
    ensures { ReadsExactly (spaced fields.body_param) pair_in m.now p result }
{
    let (p, _) = tag(b" ", m, p)?;
    param(m, p)
}

#[tactic(auto, unfolding(crate::specs::Fields::some_params))]
fn some_params<K: Keep>(input: &Input<K>, p: usize) -> Reached<Vec<(K::Text, K::Text)>>
    requires { p ≤ length input.now }
    ensures { Reads fields.some_params
        (λ n x. map (pair_seen (K.text_said n)) x.items) input.now p result }
{
    let (mut q, first) = param(input.message, p)?;
    let first = kept_pair(input, first)?;
    let mut items = list_of_one(input.alloc, first)?;
    'params: while let Some((after, param)) = tried(spaced_param(input.message, q))? {
        items.push(kept_pair(input, param)?)?;
        q = after;
    }
    Ok((q, items))
}

/// `NIL`, or parameters in parentheses (RFC 3501, section 9: body-fld-param).
///
/// It takes memory for the parameters, and, where values are kept of their strings, for texts that are not UTF-8.
#[tactic(auto, unfolding(crate::specs::Fields::body_fld_param))]
pub fn body_fld_param<K: Keep>(input: &Input<K>, p: usize) -> Reached<BodyParams<K::Text>>
    requires { p ≤ length input.now }
    ensures { Reads fields.body_fld_param (λ n. params_seen (K.text_said n)) input.now p result }
{
    first!(nil(input.message, p), _ => None);
    let (q, _) = tag(b"(", input.message, p)?;
    let (q, params) = some_params(input, q)?;
    let (q, _) = blanks0(input.message, q)?;
    let (q, _) = tag(b")", input.message, q)?;
    Ok((q, Some(params)))
}

#[tactic(auto, unfolding(crate::specs::Fields::seven_bit))]
fn seven_bit(m: &[u8], p: usize) -> Reached<ContentEncoding<SpannedText>>
    requires { p ≤ length m.now }
    ensures { ReadsExactly fields.seven_bit encoding_in m.now p result }
{
    let (p, _) = word(b"7BIT", m, p)?;
    Ok((p, ContentEncoding::SevenBit))
}

#[tactic(auto, unfolding(crate::specs::Fields::eight_bit))]
fn eight_bit(m: &[u8], p: usize) -> Reached<ContentEncoding<SpannedText>>
    requires { p ≤ length m.now }
    ensures { ReadsExactly fields.eight_bit encoding_in m.now p result }
{
    let (p, _) = word(b"8BIT", m, p)?;
    Ok((p, ContentEncoding::EightBit))
}

#[tactic(auto, unfolding(crate::specs::Fields::binary_or_base64))]
fn binary_or_base64(m: &[u8], p: usize) -> Reached<ContentEncoding<SpannedText>>
    requires { p ≤ length m.now }
    ensures { ReadsExactly fields.binary_or_base64 encoding_in m.now p result }
{
    first!(word(b"BINARY", m, p), _ => ContentEncoding::Binary);
    let (q, _) = word(b"BASE64", m, p)?;
    Ok((q, ContentEncoding::Base64))
}

#[tactic(auto, unfolding(crate::specs::Fields::quoted_printable))]
fn quoted_printable(m: &[u8], p: usize) -> Reached<ContentEncoding<SpannedText>>
    requires { p ≤ length m.now }
    ensures { ReadsExactly fields.quoted_printable encoding_in m.now p result }
{
    let (p, _) = word(b"QUOTED-PRINTABLE", m, p)?;
    Ok((p, ContentEncoding::QuotedPrintable))
}

#[tactic(auto, using(crate::proofs::FirstBytes::name_arms))]
fn encoding_name(m: &[u8], p: usize) -> Reached<ContentEncoding<SpannedText>>
    requires { p ≤ length m.now }
    ensures { ReadsExactly fields.encoding_name encoding_in m.now p result }
{
    let (_, i) = m.split_at(p);
    match i.first() {
        None => Err(Err::Incomplete(Needed::Unknown)),
        Some(b'7') => seven_bit(m, p),
        Some(b'8') => eight_bit(m, p),
        Some(b'b' | b'B') => binary_or_base64(m, p),
        Some(b'q' | b'Q') => quoted_printable(m, p),
        Some(_) => Err(Err::Error),
    }
}

#[tactic(auto, unfolding(crate::specs::Fields::quoted_encoding))]
fn quoted_encoding(m: &[u8], p: usize) -> Reached<ContentEncoding<SpannedText>>
    requires { p ≤ length m.now }
    ensures { ReadsExactly fields.quoted_encoding encoding_in m.now p result }
{
    let (p, _) = tag(b"\"", m, p)?;
    let (p, encoding) = encoding_name(m, p)?;
    let (p, _) = tag(b"\"", m, p)?;
    Ok((p, encoding))
}

#[tactic(auto, unfolding(crate::specs::Fields::nil_encoding))]
fn nil_encoding(m: &[u8], p: usize) -> Reached<ContentEncoding<SpannedText>>
    requires { p ≤ length m.now }
    ensures { ReadsExactly fields.nil_encoding encoding_in m.now p result }
{
    let (p, _) = nil(m, p)?;
    Ok((p, ContentEncoding::SevenBit))
}

#[tactic(auto, unfolding(crate::specs::Fields::other_encoding))]
fn other_encoding(m: &[u8], p: usize) -> Reached<ContentEncoding<SpannedText>>
    requires { p ≤ length m.now }
    ensures { ReadsExactly fields.other_encoding encoding_in m.now p result }
{
    let (p, text) = string_text(m, p)?;
    Ok((p, ContentEncoding::Other(text)))
}

#[tactic(auto, unfolding(crate::specs::Fields::encoding_in_quotes))]
fn encoding_in_quotes(m: &[u8], p: usize) -> Reached<ContentEncoding<SpannedText>>
    requires { p ≤ length m.now }
    ensures { ReadsExactly fields.encoding_in_quotes encoding_in m.now p result }
{
    first!(quoted_encoding(m, p));
    other_encoding(m, p)
}

/// How a body is encoded; `NIL` is `7BIT` (RFC 3501, section 9: body-fld-enc). No memory.
#[tactic(auto, using(imap_grammar::proofs::Memory::exactly_never_at, crate::proofs::FirstBytes::encoding_arms))]
pub fn body_fld_enc(m: &[u8], p: usize) -> Reached<ContentEncoding<SpannedText>>
    requires { p ≤ length m.now }
    ensures reads { ReadsExactly fields.body_fld_enc encoding_in m.now p result }
    ensures no_failure { NeverFails result }
{
    let (_, i) = m.split_at(p);
    match i.first() {
        None => Err(Err::Incomplete(Needed::Unknown)),
        Some(b'"') => encoding_in_quotes(m, p),
        Some(b'{') => other_encoding(m, p),
        Some(b'n' | b'N') => nil_encoding(m, p),
        Some(_) => Err(Err::Error),
    }
}

fn spaced_encoding(m: &[u8], p: usize) -> Reached<ContentEncoding<SpannedText>>
    requires { p ≤ length m.now }
    ensures { ReadsExactly (spaced fields.body_fld_enc) encoding_in m.now p result }
{
    let (p, _) = tag(b" ", m, p)?;
    body_fld_enc(m, p)
}

/// The fields of a single part (RFC 3501, section 9: body-fields).
///
/// It takes memory for the parameters, and, where values are kept of the strings, for texts that are not UTF-8.
#[tactic(auto, unfolding(crate::specs::Fields::body_fields, imap_body_types::specs::FieldValues::fields_seen))]
pub fn body_fields<K: Keep>(input: &Input<K>, p: usize) -> Reached<BodyFields<K::Text>>
    requires { p ≤ length input.now }
    ensures { Reads fields.body_fields (λ n. fields_seen (K.text_said n)) input.now p result }
{
    let (p, param) = body_fld_param(input, p)?;
    let (p, id) = spaced_nstring_text(input.message, p)?;
    let (p, description) = spaced_nstring_text(input.message, p)?;
    let (p, transfer_encoding) = spaced_encoding(input.message, p)?;
    let (p, octets) = spaced_number(input.message, p)?;
    Ok((
        p,
        BodyFields {
            param,
            id: kept_text(input, id)?,
            description: kept_text(input, description)?,
            transfer_encoding: kept_encoding(input, transfer_encoding)?,
            octets,
        },
    ))
}

/// A space, then the fields of a single part (RFC 3501, section 9: body-fields).
///
/// It takes memory for the parameters, and, where values are kept of the strings, for texts that are not UTF-8.
pub fn spaced_fields<K: Keep>(input: &Input<K>, p: usize) -> Reached<BodyFields<K::Text>>
    requires { p ≤ length input.now }
    ensures { Reads (spaced fields.body_fields)
        (λ n. fields_seen (K.text_said n)) input.now p result }
{
    let (p, _) = tag(b" ", input.message, p)?;
    body_fields(input, p)
}
