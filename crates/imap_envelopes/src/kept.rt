//! What is kept of small records of strings.

ghost use Rattle.std.specs.Prelude.{◌≤◌, length, IfOk, IfSome};
ghost use Rattle.std.specs.Option.{option_map};
ghost use Rattle.imap_body_types.specs.Spans.{bytes_in, text_in};
ghost use Rattle.imap_body_types.specs.FieldValues.{pair_seen, encoding_seen};
ghost use Rattle.imap_envelopes.specs.Keeping.{IsKeptOf};

use crate::input::Input;
use crate::keep::Keep;
use imap_body_types::shapes::fields::ContentEncoding;
use imap_body_types::spans::{Span, SpannedText};
use std::alloc::AllocError;

/// Keeps a byte string, if there is one. No memory.
pub fn kept_bytes<K: Keep>(keep: &K, m: &[u8], bytes: Option<Span>) -> Option<K::Bytes>
    requires serves { K.serves keep.now m.now }
    requires inside { IfSome bytes (λ s. (s.start ≤ s.end) × (s.end ≤ length m.now)) }
    ensures { IsKeptOf (λ n. option_map (bytes_in n)) (λ n. option_map (K.bytes_said n))
        m.now bytes result }
{
    match bytes {
        None => None,
        Some(span) => Some(keep.bytes(m, span)),
    }
}

/// Keeps a text, if there is one. It may take memory; `Err`: memory ran out.
#[inline(always)]
pub fn kept_text<K: Keep>(
    input: &Input<K>,
    text: Option<SpannedText>,
) -> Result<Option<K::Text>, AllocError>
    ensures { IfOk result
        (IsKeptOf (λ n. option_map (text_in n)) (λ n. option_map (K.text_said n)) input.now text) }
{
    match text {
        None => Ok(None),
        Some(text) => Ok(Some(input.text(text)?)),
    }
}

/// Keeps a parameter: its name and its value. It may take memory; `Err`: memory ran out.
#[inline(always)]
pub fn kept_pair<K: Keep>(
    input: &Input<K>,
    pair: (SpannedText, SpannedText),
) -> Result<(K::Text, K::Text), AllocError>
    ensures { IfOk result
        (IsKeptOf (λ n. pair_seen (text_in n)) (λ n. pair_seen (K.text_said n)) input.now pair) }
{
    let (name, value) = pair;
    let name = input.text(name)?;
    let value = input.text(value)?;
    Ok((name, value))
}

/// Keeps an encoding. It may take memory; `Err`: memory ran out.
#[inline(always)]
pub fn kept_encoding<K: Keep>(
    input: &Input<K>,
    encoding: ContentEncoding<SpannedText>,
) -> Result<ContentEncoding<K::Text>, AllocError>
    ensures { IfOk result
        (IsKeptOf (λ n. encoding_seen (text_in n)) (λ n. encoding_seen (K.text_said n))
        input.now encoding) }
{
    Ok(match encoding {
        ContentEncoding::SevenBit => ContentEncoding::SevenBit,
        ContentEncoding::EightBit => ContentEncoding::EightBit,
        ContentEncoding::Binary => ContentEncoding::Binary,
        ContentEncoding::Base64 => ContentEncoding::Base64,
        ContentEncoding::QuotedPrintable => ContentEncoding::QuotedPrintable,
        ContentEncoding::Other(text) => ContentEncoding::Other(input.text(text)?),
    })
}
