//! Strings at a position, each as a byte string or as a text to be decoded. None takes memory.

ghost use Rattle.std.specs.Prelude.{◌≤◌, length};
ghost use Rattle.imap_grammar.specs.Positions.{Ahead, MaybeInside, named_in, StepsExactlyAt};
ghost use Rattle.imap_grammar.specs.Memory.{NeverFails};
ghost use Rattle.imap_bytes.specs.Numbers as numbers;
ghost use Rattle.imap_bytes.specs.Texts as texts;
ghost use Rattle.imap_envelopes.specs.Envelopes as envelopes;
ghost use Rattle.imap_envelopes.specs.Envelopes.{spaced};
ghost use Rattle.imap_body_types.specs.Spans.{RestsOn, text_in};
ghost use Rattle.imap_envelopes.specs.Spanned.{maybe_bytes_in, maybe_text_in};

use imap_body_types::spans::{Span, SpannedText};
use imap_bytes::at::Reached;
use imap_bytes::at::numbers::number;
use imap_bytes::at::strings::{nstring, string};
use imap_bytes::at::tags::tag;

/// An nstring, its bytes as they stand (RFC 3501, section 9: nstring). No memory.
#[tactic(auto, using(crate::proofs::Naming::bytes_seen), unfolding(crate::specs::Envelopes::byte_string))]
#[inline(always)]
pub fn byte_string(m: &[u8], p: usize) -> Reached<Option<Span>>
    requires { p ≤ length m.now }
    ensures steps { StepsExactlyAt envelopes.byte_string (maybe_bytes_in (named_in m.now)) m.now p
        result }
    ensures ahead { Ahead m.now p result }
    ensures inside { MaybeInside p result }
    ensures rests { RestsOn maybe_bytes_in result }
    ensures no_failure { NeverFails result }
{
    let (q, bytes) = nstring(m, p)?;
    Ok((q, bytes))
}

/// A space, then an nstring, its bytes as they stand (RFC 3501, section 9: nstring). No memory.
#[inline(always)]
pub fn spaced_byte_string(m: &[u8], p: usize) -> Reached<Option<Span>>
    requires { p ≤ length m.now }
    ensures steps { StepsExactlyAt (spaced envelopes.byte_string) (maybe_bytes_in (named_in m.now))
        m.now p result }
    ensures ahead { Ahead m.now p result }
    ensures inside { MaybeInside p result }
    ensures rests { RestsOn maybe_bytes_in result }
    ensures no_failure { NeverFails result }
{
    let (p, _) = tag(b" ", m, p)?;
    byte_string(m, p)
}

/// A string, to be decoded (RFC 3501, section 9: string). No memory.
#[tactic(auto, unfolding(imap_bytes::specs::Texts::string_utf8))]
#[inline(always)]
pub fn string_text(m: &[u8], p: usize) -> Reached<SpannedText>
    requires { p ≤ length m.now }
    ensures steps { StepsExactlyAt texts.string_utf8 (text_in (named_in m.now)) m.now p result }
    ensures ahead { Ahead m.now p result }
    ensures rests { RestsOn text_in result }
    ensures no_failure { NeverFails result }
{
    let (q, content) = string(m, p)?;
    Ok((q, SpannedText::Part(content)))
}

/// A space, then a string, to be decoded (RFC 3501, section 9: string). No memory.
#[inline(always)]
pub fn spaced_string_text(m: &[u8], p: usize) -> Reached<SpannedText>
    requires { p ≤ length m.now }
    ensures steps { StepsExactlyAt (spaced texts.string_utf8) (text_in (named_in m.now)) m.now p
        result }
    ensures ahead { Ahead m.now p result }
    ensures rests { RestsOn text_in result }
    ensures no_failure { NeverFails result }
{
    let (p, _) = tag(b" ", m, p)?;
    string_text(m, p)
}

/// An nstring, to be decoded (RFC 3501, section 9: nstring). No memory.
#[inline(always)]
#[tactic(auto, unfolding(imap_bytes::specs::Texts::nstring_utf8))]
pub fn nstring_text(m: &[u8], p: usize) -> Reached<Option<SpannedText>>
    requires { p ≤ length m.now }
    ensures steps { StepsExactlyAt texts.nstring_utf8 (maybe_text_in (named_in m.now)) m.now p
        result }
    ensures ahead { Ahead m.now p result }
    ensures rests { RestsOn maybe_text_in result }
    ensures no_failure { NeverFails result }
{
    let (q, content) = nstring(m, p)?;
    Ok((q, content.map(SpannedText::Part)))
}

/// A space, then an nstring, to be decoded (RFC 3501, section 9: nstring). No memory.
#[inline(always)]
pub fn spaced_nstring_text(m: &[u8], p: usize) -> Reached<Option<SpannedText>>
    requires { p ≤ length m.now }
    ensures steps { StepsExactlyAt (spaced texts.nstring_utf8) (maybe_text_in (named_in m.now))
        m.now p result }
    ensures ahead { Ahead m.now p result }
    ensures rests { RestsOn maybe_text_in result }
    ensures no_failure { NeverFails result }
{
    let (p, _) = tag(b" ", m, p)?;
    nstring_text(m, p)
}

/// A space, then a number (RFC 3501, section 9: number). No memory.
#[inline(always)]
pub fn spaced_number(m: &[u8], p: usize) -> Reached<u32>
    requires { p ≤ length m.now }
    ensures steps { StepsExactlyAt (spaced numbers.number) (λ x. x) m.now p result }
    ensures ahead { Ahead m.now p result }
    ensures no_failure { NeverFails result }
{
    let (p, _) = tag(b" ", m, p)?;
    number(m, p)
}
