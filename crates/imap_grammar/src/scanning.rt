//! Where a run of bytes of one class ends (RFC 3501, section 9: each `1*` of a class), and where a quoted string of
//! quoted-chars alone does.

ghost use Rattle.std.specs.Prelude.{◌≡◌, ◌<◌, ◌≤◌, ◌==◌, if◌then◌else◌, ℕ, Bool, true, Some, length, take, drop};
ghost use Rattle.std.specs.Prelude.{position, IfSome};
ghost use Rattle.std.specs.Int.{w64, trailing_zeros};
ghost use Rattle.std.specs.List.{position_or_len};
ghost use Rattle.imap_grammar.specs.Ascii.{quote};
ghost use Rattle.imap_grammar.specs.Classes as classes;
ghost use Rattle.imap_grammar.specs.Meaning.{begins, outside};
ghost use Rattle.imap_grammar.specs.Scanning.{may_stop, FindsQuote};

use crate::classes::{is_astring_char, is_atom_char, is_quoted_char, is_text_char};
use std::simd::prelude::*;

/// A class of bytes, as a type.
pub trait Class {
    ghost class: { ℕ → Bool };

    /// Whether the byte is of the class. No memory.
    fn has(c: u8) -> bool
        ensures { result ≡ class c };
}

/// A class whose runs are mostly long: sixteen bytes are looked at at once.
pub trait LongRuns: Class {
    /// Which of the first sixteen bytes, so many there must be, is the first that is not of the class; 16 where each
    /// is of it. No memory.
    fn sixteen_end(i: &[u8]) -> usize
        requires { 16 ≤ length i.now }
        ensures { result ≡ position_or_len (outside Self.class) (take 16 i.now) };
}

// Which of sixteen bits is the lowest that is set; 16 where none is.
#[inline(always)]
fn lowest_set(bits: u64) -> usize
    ensures { result ≡ (if bits == 0 then 16 else trailing_zeros w64 bits) }
{
    if bits == 0 {
        16
    } else {
        bits.trailing_zeros() as usize
    }
}

/// The class of text-chars (RFC 3501, section 9: TEXT-CHAR).
pub struct TextChar;

impl Class for TextChar {
    ghost class = { classes.is_text_char };

    fn has(c: u8) -> bool {
        is_text_char(c)
    }
}

impl LongRuns for TextChar {
    #[inline(always)]
    fn sixteen_end(i: &[u8]) -> usize {
        let bytes = u8x16::from_slice(i);
        let outside = bytes.simd_eq(u8x16::splat(0))
            | bytes.simd_eq(u8x16::splat(b'\n'))
            | bytes.simd_eq(u8x16::splat(b'\r'));
        lowest_set(outside.to_bitmask())
    }
}

/// The class of atom-chars (RFC 3501, section 9: ATOM-CHAR).
pub struct AtomChar;

impl Class for AtomChar {
    ghost class = { classes.is_atom_char };

    fn has(c: u8) -> bool {
        is_atom_char(c)
    }
}

/// The class of astring-chars (RFC 3501, section 9: ASTRING-CHAR).
pub struct AstringChar;

impl Class for AstringChar {
    ghost class = { classes.is_astring_char };

    fn has(c: u8) -> bool {
        is_astring_char(c)
    }
}

/// The class of quoted-chars (RFC 3501, section 9: QUOTED-CHAR, its single bytes).
pub struct QuotedChar;

impl Class for QuotedChar {
    ghost class = { classes.is_quoted_char };

    fn has(c: u8) -> bool {
        is_quoted_char(c)
    }
}

impl LongRuns for QuotedChar {
    #[inline(always)]
    fn sixteen_end(i: &[u8]) -> usize {
        let bytes = u8x16::from_slice(i);
        let outside = bytes.simd_eq(u8x16::splat(0))
            | bytes.simd_eq(u8x16::splat(b'\n'))
            | bytes.simd_eq(u8x16::splat(b'\r'))
            | bytes.simd_eq(u8x16::splat(b'"'))
            | bytes.simd_eq(u8x16::splat(b'\\'));
        lowest_set(outside.to_bitmask())
    }
}

// The same as `run_end`, one byte in each turn.
fn run_end_bytewise<C: Class>(i: &[u8]) -> Option<usize>
    ensures at { result ≡ position (outside C.class) i.now }
    ensures within { IfSome result (λ n. n < length i.now) }
{
    i.iter().position(|c| !C::has(*c))
}

/// Where the first byte stands that is not of the class; `None` where each is of it. No memory.
///
/// Four bytes are looked at in each turn, which takes little more than half the instructions of one by one.
#[inline(always)]
pub fn run_end<C: Class>(i: &[u8]) -> Option<usize>
    ensures at { result ≡ position (outside C.class) i.now }
    ensures within { IfSome result (λ n. n < length i.now) }
{
    let mut n = 0;
    let mut left = i;
    'fours: while let [a, b, c, d, more @ ..] = left {
        if !C::has(*a) {
            return Some(n);
        }
        if !C::has(*b) {
            return Some(n + 1);
        }
        if !C::has(*c) {
            return Some(n + 2);
        }
        if !C::has(*d) {
            return Some(n + 3);
        }
        n += 4;
        left = more;
    }
    match run_end_bytewise::<C>(left) {
        Some(k) => Some(n + k),
        None => None,
    }
}

/// Where the first byte stands that is not of the class; `None` where each is of it. No memory.
///
/// For classes whose runs are mostly long: sixteen bytes are looked at in each turn, and what is left by `run_end`.
#[inline(always)]
pub fn long_run_end<C: LongRuns>(i: &[u8]) -> Option<usize>
    ensures at { result ≡ position (outside C.class) i.now }
    ensures within { IfSome result (λ n. n < length i.now) }
{
    let mut n = 0;
    let mut left = i;
    'sixteens: while left.len() >= 16 {
        let k = C::sixteen_end(left);
        if k < 16 {
            return Some(n + k);
        }
        n += 16;
        let (_, more) = left.split_at(16);
        left = more;
    }
    match run_end::<C>(left) {
        Some(k) => Some(n + k),
        None => None,
    }
}

// Which of the first sixteen bytes may stop a look for a quote, a bit for each: quoted-specials and controls up to CR.
#[inline(always)]
fn sixteen_stops(i: &[u8]) -> u64
    requires { 16 ≤ length i.now }
    ensures { position_or_len may_stop (take 16 i.now)
        ≡ (if result == 0 then 16 else trailing_zeros w64 result) }
{
    let bytes = u8x16::from_slice(i);
    let specials = bytes.simd_eq(u8x16::splat(b'\\')) | bytes.simd_eq(u8x16::splat(b'"'));
    let controls = bytes.simd_le(u8x16::splat(b'\r'));
    (specials | controls).to_bitmask()
}

// The same as `next_quote`, wherever the quote stands. Never inlined, so that `next_quote`, which is, stays short.
#[inline(never)]
fn far_quote(i: &[u8]) -> Option<usize>
    ensures at { IfSome result (λ n. position (outside classes.is_quoted_char) i.now ≡ Some n) }
    ensures closed { IfSome result (λ n. begins (λ b. b == quote) (drop n i.now) ≡ true) }
    ensures within { IfSome result (λ n. n < length i.now) }
    ensures found { FindsQuote i.now result }
{
    let mut n = 0;
    let mut left = i;
    'sixteens: while left.len() >= 16 {
        let k = lowest_set(sixteen_stops(left));
        if k < 16 {
            return if left[k] == b'"' { Some(n + k) } else { None };
        }
        n += 16;
        let (_, more) = left.split_at(16);
        left = more;
    }
    None
}

/// Where a quote stands behind quoted-chars alone. `None` where none stands so, and maybe where one of these is a
/// control up to CR, or fewer than sixteen bytes are there from the quote on. No memory.
///
/// Most quoted strings are read by one look at sixteen bytes. Some controls up to CR are quoted-chars, too, but to tell
/// these from the others takes two comparisons more.
#[inline(always)]
pub fn next_quote(i: &[u8]) -> Option<usize>
    ensures at { IfSome result (λ n. position (outside classes.is_quoted_char) i.now ≡ Some n) }
    ensures closed { IfSome result (λ n. begins (λ b. b == quote) (drop n i.now) ≡ true) }
    ensures within { IfSome result (λ n. n < length i.now) }
    ensures found { FindsQuote i.now result }
{
    if i.len() < 16 {
        return None;
    }
    let bits = sixteen_stops(i);
    if bits != 0 {
        let n = bits.trailing_zeros() as usize;
        if n < 16 {
            return if i[n] == b'"' { Some(n) } else { None };
        }
    }
    let (_, more) = i.split_at(16);
    let n = far_quote(more)?;
    Some(16 + n)
}
