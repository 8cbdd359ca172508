//! Numbers at a position. None takes memory.

ghost use Rattle.std.specs.Prelude.{◌≡◌, ◌≤◌, ◌<◌, true, false, ◌+◌, ◌*◌, ◌-◌, ◌^◌, length, nat_lt, position, IfSome};
ghost use Rattle.imap_grammar.specs.Positions.{AnswersAt, Ahead, StepsExactlyAt};
ghost use Rattle.imap_grammar.specs.Memory.{NeverFails};
ghost use Rattle.imap_grammar.specs.Meaning.{outside};
ghost use Rattle.imap_grammar.specs.Rule.{only};
ghost use Rattle.imap_grammar.specs.Classes as classes;
ghost use Rattle.imap_bytes.specs.Numbers as numbers;
ghost use Rattle.imap_bytes.specs.Numbers.{DigitsInFront};

use imap_grammar::at::Reached;
use imap_grammar::classes::is_digit;
use imap_grammar::{Err, Needed};

fn digits_end(i: &[u8]) -> Option<usize>
    ensures at { result ≡ position (outside classes.is_digit) i.now }
    ensures within { IfSome result (λ n. n < length i.now) }
{
    i.iter().position(|c| !is_digit(*c))
}

// What a digit stands for; of another byte it is more than 9. All of it is in 64 bits, so that no step of the loop
// below widens a byte.
fn digit_value(b: u8) -> u64
    ensures digit { classes.is_digit b ≡ true → (result ≤ 9) × (result ≡ b - 48) }
    ensures other { classes.is_digit b ≡ false → 9 < result }
{
    u64::from(b).wrapping_sub(u64::from(b'0'))
}

// The same as `digits_in_front`, for any number of digits.
#[inline(always)]
fn many_digits_in_front(i: &[u8]) -> Option<(usize, Option<u32>)>
    ensures at { DigitsInFront (2 ^ 32) i.now result }
    ensures within { IfSome result (λ x. x.0 < length i.now) }
{
    let mut left = i;
    let mut number: u64 = 0;
    while let Some((b, more)) = left.split_first() {
        let digit = digit_value(*b);
        if digit > 9 {
            return Some((i.len() - left.len(), u32::try_from(number).ok()));
        }
        if number > u64::from(u32::MAX / 10) {
            return Some((digits_end(i)?, None));
        }
        number = number * 10 + digit;
        left = more;
    }
    None
}

// How many digits stand in front, and the number that they write, if 32 bits hold it. `None` where nothing follows
// them.
//
// Eleven digits are read with no look at the size of their number, since 64 bits hold any of so many: the compiler
// writes these turns out one by one.
#[inline(always)]
fn digits_in_front(i: &[u8]) -> Option<(usize, Option<u32>)>
    ensures at { DigitsInFront (2 ^ 32) i.now result }
    ensures within { IfSome result (λ x. x.0 < length i.now) }
{
    let mut number: u64 = 0;
    let mut count = 0;
    while count < 11 {
        let digit = digit_value(*i.get(count)?);
        if digit > 9 {
            return Some((count, u32::try_from(number).ok()));
        }
        number = number * 10 + digit;
        count += 1;
    }
    many_digits_in_front(i)
}

// The number with one more digit, if 64 bits hold it.
fn with_digit(number: u64, byte: u8) -> Option<u64>
    ensures { result ≡ only (λ n. nat_lt n (2 ^ 64)) (number * 10 + (byte - 48)) }
{
    number
        .checked_mul(10)?
        .checked_add(u64::from(byte.saturating_sub(b'0')))
}

// How many digits stand in front, and the number that they write, if 64 bits hold it. `None` where nothing follows
// them.
fn digits_in_front_64(i: &[u8]) -> Option<(usize, Option<u64>)>
    ensures at { DigitsInFront (2 ^ 64) i.now result }
    ensures within { IfSome result (λ x. x.0 < length i.now) }
{
    let mut count = 0;
    let mut number = 0;
    while let Some(d) = i.get(count) {
        if !is_digit(*d) {
            return Some((count, Some(number)));
        }
        match with_digit(number, *d) {
            Some(more) => number = more,
            None => return Some((digits_end(i)?, None)),
        }
        count += 1;
    }
    None
}

/// A number below 2^32, leading zeros allowed (RFC 3501, section 9: number). No memory.
///
/// No digit in front, or a larger number, is `Error`. It is judged behind the byte that ends its digits: digits up to
/// the end of the message wait.
#[tactic(auto, using(imap_grammar::proofs::Agreement::exact_answer_at))]
#[inline(always)]
pub fn number(m: &[u8], p: usize) -> Reached<u32>
    requires { p ≤ length m.now }
    ensures steps { StepsExactlyAt numbers.number (λ x. x) m.now p result }
    ensures answer { AnswersAt numbers.number (λ x. x) m.now p result }
    ensures ahead { Ahead m.now p result }
    ensures no_failure { NeverFails result }
{
    let (_, i) = m.split_at(p);
    match digits_in_front(i) {
        None => Err(Err::Incomplete(Needed::Unknown)),
        Some((0, _)) => Err(Err::Error),
        Some((_, None)) => Err(Err::Error),
        Some((count, Some(n))) => Ok((p + count, n)),
    }
}

/// A number below 2^64, leading zeros allowed (RFC 4551, section 4: mod-sequence-value). No memory.
///
/// It is judged as `number` is.
#[tactic(auto, using(imap_grammar::proofs::Agreement::exact_answer_at))]
pub fn number_64(m: &[u8], p: usize) -> Reached<u64>
    requires { p ≤ length m.now }
    ensures steps { StepsExactlyAt numbers.number_64 (λ x. x) m.now p result }
    ensures answer { AnswersAt numbers.number_64 (λ x. x) m.now p result }
    ensures ahead { Ahead m.now p result }
    ensures no_failure { NeverFails result }
{
    let (_, i) = m.split_at(p);
    match digits_in_front_64(i) {
        None => Err(Err::Incomplete(Needed::Unknown)),
        Some((0, _)) => Err(Err::Error),
        Some((_, None)) => Err(Err::Error),
        Some((count, Some(n))) => Ok((p + count, n)),
    }
}
