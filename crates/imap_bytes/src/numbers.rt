//! Numbers. None takes memory.

ghost use Rattle.imap_grammar.specs.Answer.{Answers, StepsExactly};
ghost use Rattle.imap_grammar.specs.Memory.{NeverFails};
ghost use Rattle.imap_bytes.specs.Numbers as numbers;

use crate::at;
use imap_grammar::IResult;
use imap_grammar::at::span::rest;

/// A number below 2^32, leading zeros allowed (RFC 3501, section 9: number). No memory.
///
/// No digit in front, or a larger number, is `Error`. It is judged behind the byte that ends its digits: digits up to
/// the end of the input wait.
#[tactic(auto, using(imap_grammar::proofs::Agreement::exact_answer), unfolding(crate::specs::Numbers::number))]
#[inline(always)]
pub fn number(i: &[u8]) -> IResult<&[u8], u32>
    ensures steps { StepsExactly numbers.number (λ x. x) i.now result }
    ensures answer { Answers numbers.number (λ x. x) i.now result }
    ensures no_failure { NeverFails result }
{
    let (q, n) = at::numbers::number(i, 0)?;
    Ok((rest(i, q), n))
}

/// A number below 2^64, leading zeros allowed (RFC 4551, section 4: mod-sequence-value). No memory.
///
/// It is judged as `number` is.
#[tactic(auto, using(imap_grammar::proofs::Agreement::exact_answer), unfolding(crate::specs::Numbers::number_64))]
pub fn number_64(i: &[u8]) -> IResult<&[u8], u64>
    ensures steps { StepsExactly numbers.number_64 (λ x. x) i.now result }
    ensures answer { Answers numbers.number_64 (λ x. x) i.now result }
    ensures no_failure { NeverFails result }
{
    let (q, n) = at::numbers::number_64(i, 0)?;
    Ok((rest(i, q), n))
}
