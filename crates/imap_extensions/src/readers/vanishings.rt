//! Messages that are gone.

ghost use Rattle.imap_grammar.specs.Answer.{Answers, Steps, StepsExactly};
ghost use Rattle.imap_grammar.specs.Memory.{BeginsWord, FailsOnlyIf};
ghost use Rattle.imap_extensions.specs.Vanishings as vanishings;
ghost use Rattle.imap_extensions.specs.Vanishings.{vanished_value};

use imap_bytes::tags::{blanks1, word};
use imap_bytes::{IResult, first, sequence_set};
use std::alloc::Global;
use std::ops::RangeInclusive;

fn earlier_word(i: &[u8]) -> IResult<&[u8], bool>
    ensures { StepsExactly vanishings.earlier_word (λ x. x) i.now result }
{
    let (rest, _) = blanks1(i)?;
    let (rest, _) = word(b"(EARLIER)", rest)?;
    Ok((rest, true))
}

#[tactic(auto, unfolding(crate::specs::Vanishings::earlier))]
fn earlier(i: &[u8]) -> IResult<&[u8], bool>
    ensures { StepsExactly vanishings.earlier (λ x. x) i.now result }
{
    first!(earlier_word(i));
    Ok((i, false))
}

#[tactic(auto, unfolding(crate::specs::Vanishings::vanished))]
fn vanished_parts(alloc: Global, i: &[u8]) -> IResult<&[u8], (bool, Vec<RangeInclusive<u32>>)>
    ensures steps { Steps vanishings.vanished vanished_value i.now result }
    ensures memory { FailsOnlyIf (BeginsWord "VANISHED" i.now) result }
{
    let (rest, _) = word(b"VANISHED", i)?;
    let (rest, earlier) = earlier(rest)?;
    let (rest, _) = blanks1(rest)?;
    let (rest, set) = sequence_set(alloc, rest)?;
    Ok((rest, (earlier, set)))
}

/// `VANISHED`, maybe `(EARLIER)`, and the unique identifiers of messages that are gone
/// (RFC 7162, section 7: expunged-resp).
///
/// It gives whether `(EARLIER)` stands there, and the ranges as they are written. Any other word, or no number below
/// 2^32 behind it, is `Error`. It takes memory only behind `VANISHED`, for the ranges.
#[tactic(auto, using(imap_grammar::proofs::Agreement::answered))]
pub fn vanished(alloc: Global, i: &[u8]) -> IResult<&[u8], (bool, Vec<RangeInclusive<u32>>)>
    ensures steps { Steps vanishings.vanished vanished_value i.now result }
    ensures answer { Answers vanishings.vanished vanished_value i.now result }
    ensures memory { FailsOnlyIf (BeginsWord "VANISHED" i.now) result }
{
    vanished_parts(alloc, i)
}
