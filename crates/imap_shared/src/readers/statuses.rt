//! The status of a line.

ghost use Rattle.imap_grammar.specs.Answer.{Answers, StepsExactly};
ghost use Rattle.imap_grammar.specs.Memory.{NeverFails};
ghost use Rattle.imap_shared.specs.Statuses as rule;

use crate::types::statuses::Status;
use imap_bytes::tags::word;
use imap_bytes::{Err, IResult, Needed, on_word};

#[tactic(auto, unfolding(crate::specs::Statuses::ok_word))]
fn ok_word(i: &[u8]) -> IResult<&[u8], Status>
    ensures { StepsExactly rule.ok_word (λ x. x) i.now result }
{
    let (rest, _) = word(b"OK", i)?;
    Ok((rest, Status::Ok))
}

#[tactic(auto, unfolding(crate::specs::Statuses::no_word))]
fn no_word(i: &[u8]) -> IResult<&[u8], Status>
    ensures { StepsExactly rule.no_word (λ x. x) i.now result }
{
    let (rest, _) = word(b"NO", i)?;
    Ok((rest, Status::No))
}

#[tactic(auto, unfolding(crate::specs::Statuses::bad_or_bye))]
fn bad_or_bye(i: &[u8]) -> IResult<&[u8], Status>
    ensures { StepsExactly rule.bad_or_bye (λ x. x) i.now result }
{
    on_word!(b"BAD", i, Status::Bad);
    on_word!(b"BYE", i, Status::Bye);
    Err(Err::Error)
}

#[tactic(auto, unfolding(crate::specs::Statuses::preauth_word))]
fn preauth_word(i: &[u8]) -> IResult<&[u8], Status>
    ensures { StepsExactly rule.preauth_word (λ x. x) i.now result }
{
    let (rest, _) = word(b"PREAUTH", i)?;
    Ok((rest, Status::PreAuth))
}

// Of the words those are tried, in order, that may start with the first byte.
#[tactic(auto, using(crate::proofs::FirstBytes::arms))]
#[inline(always)]
fn status_word(i: &[u8]) -> IResult<&[u8], Status>
    ensures { StepsExactly rule.status (λ x. x) i.now result }
{
    match i.first() {
        None => Err(Err::Incomplete(Needed::Unknown)),
        Some(b'o' | b'O') => ok_word(i),
        Some(b'n' | b'N') => no_word(i),
        Some(b'b' | b'B') => bad_or_bye(i),
        Some(b'p' | b'P') => preauth_word(i),
        Some(_) => Err(Err::Error),
    }
}

/// A status word in any case (RFC 3501, section 9: resp-cond-state, resp-cond-auth, resp-cond-bye). No memory.
///
/// Any other word is `Error`.
#[tactic(auto, using(imap_grammar::proofs::Agreement::exact_answer, imap_grammar::proofs::Memory::exactly_never))]
#[inline(always)]
pub fn status(i: &[u8]) -> IResult<&[u8], Status>
    ensures steps { StepsExactly rule.status (λ x. x) i.now result }
    ensures answer { Answers rule.status (λ x. x) i.now result }
    ensures no_failure { NeverFails result }
{
    status_word(i)
}
