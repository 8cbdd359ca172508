//! Rights, as letters.

ghost use Rattle.std.specs.Prelude.{◌≡◌, IfOk};
ghost use Rattle.imap_grammar.specs.Answer.{Answers, Steps};
ghost use Rattle.imap_grammar.specs.Memory.{StartsWith, FailsOnlyIf};
ghost use Rattle.imap_shared.specs.Rights as rule;
ghost use Rattle.imap_shared.specs.Rights.{rights_of};

use crate::types::rights::AclRight;
use imap_bytes::{IResult, astring_utf8};
use std::alloc::{AllocError, Global};

fn rights_in(alloc: Global, text: &str) -> Result<Vec<AclRight>, AllocError>
    ensures { IfOk result (λ v. v.items ≡ rights_of text.now) }
{
    text.chars().map(AclRight::from).collect(alloc)
}

/// The rights that the characters of an astring name, in order (RFC 4314, section 7: rights).
///
/// What is no astring is `Error`; each character is a right. It takes memory for them, and for a text that is not
/// UTF-8, and only where there is an astring.
#[tactic(auto, using(imap_grammar::proofs::Agreement::answered), unfolding(crate::specs::Rights::rights))]
pub fn rights(alloc: Global, i: &[u8]) -> IResult<&[u8], Vec<AclRight>>
    ensures steps { Steps rule.rights (λ x. x.items) i.now result }
    ensures answer { Answers rule.rights (λ x. x.items) i.now result }
    ensures memory { FailsOnlyIf (StartsWith rule.rights i.now) result }
{
    let (rest, text) = astring_utf8(alloc, i)?;
    let found = rights_in(alloc, text.as_str())?;
    Ok((rest, found))
}
