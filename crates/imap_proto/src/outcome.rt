//! Outcomes: the code and the text of a status line or a continuation.

ghost use Rattle.std.specs.Prelude.{◌≡◌, option_map, IfOk, IfSome, IsOk};
ghost use Rattle.imap_data.specs.Codes.{code_value};
ghost use Rattle.imap_data.specs.Owned.{owned_code as owned, HoldsNoTexts};
ghost use Rattle.imap_proto.specs.Responses.{outcome_value};
ghost use Rattle.imap_proto.specs.Owned.{owned_outcome, OutcomeIsMovedWhole};

use imap_data::ResponseCode;
use imap_shared::owned::owned_optional_text;
use std::alloc::{AllocError, Global};
use std::borrow::CowStr;

/// What a status line says besides its status (RFC 3501, section 7.1), and what a continuation says (section 7.5).
#[derive(Debug, Default, Drop, PartialEq, Eq)]
pub struct Outcome<'a> {
    /// The response code, if there is one.
    pub code: Option<ResponseCode<'a>>,
    /// The text for a person, if there is any. After a code its first character, mostly a space, is left out. A code
    /// that no rule reads stands in it, brackets and all.
    pub information: Option<CowStr<'a>>,
}

fn owned_code(
    alloc: Global,
    code: Option<ResponseCode<'_>>,
) -> Result<Option<ResponseCode<'static>>, AllocError>
    ensures same { IfOk result (λ c.
        option_map code_value c ≡ option_map owned (option_map code_value code.entry)) }
    ensures memory { IfSome (option_map code_value code.entry) HoldsNoTexts → IsOk result }
{
    Ok(match code {
        None => None,
        Some(code) => Some(code.into_owned(alloc)?),
    })
}

impl<'a> Outcome<'a> {
    /// The same outcome with all texts owned. It takes memory only for lists of texts and of capabilities, and for
    /// borrowed texts; `Err`: memory ran out.
    pub fn into_owned(self, alloc: Global) -> Result<Outcome<'static>, AllocError>
        ensures same { IfOk result (λ o.
            outcome_value o ≡ owned_outcome (outcome_value self.entry)) }
        ensures memory { OutcomeIsMovedWhole (outcome_value self.entry) → IsOk result }
    {
        Ok(Outcome {
            code: owned_code(alloc, self.code)?,
            information: owned_optional_text(alloc, self.information)?,
        })
    }
}
