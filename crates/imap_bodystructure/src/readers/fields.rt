//! Fields of bodies.

ghost use Rattle.imap_grammar.specs.Answer.{Answers, Steps};
ghost use Rattle.imap_grammar.specs.Text.{text_of};
ghost use Rattle.imap_envelopes.specs.Reading.{Reads};
ghost use Rattle.imap_bodystructure.specs.Fields as fields;
ghost use Rattle.imap_body_types.specs.FieldValues.{fields_seen};

use crate::at;
use imap_body_types::{BodyFields, shapes};
use imap_bytes::IResult;
use imap_bytes::at::Reached;
use imap_bytes::at::span::rest;
use imap_envelopes::{Input, Keep, Values};
use std::alloc::Global;

// With any keeper: the borrow checker takes no input whose keeper borrows.
fn kept_fields<K: Keep>(
    alloc: Global,
    message: &[u8],
    keep: K,
) -> Reached<shapes::fields::BodyFields<K::Text>>
    requires { K.serves keep message.now }
    ensures { Reads fields.body_fields (λ n. fields_seen (K.text_said n)) message.now 0 result }
{
    let input = Input {
        alloc,
        message,
        keep,
    };
    at::fields::body_fields(&input, 0)
}

/// The fields of a single part: parameters, id, description, encoding and octets (RFC 3501, section 9: body-fields).
///
/// A field that is missing, or that its rule denies, is `Error`. It takes memory for the parameters, and for texts that
/// are not UTF-8.
#[tactic(auto, using(imap_grammar::proofs::Agreement::answered))]
pub fn body_fields(alloc: Global, i: &[u8]) -> IResult<&[u8], BodyFields<'_>>
    ensures steps { Steps fields.body_fields (fields_seen text_of) i.now result }
    ensures answer { Answers fields.body_fields (fields_seen text_of) i.now result }
{
    let (q, fields) = kept_fields(alloc, i, Values { alloc, message: i })?;
    Ok((rest(i, q), fields))
}
