//! Structures of bodies.

ghost use Rattle.imap_grammar.specs.Answer.{Answers, Steps};
ghost use Rattle.imap_grammar.specs.Text.{text_of};
ghost use Rattle.imap_envelopes.specs.Reading.{Reads};
ghost use Rattle.imap_bodystructure.specs.Bodies as bodies;
ghost use Rattle.imap_body_types.specs.BodyValues.{body_seen, boxed_seen};
ghost use Rattle.imap_body_types.specs.Spans.{bytes_of};

use crate::at;
use crate::at::bodies::BoxedBody;
use imap_body_types::BodyStructure;
use imap_bytes::IResult;
use imap_bytes::at::Reached;
use imap_bytes::at::span::rest;
use imap_envelopes::{Input, Keep, Values};
use std::alloc::Global;

// With any keeper: the borrow checker takes no input whose keeper borrows.
fn kept_structure<K: Keep>(
    alloc: Global,
    message: &[u8],
    keep: K,
) -> Reached<BoxedBody<K::Text, K::Bytes>>
    requires { K.serves keep message.now }
    ensures { Reads bodies.body_structure (λ n. boxed_seen (K.text_said n) (K.bytes_said n)) message.now 0 result }
{
    let input = Input {
        alloc,
        message,
        keep,
    };
    at::bodies::body_structure(&input, 0)
}

/// The structure of a body: a text, a message, another single part, or several parts (RFC 3501, section 9: body).
///
/// A body inside `MAX_BODY_DEPTH` others is `Error`. It takes memory for the tree, and for texts that are not UTF-8.
#[tactic(auto, using(imap_grammar::proofs::Agreement::answered))]
pub fn body_structure(alloc: Global, i: &[u8]) -> IResult<&[u8], BodyStructure<'_>>
    ensures steps { Steps bodies.body_structure (body_seen text_of bytes_of) i.now result }
    ensures answer { Answers bodies.body_structure (body_seen text_of bytes_of) i.now result }
{
    let (q, body) = kept_structure(alloc, i, Values { alloc, message: i })?;
    Ok((rest(i, q), Box::into_inner(body)))
}
