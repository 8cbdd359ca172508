//! Extension data of bodies.

ghost use Rattle.imap_grammar.specs.Answer.{Answers, Steps};
ghost use Rattle.imap_grammar.specs.Text.{text_of};
ghost use Rattle.imap_envelopes.specs.Reading.{Reads};
ghost use Rattle.imap_bodystructure.specs.Extensions as extensions;
ghost use Rattle.imap_body_types.specs.ExtensionValues.{extension_seen};

use crate::at;
use imap_body_types::{BodyExtension, shapes};
use imap_bytes::IResult;
use imap_bytes::at::Reached;
use imap_bytes::at::span::rest;
use imap_envelopes::{Input, Keep, Values};
use std::alloc::Global;

// With any keeper: the borrow checker takes no input whose keeper borrows.
fn kept_extension<K: Keep>(
    alloc: Global,
    message: &[u8],
    keep: K,
) -> Reached<shapes::extensions::BodyExtension<K::Text>>
    requires { K.serves keep message.now }
    ensures { Reads extensions.body_extension (λ n. extension_seen (K.text_said n)) message.now 0 result }
{
    let input = Input {
        alloc,
        message,
        keep,
    };
    at::extensions::body_extension(&input, 0)
}

/// A number, an nstring, or a list of such (RFC 3501, section 9: body-extension).
///
/// A list inside `MAX_EXTENSION_DEPTH` others is `Error`. It takes memory for lists, and for texts that are not UTF-8.
#[tactic(auto, using(imap_grammar::proofs::Agreement::answered))]
pub fn body_extension(alloc: Global, i: &[u8]) -> IResult<&[u8], BodyExtension<'_>>
    ensures steps { Steps extensions.body_extension (extension_seen text_of) i.now result }
    ensures answer { Answers extensions.body_extension (extension_seen text_of) i.now result }
{
    let (q, extension) = kept_extension(alloc, i, Values { alloc, message: i })?;
    Ok((rest(i, q), extension))
}
