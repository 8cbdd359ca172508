//! Which part of a message to fetch.

ghost use Rattle.std.specs.Prelude.{◌≡◌, true, IfOk, IfErr};
ghost use Rattle.std.specs.Option.{option_map};
ghost use Rattle.imap_grammar.specs.Text.{text_of};
ghost use Rattle.imap_body_types.specs.Spans.{bytes_of};
ghost use Rattle.imap_body_types.specs.BodyValues.{body_seen};
ghost use Rattle.imap_sections.specs.Search.{too_many};
ghost use Rattle.imap_sections.specs.declared.search.PartsError.TheVariants.{TooManyParts};
ghost use Rattle.imap_uses.specs.Parts.{is_text, IsFirstText};

use imap_proto::BodyStructure;
use imap_proto::bodystructure::{BodyStructParser, PartsError};
use std::alloc::Global;

fn is_text(body: &BodyStructure<'_>) -> bool
    ensures { result ≡ is_text (body_seen text_of bytes_of body.now) }
{
    matches!(body, BodyStructure::Text { .. })
}

/// The path of part numbers to the first text in a body (RFC 3501, section 6.4.5), and `None` where there is none. It
/// takes memory; `OutOfMemory`, `TooManyParts` as `BodyStructParser::new`.
pub fn first_text(alloc: Global, body: &BodyStructure<'_>) -> Result<Option<Vec<u32>>, PartsError>
    ensures first { IfOk result (λ path.
        IsFirstText (body_seen text_of bytes_of body.now) (option_map (λ v. v.items) path)) }
    ensures many { IfErr result (λ e.
        e ≡ TooManyParts → too_many (body_seen text_of bytes_of body.now) ≡ true) }
{
    let parts = BodyStructParser::new(alloc, body)?;
    let path = parts.search(|part| is_text(part))?;
    Ok(path)
}
