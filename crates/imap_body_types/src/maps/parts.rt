//! Maps of texts that may be missing, and of lists of texts.

ghost use Rattle.std.specs.Prelude.{◌≡◌, None, IfOk, IsOk, map};
ghost use Rattle.std.specs.Option.{option_map};
ghost use Rattle.imap_body_types.specs.ExtensionValues.{languages_seen};

use super::change::Change;
use std::alloc::{AllocError, Global};

/// A text that may be missing, changed. It takes memory only where c does; `Err`: memory ran out.
pub fn mapped_optional_text<X, C: Change<X>>(
    c: &C,
    text: &Option<X>,
) -> Result<Option<C::To>, AllocError>
    ensures changed { IfOk result (λ t.
        option_map C.after t ≡ option_map (C.before c.now) text.now) }
    ensures memory { text.now ≡ None → IsOk result }
{
    match text {
        None => Ok(None),
        Some(text) => Ok(Some(c.change(text)?)),
    }
}

/// A list of texts, each of them changed. It takes memory for the list, and where c does; `Err`: memory ran out.
pub fn mapped_texts<X, C: Change<X>>(
    alloc: Global,
    c: &C,
    texts: &Vec<X>,
) -> Result<Vec<C::To>, AllocError>
    ensures { IfOk result (λ v. map C.after v.items ≡ map (C.before c.now) texts.now.items) }
{
    let mut mapped = Vec::with_capacity(alloc, texts.len())?;
    for text in texts {
        mapped.reserve(1)?;
        mapped.push_reserved(c.change(text)?);
    }
    Ok(mapped)
}

pub(crate) fn mapped_optional_texts<X, C: Change<X>>(
    alloc: Global,
    c: &C,
    texts: &Option<Vec<X>>,
) -> Result<Option<Vec<C::To>>, AllocError>
    ensures { IfOk result (λ t.
        languages_seen C.after t ≡ languages_seen (C.before c.now) texts.now) }
{
    match texts {
        None => Ok(None),
        Some(texts) => Ok(Some(mapped_texts(alloc, c, texts)?)),
    }
}
