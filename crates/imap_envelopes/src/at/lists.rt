//! A list's first element, with room for a few more.

ghost use Rattle.std.specs.Prelude.{◌≡◌, ◌∷◌, [], IfOk};

use std::alloc::{AllocError, Global};

// How many elements a list gets room for, so that one of a few does not grow.
pub(crate) const ROOM: usize = 4;

/// A list of one. It takes memory; `Err`: memory ran out.
pub fn list_of_one<T: Drop>(alloc: Global, first: T) -> Result<Vec<T>, AllocError>
    ensures { IfOk result (λ v. v.items ≡ first ∷ []) }
{
    let mut items = Vec::with_capacity(alloc, ROOM)?;
    items.push_reserved(first);
    Ok(items)
}
