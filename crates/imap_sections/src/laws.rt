//! Laws of part search, as contracts of functions that do nothing.

ghost use Rattle.std.specs.Prelude.{ℕ, ◌≡◌, ◌↔◌, List, [], Some, true};
ghost use Rattle.std.specs.List.{Contains, AllPairs};
ghost use Rattle.imap_grammar.specs.Equality.{Tells};
ghost use Rattle.imap_grammar.specs.Copying.{CopiesFreely};
ghost use Rattle.imap_body_types.specs.BodyValues.{BodyValue};
ghost use Rattle.imap_sections.specs.Search.{visited, is_crowded, too_many};
ghost use Rattle.imap_sections.specs.PartNumbers.{body_at, IsBefore, HasTooManyParts, SomeHasTooMany};

use crate::search::PartsError;

/// `==` answers whether both are the same.
pub fn equality()
    ensures parts_error { Tells ⟦<PartsError as PartialEq>⟧.eq (λ x. x) }
{}

/// A clone takes no memory, and is the same value.
pub fn cloning()
    ensures parts_error { CopiesFreely ⟦<PartsError as Clone>⟧.is_infallible
        ⟦<PartsError as Clone>⟧.is_clone }
{}

/// Part search goes over the body at each path, and over no other, in the paths' order (RFC 3501, section 6.4.5: part
/// numbers). There are too many parts exactly where a body at some path has 2^32 body parts or more.
pub fn part_numbers()
    ensures visited { (root body : BodyValue) (path : List ℕ) →
        (Contains (visited [] root) (path, body)) ↔ (body_at path root ≡ Some body) }
    ensures order { (root : BodyValue) → AllPairs (λ v w. IsBefore v.0 w.0) (visited [] root) }
    ensures is_crowded { (body : BodyValue) → (is_crowded body ≡ true) ↔ HasTooManyParts body }
    ensures too_many { (root : BodyValue) → (too_many root ≡ true) ↔ SomeHasTooMany root }
{}
