//! Laws of the types of this crate, as contracts of functions that do nothing.

ghost use Rattle.imap_grammar.specs.Equality.{Tells};
ghost use Rattle.imap_grammar.specs.Copying.{CopiesFreely};

use crate::answer::{Err, Needed};
use crate::at::span::Span;
use crate::lists::Separator;

/// `==` tells whether two values are the same.
pub fn equality()
    ensures needed { Tells ⟦<Needed as PartialEq>⟧.eq (λ x. x) }
    ensures err { Tells ⟦<Err as PartialEq>⟧.eq (λ x. x) }
    ensures separator { Tells ⟦<Separator as PartialEq>⟧.eq (λ x. x) }
    ensures span { Tells ⟦<Span as PartialEq>⟧.eq (λ x. x) }
{}

/// A clone takes no memory, and is the same value.
pub fn cloning()
    ensures needed { CopiesFreely ⟦<Needed as Clone>⟧.is_infallible ⟦<Needed as Clone>⟧.is_clone }
    ensures err { CopiesFreely ⟦<Err as Clone>⟧.is_infallible ⟦<Err as Clone>⟧.is_clone }
    ensures separator { CopiesFreely ⟦<Separator as Clone>⟧.is_infallible
        ⟦<Separator as Clone>⟧.is_clone }
    ensures span { CopiesFreely ⟦<Span as Clone>⟧.is_infallible ⟦<Span as Clone>⟧.is_clone }
{}
