//! Changes of texts and of body structures.

ghost use Rattle.std.specs.Prelude.{◌≡◌, IfOk};
ghost use Rattle.imap_grammar.specs.Text.{Text};
ghost use Rattle.imap_body_types.specs.BodyValues.{BodyValue};

use std::alloc::AllocError;

/// What makes another text of a text. It may take memory, and fails for want of it alone.
pub trait Change<X> {
    /// What a new text is.
    type To: Drop;

    /// What the new text is to say.
    ghost before: { Self → X → Text };

    /// What a new text says.
    ghost after: { Self.To → Text };

    /// The new text of x. It may take memory; `Err`: memory ran out.
    fn change(&self, x: &X) -> Result<Self::To, AllocError>
        ensures { IfOk result (λ y. after y ≡ before self.now x.now) };
}

/// What makes another body structure of one. It may take memory, and fails for want of it alone.
pub trait BodyChange<Y> {
    /// What a new body is.
    type To: Drop;

    /// What the new body is to say.
    ghost before: { Self → Y → BodyValue };

    /// What a new body says.
    ghost after: { Self.To → BodyValue };

    /// The new body of this one. It may take memory; `Err`: memory ran out.
    fn change_body(&self, body: &Y) -> Result<Self::To, AllocError>
        ensures { IfOk result (λ b. after b ≡ before self.now body.now) };
}
