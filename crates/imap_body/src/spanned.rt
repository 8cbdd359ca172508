//! Attributes of a message as positions in it: they keep no bytes, and tell their values of any message that has
//! bytes in these places.

ghost use Rattle.std.specs.Prelude.{◌≤◌, ◌+◌, length, drop, map, All, IfOk};
ghost use Rattle.imap_grammar.specs.Memory.{BeginsWord, FailsOnlyIf};
ghost use Rattle.imap_grammar.specs.Positions.{AnswersAt, Ahead, StepsAt};
ghost use Rattle.imap_body.specs.SpannedAttributes.{attribute_in, InFront, InTurn, WithinItsSpan};
ghost use Rattle.imap_body.specs.Attributes as rules;

use crate::at::lists::kept_list;
pub use crate::spanned_attribute::SpannedAttribute;
use imap_bytes::at::Reached;
use imap_envelopes::Positions;
use std::alloc::Global;

/// The attributes of a message in parentheses (RFC 3501, section 9: msg-att), each as its positions in m. All positions
/// of an attribute lie in its span.
///
/// An empty list, or one that has no `)` where its attributes end, is `Error`. It takes memory only
/// behind `(`, for the list, and for the lists, envelopes and body structures in it; for no text.
pub fn attribute_list_at(alloc: Global, m: &[u8], p: usize) -> Reached<Vec<SpannedAttribute>>
    requires { p ≤ length m.now }
    ensures steps { StepsAt rules.attribute_list (λ x. map (attribute_in m.now) x.items) m.now p
        result }
    ensures answer { AnswersAt rules.attribute_list (λ x. map (attribute_in m.now) x.items) m.now p
        result }
    ensures ahead { Ahead m.now p result }
    ensures rests { InFront (λ n x. map (attribute_in n) x.items) result }
    ensures spans { IfOk result (λ x. InTurn m.now (p + 1) x.0 x.1.items) }
    ensures inside { IfOk result (λ x. All WithinItsSpan x.1.items) }
    ensures memory { FailsOnlyIf (BeginsWord "(" (drop p m.now)) result }
{
    kept_list(&Positions, alloc, m, p)
}
