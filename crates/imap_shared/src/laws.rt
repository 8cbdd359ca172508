//! Laws of the types of this crate, as contracts of functions that do nothing. Those of its rules are in `imap_data`.

ghost use Rattle.std.specs.Prelude.{ℕ, ◌≡◌};
ghost use Rattle.imap_grammar.specs.Equality.{Tells, HashesAlike};
ghost use Rattle.imap_grammar.specs.Copying.{CopiesFreely};
ghost use Rattle.imap_shared.specs.Capabilities.{CapabilityValue, capability_content, lent_capability};
ghost use Rattle.imap_shared.specs.UidSets.{member_value};
ghost use Rattle.imap_shared.specs.declared.types.rights.AclRight.{AclRight as Right};
ghost use Rattle.imap_shared.specs.Rights.{right_of, letter_of, IsShadowed};
ghost use Rattle.imap_shared.specs.Owned.{owned_capability};

use crate::types::capabilities::Capability;
use crate::types::rights::AclRight;
use crate::types::statuses::Status;
use crate::types::uid_sets::UidSetMember;
use std::hash::Hash;

/// `==` tells whether two values say the same: texts by their bytes, whichever are borrowed.
#[tactic(auto, using(crate::proofs::Capabilities::capability_tells, crate::proofs::UidSets::member_tells))]
pub fn equality()
    ensures status { Tells ⟦<Status as PartialEq>⟧.eq (λ s. s) }
    ensures capability { Tells ⟦<Capability<'static> as PartialEq>⟧.eq capability_content }
    ensures uid_set_member { Tells ⟦<UidSetMember as PartialEq>⟧.eq member_value }
    ensures acl_right { Tells ⟦<AclRight as PartialEq>⟧.eq (λ x. x) }
{}

/// Values that say the same hash alike.
pub fn hashing()
    ensures capability { HashesAlike ⟦<Capability<'static> as Hash>⟧.hash_input capability_content }
    ensures acl_right { HashesAlike ⟦<AclRight as Hash>⟧.hash_input (λ x. x) }
{}

/// A clone of a status, of a UID set's member or of a right takes no memory, and is the same value.
pub fn cloning()
    ensures status { CopiesFreely ⟦<Status as Clone>⟧.is_infallible ⟦<Status as Clone>⟧.is_clone }
    ensures uid_set_member { CopiesFreely ⟦<UidSetMember as Clone>⟧.is_infallible
        ⟦<UidSetMember as Clone>⟧.is_clone }
    ensures acl_right { CopiesFreely ⟦<AclRight as Clone>⟧.is_infallible
        ⟦<AclRight as Clone>⟧.is_clone }
{}

/// An owned value says the same as the value that it was made from.
pub fn owning()
    ensures { (c : CapabilityValue) → lent_capability (owned_capability c) ≡ lent_capability c }
{}

/// The owned form of a value doesn't depend on which of its texts are borrowed.
pub fn lending()
    ensures { (c : CapabilityValue) → owned_capability (lent_capability c) ≡ owned_capability c }
{}

/// A letter's right has that letter, and a right's letter has that right, but for a `Custom` of a letter that has a
/// right of its own: the letter of such a one has another right.
pub fn conversions()
    ensures letters { (c : ℕ) → letter_of (right_of c) ≡ c }
    ensures rights { (right : Right) → ¬ (IsShadowed right) → right_of (letter_of right) ≡ right }
    ensures shadowed { (right : Right) → IsShadowed right → ¬ (right_of (letter_of right) ≡ right) }
{}
