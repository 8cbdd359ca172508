//! Capabilities.

ghost use Rattle.std.specs.Prelude.{◌≡◌, IfOk, IsOk};
ghost use Rattle.imap_shared.specs.Capabilities.{capability_value};
ghost use Rattle.imap_shared.specs.Owned.{owned_capability, IsOwnedCapability};

use crate::owned::owned_text;
use std::alloc::{AllocError, Global};
use std::borrow::CowStr;

/// A capability (RFC 3501, section 7.2.1).
#[derive(Debug, Drop, PartialEq, Eq, Hash)]
pub enum Capability<'a> {
    /// `IMAP4rev1`
    Imap4rev1,
    /// The mechanism that stands behind `AUTH=`.
    Auth(CowStr<'a>),
    /// Any other, as it stands; and each name of an `ENABLED` line, `IMAP4rev1` too.
    Atom(CowStr<'a>),
}

impl<'a> Capability<'a> {
    /// The same capability with its text owned. It takes memory only where that is borrowed; `Err`: memory ran out.
    pub fn into_owned(self, alloc: Global) -> Result<Capability<'static>, AllocError>
        ensures same { IfOk result (λ c.
            capability_value c ≡ owned_capability (capability_value self.entry)) }
        ensures memory { IsOwnedCapability (capability_value self.entry) → IsOk result }
    {
        Ok(match self {
            Capability::Imap4rev1 => Capability::Imap4rev1,
            Capability::Auth(mechanism) => Capability::Auth(owned_text(alloc, mechanism)?),
            Capability::Atom(name) => Capability::Atom(owned_text(alloc, name)?),
        })
    }
}
