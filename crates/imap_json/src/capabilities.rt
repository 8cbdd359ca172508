//! Capabilities.

ghost use Rattle.imap_shared.specs.Capabilities.{CapabilityValue, capability_value};
ghost use Rattle.imap_json.specs.Capabilities.{capability_json};

use crate::forms::{ToJson, variant};
use crate::output::Output;
use imap_shared::Capability;
use std::alloc::AllocError;

impl<'a> ToJson for Capability<'a> {
    ghost meaning = { CapabilityValue };

    ghost said = { capability_value };

    ghost json = { capability_json };

    fn write(&self, out: &mut Output) -> Result<(), AllocError> {
        match self {
            Capability::Imap4rev1 => out.string("Imap4rev1"),
            Capability::Auth(mechanism) => variant(out, "Auth", mechanism),
            Capability::Atom(name) => variant(out, "Atom", name),
        }
    }
}
