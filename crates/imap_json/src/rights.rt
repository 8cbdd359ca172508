//! Rights.

ghost use Rattle.imap_shared.specs.declared.types.rights.AclRight.{AclRight as RightSeen};
ghost use Rattle.imap_json.specs.Rights.{right_json};

use crate::forms::{ToJson, variant};
use crate::output::Output;
use imap_shared::AclRight;
use std::alloc::AllocError;

impl ToJson for AclRight {
    ghost meaning = { RightSeen };

    ghost said = { λ right. right };

    ghost json = { right_json };

    fn write(&self, out: &mut Output) -> Result<(), AllocError> {
        match self {
            AclRight::Lookup => out.string("Lookup"),
            AclRight::Read => out.string("Read"),
            AclRight::Seen => out.string("Seen"),
            AclRight::Write => out.string("Write"),
            AclRight::Insert => out.string("Insert"),
            AclRight::Post => out.string("Post"),
            AclRight::CreateMailbox => out.string("CreateMailbox"),
            AclRight::DeleteMailbox => out.string("DeleteMailbox"),
            AclRight::DeleteMessage => out.string("DeleteMessage"),
            AclRight::Expunge => out.string("Expunge"),
            AclRight::Administer => out.string("Administer"),
            AclRight::Annotation => out.string("Annotation"),
            AclRight::OldCreate => out.string("OldCreate"),
            AclRight::OldDelete => out.string("OldDelete"),
            AclRight::Custom(letter) => variant(out, "Custom", letter),
        }
    }
}
