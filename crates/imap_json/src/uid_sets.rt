//! Sets of UIDs.

ghost use Rattle.imap_shared.specs.UidSets.{MemberValue, member_value};
ghost use Rattle.imap_json.specs.UidSets.{member_json};

use crate::forms::{ToJson, variant};
use crate::output::Output;
use imap_shared::UidSetMember;
use std::alloc::AllocError;

impl ToJson for UidSetMember {
    ghost meaning = { MemberValue };

    ghost said = { member_value };

    ghost json = { member_json };

    fn write(&self, out: &mut Output) -> Result<(), AllocError> {
        match self {
            UidSetMember::UidRange(range) => variant(out, "UidRange", range),
            UidSetMember::Uid(uid) => variant(out, "Uid", uid),
        }
    }
}
