//! Items of STATUS.

ghost use Rattle.imap_data.specs.declared.types.counts.StatusAttribute.{StatusAttribute as ItemSeen};
ghost use Rattle.imap_json.specs.Counts.{status_item_json};

use crate::forms::{ToJson, variant};
use crate::output::Output;
use imap_data::StatusAttribute;
use std::alloc::AllocError;

impl ToJson for StatusAttribute {
    ghost meaning = { ItemSeen };

    ghost said = { λ item. item };

    ghost json = { status_item_json };

    fn write(&self, out: &mut Output) -> Result<(), AllocError> {
        match self {
            StatusAttribute::HighestModSeq(n) => variant(out, "HighestModSeq", n),
            StatusAttribute::Messages(n) => variant(out, "Messages", n),
            StatusAttribute::Recent(n) => variant(out, "Recent", n),
            StatusAttribute::UidNext(n) => variant(out, "UidNext", n),
            StatusAttribute::UidValidity(n) => variant(out, "UidValidity", n),
            StatusAttribute::Unseen(n) => variant(out, "Unseen", n),
        }
    }
}
