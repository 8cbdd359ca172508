//! Response codes.

ghost use Rattle.imap_data.specs.Codes.{CodeValue, code_value};
ghost use Rattle.imap_json.specs.Codes.{code_json};

use crate::forms::{ToJson, variant};
use crate::output::Output;
use imap_data::ResponseCode;
use std::alloc::AllocError;

impl<'a> ToJson for ResponseCode<'a> {
    ghost meaning = { CodeValue };

    ghost said = { code_value };

    ghost json = { code_json };

    fn write(&self, out: &mut Output) -> Result<(), AllocError> {
        match self {
            ResponseCode::Alert => out.string("Alert"),
            ResponseCode::BadCharset(charsets) => variant(out, "BadCharset", charsets),
            ResponseCode::Capabilities(capabilities) => variant(out, "Capabilities", capabilities),
            ResponseCode::HighestModSeq(n) => variant(out, "HighestModSeq", n),
            ResponseCode::Parse => out.string("Parse"),
            ResponseCode::PermanentFlags(flags) => variant(out, "PermanentFlags", flags),
            ResponseCode::ReadOnly => out.string("ReadOnly"),
            ResponseCode::ReadWrite => out.string("ReadWrite"),
            ResponseCode::TryCreate => out.string("TryCreate"),
            ResponseCode::UidNext(uid) => variant(out, "UidNext", uid),
            ResponseCode::UidValidity(n) => variant(out, "UidValidity", n),
            ResponseCode::Unseen(number) => variant(out, "Unseen", number),
            ResponseCode::AppendUid(n, uids) => variant(out, "AppendUid", &(*n, uids)),
            ResponseCode::CopyUid(n, from, to) => variant(out, "CopyUid", &(*n, from, to)),
            ResponseCode::UidNotSticky => out.string("UidNotSticky"),
            ResponseCode::MetadataLongEntries(n) => variant(out, "MetadataLongEntries", n),
            ResponseCode::MetadataMaxSize(n) => variant(out, "MetadataMaxSize", n),
            ResponseCode::MetadataTooMany => out.string("MetadataTooMany"),
            ResponseCode::MetadataNoPrivate => out.string("MetadataNoPrivate"),
        }
    }
}
