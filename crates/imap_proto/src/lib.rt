//! IMAP responses: bytes that a server sent go in, typed responses that borrow from them come out.
//!
//! The modules `imap_core` (there `core`), `rfc..`, `bodystructure` and `builders` are those of the Rust crate
//! `imap-proto`: each re-exports what that module has. `stream`, `kept` and `laws` are this library's own.
#![tactic(auto)]

mod data;
mod fetched;
pub mod kept;
pub mod laws;
mod lines;
mod logical_lines;
mod outcome;
mod outcomes;
mod response;
pub mod stream;
mod whole;

pub use imap_body::{
    Address, AttributeValue, BodyContentCommon, BodyContentSinglePart, BodyExt1Part, BodyExtMPart,
    BodyExtension, BodyFields, BodyParams, BodyStructure, ContentDisposition, ContentEncoding,
    ContentType, Envelope, MessageSection, SectionPath,
};
pub use imap_bytes::{Err, IResult, Needed};
pub use imap_data::{
    Capability, MailboxDatum, MailboxListData, NameAttribute, ResponseCode, Status, StatusAttribute,
};
pub use outcome::Outcome;
pub use response::{ParseResult, RequestId, Response};

/// What readers answer, and the readers of bytes: classes, numbers, strings, texts and lists (the Rust crate's module
/// `core`).
pub mod imap_core {
    pub use imap_bytes::{
        Err, IResult, Needed, astring, astring_utf8, atom, is_astring_char, is_atom_char,
        is_atom_specials, is_char, is_list_wildcards, is_quoted_specials, is_resp_specials,
        is_text_char, literal, nil, nstring, nstring_utf8, number, number_64, opt_opt,
        paren_delimited, parenthesized_list, parenthesized_nonempty_list, quoted, quoted_utf8,
        sequence_range, sequence_set, string, string_utf8, text,
    };
}

/// RFC 3501: Internet Message Access Protocol, version 4rev1.
pub mod rfc3501 {
    pub use crate::outcome::Outcome;
    pub use crate::response::RequestId;
    pub use imap_body::{Address, AttributeValue, Envelope};
    pub use imap_data::{
        Capability, MailboxDatum, MailboxListData, NameAttribute, ResponseCode, Status,
        StatusAttribute,
    };

    /// Sections of a message.
    pub mod body {
        pub use imap_body::{
            MessageSection, SectionPath, msg_att_body_section, section, section_msgtext,
            section_part,
        };
    }

    /// Structures of bodies.
    pub mod body_structure {
        pub use imap_body::{
            BodyContentCommon, BodyContentSinglePart, BodyExt1Part, BodyExtMPart, BodyExtension,
            BodyFields, BodyParams, BodyStructure, ContentDisposition, ContentEncoding,
            ContentType, MAX_BODY_DEPTH, MAX_EXTENSION_DEPTH,
        };
    }
}

/// Part search in the structure of a body.
pub mod bodystructure {
    pub use imap_body::{BodyStructParser, PartsError};
}

/// RFC 2087: QUOTA.
pub mod rfc2087 {
    pub use imap_data::{Quota, QuotaResource, QuotaResourceName, QuotaRoot};
}

/// RFC 4314: ACL.
pub mod rfc4314 {
    pub use imap_data::{Acl, AclEntry, AclRight, ListRights, MyRights};
}

/// RFC 4315: UIDPLUS.
pub mod rfc4315 {
    pub use imap_data::UidSetMember;
}

/// RFC 5464: METADATA.
pub mod rfc5464 {
    pub use imap_data::Metadata;
}

/// Commands.
pub mod builders {
    pub use imap_command as command;
}
