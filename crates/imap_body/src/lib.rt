//! What a server tells of a message: attributes, their readers and laws; re-exports sections, envelopes, body
//! structures and part search.
#![tactic(auto)]

pub mod at;
mod attributes;
mod keep;
pub mod laws;
mod maps;
mod owned;
pub mod readers;
pub mod spanned;
mod spanned_attribute;
mod unescaped;
mod values;

pub use attributes::{AttributeKept, AttributeParts, AttributeSpans, AttributeValue};
pub use imap_body_types::{
    Address, BodyContentCommon, BodyContentSinglePart, BodyExt1Part, BodyExtMPart, BodyExtension,
    BodyFields, BodyParams, BodyStructure, ContentDisposition, ContentEncoding, ContentType,
    Envelope, shapes, spans,
};
pub use imap_bodystructure::{MAX_BODY_DEPTH, MAX_EXTENSION_DEPTH};
pub use imap_sections::{
    BodyStructParser, MessageSection, PartsError, SectionPath, search, section, section_msgtext,
    section_part,
};
pub use owned::owned_attributes;
pub use readers::attributes::msg_att_body_section;
