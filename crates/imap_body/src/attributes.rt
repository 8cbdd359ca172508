//! What a server tells of a message.

use imap_body_types::BodyStructure;
use imap_body_types::shapes::bodies;
use imap_body_types::shapes::envelopes::Envelope;
use imap_body_types::spans::{Span, SpannedText};
use imap_sections::SectionPath;
use std::borrow::{CowSlice, CowStr};

/// An attribute of a message (RFC 3501, section 9: msg-att), generic in its texts, its byte strings and its body
/// structure.
#[derive(Debug, Drop, PartialEq, Eq)]
pub enum AttributeParts<S, B, Y> {
    /// `BODY[..]`: a section of the message's body, from an index on where there is one.
    BodySection {
        /// Which section; `None` where the brackets are empty.
        section: Option<SectionPath>,
        /// The index of its first byte, where one is told.
        index: Option<u32>,
        /// Its bytes; `None` for `NIL`.
        contents: Option<B>,
    },
    /// `BODYSTRUCTURE`
    BodyStructure(Y),
    /// `ENVELOPE`
    Envelope(Box<Envelope<B>>),
    /// `FLAGS`, each as it stands, backslash and all.
    Flags(Vec<S>),
    /// `INTERNALDATE`, as it stands.
    InternalDate(S),
    /// `MODSEQ` (RFC 7162, section 3.1.4).
    ModSeq(u64),
    /// `RFC822`; `None` is `NIL`.
    Rfc822(Option<B>),
    /// `RFC822.HEADER`; `None` is `NIL`.
    Rfc822Header(Option<B>),
    /// `RFC822.SIZE`
    Rfc822Size(u32),
    /// `RFC822.TEXT`; `None` is `NIL`.
    Rfc822Text(Option<B>),
    /// `UID`
    Uid(u32),
    /// `X-GM-LABELS` (Gmail's X-GM-EXT-1).
    GmailLabels(Vec<S>),
    /// `X-GM-MSGID` (Gmail's X-GM-EXT-1).
    GmailMsgId(u64),
    /// `X-GM-THRID` (Gmail's X-GM-EXT-1).
    GmailThrId(u64),
    /// `EMAILID` (RFC 8474, section 5.1).
    EmailId(S),
    /// `THREADID` (RFC 8474, section 5.2); `None` is `NIL`.
    ThreadId(Option<S>),
    /// `SAVEDATE` (RFC 8514, section 4.1), as it stands; `None` is `NIL`.
    SaveDate(Option<S>),
    /// Any other, and one whose value its rule denies. What stands there is skipped.
    Unknown,
}

/// An attribute of a message (RFC 3501, section 9: msg-att).
pub type AttributeValue<'a> = AttributeParts<CowStr<'a>, CowSlice<'a, u8>, BodyStructure<'a>>;

/// An attribute as a reader keeps it, by what is kept of texts and of byte strings. Its body structure is boxed.
pub type AttributeKept<S, B> = AttributeParts<S, B, Box<bodies::BodyStructure<S, B>>>;

/// An attribute as spans of a message.
pub type AttributeSpans = AttributeKept<SpannedText, Span>;
