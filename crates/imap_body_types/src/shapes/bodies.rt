//! Body structures.

ghost use Rattle.std.specs.Prelude.{◌≡◌};
ghost use Rattle.imap_grammar.specs.Text.{Text};
ghost use Rattle.imap_body_types.specs.BodyValues.{body_seen, common_of, common_seen, type_seen};

use super::envelopes::Envelope;
use super::extensions::{BodyExtension, ContentDisposition};
use super::fields::{BodyParams, ContentEncoding};

/// The type of a body's content (RFC 3501, section 9: media-basic, media-message, media-text).
#[derive(Debug, Drop, PartialEq, Eq)]
pub struct ContentType<S> {
    /// The media type: `TEXT`, `MESSAGE` or `MULTIPART` for a body of that kind, and for `Basic` as the server wrote
    /// it.
    pub ty: S,
    /// The subtype, as `PLAIN`; for a message it is `RFC822`.
    pub subtype: S,
    /// The parameters, as `CHARSET`; `None` where they are `NIL` or not told.
    pub params: BodyParams<S>,
}

/// What every body says of its content (RFC 3501, section 7.4.2: BODYSTRUCTURE).
#[derive(Debug, Drop, PartialEq, Eq)]
pub struct BodyContentCommon<S> {
    /// The type of the content.
    pub ty: ContentType<S>,
    /// How it is to be shown, if the server says so.
    pub disposition: Option<ContentDisposition<S>>,
    /// The languages; `None` where they are `NIL` or not told.
    pub language: Option<Vec<S>>,
    /// Where the content is, if the server says so.
    pub location: Option<S>,
}

/// What a single part says beyond `BodyContentCommon` (RFC 3501, section 7.4.2: BODYSTRUCTURE).
#[derive(Debug, Drop, PartialEq, Eq)]
pub struct BodyContentSinglePart<S> {
    /// The content's id; `None` is `NIL`.
    pub id: Option<S>,
    /// The content's MD5 in base64, if the server says so.
    pub md5: Option<S>,
    /// The description, encoded words and all; `None` is `NIL`.
    pub description: Option<S>,
    /// How the content is encoded.
    pub transfer_encoding: ContentEncoding<S>,
    /// How many bytes the content has, as it is encoded.
    pub octets: u32,
}

/// The structure of a body (RFC 3501, section 9: body). Its texts are raw: backslashes of a quoted string stay.
#[derive(Debug, Drop, PartialEq, Eq)]
pub enum BodyStructure<S, B> {
    /// A single part that reads neither as a text nor as a message: of another type, or of one of theirs without what
    /// their rule asks (RFC 3501, section 9: body-type-basic).
    Basic {
        /// What every body says.
        common: BodyContentCommon<S>,
        /// What a single part says.
        other: BodyContentSinglePart<S>,
        /// Extension data that later versions may define, if there is any.
        extension: Option<BodyExtension<S>>,
    },
    /// A text (RFC 3501, section 9: body-type-text).
    Text {
        /// What every body says.
        common: BodyContentCommon<S>,
        /// What a single part says.
        other: BodyContentSinglePart<S>,
        /// How many lines the content has.
        lines: u32,
        /// Extension data that later versions may define, if there is any.
        extension: Option<BodyExtension<S>>,
    },
    /// A message (RFC 3501, section 9: body-type-msg).
    Message {
        /// What every body says.
        common: BodyContentCommon<S>,
        /// What a single part says.
        other: BodyContentSinglePart<S>,
        /// The envelope of the message.
        envelope: Envelope<B>,
        /// The body of the message.
        body: Box<BodyStructure<S, B>>,
        /// How many lines the content has.
        lines: u32,
        /// Extension data that later versions may define, if there is any.
        extension: Option<BodyExtension<S>>,
    },
    /// Several parts (RFC 3501, section 9: body-type-mpart).
    Multipart {
        /// What every body says.
        common: BodyContentCommon<S>,
        /// The parts, in order; there is at least one.
        bodies: Vec<BodyStructure<S, B>>,
        /// Extension data that later versions may define, if there is any.
        extension: Option<BodyExtension<S>>,
    },
}

impl<S, B> BodyStructure<S, B> {
    /// What every body says, whichever kind it is of: of a message that of the part, not of the body inside. No memory.
    pub fn common(&self) -> &BodyContentCommon<S>
        ensures { (f : S → Text) (g : B → Text) →
            common_of (body_seen f g self.now) ≡ common_seen f result.now }
    {
        match self {
            BodyStructure::Basic { common, .. }
            | BodyStructure::Text { common, .. }
            | BodyStructure::Message { common, .. }
            | BodyStructure::Multipart { common, .. } => common,
        }
    }

    /// The type of its content, whichever kind it is of (RFC 3501, section 7.4.2: BODYSTRUCTURE). No memory.
    pub fn content_type(&self) -> &ContentType<S>
        ensures { (f : S → Text) (g : B → Text) →
            (common_of (body_seen f g self.now)).ty ≡ type_seen f result.now }
    {
        &self.common().ty
    }
}
