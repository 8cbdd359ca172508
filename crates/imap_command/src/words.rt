//! The words for what a FETCH asks for.

ghost use Rattle.std.specs.Prelude.{◌≡◌};
ghost use Rattle.imap_command.specs.Words.{attribute_word, macro_word};

/// A group of attributes (RFC 3501, section 6.4.5).
#[derive(Clone, Copy, Debug, PartialEq, Eq)]
pub enum AttrMacro {
    /// `ALL`: flags, internal date, size and envelope.
    All,
    /// `FAST`: flags, internal date and size.
    Fast,
    /// `FULL`: flags, internal date, size, envelope and body. `Response::parse` of `imap_proto`
    /// denies most answers to it, as to `Attribute::Body`.
    Full,
}

/// An attribute of a message: of RFC 3501, section 6.4.5, `ModSeq` of RFC 4551, section 3.3.2, and
/// three of Gmail's.
#[derive(Clone, Copy, Debug, PartialEq, Eq)]
pub enum Attribute {
    /// `BODY`: the structure of the body, without its extensions. `Response::parse` of `imap_proto`
    /// has no rule for that, and denies most lines that have it.
    Body,
    /// `ENVELOPE`: the parsed header.
    Envelope,
    /// `FLAGS`.
    Flags,
    /// `INTERNALDATE`: when the server received the message.
    InternalDate,
    /// `MODSEQ`: the message's mod-sequence.
    ModSeq,
    /// `RFC822`: the whole message. The server sets `\Seen` by it; the builder has no PEEK.
    Rfc822,
    /// `RFC822.SIZE`: its size in bytes.
    Rfc822Size,
    /// `RFC822.TEXT`: its text, without the header. The server sets `\Seen` by it, too.
    Rfc822Text,
    /// `UID`: its unique identifier.
    Uid,
    /// `X-GM-LABELS`: its labels.
    GmailLabels,
    /// `X-GM-MSGID`: Gmail's number of the message.
    GmailMsgId,
    /// `X-GM-THRID`: Gmail's number of its thread.
    GmailThrId,
}

impl AttrMacro {
    pub(crate) fn word(self) -> &'static [u8]
        ensures { result.now ≡ macro_word self }
    {
        match self {
            AttrMacro::All => b"ALL",
            AttrMacro::Fast => b"FAST",
            AttrMacro::Full => b"FULL",
        }
    }
}

impl Attribute {
    pub(crate) fn word(self) -> &'static [u8]
        ensures { result.now ≡ attribute_word self }
    {
        match self {
            Attribute::Body => b"BODY",
            Attribute::Envelope => b"ENVELOPE",
            Attribute::Flags => b"FLAGS",
            Attribute::InternalDate => b"INTERNALDATE",
            Attribute::ModSeq => b"MODSEQ",
            Attribute::Rfc822 => b"RFC822",
            Attribute::Rfc822Size => b"RFC822.SIZE",
            Attribute::Rfc822Text => b"RFC822.TEXT",
            Attribute::Uid => b"UID",
            Attribute::GmailLabels => b"X-GM-LABELS",
            Attribute::GmailMsgId => b"X-GM-MSGID",
            Attribute::GmailThrId => b"X-GM-THRID",
        }
    }
}
