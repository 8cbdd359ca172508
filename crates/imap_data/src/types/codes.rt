//! Response codes.

ghost use Rattle.std.specs.Prelude.{◌≡◌, None, map, option_map, IfOk, IsOk};
ghost use Rattle.imap_grammar.specs.Text.{text_of, owned_text as owned};
ghost use Rattle.imap_data.specs.Codes.{code_value};
ghost use Rattle.imap_data.specs.Owned.{owned_code, HoldsNoTexts};

use imap_shared::owned::{owned_capabilities, owned_texts};
use imap_shared::{Capability, UidSetMember};
use std::alloc::{AllocError, Global};
use std::borrow::CowStr;

/// A code in a response (RFC 3501, section 7.1, and the extensions named below).
#[derive(Debug, Drop, PartialEq, Eq)]
pub enum ResponseCode<'a> {
    /// `ALERT`
    Alert,
    /// `BADCHARSET`, with the charsets that are supported, if they are listed.
    BadCharset(Option<Vec<CowStr<'a>>>),
    /// `CAPABILITY`
    Capabilities(Vec<Capability<'a>>),
    /// `HIGHESTMODSEQ`: the highest of the messages' modification sequences (RFC 4551, section 3.1.1).
    HighestModSeq(u64),
    /// `PARSE`
    Parse,
    /// `PERMANENTFLAGS`: the flags that a client can change for good; `\*`: it may make new keywords (RFC 3501, section
    /// 7.1).
    PermanentFlags(Vec<CowStr<'a>>),
    /// `READ-ONLY`
    ReadOnly,
    /// `READ-WRITE`
    ReadWrite,
    /// `TRYCREATE`
    TryCreate,
    /// `UIDNEXT`: the least UID that the next message can have.
    UidNext(u32),
    /// `UIDVALIDITY`: while it stays, UIDs stay valid.
    UidValidity(u32),
    /// `UNSEEN`: the number of the first message that is not seen.
    Unseen(u32),
    /// `APPENDUID`: a UIDVALIDITY and the UIDs there (RFC 4315, section 3).
    AppendUid(u32, Vec<UidSetMember>),
    /// `COPYUID`: a UIDVALIDITY, the UIDs of the source and those of the copies (RFC 4315, section 3).
    CopyUid(u32, Vec<UidSetMember>, Vec<UidSetMember>),
    /// `UIDNOTSTICKY` (RFC 4315, section 3)
    UidNotSticky,
    /// `METADATA LONGENTRIES`: the size of the longest value that was over the limit (RFC 5464, section 4.2.1).
    MetadataLongEntries(u64),
    /// `METADATA MAXSIZE`: the size that a value may have at most (RFC 5464, section 4.3).
    MetadataMaxSize(u64),
    /// `METADATA TOOMANY` (RFC 5464, section 4.3)
    MetadataTooMany,
    /// `METADATA NOPRIVATE` (RFC 5464, section 4.3)
    MetadataNoPrivate,
}

fn owned_charsets(
    alloc: Global,
    charsets: Option<Vec<CowStr<'_>>>,
) -> Result<Option<Vec<CowStr<'static>>>, AllocError>
    ensures same { IfOk result (λ c.
        option_map (λ v. map text_of v.items) c
        ≡ option_map (map owned) (option_map (λ v. map text_of v.items) charsets.entry)) }
    ensures memory { charsets.entry ≡ None → IsOk result }
{
    Ok(match charsets {
        None => None,
        Some(charsets) => Some(owned_texts(alloc, charsets)?),
    })
}

impl<'a> ResponseCode<'a> {
    /// The same code with all texts owned. It takes memory only for lists of texts and of capabilities, and for the
    /// borrowed texts in them; `Err`: memory ran out.
    pub fn into_owned(self, alloc: Global) -> Result<ResponseCode<'static>, AllocError>
        ensures same { IfOk result (λ c. code_value c ≡ owned_code (code_value self.entry)) }
        ensures memory { HoldsNoTexts (code_value self.entry) → IsOk result }
    {
        Ok(match self {
            ResponseCode::Alert => ResponseCode::Alert,
            ResponseCode::BadCharset(charsets) => {
                ResponseCode::BadCharset(owned_charsets(alloc, charsets)?)
            }
            ResponseCode::Capabilities(capabilities) => {
                ResponseCode::Capabilities(owned_capabilities(alloc, capabilities)?)
            }
            ResponseCode::HighestModSeq(n) => ResponseCode::HighestModSeq(n),
            ResponseCode::Parse => ResponseCode::Parse,
            ResponseCode::PermanentFlags(flags) => {
                ResponseCode::PermanentFlags(owned_texts(alloc, flags)?)
            }
            ResponseCode::ReadOnly => ResponseCode::ReadOnly,
            ResponseCode::ReadWrite => ResponseCode::ReadWrite,
            ResponseCode::TryCreate => ResponseCode::TryCreate,
            ResponseCode::UidNext(uid) => ResponseCode::UidNext(uid),
            ResponseCode::UidValidity(n) => ResponseCode::UidValidity(n),
            ResponseCode::Unseen(number) => ResponseCode::Unseen(number),
            ResponseCode::AppendUid(n, uids) => ResponseCode::AppendUid(n, uids),
            ResponseCode::CopyUid(n, from, to) => ResponseCode::CopyUid(n, from, to),
            ResponseCode::UidNotSticky => ResponseCode::UidNotSticky,
            ResponseCode::MetadataLongEntries(n) => ResponseCode::MetadataLongEntries(n),
            ResponseCode::MetadataMaxSize(n) => ResponseCode::MetadataMaxSize(n),
            ResponseCode::MetadataTooMany => ResponseCode::MetadataTooMany,
            ResponseCode::MetadataNoPrivate => ResponseCode::MetadataNoPrivate,
        })
    }
}
