//! Response codes.

ghost use Rattle.std.specs.Prelude.{◌⊎◌, map, IfOk};
ghost use Rattle.imap_grammar.specs.Answer.{Answers, Steps, StepsExactly};
ghost use Rattle.imap_grammar.specs.Memory.{BeginsWord, FailsOnlyIf};
ghost use Rattle.imap_grammar.specs.Text.{text_of};
ghost use Rattle.imap_data.specs.Codes as codes;
ghost use Rattle.imap_data.specs.Codes.{code_value, HasOrderedUids, BeginsListWord, BeginsListCode};

use crate::types::codes::ResponseCode;
use imap_bytes::lists::tried;
use imap_bytes::tags::{tag, word};
use imap_bytes::{
    Err, IResult, Needed, astring_utf8, first, number, number_64, on_word,
    parenthesized_nonempty_list,
};
use imap_shared::readers::capabilities::capability_data;
use imap_shared::readers::flags::flag_list;
use imap_shared::readers::uid_sets::uid_set;
use std::alloc::Global;
use std::borrow::CowStr;

fn charset_list(alloc: Global, i: &[u8]) -> IResult<&[u8], Vec<CowStr<'_>>>
    ensures { Steps codes.charset_list (λ x. map text_of x.items) i.now result }
{
    let charset = |i|
        ensures { Steps codes.charset text_of i.entry.now result }
    { astring_utf8(alloc, i) };
    parenthesized_nonempty_list(alloc, charset, i)
}

#[tactic(auto, unfolding(crate::specs::Codes::charsets))]
fn charsets(alloc: Global, i: &[u8]) -> IResult<&[u8], Vec<CowStr<'_>>>
    ensures steps { Steps codes.charsets (λ x. map text_of x.items) i.now result }
    ensures memory { FailsOnlyIf (BeginsWord " " i.now) result }
{
    let (rest, _) = tag(b" ", i)?;
    charset_list(alloc, rest)
}

#[tactic(auto, using(imap_grammar::proofs::Memory::word_never), unfolding(crate::specs::Codes::bad_charset))]
fn bad_charset(alloc: Global, i: &[u8]) -> IResult<&[u8], ResponseCode<'_>>
    ensures steps { Steps codes.bad_charset code_value i.now result }
    ensures memory { FailsOnlyIf (BeginsWord "BADCHARSET " i.now) result }
{
    let (rest, _) = word(b"BADCHARSET", i)?;
    match tried(charsets(alloc, rest))? {
        Some((rest, charsets)) => Ok((rest, ResponseCode::BadCharset(Some(charsets)))),
        None => Ok((rest, ResponseCode::BadCharset(None))),
    }
}

#[tactic(auto, unfolding(crate::specs::Codes::permanent_flags))]
fn permanent_flags(alloc: Global, i: &[u8]) -> IResult<&[u8], ResponseCode<'_>>
    ensures steps { Steps codes.permanent_flags code_value i.now result }
    ensures memory { FailsOnlyIf (BeginsWord "PERMANENTFLAGS " i.now) result }
{
    worded!(i: b"PERMANENTFLAGS ", flag_list(alloc) => ResponseCode::PermanentFlags)
}

#[tactic(auto, unfolding(crate::specs::Codes::uid_validity))]
fn uid_validity(i: &[u8]) -> IResult<&[u8], ResponseCode<'_>>
    ensures { StepsExactly codes.uid_validity code_value i.now result }
{
    worded!(i: b"UIDVALIDITY ", number => ResponseCode::UidValidity)
}

#[tactic(auto, unfolding(crate::specs::Codes::uid_next))]
fn uid_next(i: &[u8]) -> IResult<&[u8], ResponseCode<'_>>
    ensures { StepsExactly codes.uid_next code_value i.now result }
{
    worded!(i: b"UIDNEXT ", number => ResponseCode::UidNext)
}

#[tactic(auto, unfolding(crate::specs::Codes::unseen))]
fn unseen(i: &[u8]) -> IResult<&[u8], ResponseCode<'_>>
    ensures { StepsExactly codes.unseen code_value i.now result }
{
    worded!(i: b"UNSEEN ", number => ResponseCode::Unseen)
}

#[tactic(auto, unfolding(crate::specs::Codes::highest_mod_seq))]
fn highest_mod_seq(i: &[u8]) -> IResult<&[u8], ResponseCode<'_>>
    ensures { StepsExactly codes.highest_mod_seq code_value i.now result }
{
    worded!(i: b"HIGHESTMODSEQ ", number_64 => ResponseCode::HighestModSeq)
}

#[tactic(auto, unfolding(crate::specs::Codes::long_entries))]
fn long_entries(i: &[u8]) -> IResult<&[u8], ResponseCode<'_>>
    ensures { StepsExactly codes.long_entries code_value i.now result }
{
    worded!(i: b"METADATA LONGENTRIES ", number_64 => ResponseCode::MetadataLongEntries)
}

#[tactic(auto, unfolding(crate::specs::Codes::max_size))]
fn max_size(i: &[u8]) -> IResult<&[u8], ResponseCode<'_>>
    ensures { StepsExactly codes.max_size code_value i.now result }
{
    worded!(i: b"METADATA MAXSIZE ", number_64 => ResponseCode::MetadataMaxSize)
}

#[tactic(auto, unfolding(crate::specs::Codes::too_many))]
fn too_many(i: &[u8]) -> IResult<&[u8], ResponseCode<'_>>
    ensures { StepsExactly codes.too_many code_value i.now result }
{
    let (rest, _) = word(b"METADATA TOOMANY", i)?;
    Ok((rest, ResponseCode::MetadataTooMany))
}

#[tactic(auto, unfolding(crate::specs::Codes::no_private))]
fn no_private(i: &[u8]) -> IResult<&[u8], ResponseCode<'_>>
    ensures { StepsExactly codes.no_private code_value i.now result }
{
    let (rest, _) = word(b"METADATA NOPRIVATE", i)?;
    Ok((rest, ResponseCode::MetadataNoPrivate))
}

#[tactic(auto, unfolding(crate::specs::Codes::append_uid))]
fn append_uid(alloc: Global, i: &[u8]) -> IResult<&[u8], ResponseCode<'_>>
    ensures steps { Steps codes.append_uid code_value i.now result }
    ensures memory { FailsOnlyIf (BeginsWord "APPENDUID " i.now) result }
{
    let (rest, _) = word(b"APPENDUID ", i)?;
    let (rest, uid_validity) = number(rest)?;
    let (rest, _) = tag(b" ", rest)?;
    let (rest, uids) = uid_set(alloc, rest)?;
    Ok((rest, ResponseCode::AppendUid(uid_validity, uids)))
}

#[tactic(auto, unfolding(crate::specs::Codes::copy_uid))]
fn copy_uid(alloc: Global, i: &[u8]) -> IResult<&[u8], ResponseCode<'_>>
    ensures steps { Steps codes.copy_uid code_value i.now result }
    ensures memory { FailsOnlyIf (BeginsWord "COPYUID " i.now) result }
{
    let (rest, _) = word(b"COPYUID ", i)?;
    let (rest, uid_validity) = number(rest)?;
    let (rest, _) = tag(b" ", rest)?;
    let (rest, sources) = uid_set(alloc, rest)?;
    let (rest, _) = tag(b" ", rest)?;
    let (rest, copies) = uid_set(alloc, rest)?;
    Ok((rest, ResponseCode::CopyUid(uid_validity, sources, copies)))
}

#[tactic(auto, using(imap_grammar::proofs::Memory::word_never), unfolding(crate::specs::Codes::code_of_a))]
fn code_of_a(alloc: Global, i: &[u8]) -> IResult<&[u8], ResponseCode<'_>>
    ensures steps { Steps codes.code_of_a code_value i.now result }
    ensures memory { FailsOnlyIf (BeginsWord "APPENDUID " i.now) result }
{
    on_word!(b"ALERT", i, ResponseCode::Alert);
    append_uid(alloc, i)
}

#[tactic(auto, unfolding(crate::specs::Codes::code_of_c, crate::specs::Codes::capabilities))]
fn code_of_c(alloc: Global, i: &[u8]) -> IResult<&[u8], ResponseCode<'_>>
    ensures steps { Steps codes.code_of_c code_value i.now result }
    ensures memory { FailsOnlyIf (BeginsWord "CAPABILITY" i.now ⊎ BeginsWord "COPYUID " i.now)
        result }
{
    first!(capability_data(alloc, i), list => ResponseCode::Capabilities(list));
    copy_uid(alloc, i)
}

#[tactic(auto, using(imap_grammar::proofs::Memory::word_never), unfolding(crate::specs::Codes::code_of_p))]
fn code_of_p(alloc: Global, i: &[u8]) -> IResult<&[u8], ResponseCode<'_>>
    ensures steps { Steps codes.code_of_p code_value i.now result }
    ensures memory { FailsOnlyIf (BeginsWord "PERMANENTFLAGS " i.now) result }
{
    on_word!(b"PARSE", i, ResponseCode::Parse);
    permanent_flags(alloc, i)
}

#[tactic(auto, unfolding(crate::specs::Codes::code_of_u))]
fn code_of_u(i: &[u8]) -> IResult<&[u8], ResponseCode<'_>>
    ensures { StepsExactly codes.code_of_u code_value i.now result }
{
    first!(uid_validity(i));
    first!(uid_next(i));
    first!(unseen(i));
    on_word!(b"UIDNOTSTICKY", i, ResponseCode::UidNotSticky);
    Err(Err::Error)
}

#[tactic(auto, unfolding(crate::specs::Codes::code_of_r))]
fn code_of_r(i: &[u8]) -> IResult<&[u8], ResponseCode<'_>>
    ensures { StepsExactly codes.code_of_r code_value i.now result }
{
    on_word!(b"READ-ONLY", i, ResponseCode::ReadOnly);
    on_word!(b"READ-WRITE", i, ResponseCode::ReadWrite);
    Err(Err::Error)
}

#[tactic(auto, unfolding(crate::specs::Codes::code_of_t))]
fn code_of_t(i: &[u8]) -> IResult<&[u8], ResponseCode<'_>>
    ensures { StepsExactly codes.code_of_t code_value i.now result }
{
    let (rest, _) = word(b"TRYCREATE", i)?;
    Ok((rest, ResponseCode::TryCreate))
}

#[tactic(auto, unfolding(crate::specs::Codes::metadata_code))]
fn metadata_code(i: &[u8]) -> IResult<&[u8], ResponseCode<'_>>
    ensures { StepsExactly codes.metadata_code code_value i.now result }
{
    first!(long_entries(i));
    first!(max_size(i));
    first!(too_many(i));
    no_private(i)
}

// Of the codes those are tried, in order, that may start with the first byte.
#[tactic(auto, using(crate::proofs::FirstBytes::code_arms))]
fn any_code(alloc: Global, i: &[u8]) -> IResult<&[u8], ResponseCode<'_>>
    ensures steps { Steps codes.any_code code_value i.now result }
    ensures memory { FailsOnlyIf (BeginsListWord i.now) result }
{
    match i.first() {
        None => Err(Err::Incomplete(Needed::Unknown)),
        Some(b'a' | b'A') => code_of_a(alloc, i),
        Some(b'b' | b'B') => bad_charset(alloc, i),
        Some(b'c' | b'C') => code_of_c(alloc, i),
        Some(b'h' | b'H') => highest_mod_seq(i),
        Some(b'm' | b'M') => metadata_code(i),
        Some(b'p' | b'P') => code_of_p(alloc, i),
        Some(b'r' | b'R') => code_of_r(i),
        Some(b't' | b'T') => code_of_t(i),
        Some(b'u' | b'U') => code_of_u(i),
        Some(_) => Err(Err::Error),
    }
}

/// A code in brackets (RFC 3501, section 9: resp-text-code; RFC 4551, section 4: resp-text-code; RFC 4315, section 4:
/// resp-code-apnd, resp-code-copy; RFC 5464, section 5: resp-text-code).
///
/// A code that has no rule here, or lacks its closing bracket, is `Error`. Each range of its UIDs starts not above
/// its end. It takes memory only after the word of a code that may hold a list: for lists, and for texts that are not
/// UTF-8.
#[tactic(auto, using(imap_grammar::proofs::Agreement::answered), unfolding(crate::specs::Codes::response_code))]
pub fn response_code(alloc: Global, i: &[u8]) -> IResult<&[u8], ResponseCode<'_>>
    ensures steps { Steps codes.response_code code_value i.now result }
    ensures answer { Answers codes.response_code code_value i.now result }
    ensures ordered { IfOk result (λ x. HasOrderedUids x.1) }
    ensures memory { FailsOnlyIf (BeginsListCode i.now) result }
{
    let (rest, _) = tag(b"[", i)?;
    let (rest, code) = any_code(alloc, rest)?;
    let (rest, _) = tag(b"]", rest)?;
    Ok((rest, code))
}
