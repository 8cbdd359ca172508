//! Data of a mailbox.

ghost use Rattle.std.specs.Prelude.{◌⊎◌};
ghost use Rattle.imap_grammar.specs.Answer.{Answers, Steps, StepsExactly};
ghost use Rattle.imap_grammar.specs.Memory.{Behind, BeginsWord, FailsOnlyIf, StartsWith, SucceedsFor};
ghost use Rattle.imap_data.specs.MailboxData as rules;
ghost use Rattle.imap_data.specs.MailboxData.{FlagsMayWant, NamesMayWant, StatusMayWant, NumbersMayWant};
ghost use Rattle.imap_data.specs.MailboxData.{MailboxMayWant};
ghost use Rattle.imap_data.specs.DatumValues.{datum_value, IsNumber, Listed};
ghost use Rattle.imap_data.specs.Counts as counts;
ghost use Rattle.imap_data.specs.Names as names;
ghost use Rattle.imap_grammar.specs.Rule.{gives, tag_by, ◌▹◌};
ghost use Rattle.imap_grammar.specs.Tags.{same_letter};

use super::counts::{found_numbers, status_items};
use crate::at::names::list_data;
use crate::types::mailbox_data::MailboxDatum;
use imap_bytes::at::span::rest;
use imap_bytes::tags::{tag, word};
use imap_bytes::{Err, IResult, Needed, at, first, number, on_word};
use imap_shared::readers::flags::flag_list;
use imap_shared::readers::gmail::{gmail_label_list, gmail_msgid, gmail_thrid};
use imap_shared::readers::mailboxes::mailbox;
use std::alloc::Global;

#[tactic(auto, unfolding(crate::specs::MailboxData::flags))]
#[inline(always)]
fn flags(alloc: Global, i: &[u8]) -> IResult<&[u8], MailboxDatum<'_>>
    ensures steps { Steps rules.flags datum_value i.now result }
    ensures memory { FailsOnlyIf (FlagsMayWant i.now) result }
{
    worded!(i: b"FLAGS ", flag_list(alloc) => MailboxDatum::Flags)
}

// A word in any case, and behind it what LIST says.
#[inline(always)]
fn listed<'a>(alloc: Global, text: &[u8], i: &'a [u8]) -> IResult<&'a [u8], MailboxDatum<'a>>
    ensures steps { Steps (gives Listed (tag_by same_letter text.now ▹ names.list_data)) datum_value
        i.now result }
    ensures memory { FailsOnlyIf (Behind (tag_by same_letter text.now) names.ListMayWant i.now) result }
{
    let (p, _) = at::tags::word(text, i, 0)?;
    let (p, list) = list_data(alloc, i, p)?;
    Ok((rest(i, p), MailboxDatum::List(list)))
}

#[tactic(auto, unfolding(crate::specs::MailboxData::status))]
#[inline(always)]
fn status(alloc: Global, i: &[u8]) -> IResult<&[u8], MailboxDatum<'_>>
    ensures steps { Steps rules.status datum_value i.now result }
    ensures memory { FailsOnlyIf (StatusMayWant i.now) result }
{
    let (rest, _) = word(b"STATUS ", i)?;
    let (rest, mailbox) = mailbox(alloc, rest)?;
    let (rest, _) = tag(b" ", rest)?;
    let (rest, status) = status_items(alloc, rest)?;
    Ok((rest, MailboxDatum::Status { mailbox, status }))
}

// The number is read once, whichever word stands behind it.
#[tactic(auto, unfolding(crate::proofs::Rules::of_number))]
#[inline(always)]
fn datum_of_number(i: &[u8]) -> IResult<&[u8], MailboxDatum<'_>>
    ensures { StepsExactly rules.datum_of_number datum_value i.now result }
{
    let (rest, count) = number(i)?;
    on_word!(b" EXISTS", rest, MailboxDatum::Exists(count));
    on_word!(b" RECENT", rest, MailboxDatum::Recent(count));
    Err(Err::Error)
}

/// `LIST` or `LSUB`, and what it says of a mailbox (RFC 3501, section 9: mailbox-data).
///
/// Any other word, or a part that is missing, is `Error`. It takes memory only behind `LIST` or `LSUB`: behind a first
/// attribute, and for texts that are not UTF-8.
#[tactic(auto, using(imap_grammar::proofs::Agreement::answered), unfolding(crate::proofs::Rules::of_l))]
#[inline(always)]
pub fn list_or_lsub(alloc: Global, i: &[u8]) -> IResult<&[u8], MailboxDatum<'_>>
    ensures steps { Steps rules.list_or_lsub datum_value i.now result }
    ensures answer { Answers rules.list_or_lsub datum_value i.now result }
    ensures memory { FailsOnlyIf (NamesMayWant i.now) result }
{
    first!(listed(alloc, b"LIST ", i));
    listed(alloc, b"LSUB ", i)
}

// A word in any case, and numbers behind it.
#[inline(always)]
fn found<'a>(alloc: Global, text: &[u8], i: &'a [u8]) -> IResult<&'a [u8], Vec<u32>>
    ensures steps { Steps (tag_by same_letter text.now ▹ counts.found_numbers) (λ x. x.items) i.now
        result }
    ensures memory { FailsOnlyIf (Behind (tag_by same_letter text.now)
        (StartsWith counts.found_number) i.now) result }
{
    let (rest, _) = word(text, i)?;
    found_numbers(alloc, rest)
}

#[tactic(auto, unfolding(crate::proofs::Rules::of_s))]
#[inline(always)]
fn datum_of_s(alloc: Global, i: &[u8]) -> IResult<&[u8], MailboxDatum<'_>>
    ensures steps { Steps rules.datum_of_s datum_value i.now result }
    ensures memory { FailsOnlyIf (StatusMayWant i.now ⊎ NumbersMayWant i.now) result }
{
    first!(status(alloc, i));
    first!(found(alloc, b"SEARCH", i), numbers => MailboxDatum::Search(numbers));
    first!(found(alloc, b"SORT", i), numbers => MailboxDatum::Sort(numbers));
    Err(Err::Error)
}

#[tactic(auto, using(imap_grammar::proofs::Memory::never_memory), unfolding(crate::proofs::Rules::of_x))]
#[inline(always)]
fn datum_of_x(alloc: Global, i: &[u8]) -> IResult<&[u8], MailboxDatum<'_>>
    ensures steps { Steps rules.datum_of_x datum_value i.now result }
    ensures memory { FailsOnlyIf (BeginsWord "X-GM-LABELS " i.now) result }
{
    first!(gmail_label_list(alloc, i), labels => MailboxDatum::GmailLabels(labels));
    first!(gmail_msgid(i), number => MailboxDatum::GmailMsgId(number));
    first!(gmail_thrid(i), number => MailboxDatum::GmailThrId(number));
    Err(Err::Error)
}

// Of the data those are tried, in order, that may start with the first byte.
#[tactic(auto, using(crate::proofs::FirstBytes::datum_arms))]
#[inline(always)]
fn datum(alloc: Global, i: &[u8]) -> IResult<&[u8], MailboxDatum<'_>>
    ensures steps { Steps rules.mailbox_datum datum_value i.now result }
    ensures memory { SucceedsFor IsNumber rules.mailbox_datum i.now result }
    ensures worded { FailsOnlyIf (MailboxMayWant i.now) result }
{
    match i.first() {
        None => Err(Err::Incomplete(Needed::Unknown)),
        Some(b'f' | b'F') => flags(alloc, i),
        Some(b'l' | b'L') => list_or_lsub(alloc, i),
        Some(b's' | b'S') => datum_of_s(alloc, i),
        Some(b'x' | b'X') => datum_of_x(alloc, i),
        Some(b) if b.is_ascii_digit() => datum_of_number(i),
        Some(_) => Err(Err::Error),
    }
}

/// Data of a mailbox: `FLAGS`, `EXISTS`, `LIST`, `LSUB`, `STATUS`, `RECENT`, `SEARCH`, `SORT` and Gmail's items,
/// words in any case (RFC 3501, section 9: mailbox-data; RFC 5256, section 5: sort-data; Gmail's X-GM-EXT-1).
///
/// Any other word, and data that its rule denies, is `Error`. It takes memory only behind the word of data that hold a
/// list: behind a first item of the list, and for texts that are not UTF-8; of Gmail's labels behind their word. So
/// what holds an empty list takes none, nor does a datum that is one number.
#[tactic(auto, using(imap_grammar::proofs::Agreement::answered))]
#[inline(always)]
pub fn mailbox_datum(alloc: Global, i: &[u8]) -> IResult<&[u8], MailboxDatum<'_>>
    ensures steps { Steps rules.mailbox_datum datum_value i.now result }
    ensures answer { Answers rules.mailbox_datum datum_value i.now result }
    ensures memory { SucceedsFor IsNumber rules.mailbox_datum i.now result }
    ensures worded { FailsOnlyIf (MailboxMayWant i.now) result }
{
    datum(alloc, i)
}
