//! Commands, and arguments of them, as texts that go into a caller's buffer, without tag and line end.
//!
//! Arguments are judged before memory is taken: first whether they are UTF-8, and then, in their order, whether a
//! quoted string can have their bytes.

ghost use Rattle.std.specs.Prelude.{◌≡◌, ◌≢◌, [], ◌∷◌, None, Some, IfOk, MatchResult};
ghost use Rattle.imap_command.specs.Arguments.{quoted};
ghost use Rattle.imap_command.specs.Calls as call;
ghost use Rattle.imap_command.specs.Calls.{told, begun};
ghost use Rattle.imap_command.specs.declared.words.Attribute.{Attribute};
ghost use Rattle.imap_c.specs.Commands.{text_refusal, argument_refusal, arguments_refusal, Makes, PutsMade, Answers};
ghost use Rattle.imap_c.specs.Commands.{attribute_number, begun_by, messages_called, AsksFor, MakesFetch, AnswersFetch};

use crate::refusals::{Refusal, number_of};
use crate::texts::{TextAnswer, put, without_text};
use imap_proto::builders::command::fetch::{Attributes, Empty, Messages};
use imap_proto::builders::command::{
    Attribute, Command, CommandBuilder, FetchCommand, quoted_string,
};
use std::alloc::{AllocError, Global};
use std::str;

// Puts out what was made, or tells why nothing was.
fn put_made(out: &mut [u8], made: Result<Vec<u8>, Refusal>) -> TextAnswer
    ensures { PutsMade made out.old out.new result }
{
    match made {
        Ok(text) => put(out, &text),
        Err(refusal) => without_text(number_of(&refusal)),
    }
}

// The text that an argument is.
fn text_of(argument: &[u8]) -> Result<&str, Refusal>
    ensures { MatchResult result
        (λ text. (text.now ≡ argument.now) × (text_refusal argument.now ≡ None))
        (λ e. text_refusal argument.now ≡ Some e) }
{
    match str::from_utf8(argument) {
        Ok(text) => Ok(text),
        Err(_) => Err(Refusal::NotUtf8),
    }
}

fn quoted(alloc: Global, argument: &[u8]) -> Result<Vec<u8>, Refusal>
    ensures { Makes (argument_refusal argument.now) (quoted argument.now) result }
{
    let argument = text_of(argument)?;
    Ok(quoted_string(alloc, argument)?)
}

fn select(alloc: Global, mailbox: &[u8]) -> Result<Vec<u8>, Refusal>
    ensures { Makes (argument_refusal mailbox.now) (told (call.select mailbox.now ∷ [])).text result }
{
    let mailbox = text_of(mailbox)?;
    let select = CommandBuilder::select(alloc, mailbox)?;
    Ok(Command::from(select).args)
}

fn login(alloc: Global, user_name: &[u8], password: &[u8]) -> Result<Vec<u8>, Refusal>
    ensures { Makes (arguments_refusal user_name.now password.now)
        (told (call.login user_name.now password.now ∷ [])).text result }
{
    let user_name = text_of(user_name)?;
    let password = text_of(password)?;
    let login = CommandBuilder::login(alloc, user_name, password)?;
    Ok(login.args)
}

fn list(alloc: Global, reference: &[u8], glob: &[u8]) -> Result<Vec<u8>, Refusal>
    ensures { Makes (arguments_refusal reference.now glob.now)
        (told (call.list reference.now glob.now ∷ [])).text result }
{
    let reference = text_of(reference)?;
    let glob = text_of(glob)?;
    let list = CommandBuilder::list(alloc, reference, glob)?;
    Ok(list.args)
}

fn attribute(number: u32) -> Result<Attribute, Refusal>
    ensures { MatchResult result (λ a. attribute_number a ≡ number)
        (λ e. (e ≡ Refusal.NoAttribute) × ((a : Attribute) → attribute_number a ≢ number)) }
{
    Ok(match number {
        1 => Attribute::Body,
        2 => Attribute::Envelope,
        3 => Attribute::Flags,
        4 => Attribute::InternalDate,
        5 => Attribute::ModSeq,
        6 => Attribute::Rfc822,
        7 => Attribute::Rfc822Size,
        8 => Attribute::Rfc822Text,
        9 => Attribute::Uid,
        10 => Attribute::GmailLabels,
        11 => Attribute::GmailMsgId,
        12 => Attribute::GmailThrId,
        _ => return Err(Refusal::NoAttribute),
    })
}

fn begun(alloc: Global, by_uid: bool) -> Result<FetchCommand<Empty>, AllocError>
    ensures { IfOk result (λ text. text ≡ begun (begun_by by_uid ∷ [])) }
{
    if by_uid {
        CommandBuilder::uid_fetch(alloc)
    } else {
        CommandBuilder::fetch(alloc)
    }
}

// A FETCH of the messages from one to another, or, where the last is 0, from the first one on.
fn messages(
    alloc: Global,
    by_uid: bool,
    first: u32,
    last: u32,
) -> Result<FetchCommand<Messages>, AllocError>
    ensures { IfOk result (λ text. text ≡ begun (messages_called by_uid first last)) }
{
    let fetch = begun(alloc, by_uid)?;
    if last == 0 {
        fetch.range_from(first..)
    } else {
        fetch.range(first..=last)
    }
}

// It asks for further attributes.
fn asking(
    fetch: FetchCommand<Attributes>,
    numbers: &[u32],
) -> Result<FetchCommand<Attributes>, Refusal>
    ensures { AsksFor numbers.now fetch result }
{
    let mut fetch = fetch;
    'numbers: for number in numbers {
        let asked = attribute(*number)?;
        fetch = fetch.attr(asked)?;
    }
    Ok(fetch)
}

fn fetch(
    alloc: Global,
    by_uid: bool,
    first: u32,
    last: u32,
    attributes: &[u32],
) -> Result<Vec<u8>, Refusal>
    ensures { MakesFetch by_uid first last attributes.now result }
{
    let Some((number, others)) = attributes.split_first() else {
        return Err(Refusal::NoAttribute);
    };
    let asked = attribute(*number)?;
    let fetch = messages(alloc, by_uid, first, last)?.attr(asked)?;
    let fetch = asking(fetch, others)?;
    Ok(fetch.into_command()?.args)
}

/// The argument as a quoted string (RFC 3501, section 9: quoted). It takes memory, and gives it back.
#[unsafe(no_mangle)]
pub extern "C" fn imap_quote(alloc: Global, argument: &[u8], out: &mut [u8]) -> TextAnswer
    ensures { Answers (argument_refusal argument.now) (quoted argument.now) out.old out.new result }
{
    put_made(out, quoted(alloc, argument))
}

/// SELECT of a mailbox (RFC 3501, section 6.3.1). It takes memory, and gives it back.
#[unsafe(no_mangle)]
pub extern "C" fn imap_select(alloc: Global, mailbox: &[u8], out: &mut [u8]) -> TextAnswer
    ensures { Answers (argument_refusal mailbox.now) (told (call.select mailbox.now ∷ [])).text
        out.old out.new result }
{
    put_made(out, select(alloc, mailbox))
}

/// LOGIN (RFC 3501, section 6.2.3). It takes memory, and gives it back; what it gives back is not wiped, and holds the
/// password.
#[unsafe(no_mangle)]
pub extern "C" fn imap_login(
    alloc: Global,
    user_name: &[u8],
    password: &[u8],
    out: &mut [u8],
) -> TextAnswer
    ensures { Answers (arguments_refusal user_name.now password.now)
        (told (call.login user_name.now password.now ∷ [])).text out.old out.new result }
{
    put_made(out, login(alloc, user_name, password))
}

/// LIST of the mailboxes that a pattern fits (RFC 3501, section 6.3.8). It takes memory, and gives it back.
#[unsafe(no_mangle)]
pub extern "C" fn imap_list(
    alloc: Global,
    reference: &[u8],
    glob: &[u8],
    out: &mut [u8],
) -> TextAnswer
    ensures { Answers (arguments_refusal reference.now glob.now)
        (told (call.list reference.now glob.now ∷ [])).text out.old out.new result }
{
    put_made(out, list(alloc, reference, glob))
}

/// FETCH, or UID FETCH, of the messages from one to another, or from the first one on where the last is 0, that asks
/// for these attributes in this order (RFC 3501, sections 6.4.5 and 6.4.8). It takes memory, and gives it back.
#[unsafe(no_mangle)]
pub extern "C" fn imap_fetch(
    alloc: Global,
    by_uid: bool,
    first: u32,
    last: u32,
    attributes: &[u32],
    out: &mut [u8],
) -> TextAnswer
    ensures { AnswersFetch by_uid first last attributes.now out.old out.new result }
{
    put_made(out, fetch(alloc, by_uid, first, last, attributes))
}
