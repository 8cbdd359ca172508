//! Mailbox names.

ghost use Rattle.imap_grammar.specs.Answer.{Answers, Steps};
ghost use Rattle.imap_grammar.specs.Text.{text_of, IsOwned};
ghost use Rattle.imap_bytes.specs.Texts.{astring_utf8 as astring_rule, FailsForOwned};
ghost use Rattle.imap_shared.specs.Mailboxes as mailboxes;

use crate::at;
use imap_bytes::IResult;
use imap_bytes::at::span::rest;
use std::alloc::Global;
use std::borrow::CowStr;

/// A mailbox's name: an astring as text, and `INBOX` for INBOX in any case (RFC 3501, section 9: mailbox).
///
/// What is no astring is `Error`. It takes memory only for bytes that are not UTF-8.
#[tactic(auto, using(imap_grammar::proofs::Agreement::answered))]
pub fn mailbox(alloc: Global, i: &[u8]) -> IResult<&[u8], CowStr<'_>>
    ensures steps { Steps mailboxes.mailbox text_of i.now result }
    ensures answer { Answers mailboxes.mailbox text_of i.now result }
    ensures memory { FailsForOwned IsOwned astring_rule i.now result }
{
    let (q, name) = at::mailboxes::mailbox(alloc, i, 0)?;
    Ok((rest(i, q), name))
}
