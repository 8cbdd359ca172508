//! Data of a mailbox.

ghost use Rattle.std.specs.Prelude.{◌≡◌, IfOk, IsOk};
ghost use Rattle.imap_data.specs.DatumValues.{datum_value, IsNumber};
ghost use Rattle.imap_data.specs.Owned.{owned_datum, IsMovedWhole};

use super::counts::StatusAttribute;
use super::names::MailboxListData;
use crate::types::annotations::{Metadata, copied_annotations};
use imap_shared::copies::{copied_text, copied_texts};
use imap_shared::owned::{owned_text, owned_texts};
use std::alloc::{AllocError, Global};
use std::borrow::CowStr;

/// Data of a mailbox (RFC 3501, sections 7.2 and 7.3; RFC 5256, section 4; RFC 5464, section 4.4; Gmail's items).
#[derive(Debug, Drop, PartialEq, Eq)]
pub enum MailboxDatum<'a> {
    /// `EXISTS`: how many messages there are.
    Exists(u32),
    /// `FLAGS`: the flags that are defined, each with its backslash if it has one.
    Flags(Vec<CowStr<'a>>),
    /// `LIST` and `LSUB`, which are not told apart.
    List(MailboxListData<'a>),
    /// `SEARCH`: what was found, in the order of the line: numbers of messages, or UIDs in answer to UID SEARCH (RFC
    /// 3501, section 7.2.5). The value doesn't tell which.
    Search(Vec<u32>),
    /// `SORT`: the same, sorted as the client asked; UIDs in answer to UID SORT (RFC 5256, section 4).
    Sort(Vec<u32>),
    /// `STATUS`
    Status {
        /// The mailbox's name, raw, as in `MailboxListData`.
        mailbox: CowStr<'a>,
        /// The items, in the order of the line.
        status: Vec<StatusAttribute>,
    },
    /// `RECENT`: how many messages are recent.
    Recent(u32),
    /// `METADATA` with values, as the answer to GETMETADATA (RFC 5464, section 4.4.1).
    MetadataSolicited {
        /// The raw content of the quoted string that names the mailbox; empty for the server.
        mailbox: CowStr<'a>,
        /// The annotations, at least one.
        values: Vec<Metadata>,
    },
    /// `METADATA` without values, which the server sends by itself (RFC 5464, section 4.4.2).
    MetadataUnsolicited {
        /// The raw content of the quoted string that names the mailbox; empty for the server.
        mailbox: CowStr<'a>,
        /// The names of the entries that changed, maybe none.
        values: Vec<CowStr<'a>>,
    },
    /// `X-GM-LABELS` as a line of its own (in a FETCH it is `AttributeValue::GmailLabels`): the labels, raw:
    /// backslashes of a quoted string stay.
    GmailLabels(Vec<CowStr<'a>>),
    /// `X-GM-MSGID` as a line of its own (in a FETCH it is `AttributeValue::GmailMsgId`): the number of the message.
    GmailMsgId(u64),
    /// `X-GM-THRID` as a line of its own (in a FETCH it is `AttributeValue::GmailThrId`): the number of the thread.
    GmailThrId(u64),
}

fn copied_numbers(numbers: &Vec<u32>) -> Result<Vec<u32>, AllocError>
    ensures { IfOk result (λ v. v.items ≡ numbers.now.items) }
{
    Vec::from_slice(*numbers.allocator(), numbers)
}

fn copied_items(items: &Vec<StatusAttribute>) -> Result<Vec<StatusAttribute>, AllocError>
    ensures { IfOk result (λ v. v.items ≡ items.now.items) }
{
    Vec::from_slice(*items.allocator(), items)
}

impl<'a> MailboxDatum<'a> {
    /// A copy. It takes memory for lists and for owned texts; `Err`: memory ran out.
    pub fn clone(&self) -> Result<Self, AllocError>
        ensures same { IfOk result (λ c. datum_value c ≡ datum_value self.now) }
        ensures memory { IsNumber (datum_value self.now) → IsOk result }
    {
        Ok(match self {
            MailboxDatum::Exists(count) => MailboxDatum::Exists(*count),
            MailboxDatum::Flags(flags) => MailboxDatum::Flags(copied_texts(flags)?),
            MailboxDatum::List(list) => MailboxDatum::List(list.clone()?),
            MailboxDatum::Search(numbers) => MailboxDatum::Search(copied_numbers(numbers)?),
            MailboxDatum::Sort(numbers) => MailboxDatum::Sort(copied_numbers(numbers)?),
            MailboxDatum::Status { mailbox, status } => MailboxDatum::Status {
                mailbox: copied_text(mailbox)?,
                status: copied_items(status)?,
            },
            MailboxDatum::Recent(count) => MailboxDatum::Recent(*count),
            MailboxDatum::MetadataSolicited { mailbox, values } => {
                MailboxDatum::MetadataSolicited {
                    mailbox: copied_text(mailbox)?,
                    values: copied_annotations(values)?,
                }
            }
            MailboxDatum::MetadataUnsolicited { mailbox, values } => {
                MailboxDatum::MetadataUnsolicited {
                    mailbox: copied_text(mailbox)?,
                    values: copied_texts(values)?,
                }
            }
            MailboxDatum::GmailLabels(labels) => MailboxDatum::GmailLabels(copied_texts(labels)?),
            MailboxDatum::GmailMsgId(number) => MailboxDatum::GmailMsgId(*number),
            MailboxDatum::GmailThrId(number) => MailboxDatum::GmailThrId(*number),
        })
    }

    /// The same data with all texts owned. It takes memory for lists of texts and of attributes, and for borrowed
    /// texts; `Err`: memory ran out.
    pub fn into_owned(self, alloc: Global) -> Result<MailboxDatum<'static>, AllocError>
        ensures same { IfOk result (λ d. datum_value d ≡ owned_datum (datum_value self.entry)) }
        ensures memory { IsMovedWhole (datum_value self.entry) → IsOk result }
    {
        Ok(match self {
            MailboxDatum::Exists(count) => MailboxDatum::Exists(count),
            MailboxDatum::Flags(flags) => MailboxDatum::Flags(owned_texts(alloc, flags)?),
            MailboxDatum::List(list) => MailboxDatum::List(list.into_owned(alloc)?),
            MailboxDatum::Search(numbers) => MailboxDatum::Search(numbers),
            MailboxDatum::Sort(numbers) => MailboxDatum::Sort(numbers),
            MailboxDatum::Status { mailbox, status } => MailboxDatum::Status {
                mailbox: owned_text(alloc, mailbox)?,
                status,
            },
            MailboxDatum::Recent(count) => MailboxDatum::Recent(count),
            MailboxDatum::MetadataSolicited { mailbox, values } => {
                MailboxDatum::MetadataSolicited {
                    mailbox: owned_text(alloc, mailbox)?,
                    values,
                }
            }
            MailboxDatum::MetadataUnsolicited { mailbox, values } => {
                MailboxDatum::MetadataUnsolicited {
                    mailbox: owned_text(alloc, mailbox)?,
                    values: owned_texts(alloc, values)?,
                }
            }
            MailboxDatum::GmailLabels(labels) => {
                MailboxDatum::GmailLabels(owned_texts(alloc, labels)?)
            }
            MailboxDatum::GmailMsgId(number) => MailboxDatum::GmailMsgId(number),
            MailboxDatum::GmailThrId(number) => MailboxDatum::GmailThrId(number),
        })
    }
}
