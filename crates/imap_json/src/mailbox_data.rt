//! Data of a mailbox.

ghost use Rattle.std.specs.Prelude.{[], ◌∷◌, codes, OnOk};
ghost use Rattle.imap_grammar.specs.Text.{text_of};
ghost use Rattle.imap_data.specs.DatumValues.{DatumValue, datum_value};
ghost use Rattle.imap_json.specs.Forms.{object_json, variant_json, Tells};
ghost use Rattle.imap_json.specs.Texts.{text_json};
ghost use Rattle.imap_json.specs.MailboxData.{datum_json};

use crate::forms::{ToJson, field, variant};
use crate::output::Output;
use imap_data::MailboxDatum;
use std::alloc::AllocError;
use std::borrow::CowStr;

// A variant with the name of a mailbox, and something of it.
fn of_mailbox<T: ToJson>(
    out: &mut Output,
    kind: &str,
    mailbox: &CowStr<'_>,
    name: &str,
    value: &T,
) -> Result<(), AllocError>
    ensures { OnOk result (Tells out.old out.new
        (variant_json kind.now
        (object_json
        ((codes "mailbox", text_json (text_of mailbox.now))
        ∷ (name.now, T.json (T.said value.now))
        ∷ [])))) }
{
    out.begin_object()?;
    out.key(kind)?;
    out.begin_object()?;
    field(out, "mailbox", mailbox)?;
    field(out, name, value)?;
    out.end_object()?;
    out.end_object()
}

impl<'a> ToJson for MailboxDatum<'a> {
    ghost meaning = { DatumValue };

    ghost said = { datum_value };

    ghost json = { datum_json };

    fn write(&self, out: &mut Output) -> Result<(), AllocError> {
        match self {
            MailboxDatum::Exists(count) => variant(out, "Exists", count),
            MailboxDatum::Flags(flags) => variant(out, "Flags", flags),
            MailboxDatum::List(list) => variant(out, "List", list),
            MailboxDatum::Search(numbers) => variant(out, "Search", numbers),
            MailboxDatum::Sort(numbers) => variant(out, "Sort", numbers),
            MailboxDatum::Status { mailbox, status } => {
                of_mailbox(out, "Status", mailbox, "status", status)
            }
            MailboxDatum::Recent(count) => variant(out, "Recent", count),
            MailboxDatum::MetadataSolicited { mailbox, values } => {
                of_mailbox(out, "MetadataSolicited", mailbox, "values", values)
            }
            MailboxDatum::MetadataUnsolicited { mailbox, values } => {
                of_mailbox(out, "MetadataUnsolicited", mailbox, "values", values)
            }
            MailboxDatum::GmailLabels(labels) => variant(out, "GmailLabels", labels),
            MailboxDatum::GmailMsgId(number) => variant(out, "GmailMsgId", number),
            MailboxDatum::GmailThrId(number) => variant(out, "GmailThrId", number),
        }
    }
}
