//! Attributes of mailbox names, and the data of LIST.

ghost use Rattle.imap_data.specs.Names.{NameAttributeValue, name_attribute_value, ListValue, list_value};
ghost use Rattle.imap_json.specs.Names.{name_attribute_json, list_data_json};

use crate::forms::{ToJson, field, variant};
use crate::output::Output;
use imap_data::{MailboxListData, NameAttribute};
use std::alloc::AllocError;

impl<'a> ToJson for NameAttribute<'a> {
    ghost meaning = { NameAttributeValue };

    ghost said = { name_attribute_value };

    ghost json = { name_attribute_json };

    fn write(&self, out: &mut Output) -> Result<(), AllocError> {
        match self {
            NameAttribute::NoInferiors => out.string("NoInferiors"),
            NameAttribute::NoSelect => out.string("NoSelect"),
            NameAttribute::Marked => out.string("Marked"),
            NameAttribute::Unmarked => out.string("Unmarked"),
            NameAttribute::All => out.string("All"),
            NameAttribute::Archive => out.string("Archive"),
            NameAttribute::Drafts => out.string("Drafts"),
            NameAttribute::Flagged => out.string("Flagged"),
            NameAttribute::Junk => out.string("Junk"),
            NameAttribute::Sent => out.string("Sent"),
            NameAttribute::Trash => out.string("Trash"),
            NameAttribute::Extension(name) => variant(out, "Extension", name),
        }
    }
}

impl<'a> ToJson for MailboxListData<'a> {
    ghost meaning = { ListValue };

    ghost said = { list_value };

    ghost json = { list_data_json };

    fn write(&self, out: &mut Output) -> Result<(), AllocError> {
        out.begin_object()?;
        field(out, "name_attributes", &self.name_attributes)?;
        field(out, "delimiter", &self.delimiter)?;
        field(out, "name", &self.name)?;
        out.end_object()
    }
}
