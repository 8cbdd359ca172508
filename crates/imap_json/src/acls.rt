//! Access control lists, and rights on a mailbox.

ghost use Rattle.imap_extensions.specs.Acls.{AclEntryValue, acl_entry_value, AclValue, acl_value, ListRightsValue};
ghost use Rattle.imap_extensions.specs.Acls.{list_rights_value, MyRightsValue, my_rights_value};
ghost use Rattle.imap_json.specs.Acls.{acl_entry_json, acl_json, list_rights_json, my_rights_json};

use crate::forms::{ToJson, field};
use crate::output::Output;
use imap_extensions::{Acl, AclEntry, ListRights, MyRights};
use std::alloc::AllocError;

impl<'a> ToJson for AclEntry<'a> {
    ghost meaning = { AclEntryValue };

    ghost said = { acl_entry_value };

    ghost json = { acl_entry_json };

    fn write(&self, out: &mut Output) -> Result<(), AllocError> {
        out.begin_object()?;
        field(out, "identifier", &self.identifier)?;
        field(out, "rights", &self.rights)?;
        out.end_object()
    }
}

impl<'a> ToJson for Acl<'a> {
    ghost meaning = { AclValue };

    ghost said = { acl_value };

    ghost json = { acl_json };

    fn write(&self, out: &mut Output) -> Result<(), AllocError> {
        out.begin_object()?;
        field(out, "mailbox", &self.mailbox)?;
        field(out, "acls", &self.acls)?;
        out.end_object()
    }
}

impl<'a> ToJson for ListRights<'a> {
    ghost meaning = { ListRightsValue };

    ghost said = { list_rights_value };

    ghost json = { list_rights_json };

    fn write(&self, out: &mut Output) -> Result<(), AllocError> {
        out.begin_object()?;
        field(out, "mailbox", &self.mailbox)?;
        field(out, "identifier", &self.identifier)?;
        field(out, "required", &self.required)?;
        field(out, "optional", &self.optional)?;
        out.end_object()
    }
}

impl<'a> ToJson for MyRights<'a> {
    ghost meaning = { MyRightsValue };

    ghost said = { my_rights_value };

    ghost json = { my_rights_json };

    fn write(&self, out: &mut Output) -> Result<(), AllocError> {
        out.begin_object()?;
        field(out, "mailbox", &self.mailbox)?;
        field(out, "rights", &self.rights)?;
        out.end_object()
    }
}
