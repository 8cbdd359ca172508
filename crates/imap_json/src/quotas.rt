//! Quotas.

ghost use Rattle.imap_extensions.specs.Quotas.{QuotaResourceNameValue, quota_resource_name_value, QuotaResourceValue};
ghost use Rattle.imap_extensions.specs.Quotas.{quota_resource_value, QuotaValue, quota_value, QuotaRootValue};
ghost use Rattle.imap_extensions.specs.Quotas.{quota_root_value};
ghost use Rattle.imap_json.specs.Quotas.{resource_name_json, resource_json, quota_json, quota_root_json};

use crate::forms::{ToJson, field, variant};
use crate::output::Output;
use imap_extensions::{Quota, QuotaResource, QuotaResourceName, QuotaRoot};
use std::alloc::AllocError;

impl<'a> ToJson for QuotaResourceName<'a> {
    ghost meaning = { QuotaResourceNameValue };

    ghost said = { quota_resource_name_value };

    ghost json = { resource_name_json };

    fn write(&self, out: &mut Output) -> Result<(), AllocError> {
        match self {
            QuotaResourceName::Storage => out.string("Storage"),
            QuotaResourceName::Message => out.string("Message"),
            QuotaResourceName::Atom(name) => variant(out, "Atom", name),
        }
    }
}

impl<'a> ToJson for QuotaResource<'a> {
    ghost meaning = { QuotaResourceValue };

    ghost said = { quota_resource_value };

    ghost json = { resource_json };

    fn write(&self, out: &mut Output) -> Result<(), AllocError> {
        out.begin_object()?;
        field(out, "name", &self.name)?;
        field(out, "usage", &self.usage)?;
        field(out, "limit", &self.limit)?;
        out.end_object()
    }
}

impl<'a> ToJson for Quota<'a> {
    ghost meaning = { QuotaValue };

    ghost said = { quota_value };

    ghost json = { quota_json };

    fn write(&self, out: &mut Output) -> Result<(), AllocError> {
        out.begin_object()?;
        field(out, "root_name", &self.root_name)?;
        field(out, "resources", &self.resources)?;
        out.end_object()
    }
}

impl<'a> ToJson for QuotaRoot<'a> {
    ghost meaning = { QuotaRootValue };

    ghost said = { quota_root_value };

    ghost json = { quota_root_json };

    fn write(&self, out: &mut Output) -> Result<(), AllocError> {
        out.begin_object()?;
        field(out, "mailbox_name", &self.mailbox_name)?;
        field(out, "quota_root_names", &self.quota_root_names)?;
        out.end_object()
    }
}
