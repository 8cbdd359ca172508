//! Annotations of mailboxes.

ghost use Rattle.imap_data.specs.AnnotationValues.{MetadataValue, metadata_value};
ghost use Rattle.imap_json.specs.Annotations.{metadata_json};

use crate::forms::{ToJson, field};
use crate::output::Output;
use imap_data::Metadata;
use std::alloc::AllocError;

impl ToJson for Metadata {
    ghost meaning = { MetadataValue };

    ghost said = { metadata_value };

    ghost json = { metadata_json };

    fn write(&self, out: &mut Output) -> Result<(), AllocError> {
        out.begin_object()?;
        field(out, "entry", &self.entry)?;
        field(out, "value", &self.value)?;
        out.end_object()
    }
}
