//! Annotations of mailboxes.

ghost use Rattle.std.specs.Prelude.{◌≡◌, [], IfOk, IsOk, map};
ghost use Rattle.std.specs.Option.{option_map};
ghost use Rattle.std.specs.String.{string_bytes};
ghost use Rattle.imap_data.specs.AnnotationValues.{MetadataValue, metadata_value};

use imap_shared::copies::{TryClone, each_copied};
use std::alloc::AllocError;

/// An annotation: its entry and its value, if it has one (RFC 5464, section 5).
#[derive(Debug, Drop, PartialEq, Eq)]
pub struct Metadata {
    /// The entry's name, as it stands.
    pub entry: String,
    /// Its value, raw: backslashes of a quoted string stay. `None` is `NIL`: there is no such entry.
    pub value: Option<String>,
}

impl Metadata {
    /// A copy. It takes memory for the texts; `Err`: memory ran out.
    pub fn clone(&self) -> Result<Self, AllocError>
        ensures { IfOk result (λ c. metadata_value c ≡ metadata_value self.now) }
    {
        Ok(Metadata {
            entry: self.entry.clone()?,
            value: copied_value(&self.value)?,
        })
    }
}

fn copied_value(value: &Option<String>) -> Result<Option<String>, AllocError>
    ensures { IfOk result (λ v. option_map string_bytes v ≡ option_map string_bytes value.now) }
{
    Ok(match value {
        None => None,
        Some(value) => Some(value.clone()?),
    })
}

impl TryClone for Metadata {
    ghost meaning = { MetadataValue };

    ghost said = { metadata_value };

    fn try_clone(&self) -> Result<Metadata, AllocError> {
        self.clone()
    }
}

/// The same annotations. It takes memory for the list, unless that is empty, and for the texts; `Err`: memory ran out.
pub(crate) fn copied_annotations(annotations: &Vec<Metadata>) -> Result<Vec<Metadata>, AllocError>
    ensures same { IfOk result (λ v.
        map metadata_value v.items ≡ map metadata_value annotations.now.items) }
    ensures memory { annotations.now.items ≡ [] → IsOk result }
{
    each_copied(annotations)
}
