//! Readers of slices, each of the rule of its name.
//!
//! Each answers `Error` where its rule denies what stands there, whatever follows; `Incomplete` where more bytes are
//! needed to tell; and `Failure` only where memory ran out.

pub mod attributes;

pub use attributes::{attribute, attribute_list, attribute_values_at};
pub use imap_bodystructure::readers::{
    bodies, body_extension, body_fields, body_structure, extensions, fields,
};
pub use imap_envelopes::readers::{address, envelope};
pub use imap_sections::readers::sections;
