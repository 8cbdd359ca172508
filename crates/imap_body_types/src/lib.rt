//! What bodies of messages are made of: types generic in their texts. For each type, a map that changes its texts:
//! into owned ones, or from spans to what they name in a message.
#![tactic(auto)]

pub mod laws;
pub mod maps;
mod owned;
pub mod shapes;
pub mod spans;
mod types;
mod values;

pub use types::bodies::{BodyContentCommon, BodyContentSinglePart, BodyStructure, ContentType};
pub use types::envelopes::{Address, Envelope};
pub use types::extensions::{BodyExt1Part, BodyExtMPart, BodyExtension, ContentDisposition};
pub use types::fields::{BodyFields, BodyParams, ContentEncoding};
