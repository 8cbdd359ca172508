//! A response as one line of JSON: [`to_json`]; and a line that was skipped: [`skipped_to_json`].
//!
//! `docs/JSON.md` has the form. Each type is told by its own `impl` of a trait, over one writer of JSON.
#![tactic(auto)]

mod acls;
mod annotations;
mod attributes;
mod bodies;
mod capabilities;
mod codes;
mod counts;
mod envelopes;
mod extensions;
mod fields;
mod forms;
mod ids;
pub mod laws;
mod mailbox_data;
mod names;
mod numbers;
mod output;
mod quotas;
mod responses;
mod rights;
mod sections;
mod skipped;
mod statuses;
mod texts;
mod uid_sets;

pub use responses::to_json;
pub use skipped::skipped_to_json;
