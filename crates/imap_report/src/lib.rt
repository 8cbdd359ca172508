//! The report of a stream of responses: a line for each one, and a last line on what is left.
//!
//! [`run`] reads a source piece by piece and writes the report of its bytes to a sink as they come; [`cat`] is the
//! whole program over any two devices, and tells by its exit status how the run ended. The words of a report are a
//! [`Wording`]: [`Plain`] are those of `imap_cat`.
#![tactic(auto)]

mod devices;
mod ending;
pub mod laws;
mod outcome;
mod plain;
mod readers;
mod running;
mod telling;
mod wording;
mod writers;

pub use devices::{Sink, Source};
pub use ending::{cat, exit_of};
pub use outcome::{Fault, Finish};
pub use plain::Plain;
pub use readers::Reading;
pub use running::{report_of, run};
pub use wording::{OnDenied, Wording};
pub use writers::Writing;
