//! Lines and calls with the answers that they are known to have, as tests by topic.
//!
//! Each row of a table has an input and the text of its answer: the debug text of the value, and behind `then` the
//! bytes that are left.
#![tactic(auto)]

#[cfg(test)]
mod answers;
#[cfg(test)]
mod asked_sections;
#[cfg(test)]
mod bodies;
#[cfg(test)]
mod bytes;
#[cfg(test)]
mod canonical;
#[cfg(test)]
mod codes;
#[cfg(test)]
mod commands;
#[cfg(test)]
mod copies;
#[cfg(test)]
mod envelopes;
#[cfg(test)]
mod escapes;
#[cfg(test)]
mod extensions;
#[cfg(test)]
mod fetches;
#[cfg(test)]
mod fronts;
#[cfg(test)]
mod json;
#[cfg(test)]
mod kept;
#[cfg(test)]
mod lines_skipped;
#[cfg(test)]
mod lists;
#[cfg(test)]
mod mailboxes;
#[cfg(test)]
mod nests;
#[cfg(test)]
mod other_commands;
#[cfg(test)]
mod owned;
#[cfg(test)]
mod parts;
#[cfg(test)]
mod readers;
#[cfg(test)]
mod reports;
#[cfg(test)]
mod sections;
#[cfg(test)]
mod sessions;
#[cfg(test)]
mod sizes;
#[cfg(test)]
mod statuses;
#[cfg(test)]
mod streams;
#[cfg(test)]
mod texts;
#[cfg(test)]
mod uses;
