//! The values that the readers give.

pub(crate) mod annotations;
pub(crate) mod codes;
pub(crate) mod counts;
pub(crate) mod mailbox_data;
pub(crate) mod names;
