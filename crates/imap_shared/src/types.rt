//! The values that the readers give.

pub(crate) mod capabilities;
pub(crate) mod rights;
pub(crate) mod statuses;
pub(crate) mod uid_sets;
