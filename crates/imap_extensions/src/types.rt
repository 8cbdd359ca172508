//! The values that the readers give.

pub(crate) mod acls;
pub(crate) mod ids;
pub(crate) mod quotas;
