//! How deep bodies and extension lists may nest.

/// How many bodies may stand inside one another, the outermost counted. One more is `Error` (RFC 3501 sets no limit).
pub const MAX_BODY_DEPTH: u32 = 100;

/// How many extension lists may stand inside one another, the outermost counted. One more is `Error` (RFC 3501 sets no
/// limit).
pub const MAX_EXTENSION_DEPTH: u32 = 100;
