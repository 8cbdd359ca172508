//! Body structures, their texts decoded.

use crate::shapes::bodies;
use std::borrow::{CowSlice, CowStr};

/// The type of a body's content (RFC 3501, section 9: media-basic, media-message, media-text).
pub type ContentType<'a> = bodies::ContentType<CowStr<'a>>;

/// What every body says of its content (RFC 3501, section 7.4.2: BODYSTRUCTURE).
pub type BodyContentCommon<'a> = bodies::BodyContentCommon<CowStr<'a>>;

/// What a single part says beyond `BodyContentCommon` (RFC 3501, section 7.4.2: BODYSTRUCTURE).
pub type BodyContentSinglePart<'a> = bodies::BodyContentSinglePart<CowStr<'a>>;

/// The structure of a body (RFC 3501, section 9: body).
pub type BodyStructure<'a> = bodies::BodyStructure<CowStr<'a>, CowSlice<'a, u8>>;
