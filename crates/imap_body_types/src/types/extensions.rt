//! Extension data of bodies, its texts decoded.

use crate::shapes::extensions;
use std::borrow::CowStr;

/// How a part is to be shown (RFC 3501, section 9: body-fld-dsp).
pub type ContentDisposition<'a> = extensions::ContentDisposition<CowStr<'a>>;

/// Extension data that later versions may define (RFC 3501, section 9: body-extension).
pub type BodyExtension<'a> = extensions::BodyExtension<CowStr<'a>>;

/// Extension data of a single part (RFC 3501, section 9: body-ext-1part).
pub type BodyExt1Part<'a> = extensions::BodyExt1Part<CowStr<'a>>;

/// Extension data of a multipart (RFC 3501, section 9: body-ext-mpart).
pub type BodyExtMPart<'a> = extensions::BodyExtMPart<CowStr<'a>>;
