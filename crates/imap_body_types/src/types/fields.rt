//! Parameters, encodings and fields of bodies, their texts decoded.

use crate::shapes::fields;
use std::borrow::CowStr;

/// Parameters, if there are any: names and values (RFC 3501, section 9: body-fld-param).
pub type BodyParams<'a> = fields::BodyParams<CowStr<'a>>;

/// How a body is encoded (RFC 3501, section 9: body-fld-enc).
pub type ContentEncoding<'a> = fields::ContentEncoding<CowStr<'a>>;

/// The fields of a single part (RFC 3501, section 9: body-fields).
pub type BodyFields<'a> = fields::BodyFields<CowStr<'a>>;
