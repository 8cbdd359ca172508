//! Extension data of bodies.

use super::fields::BodyParams;

/// How a part is to be shown (RFC 3501, section 9: body-fld-dsp).
#[derive(Debug, Drop, PartialEq, Eq)]
pub struct ContentDisposition<S> {
    /// How, as `INLINE` or `ATTACHMENT`.
    pub ty: S,
    /// The parameters, as `FILENAME`; `None` is `NIL`.
    pub params: BodyParams<S>,
}

/// Extension data that later versions may define (RFC 3501, section 9: body-extension).
#[derive(Debug, Drop, PartialEq, Eq)]
pub enum BodyExtension<S> {
    /// A number.
    Num(u32),
    /// A string; `None` is `NIL`.
    Str(Option<S>),
    /// A list, which may hold lists.
    List(Vec<BodyExtension<S>>),
}

/// Extension data of a single part (RFC 3501, section 9: body-ext-1part).
#[derive(Drop)]
pub struct BodyExt1Part<S> {
    /// The content's MD5 in base64; `None` where it is `NIL` or not told.
    pub md5: Option<S>,
    /// How the part is to be shown; `None` where it is `NIL` or not told.
    pub disposition: Option<ContentDisposition<S>>,
    /// The languages; `None` where they are `NIL` or not told.
    pub language: Option<Vec<S>>,
    /// Where the content is; `None` where it is `NIL` or not told.
    pub location: Option<S>,
    /// What later versions may define; `None` where it is not told.
    pub extension: Option<BodyExtension<S>>,
}

/// Extension data of a multipart (RFC 3501, section 9: body-ext-mpart).
#[derive(Drop)]
pub struct BodyExtMPart<S> {
    /// The parameters, as `BOUNDARY`; `None` where they are `NIL` or not told.
    pub param: BodyParams<S>,
    /// How the parts are to be shown; `None` where it is `NIL` or not told.
    pub disposition: Option<ContentDisposition<S>>,
    /// The languages; `None` where they are `NIL` or not told.
    pub language: Option<Vec<S>>,
    /// Where the content is; `None` where it is `NIL` or not told.
    pub location: Option<S>,
    /// What later versions may define; `None` where it is not told.
    pub extension: Option<BodyExtension<S>>,
}
