//! Parameters, encodings and fields of bodies.

/// Parameters, if there are any: names and values (RFC 3501, section 9: body-fld-param).
pub type BodyParams<S> = Option<Vec<(S, S)>>;

/// How a body is encoded (RFC 3501, section 9: body-fld-enc).
#[derive(Debug, Drop, PartialEq, Eq)]
pub enum ContentEncoding<S> {
    /// `7BIT`, or none was named.
    SevenBit,
    /// `8BIT`
    EightBit,
    /// `BINARY`
    Binary,
    /// `BASE64`
    Base64,
    /// `QUOTED-PRINTABLE`
    QuotedPrintable,
    /// Any other, and any as a literal, `7BIT` too. It is raw: backslashes of a quoted string stay.
    Other(S),
}

/// The fields of a single part (RFC 3501, section 9: body-fields).
#[derive(Drop)]
pub struct BodyFields<S> {
    /// The parameters of the type; `None` is `NIL`.
    pub param: BodyParams<S>,
    /// The content's id; `None` is `NIL`.
    pub id: Option<S>,
    /// The description; `None` is `NIL`.
    pub description: Option<S>,
    /// How the content is encoded.
    pub transfer_encoding: ContentEncoding<S>,
    /// How many bytes the content has, as it is encoded.
    pub octets: u32,
}
