//! The classes of bytes. Text-chars, atom-chars, astring-chars and quoted-chars are told by tables, which are proved
//! equal to their definitions. None takes memory.

ghost use Rattle.std.specs.Prelude.{◌≡◌};
ghost use Rattle.imap_grammar.specs.Classes as classes;

const T: bool = true;

const F: bool = false;

#[rattlefmt::skip]
static TEXT_CHAR: [bool; 256] = [
    F, T, T, T, T, T, T, T, T, T, F, T, T, F, T, T, T, T, T, T, T, T, T, T, T, T, T, T, T, T, T, T,
    T, T, T, T, T, T, T, T, T, T, T, T, T, T, T, T, T, T, T, T, T, T, T, T, T, T, T, T, T, T, T, T,
    T, T, T, T, T, T, T, T, T, T, T, T, T, T, T, T, T, T, T, T, T, T, T, T, T, T, T, T, T, T, T, T,
    T, T, T, T, T, T, T, T, T, T, T, T, T, T, T, T, T, T, T, T, T, T, T, T, T, T, T, T, T, T, T, T,
    T, T, T, T, T, T, T, T, T, T, T, T, T, T, T, T, T, T, T, T, T, T, T, T, T, T, T, T, T, T, T, T,
    T, T, T, T, T, T, T, T, T, T, T, T, T, T, T, T, T, T, T, T, T, T, T, T, T, T, T, T, T, T, T, T,
    T, T, T, T, T, T, T, T, T, T, T, T, T, T, T, T, T, T, T, T, T, T, T, T, T, T, T, T, T, T, T, T,
    T, T, T, T, T, T, T, T, T, T, T, T, T, T, T, T, T, T, T, T, T, T, T, T, T, T, T, T, T, T, T, T,
];

#[rattlefmt::skip]
static ATOM_CHAR: [bool; 256] = [
    F, F, F, F, F, F, F, F, F, F, F, F, F, F, F, F, F, F, F, F, F, F, F, F, F, F, F, F, F, F, F, F,
    F, T, F, T, T, F, T, T, F, F, F, T, T, T, T, T, T, T, T, T, T, T, T, T, T, T, T, T, T, T, T, T,
    T, T, T, T, T, T, T, T, T, T, T, T, T, T, T, T, T, T, T, T, T, T, T, T, T, T, T, T, F, F, T, T,
    T, T, T, T, T, T, T, T, T, T, T, T, T, T, T, T, T, T, T, T, T, T, T, T, T, T, T, F, T, T, T, T,
    T, T, T, T, T, T, T, T, T, T, T, T, T, T, T, T, T, T, T, T, T, T, T, T, T, T, T, T, T, T, T, T,
    T, T, T, T, T, T, T, T, T, T, T, T, T, T, T, T, T, T, T, T, T, T, T, T, T, T, T, T, T, T, T, T,
    T, T, T, T, T, T, T, T, T, T, T, T, T, T, T, T, T, T, T, T, T, T, T, T, T, T, T, T, T, T, T, T,
    T, T, T, T, T, T, T, T, T, T, T, T, T, T, T, T, T, T, T, T, T, T, T, T, T, T, T, T, T, T, T, T,
];

#[rattlefmt::skip]
static ASTRING_CHAR: [bool; 256] = [
    F, F, F, F, F, F, F, F, F, F, F, F, F, F, F, F, F, F, F, F, F, F, F, F, F, F, F, F, F, F, F, F,
    F, T, F, T, T, F, T, T, F, F, F, T, T, T, T, T, T, T, T, T, T, T, T, T, T, T, T, T, T, T, T, T,
    T, T, T, T, T, T, T, T, T, T, T, T, T, T, T, T, T, T, T, T, T, T, T, T, T, T, T, T, F, T, T, T,
    T, T, T, T, T, T, T, T, T, T, T, T, T, T, T, T, T, T, T, T, T, T, T, T, T, T, T, F, T, T, T, T,
    T, T, T, T, T, T, T, T, T, T, T, T, T, T, T, T, T, T, T, T, T, T, T, T, T, T, T, T, T, T, T, T,
    T, T, T, T, T, T, T, T, T, T, T, T, T, T, T, T, T, T, T, T, T, T, T, T, T, T, T, T, T, T, T, T,
    T, T, T, T, T, T, T, T, T, T, T, T, T, T, T, T, T, T, T, T, T, T, T, T, T, T, T, T, T, T, T, T,
    T, T, T, T, T, T, T, T, T, T, T, T, T, T, T, T, T, T, T, T, T, T, T, T, T, T, T, T, T, T, T, T,
];

#[rattlefmt::skip]
static QUOTED_CHAR: [bool; 256] = [
    F, T, T, T, T, T, T, T, T, T, F, T, T, F, T, T, T, T, T, T, T, T, T, T, T, T, T, T, T, T, T, T,
    T, T, F, T, T, T, T, T, T, T, T, T, T, T, T, T, T, T, T, T, T, T, T, T, T, T, T, T, T, T, T, T,
    T, T, T, T, T, T, T, T, T, T, T, T, T, T, T, T, T, T, T, T, T, T, T, T, T, T, T, T, F, T, T, T,
    T, T, T, T, T, T, T, T, T, T, T, T, T, T, T, T, T, T, T, T, T, T, T, T, T, T, T, T, T, T, T, T,
    T, T, T, T, T, T, T, T, T, T, T, T, T, T, T, T, T, T, T, T, T, T, T, T, T, T, T, T, T, T, T, T,
    T, T, T, T, T, T, T, T, T, T, T, T, T, T, T, T, T, T, T, T, T, T, T, T, T, T, T, T, T, T, T, T,
    T, T, T, T, T, T, T, T, T, T, T, T, T, T, T, T, T, T, T, T, T, T, T, T, T, T, T, T, T, T, T, T,
    T, T, T, T, T, T, T, T, T, T, T, T, T, T, T, T, T, T, T, T, T, T, T, T, T, T, T, T, T, T, T, T,
];

/// A char: any byte but 0 (RFC 3501, section 9: CHAR8). No memory.
pub fn is_char(c: u8) -> bool
    ensures { result ≡ classes.is_char c }
{
    c != 0
}

/// A text-char: any byte but 0, CR and LF (RFC 3501, section 9: TEXT-CHAR, which leaves out bytes from 128). No memory.
pub fn is_text_char(c: u8) -> bool
    ensures { result ≡ classes.is_text_char c }
{
    TEXT_CHAR[c as usize]
}

/// A list-wildcard: `%` or `*` (RFC 3501, section 9: list-wildcards). No memory.
pub fn is_list_wildcards(c: u8) -> bool
    ensures { result ≡ classes.is_list_wildcards c }
{
    c == b'%' || c == b'*'
}

/// A quoted-special: `"` or `\` (RFC 3501, section 9: quoted-specials). No memory.
pub fn is_quoted_specials(c: u8) -> bool
    ensures { result ≡ classes.is_quoted_specials c }
{
    c == b'"' || c == b'\\'
}

/// A resp-special: `]` (RFC 3501, section 9: resp-specials). No memory.
pub fn is_resp_specials(c: u8) -> bool
    ensures { result ≡ classes.is_resp_specials c }
{
    c == b']'
}

/// An atom-special: a control below 32, SP, or one of `(`, `)`, `{`, `%`, `*`, `"`, `\`, `]`
/// (RFC 3501, section 9: atom-specials). No memory.
pub fn is_atom_specials(c: u8) -> bool
    ensures { result ≡ classes.is_atom_specials c }
{
    c < b' '
        || matches!(c, b'(' | b')' | b'{' | b' ')
        || is_list_wildcards(c)
        || is_quoted_specials(c)
        || is_resp_specials(c)
}

/// An atom-char: a char that is no atom-special, all bytes from 127 among them (RFC 3501, section 9: ATOM-CHAR). No
/// memory.
pub fn is_atom_char(c: u8) -> bool
    ensures { result ≡ classes.is_atom_char c }
{
    ATOM_CHAR[c as usize]
}

/// An astring-char: an atom-char or `]` (RFC 3501, section 9: ASTRING-CHAR). No memory.
pub fn is_astring_char(c: u8) -> bool
    ensures { result ≡ classes.is_astring_char c }
{
    ASTRING_CHAR[c as usize]
}

/// A quoted-char: a text-char that is no quoted-special (RFC 3501, section 9: QUOTED-CHAR, its single bytes; bytes from
/// 128, too). No memory.
pub fn is_quoted_char(c: u8) -> bool
    ensures { result ≡ classes.is_quoted_char c }
{
    QUOTED_CHAR[c as usize]
}

/// A digit: `0` to `9` (RFC 5234, appendix B.1: DIGIT). No memory.
pub fn is_digit(c: u8) -> bool
    ensures { result ≡ classes.is_digit c }
{
    c.is_ascii_digit()
}

/// A space or a tab (RFC 5234, appendix B.1: WSP). No memory.
pub fn is_blank(c: u8) -> bool
    ensures { result ≡ classes.is_blank c }
{
    c == b' ' || c == b'\t'
}
