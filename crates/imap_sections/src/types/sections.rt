//! Sections of a body.

ghost use Rattle.std.specs.Prelude.{Some};
ghost use Rattle.imap_grammar.specs.Pieces.{written};
ghost use Rattle.imap_sections.specs.SectionValues.{path_value};
ghost use Rattle.imap_sections.specs.SectionTexts.{canonical_section_text, canonical_part, canonical_path};

use std::fmt;

/// What of a message or of a part is meant (RFC 3501, section 9: section-msgtext, section-text).
#[derive(Clone, Copy, Debug, PartialEq, Eq)]
pub enum MessageSection {
    /// `HEADER`, `HEADER.FIELDS` or `HEADER.FIELDS.NOT`: they are not told apart, and the names of fields are not kept.
    Header,
    /// `MIME`
    Mime,
    /// `TEXT`
    Text,
}

/// Of what, the whole message or a part, and what of it (RFC 3501, section 9: section-spec).
#[derive(Debug, Drop, PartialEq, Eq)]
pub enum SectionPath {
    /// What of the whole message.
    Full(MessageSection),
    /// The part at a path, and what of it.
    Part(Vec<u32>, Option<MessageSection>),
}

impl fmt::Display for MessageSection {
    ghost output = { λ what. Some (written (canonical_section_text what)) };

    fn fmt<W: fmt::Write>(&self, f: &mut fmt::Formatter<W>) -> fmt::Result {
        f.write_str(match self {
            MessageSection::Header => "HEADER",
            MessageSection::Mime => "MIME",
            MessageSection::Text => "TEXT",
        })
    }
}

// Part numbers, with a dot between them.
#[derive(Clone, Copy)]
struct Dotted<'a>(&'a [u32]);

impl fmt::Display for Dotted<'_> {
    ghost output = { λ numbers. Some (written (canonical_part numbers.0.now)) };

    fn fmt<W: fmt::Write>(&self, f: &mut fmt::Formatter<W>) -> fmt::Result {
        if let [first, more @ ..] = self.0 {
            write!(f, "{first}")?;
            for number in more {
                write!(f, ".{number}")?;
            }
        }
        Ok(())
    }
}

/// As the text of a section names it, without brackets: `1.2.MIME` (RFC 3501, section 9: section-spec).
impl fmt::Display for SectionPath {
    ghost output = { λ path. Some (written (canonical_path (path_value path))) };

    fn fmt<W: fmt::Write>(&self, f: &mut fmt::Formatter<W>) -> fmt::Result {
        match self {
            SectionPath::Full(what) => write!(f, "{what}"),
            SectionPath::Part(numbers, None) => write!(f, "{}", Dotted(numbers)),
            SectionPath::Part(numbers, Some(what)) => { write!(f, "{}.{what}", Dotted(numbers)) }
        }
    }
}
