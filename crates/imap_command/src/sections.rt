//! Sections of a message's body: their judgement, and their text.

ghost use Rattle.std.specs.Prelude.{◌≡◌, ◌==◌, ◌<◌, ◌^◌, ◌++◌, not, All, OnOk, codes};
ghost use Rattle.imap_command.specs.Arguments.{judgement};
ghost use Rattle.imap_command.specs.OtherWords.{behind_space};
ghost use Rattle.imap_command.specs.Sections.{
  PartialInRange,
  SectionInRange,
  body_word,
  dotted,
  names_refusal,
  names_text,
  partial_text,
  said,
  said_maybe,
  said_text,
  section_names,
  section_refusal,
  section_text,
  spec_word,
  text_word,
};
ghost use Rattle.imap_command.specs.Sections as grammar;

use crate::BuildError;
use crate::judging::judge_strings;
use crate::listing::push_string_list;
use crate::numbers::push_number;
use std::alloc::AllocError;

/// A section of a message's body that is to be fetched, as `BODY.PEEK[1.HEADER.FIELDS ("DATE" "FROM")]<0.2048>` (RFC
/// 3501, sections 6.4.5 and 9: fetch-att, section).
#[derive(Clone, Copy, Debug)]
pub struct Section<'a> {
    /// The path to a part by its numbers, none of which is 0; without any, the whole message.
    pub part: &'a [u32],
    /// What of it; `None`: all of it.
    pub text: Option<SectionText<'a>>,
    /// `BODY.PEEK`: the server doesn't set `\Seen` by it.
    pub peek: bool,
    /// The bytes that are asked for; `None`: all of them.
    pub partial: Option<Partial>,
}

/// What of a message or of a part is meant (RFC 3501, section 9: section-msgtext, section-text).
#[derive(Clone, Copy, Debug)]
pub enum SectionText<'a> {
    /// `HEADER`: the header of the message, or of a part that is a message.
    Header,
    /// `HEADER.FIELDS`: the header fields of these names, of which there is one at least.
    Fields(&'a [&'a str]),
    /// `HEADER.FIELDS.NOT`: the other header fields.
    FieldsNot(&'a [&'a str]),
    /// `MIME`: the MIME header of a part; a whole message has none.
    Mime,
    /// `TEXT`: the body without the header, of the message or of a part that is a message.
    Text,
}

/// So many bytes of a section, from one on (RFC 3501, section 9: fetch-att).
#[derive(Clone, Copy, Debug)]
pub struct Partial {
    /// The first byte; that of the section is 0.
    pub start: u32,
    /// How many bytes at most, and not 0.
    pub count: u32,
}

impl SectionText<'_> {
    // Without the names of header fields.
    fn word(&self) -> &'static [u8]
        ensures { result.now ≡ text_word (said_text self.now) }
    {
        match self {
            SectionText::Header => b"HEADER",
            SectionText::Fields(_) => b"HEADER.FIELDS",
            SectionText::FieldsNot(_) => b"HEADER.FIELDS.NOT",
            SectionText::Mime => b"MIME",
            SectionText::Text => b"TEXT",
        }
    }
}

fn is_part(part: &[u32]) -> bool
    ensures answer { result ≡ grammar.is_part part.now }
    ensures in_range { All (λ n. n < 2 ^ 32) part.now }
{
    for number in part {
        if *number == 0 {
            return false;
        }
    }
    true
}

// Whether the text may stand behind this path, and names a header field where it is to name some.
fn stands_behind(part: &[u32], text: &Option<SectionText<'_>>) -> bool
    ensures { result ≡ grammar.stands_behind part.now (said_maybe text.now) }
{
    match text {
        Some(SectionText::Fields(names) | SectionText::FieldsNot(names)) => !names.is_empty(),
        Some(SectionText::Mime) => !part.is_empty(),
        _ => true,
    }
}

fn is_count(start: u32, count: u32) -> bool
    ensures answer { result ≡ not (count == 0) }
    ensures in_range { (start < 2 ^ 32) × (count < 2 ^ 32) }
{
    count > 0
}

fn is_partial(partial: &Option<Partial>) -> bool
    ensures answer { result ≡ grammar.is_partial partial.now }
    ensures in_range { PartialInRange partial.now }
{
    match partial {
        Some(partial) => is_count(partial.start, partial.count),
        None => true,
    }
}

fn is_section(section: &Section<'_>) -> bool
    ensures answer { result ≡ grammar.is_section (said section.now) }
    ensures in_range { SectionInRange (said section.now) }
{
    let is_part = is_part(section.part);
    let is_partial = is_partial(&section.partial);
    is_part && is_partial && stands_behind(section.part, &section.text)
}

fn judge_names(text: &Option<SectionText<'_>>) -> Result<(), BuildError>
    ensures { result ≡ judgement (names_refusal (section_names (said_maybe text.now))) }
{
    match text {
        Some(SectionText::Fields(names) | SectionText::FieldsNot(names)) => judge_strings(names),
        _ => Ok(()),
    }
}

// Refuses what the grammar has no section for, and names that aren't quoted strings. It takes no memory.
pub(crate) fn judge_section(section: &Section<'_>) -> Result<(), BuildError>
    ensures answer { result ≡ judgement (section_refusal (said section.now)) }
    ensures in_range { SectionInRange (said section.now) }
{
    if is_section(section) {
        judge_names(&section.text)
    } else {
        Err(BuildError::BadSection)
    }
}

// What stands before the part: `BODY.PEEK[` or `BODY[`.
fn push_body(out: &mut Vec<u8>, peek: bool) -> Result<(), AllocError>
    ensures { OnOk result (out.new.items ≡ out.old.items ++ (body_word peek ++ codes "[")) }
{
    if peek {
        out.extend_from_slice(b"BODY.PEEK[")
    } else {
        out.extend_from_slice(b"BODY[")
    }
}

fn push_part(out: &mut Vec<u8>, part: &[u32]) -> Result<(), AllocError>
    ensures { OnOk result (out.new.items ≡ out.old.items ++ dotted part.now) }
{
    if let [first, others @ ..] = part {
        push_number(out, u64::from(*first))?;
        for number in others {
            out.push(b'.')?;
            push_number(out, u64::from(*number))?;
        }
    }
    Ok(())
}

// The part, and the word of the text behind it.
fn push_spec(out: &mut Vec<u8>, section: &Section<'_>) -> Result<(), AllocError>
    ensures { OnOk result (out.new.items
        ≡ out.old.items ++ spec_word (said section.now).part (said section.now).text) }
{
    push_part(out, section.part)?;
    if let Some(text) = &section.text {
        if !section.part.is_empty() {
            out.push(b'.')?;
        }
        out.extend_from_slice(text.word())?;
    }
    Ok(())
}

// The list of names behind a space, if there is one.
fn push_names(out: &mut Vec<u8>, text: &Option<SectionText<'_>>) -> Result<(), AllocError>
    ensures { OnOk result (out.new.items ≡ out.old.items ++ names_text (section_names (said_maybe text.now))) }
{
    match text {
        Some(SectionText::Fields(names) | SectionText::FieldsNot(names)) => {
            out.push(b' ')?;
            push_string_list(out, names)
        }
        _ => Ok(()),
    }
}

fn push_partial(out: &mut Vec<u8>, partial: &Option<Partial>) -> Result<(), AllocError>
    ensures { OnOk result (out.new.items ≡ out.old.items ++ partial_text partial.now) }
{
    if let Some(partial) = partial {
        out.push(b'<')?;
        push_number(out, u64::from(partial.start))?;
        out.push(b'.')?;
        push_number(out, u64::from(partial.count))?;
        out.push(b'>')?;
    }
    Ok(())
}

// Adds the section behind a space.
pub(crate) fn push_section(out: &mut Vec<u8>, section: &Section<'_>) -> Result<(), AllocError>
    ensures { OnOk result (out.new.items ≡ out.old.items ++ behind_space (section_text (said section.now))) }
{
    out.push(b' ')?;
    push_body(out, section.peek)?;
    push_spec(out, section)?;
    push_names(out, &section.text)?;
    out.push(b']')?;
    push_partial(out, &section.partial)
}
