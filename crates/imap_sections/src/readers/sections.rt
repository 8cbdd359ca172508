//! Sections.

ghost use Rattle.std.specs.Prelude.{IsTrue};
ghost use Rattle.std.specs.Option.{option_map};
ghost use Rattle.imap_grammar.specs.Answer.{Answers, Steps, StepsExactly};
ghost use Rattle.imap_grammar.specs.Memory.{BeginsWord, FailsOnlyIf, NeverFails};
ghost use Rattle.imap_grammar.specs.Meaning.{begins};
ghost use Rattle.imap_grammar.specs.Classes.{is_digit};
ghost use Rattle.imap_sections.specs.Sections as sections;
ghost use Rattle.imap_sections.specs.SectionValues.{path_value};

use crate::at;
use crate::types::sections::{MessageSection, SectionPath};
use imap_bytes::IResult;
use imap_bytes::at::span::rest;
use std::alloc::Global;

/// The path of a part: numbers with dots between (RFC 3501, section 9: section-part, zero allowed).
///
/// No digit in front, or a first number past 32 bits, is `Error`. It takes memory for the path, and none without a
/// digit in front.
#[tactic(auto, using(imap_grammar::proofs::Agreement::answered))]
pub fn section_part(alloc: Global, i: &[u8]) -> IResult<&[u8], Vec<u32>>
    ensures steps { Steps sections.section_part (λ x. x.items) i.now result }
    ensures answer { Answers sections.section_part (λ x. x.items) i.now result }
    ensures memory { FailsOnlyIf (IsTrue (begins is_digit i.now)) result }
{
    let (q, path) = at::sections::section_part(alloc, i, 0)?;
    Ok((rest(i, q), path))
}

/// `HEADER`, `HEADER.FIELDS` or `HEADER.FIELDS.NOT` with names of header fields, or `TEXT` (RFC 3501, section 9:
/// section-msgtext).
///
/// What begins with neither `HEADER` nor `TEXT` is `Error`. Where the names are denied, `HEADER` alone is read.
///
/// It takes no memory: the names are read and dropped.
#[tactic(auto, using(imap_grammar::proofs::Agreement::exact_answer))]
pub fn section_msgtext(i: &[u8]) -> IResult<&[u8], MessageSection>
    ensures steps { StepsExactly sections.section_msgtext (λ x. x) i.now result }
    ensures answer { Answers sections.section_msgtext (λ x. x) i.now result }
    ensures no_failure { NeverFails result }
{
    let (q, what) = at::sections::section_msgtext(i, 0)?;
    Ok((rest(i, q), what))
}

/// A section in brackets, `None` where they are empty (RFC 3501, section 9: section).
///
/// No `[`, or behind it neither `]` nor a section and then `]`, is `Error`. It takes memory for the path of a part, and
/// only behind the `[`.
#[tactic(auto, using(imap_grammar::proofs::Agreement::answered))]
pub fn section(alloc: Global, i: &[u8]) -> IResult<&[u8], Option<SectionPath>>
    ensures steps { Steps sections.section (option_map path_value) i.now result }
    ensures answer { Answers sections.section (option_map path_value) i.now result }
    ensures memory { FailsOnlyIf (BeginsWord "[" i.now) result }
{
    let (q, path) = at::sections::section(alloc, i, 0)?;
    Ok((rest(i, q), path))
}

impl MessageSection {
    /// What `section_msgtext` reads, or `MIME` (RFC 3501, section 9: section-text).
    ///
    /// What begins with none of `HEADER`, `TEXT` and `MIME` is `Error`. It takes no memory.
    #[tactic(auto, using(imap_grammar::proofs::Agreement::exact_answer))]
    pub fn parse(i: &[u8]) -> IResult<&[u8], MessageSection>
        ensures steps { StepsExactly sections.section_text (λ x. x) i.now result }
        ensures answer { Answers sections.section_text (λ x. x) i.now result }
        ensures no_failure { NeverFails result }
    {
        let (q, what) = at::sections::section_text(i, 0)?;
        Ok((rest(i, q), what))
    }
}

impl SectionPath {
    /// What of a message is meant, or of which part (RFC 3501, section 9: section-spec).
    ///
    /// What begins with none of `HEADER`, `TEXT` and a number below 2^32 is `Error`; so is `MIME`, which is of parts
    /// alone. It takes memory for the path of a part, and none without a digit in front.
    #[tactic(auto, using(imap_grammar::proofs::Agreement::answered))]
    pub fn parse(alloc: Global, i: &[u8]) -> IResult<&[u8], SectionPath>
        ensures steps { Steps sections.section_spec path_value i.now result }
        ensures answer { Answers sections.section_spec path_value i.now result }
        ensures memory { FailsOnlyIf (IsTrue (begins is_digit i.now)) result }
    {
        let (q, path) = at::sections::section_spec(alloc, i, 0)?;
        Ok((rest(i, q), path))
    }
}
