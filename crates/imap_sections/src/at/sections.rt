//! Sections at a position.

ghost use Rattle.std.specs.Prelude.{◌≤◌, length, drop, IsTrue};
ghost use Rattle.std.specs.Option.{option_map};
ghost use Rattle.imap_grammar.specs.Positions.{Ahead, named_in, StepsAt, StepsExactlyAt};
ghost use Rattle.imap_grammar.specs.Memory.{BeginsWord, FailsOnlyIf, NeverFails};
ghost use Rattle.imap_grammar.specs.Meaning.{begins};
ghost use Rattle.imap_grammar.specs.Classes.{is_digit};
ghost use Rattle.imap_grammar.specs.Rule.{opt, otherwise, ◌▹◌};
ghost use Rattle.imap_grammar.specs.Tags as tags;
ghost use Rattle.imap_bytes.specs.Strings as strings;
ghost use Rattle.imap_bytes.specs.Numbers as numbers;
ghost use Rattle.imap_sections.specs.Sections as sections;
ghost use Rattle.imap_envelopes.specs.Envelopes.{spaced};
ghost use Rattle.imap_sections.specs.SectionValues.{path_value};
ghost use Rattle.imap_sections.specs.declared.types.sections.MessageSection.TheVariants as what;

use crate::types::sections::{MessageSection, SectionPath};
use imap_bytes::at::Reached;
use imap_bytes::at::numbers::number;
use imap_bytes::at::span::Span;
use imap_bytes::at::strings::astring;
use imap_bytes::at::tags::{maybe_space, tag, word};
use imap_bytes::lists::tried;
use imap_bytes::{Err, Needed, first, maybe};
use imap_envelopes::at::lists::list_of_one;
use std::alloc::Global;

fn spaced_name(m: &[u8], p: usize) -> Reached<Span>
    requires { p ≤ length m.now }
    ensures steps { StepsExactlyAt (spaced strings.astring) (named_in m.now) m.now p result }
    ensures ahead { Ahead m.now p result }
{
    let (p, _) = tag(b" ", m, p)?;
    astring(m, p)
}

// Names of header fields, read and dropped.
#[tactic(auto, unfolding(crate::specs::Sections::header_names))]
fn header_names(m: &[u8], p: usize) -> Reached<()>
    requires { p ≤ length m.now }
    ensures steps { StepsExactlyAt sections.header_names (λ x. tt) m.now p result }
    ensures ahead { Ahead m.now p result }
{
    let (mut q, _) = astring(m, p)?;
    'names: while let Some((after, _)) = tried(spaced_name(m, q))? {
        q = after;
    }
    Ok((q, ()))
}

fn maybe_header_names(m: &[u8], p: usize) -> Reached<()>
    requires { p ≤ length m.now }
    ensures steps { StepsExactlyAt (otherwise sections.header_names tt) (λ x. tt) m.now p result }
    ensures ahead { Ahead m.now p result }
{
    match header_names(m, p) {
        Err(Err::Error) => Ok((p, ())),
        other => other,
    }
}

#[tactic(auto, unfolding(crate::specs::Sections::header_list))]
fn header_list(m: &[u8], p: usize) -> Reached<()>
    requires { p ≤ length m.now }
    ensures steps { StepsExactlyAt sections.header_list (λ x. tt) m.now p result }
    ensures ahead { Ahead m.now p result }
{
    let (p, _) = tag(b"(", m, p)?;
    let (p, _) = maybe_header_names(m, p)?;
    let (p, _) = maybe_space(m, p)?;
    let (p, _) = tag(b")", m, p)?;
    Ok((p, ()))
}

#[tactic(auto, unfolding(crate::specs::Sections::fields_word))]
fn fields_word(m: &[u8], p: usize) -> Reached<Span>
    requires { p ≤ length m.now }
    ensures steps { StepsExactlyAt sections.fields_word (named_in m.now) m.now p result }
    ensures ahead { Ahead m.now p result }
{
    word(b"HEADER.FIELDS", m, p)
}

#[tactic(auto, unfolding(crate::specs::Sections::not_word))]
fn maybe_not(m: &[u8], p: usize) -> Reached<Option<Span>>
    requires { p ≤ length m.now }
    ensures steps { StepsExactlyAt (opt sections.not_word) (option_map (named_in m.now))
        m.now p result }
    ensures ahead { Ahead m.now p result }
{
    maybe!(word(b".NOT", m, p), p)
}

#[tactic(auto, unfolding(crate::specs::Sections::header_fields))]
fn header_fields(m: &[u8], p: usize) -> Reached<MessageSection>
    requires { p ≤ length m.now }
    ensures steps { StepsExactlyAt sections.header_fields (λ x. x) m.now p result }
    ensures ahead { Ahead m.now p result }
{
    let (p, _) = fields_word(m, p)?;
    let (p, _) = maybe_not(m, p)?;
    let (p, _) = tag(b" ", m, p)?;
    let (p, _) = header_list(m, p)?;
    Ok((p, MessageSection::Header))
}

fn header(m: &[u8], p: usize) -> Reached<MessageSection>
    requires { p ≤ length m.now }
    ensures steps { StepsExactlyAt (tags.names "HEADER" what.Header) (λ x. x) m.now p result }
    ensures ahead { Ahead m.now p result }
{
    let (p, _) = word(b"HEADER", m, p)?;
    Ok((p, MessageSection::Header))
}

#[tactic(auto, unfolding(crate::specs::Sections::header_text))]
fn header_text(m: &[u8], p: usize) -> Reached<MessageSection>
    requires { p ≤ length m.now }
    ensures steps { StepsExactlyAt sections.header_text (λ x. x) m.now p result }
    ensures ahead { Ahead m.now p result }
{
    first!(header_fields(m, p));
    header(m, p)
}

#[tactic(auto, unfolding(crate::specs::Sections::body_text))]
fn body_text(m: &[u8], p: usize) -> Reached<MessageSection>
    requires { p ≤ length m.now }
    ensures steps { StepsExactlyAt sections.body_text (λ x. x) m.now p result }
    ensures ahead { Ahead m.now p result }
{
    let (p, _) = word(b"TEXT", m, p)?;
    Ok((p, MessageSection::Text))
}

fn mime(m: &[u8], p: usize) -> Reached<MessageSection>
    requires { p ≤ length m.now }
    ensures steps { StepsExactlyAt (tags.names "MIME" what.Mime) (λ x. x) m.now p result }
    ensures ahead { Ahead m.now p result }
    ensures no_failure { NeverFails result }
{
    let (p, _) = word(b"MIME", m, p)?;
    Ok((p, MessageSection::Mime))
}

/// What of a message is meant (RFC 3501, section 9: section-msgtext). What begins with neither `HEADER` nor `TEXT` is
/// `Error`. No memory: names of header fields are read and dropped.
#[tactic(auto, using(imap_grammar::proofs::Memory::exactly_never_at, crate::proofs::SectionFirstBytes::msgtext_arms))]
#[inline(always)]
pub fn section_msgtext(m: &[u8], p: usize) -> Reached<MessageSection>
    requires { p ≤ length m.now }
    ensures steps { StepsExactlyAt sections.section_msgtext (λ x. x) m.now p result }
    ensures ahead { Ahead m.now p result }
    ensures no_failure { NeverFails result }
{
    let (_, i) = m.split_at(p);
    match i.first() {
        None => Err(Err::Incomplete(Needed::Unknown)),
        Some(b'h' | b'H') => header_text(m, p),
        Some(b't' | b'T') => body_text(m, p),
        Some(_) => Err(Err::Error),
    }
}

/// What of a part is meant (RFC 3501, section 9: section-text). What begins with none of `HEADER`, `TEXT` and `MIME` is
/// `Error`. No memory.
#[tactic(auto, unfolding(crate::specs::Sections::section_text))]
pub fn section_text(m: &[u8], p: usize) -> Reached<MessageSection>
    requires { p ≤ length m.now }
    ensures steps { StepsExactlyAt sections.section_text (λ x. x) m.now p result }
    ensures ahead { Ahead m.now p result }
    ensures no_failure { NeverFails result }
{
    first!(section_msgtext(m, p));
    mime(m, p)
}

fn dotted_number(m: &[u8], p: usize) -> Reached<u32>
    requires { p ≤ length m.now }
    ensures steps { StepsExactlyAt (tags.tag "." ▹ numbers.number) (λ x. x) m.now p result }
    ensures ahead { Ahead m.now p result }
{
    let (p, _) = tag(b".", m, p)?;
    number(m, p)
}

/// The path of a part: numbers with dots between (RFC 3501, section 9: section-part, zero allowed).
///
/// No digit in front, or a first number past 32 bits, is `Error`. It takes memory for the path, and none without a
/// digit in front.
#[tactic(auto, unfolding(crate::specs::Sections::section_part))]
pub fn section_part(alloc: Global, m: &[u8], p: usize) -> Reached<Vec<u32>>
    requires { p ≤ length m.now }
    ensures steps { StepsAt sections.section_part (λ x. x.items) m.now p result }
    ensures ahead { Ahead m.now p result }
    ensures memory { FailsOnlyIf (IsTrue (begins is_digit (drop p m.now))) result }
{
    let (mut q, first) = number(m, p)?;
    let mut items = list_of_one(alloc, first)?;
    'numbers: while let Some((after, n)) = tried(dotted_number(m, q))? {
        items.push(n)?;
        q = after;
    }
    Ok((q, items))
}

#[tactic(auto, unfolding(crate::specs::Sections::part_text))]
fn part_text(m: &[u8], p: usize) -> Reached<MessageSection>
    requires { p ≤ length m.now }
    ensures steps { StepsExactlyAt sections.part_text (λ x. x) m.now p result }
    ensures ahead { Ahead m.now p result }
{
    let (p, _) = tag(b".", m, p)?;
    section_text(m, p)
}

fn maybe_part_text(m: &[u8], p: usize) -> Reached<Option<MessageSection>>
    requires { p ≤ length m.now }
    ensures steps { StepsExactlyAt (opt sections.part_text) (λ x. x) m.now p result }
    ensures ahead { Ahead m.now p result }
{
    maybe!(part_text(m, p), p)
}

#[tactic(auto, unfolding(crate::specs::Sections::part_path))]
fn part_path(alloc: Global, m: &[u8], p: usize) -> Reached<SectionPath>
    requires { p ≤ length m.now }
    ensures steps { StepsAt sections.part_path path_value m.now p result }
    ensures ahead { Ahead m.now p result }
    ensures memory { FailsOnlyIf (IsTrue (begins is_digit (drop p m.now))) result }
{
    let (p, numbers) = section_part(alloc, m, p)?;
    let (p, what) = maybe_part_text(m, p)?;
    Ok((p, SectionPath::Part(numbers, what)))
}

/// What of a message is meant, or of which part (RFC 3501, section 9: section-spec).
///
/// What begins with none of `HEADER`, `TEXT` and a number below 2^32 is `Error`; so is `MIME`, which is of parts alone.
/// It takes memory for the path of a part, and none without a digit in front.
#[tactic(auto, unfolding(crate::specs::Sections::section_spec))]
pub fn section_spec(alloc: Global, m: &[u8], p: usize) -> Reached<SectionPath>
    requires { p ≤ length m.now }
    ensures steps { StepsAt sections.section_spec path_value m.now p result }
    ensures ahead { Ahead m.now p result }
    ensures memory { FailsOnlyIf (IsTrue (begins is_digit (drop p m.now))) result }
{
    first!(section_msgtext(m, p), what => SectionPath::Full(what));
    part_path(alloc, m, p)
}

fn maybe_spec(alloc: Global, m: &[u8], p: usize) -> Reached<Option<SectionPath>>
    requires { p ≤ length m.now }
    ensures steps { StepsAt (opt sections.section_spec) (option_map path_value) m.now p result }
    ensures ahead { Ahead m.now p result }
{
    maybe!(section_spec(alloc, m, p), p)
}

/// A section in brackets, `None` where they are empty (RFC 3501, section 9: section).
///
/// No `[`, or behind it neither `]` nor a section and then `]`, is `Error`. It takes memory for the path of a part, and
/// only behind the `[`.
#[tactic(auto, unfolding(crate::specs::Sections::section))]
pub fn section(alloc: Global, m: &[u8], p: usize) -> Reached<Option<SectionPath>>
    requires { p ≤ length m.now }
    ensures steps { StepsAt sections.section (option_map path_value) m.now p result }
    ensures ahead { Ahead m.now p result }
    ensures memory { FailsOnlyIf (BeginsWord "[" (drop p m.now)) result }
{
    let (p, _) = tag(b"[", m, p)?;
    let (p, path) = maybe_spec(alloc, m, p)?;
    let (p, _) = tag(b"]", m, p)?;
    Ok((p, path))
}
