//! Sections of a message.

ghost use Rattle.std.specs.Prelude.{◌≡◌};
ghost use Rattle.imap_sections.specs.SectionValues.{PathValue, path_value};
ghost use Rattle.imap_sections.specs.declared.types.sections.MessageSection.{MessageSection as SectionSeen};
ghost use Rattle.imap_json.specs.Sections.{section_name, section_json, path_json};

use crate::forms::{ToJson, variant};
use crate::output::Output;
use imap_sections::{MessageSection, SectionPath};
use std::alloc::AllocError;

fn name(section: &MessageSection) -> &'static str
    ensures { result.now ≡ section_name section.now }
{
    match section {
        MessageSection::Header => "Header",
        MessageSection::Mime => "Mime",
        MessageSection::Text => "Text",
    }
}

impl ToJson for MessageSection {
    ghost meaning = { SectionSeen };

    ghost said = { λ section. section };

    ghost json = { section_json };

    fn write(&self, out: &mut Output) -> Result<(), AllocError> {
        out.string(name(self))
    }
}

impl ToJson for SectionPath {
    ghost meaning = { PathValue };

    ghost said = { path_value };

    ghost json = { path_json };

    fn write(&self, out: &mut Output) -> Result<(), AllocError> {
        match self {
            SectionPath::Full(what) => variant(out, "Full", what),
            SectionPath::Part(numbers, what) => variant(out, "Part", &(numbers, what)),
        }
    }
}
