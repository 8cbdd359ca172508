//! Sections that a command asks for.

use crate::commands::{assert_is, assert_refused};
use imap_proto::builders::command::{
    BuildError, Command, CommandBuilder, Partial, Section, SectionText,
};
use std::alloc::Global;
use std::test::*;

// Part, text, peek and partial of a section.
type Asked = (
    &'static [u32],
    Option<SectionText<'static>>,
    bool,
    Option<Partial>,
);

// A section by itself, and one behind a set.
fn asked(alloc: Global, (part, text, peek, partial): Asked) -> Result<Command, BuildError> {
    let section = Section {
        part,
        text,
        peek,
        partial,
    };
    let command = CommandBuilder::other(alloc, "X")?.section(&section)?;
    let command = command.num(1)?.section(&section)?;
    Ok(command.into_command(None))
}

// Sections, and the lines that have them.
static SECTIONS: &[(Asked, &str)] = &[
    ((&[], None, false, None), "X BODY[] 1 BODY[]"),
    ((&[], None, true, None), "X BODY.PEEK[] 1 BODY.PEEK[]"),
    ((&[7], None, false, None), "X BODY[7] 1 BODY[7]"),
    (
        (&[4294967295, 1, 20], None, true, None),
        "X BODY.PEEK[4294967295.1.20] 1 BODY.PEEK[4294967295.1.20]",
    ),
    (
        (&[], Some(SectionText::Header), false, None),
        "X BODY[HEADER] 1 BODY[HEADER]",
    ),
    (
        (&[2, 3], Some(SectionText::Header), true, None),
        "X BODY.PEEK[2.3.HEADER] 1 BODY.PEEK[2.3.HEADER]",
    ),
    (
        (&[1, 2], Some(SectionText::Mime), false, None),
        "X BODY[1.2.MIME] 1 BODY[1.2.MIME]",
    ),
    (
        (&[1], Some(SectionText::Text), false, None),
        "X BODY[1.TEXT] 1 BODY[1.TEXT]",
    ),
    (
        (
            &[],
            Some(SectionText::Text),
            true,
            Some(Partial {
                start: 0,
                count: 100,
            }),
        ),
        "X BODY.PEEK[TEXT]<0.100> 1 BODY.PEEK[TEXT]<0.100>",
    ),
    (
        (
            &[],
            None,
            false,
            Some(Partial {
                start: 4294967295,
                count: 1,
            }),
        ),
        "X BODY[]<4294967295.1> 1 BODY[]<4294967295.1>",
    ),
    (
        (
            &[1],
            Some(SectionText::Fields(&["DATE", "FROM"])),
            true,
            Some(Partial {
                start: 0,
                count: 2048,
            }),
        ),
        r#"X BODY.PEEK[1.HEADER.FIELDS ("DATE" "FROM")]<0.2048> 1 BODY.PEEK[1.HEADER.FIELDS ("DATE" "FROM")]<0.2048>"#,
    ),
    (
        (&[], Some(SectionText::FieldsNot(&["X"])), false, None),
        r#"X BODY[HEADER.FIELDS.NOT ("X")] 1 BODY[HEADER.FIELDS.NOT ("X")]"#,
    ),
    (
        (
            &[],
            Some(SectionText::Fields(&["a\"\\ {5}", ""])),
            false,
            None,
        ),
        r#"X BODY[HEADER.FIELDS ("a\"\\ {5}" "")] 1 BODY[HEADER.FIELDS ("a\"\\ {5}" "")]"#,
    ),
];

#[test]
fn sections(rt: HostRuntime) {
    for (section, want) in SECTIONS {
        assert_is(&rt, asked(rt.alloc(), *section), want, None);
    }
}

// Sections that are refused, and why.
static REFUSED_SECTIONS: &[(Asked, BuildError)] = &[
    ((&[0], None, false, None), BuildError::BadSection),
    ((&[1, 0, 2], None, true, None), BuildError::BadSection),
    (
        (&[], Some(SectionText::Mime), false, None),
        BuildError::BadSection,
    ),
    (
        (&[], Some(SectionText::Fields(&[])), false, None),
        BuildError::BadSection,
    ),
    (
        (&[1], Some(SectionText::FieldsNot(&[])), true, None),
        BuildError::BadSection,
    ),
    (
        (&[], None, false, Some(Partial { start: 9, count: 0 })),
        BuildError::BadSection,
    ),
    (
        (&[0], Some(SectionText::Fields(&["\n"])), false, None),
        BuildError::BadSection,
    ),
    (
        (&[], Some(SectionText::Fields(&["a", "b\r\n"])), true, None),
        BuildError::CarriageReturn,
    ),
    (
        (
            &[1],
            Some(SectionText::FieldsNot(&["\n", "\r"])),
            false,
            None,
        ),
        BuildError::LineFeed,
    ),
    (
        (&[], Some(SectionText::Fields(&["\0"])), false, None),
        BuildError::Nul,
    ),
];

#[test]
fn refused_sections(rt: HostRuntime) {
    for (section, refusal) in REFUSED_SECTIONS {
        assert_refused(&rt, asked(rt.alloc(), *section), refusal);
    }
}
