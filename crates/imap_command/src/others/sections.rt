//! A section of a message's body.

ghost use Rattle.std.specs.Prelude.{IfOk, OnOk};
ghost use Rattle.imap_command.specs.Arguments.{Judges};
ghost use Rattle.imap_command.specs.OtherCalls.{argument_refusal, arguments, AddsTo, Unrefused};
ghost use Rattle.imap_command.specs.OtherCalls as call;
ghost use Rattle.imap_command.specs.Sections.{said};

use super::OtherCommand;
use crate::other::{Arguments, Open};
use crate::sections::{judge_section, push_section};
use crate::{BuildError, Section};

impl<T: Open> OtherCommand<T> {
    /// Adds a section of a message's body, as `BODY.PEEK[1.HEADER.FIELDS ("DATE" "FROM")]<0.2048>` of a FETCH (RFC
    /// 3501, section 9: fetch-att). The names of header fields are quoted strings.
    ///
    /// `BadSection`: a part number is 0, `Mime` stands without a part, `Fields` or `FieldsNot` without a name, or the
    /// count is 0. `CarriageReturn`, `LineFeed`, `Nul`: the first such byte of the first name that has one. It takes
    /// memory; `OutOfMemory`: memory ran out.
    pub fn section(self, section: &Section<'_>) -> Result<OtherCommand<Arguments>, BuildError>
        ensures judged { Judges (argument_refusal (call.section (said section.now))) result }
        ensures adds { IfOk result (AddsTo (call.section (said section.now)) arguments self) }
        ensures unrefused { OnOk result (Unrefused (call.section (said section.now))) }
    {
        judge_section(section)?;
        let mut args = self.args;
        push_section(&mut args, section)?;
        Ok(OtherCommand::with_text(args))
    }
}
