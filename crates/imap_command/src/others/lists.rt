//! Lists in brackets.

ghost use Rattle.std.specs.Prelude.{◌≡◌, ◌++◌, codes, IfOk, OnOk, map};
ghost use Rattle.imap_command.specs.Arguments.{Judges};
ghost use Rattle.imap_command.specs.OtherCalls.{argument_refusal, arguments, AddsTo, Unrefused};
ghost use Rattle.imap_command.specs.OtherCalls as call;

use super::OtherCommand;
use crate::BuildError;
use crate::judging::{judge_strings, judge_words};
use crate::listing::{push_string_list, push_word_list};
use crate::other::{Arguments, Open};
use std::alloc::AllocError;

impl<T: Open> OtherCommand<T> {
    // Its text, ready for a list.
    fn opened(self) -> Result<Vec<u8>, AllocError>
        ensures { IfOk result (λ args. args.items ≡ self ++ codes " ") }
    {
        let mut args = self.args;
        args.push(b' ')?;
        Ok(args)
    }

    /// Adds a list of words in brackets, as `(\Seen \Deleted)`; without any, `()`.
    ///
    /// `BadWord`: one of them is refused, as by `word`. It takes memory; `OutOfMemory`: memory ran out.
    pub fn list(self, words: &[&str]) -> Result<OtherCommand<Arguments>, BuildError>
        ensures judged { Judges (argument_refusal (call.list (map (λ word. word.now) words.now))) result }
        ensures adds { IfOk result (AddsTo (call.list (map (λ word. word.now) words.now)) arguments self) }
        ensures unrefused { OnOk result (Unrefused (call.list (map (λ word. word.now) words.now))) }
    {
        judge_words(words)?;
        let mut args = self.opened()?;
        push_word_list(&mut args, words)?;
        Ok(OtherCommand::with_text(args))
    }

    /// Adds a list of quoted strings in brackets, as `("name" "x")`; without any, `()`.
    ///
    /// `CarriageReturn`, `LineFeed`, `Nul`: the first such byte of the first string that has one. It takes memory;
    /// `OutOfMemory`: memory ran out.
    pub fn strings(self, strings: &[&str]) -> Result<OtherCommand<Arguments>, BuildError>
        ensures judged { Judges (argument_refusal (call.strings (map (λ text. text.now) strings.now))) result }
        ensures adds { IfOk result (AddsTo (call.strings (map (λ text. text.now) strings.now)) arguments self) }
        ensures unrefused { OnOk result (Unrefused (call.strings (map (λ text. text.now) strings.now))) }
    {
        judge_strings(strings)?;
        let mut args = self.opened()?;
        push_string_list(&mut args, strings)?;
        Ok(OtherCommand::with_text(args))
    }
}
