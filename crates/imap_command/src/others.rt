//! Commands that have no builder of their own.

ghost use Rattle.std.specs.Prelude.{◌≡◌, ℕ, List, IfOk, OnOk};
ghost use Rattle.imap_command.specs.Arguments.{Judges};
ghost use Rattle.imap_command.specs.OtherCalls.{
  announced,
  argument_refusal,
  arguments,
  AddsTo,
  Unrefused,
};
ghost use Rattle.imap_command.specs.OtherCalls as call;

use crate::arguments::judge;
use crate::judging::judge_word;
use crate::listing::{push_string, push_word};
use crate::numbers::push_number;
use crate::other::{Announced, Arguments, Open};
use crate::{BuildError, Command, State};
use std::alloc::AllocError;
use std::marker::{Model, PhantomData};

mod lists;
mod members;
mod sections;
mod sets;

/// A command that has no builder of its own, and is being built; `T` is what it has been told so far. An argument that
/// is refused and want of memory give the command up.
#[derive(Drop)]
pub struct OtherCommand<T> {
    args: Vec<u8>,
    state: PhantomData<T>,
}

impl<T> Model for OtherCommand<T> {
    ghost Value = { List ℕ };

    ghost view = { λ command. command.args.items };
}

impl<T> OtherCommand<T> {
    pub(crate) fn with_text(args: Vec<u8>) -> OtherCommand<T>
        ensures { result ≡ args.items }
    {
        OtherCommand {
            args,
            state: PhantomData,
        }
    }

    /// The finished command, which leads to this state of the connection where the server answers `OK`, or to none of
    /// its own. It takes no memory.
    pub fn into_command(self, next_state: Option<State>) -> Command
        ensures text { result.args.items ≡ self }
        ensures next_state { result.next_state ≡ next_state }
    {
        Command {
            args: self.args,
            next_state,
        }
    }
}

impl<T: Open> OtherCommand<T> {
    /// Adds a word as it is: an atom, a flag as `\Seen`, `+FLAGS.SILENT`, `1:*`, `BODY.PEEK[]<0.100>`.
    ///
    /// `BadWord`: it is empty, or has a byte that isn't from 33 to 126, or `"`, `(`, `)` or `{`. It takes memory;
    /// `OutOfMemory`: memory ran out.
    pub fn word(self, word: &str) -> Result<OtherCommand<Arguments>, BuildError>
        ensures judged { Judges (argument_refusal (call.word word.now)) result }
        ensures adds { IfOk result (AddsTo (call.word word.now) arguments self) }
        ensures unrefused { OnOk result (Unrefused (call.word word.now)) }
    {
        judge_word(word)?;
        let mut args = self.args;
        push_word(&mut args, word)?;
        Ok(OtherCommand::with_text(args))
    }

    /// Adds a quoted string (RFC 3501, section 9: quoted). A mailbox name beyond ASCII is to be in modified UTF-7
    /// already (section 5.1.3).
    ///
    /// `CarriageReturn`, `LineFeed`, `Nul`: the first such byte of the text. It takes memory; `OutOfMemory`: memory ran
    /// out.
    pub fn string(self, text: &str) -> Result<OtherCommand<Arguments>, BuildError>
        ensures judged { Judges (argument_refusal (call.string text.now)) result }
        ensures adds { IfOk result (AddsTo (call.string text.now) arguments self) }
        ensures unrefused { OnOk result (Unrefused (call.string text.now)) }
    {
        judge(text)?;
        let mut args = self.args;
        push_string(&mut args, text)?;
        Ok(OtherCommand::with_text(args))
    }

    /// Adds a number that stands alone; `num` begins a set. It takes memory; `Err`: memory ran out.
    pub fn number(self, number: u64) -> Result<OtherCommand<Arguments>, AllocError>
        ensures { IfOk result (AddsTo (call.number number) arguments self) }
    {
        let mut args = self.args;
        args.push(b' ')?;
        push_number(&mut args, number)?;
        Ok(OtherCommand::with_text(args))
    }

    /// Announces a literal of so many bytes, which ends the line (RFC 3501, section 4.3). When the server answers it by
    /// a `+`, the caller sends these bytes, and CRLF. It takes memory; `Err`: memory ran out.
    pub fn literal(self, len: u32) -> Result<OtherCommand<Announced>, AllocError>
        ensures { IfOk result (AddsTo (call.literal len) announced self) }
    {
        let mut args = self.args;
        args.extend_from_slice(b" {")?;
        push_number(&mut args, u64::from(len))?;
        args.push(b'}')?;
        Ok(OtherCommand::with_text(args))
    }
}
