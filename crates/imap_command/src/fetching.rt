//! FETCH and UID FETCH.

ghost use Rattle.std.specs.Prelude.{◌≡◌, ℕ, List, IfOk};
ghost use Rattle.std.specs.Range.{range_inclusive_start, range_inclusive_end};
ghost use Rattle.imap_command.specs.Calls.{empty, messages, modifiers, Adds, Finishes};
ghost use Rattle.imap_command.specs.Calls as call;

use crate::Command;
use crate::fetch::{Empty, Messages, Modifiers};
use crate::numbers::{push_changed_since, push_number, push_open_range, push_range};
use std::alloc::AllocError;
use std::marker::{Model, PhantomData};
use std::ops::{RangeFrom, RangeInclusive};

mod attributes;
mod messages;

/// A FETCH or UID FETCH that is being built; `T` is what it has been told so far. Where memory runs
/// out, the command is given up.
#[derive(Drop)]
pub struct FetchCommand<T> {
    args: Vec<u8>,
    state: PhantomData<T>,
}

impl<T> Model for FetchCommand<T> {
    ghost Value = { List ℕ };

    ghost view = { λ command. command.args.items };
}

impl<T> FetchCommand<T> {
    pub(crate) fn with_text(args: Vec<u8>) -> FetchCommand<T>
        ensures { result ≡ args.items }
    {
        FetchCommand {
            args,
            state: PhantomData,
        }
    }
}

impl FetchCommand<Empty> {
    /// Asks for the message with this number, behind `uid_fetch` with this UID (RFC 3501, sections 6.4.5
    /// and 6.4.8). 0 is not refused, though no message has it. It takes memory; `Err`: memory ran out.
    pub fn num(self, number: u32) -> Result<FetchCommand<Messages>, AllocError>
        ensures { IfOk result (Adds empty (call.num number) messages self) }
    {
        let mut args = self.args;
        push_number(&mut args, u64::from(number))?;
        Ok(FetchCommand::with_text(args))
    }

    /// Asks for the messages from one number to another, behind `uid_fetch` from one UID to another
    /// (RFC 3501, sections 6.4.5 and 6.4.8). 0 is not refused, and the ends stay in their order: `10..=1` asks
    /// for the same messages as `1..=10` (section 9: seq-range). It takes memory; `Err`: memory ran out.
    pub fn range(self, range: RangeInclusive<u32>) -> Result<FetchCommand<Messages>, AllocError>
        ensures { IfOk result
            (Adds empty (call.range (range_inclusive_start range) (range_inclusive_end range))
            messages self) }
    {
        let mut args = self.args;
        push_range(&mut args, range)?;
        Ok(FetchCommand::with_text(args))
    }

    /// Asks for the messages from a number on, behind `uid_fetch` from a UID on (RFC 3501, sections 6.4.5
    /// and 6.4.8). 0 is not refused. `n:*` always includes the last message, even where that is below n
    /// (section 9: seq-range). It takes memory; `Err`: memory ran out.
    pub fn range_from(self, range: RangeFrom<u32>) -> Result<FetchCommand<Messages>, AllocError>
        ensures { IfOk result (Adds empty (call.range_from range.start) messages self) }
    {
        let mut args = self.args;
        push_open_range(&mut args, range.start)?;
        Ok(FetchCommand::with_text(args))
    }
}

impl FetchCommand<Modifiers> {
    /// Asks only for messages that changed after this mod-sequence (RFC 4551, section 3.3.1). Call it once
    /// in a command: each call writes brackets of its own, and FETCH has a rule for one pair only (RFC 4466,
    /// section 2.4). It takes memory; `Err`: memory ran out.
    pub fn changed_since(self, mod_seq: u64) -> Result<FetchCommand<Modifiers>, AllocError>
        ensures { IfOk result (Adds modifiers (call.changed_since mod_seq) modifiers self) }
    {
        let mut args = self.args;
        push_changed_since(&mut args, mod_seq)?;
        Ok(FetchCommand::with_text(args))
    }
}

/// The finished command. It takes no memory.
impl From<FetchCommand<Modifiers>> for Command {
    ghost from_gives = { Finishes modifiers };

    fn from(fetch: FetchCommand<Modifiers>) -> Command {
        Command {
            args: fetch.args,
            next_state: None,
        }
    }
}
