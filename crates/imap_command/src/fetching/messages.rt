//! A FETCH that has been told messages.

ghost use Rattle.std.specs.Prelude.{◌≡◌, ◌++◌, codes, IfOk};
ghost use Rattle.std.specs.Range.{range_inclusive_start, range_inclusive_end};
ghost use Rattle.imap_command.specs.Calls.{messages, attributes, modifiers, Adds};
ghost use Rattle.imap_command.specs.Calls as call;

use super::FetchCommand;
use crate::fetch::{Attributes, Messages, Modifiers};
use crate::numbers::{push_number, push_open_range, push_range};
use crate::{AttrMacro, Attribute};
use std::alloc::AllocError;
use std::ops::{RangeFrom, RangeInclusive};

impl FetchCommand<Messages> {
    // Its text, ready for a further message.
    fn continued(self) -> Result<Vec<u8>, AllocError>
        ensures { IfOk result (λ args. args.items ≡ self ++ codes ",") }
    {
        let mut args = self.args;
        args.push(b',')?;
        Ok(args)
    }

    /// Asks for one more message, by its number or, behind `uid_fetch`, by its UID (RFC 3501, sections
    /// 6.4.5 and 6.4.8). 0 is not refused, though no message has it. It takes memory; `Err`: memory ran out.
    pub fn num(self, number: u32) -> Result<FetchCommand<Messages>, AllocError>
        ensures { IfOk result (Adds messages (call.num number) messages self) }
    {
        let mut args = self.continued()?;
        push_number(&mut args, u64::from(number))?;
        Ok(FetchCommand::with_text(args))
    }

    /// Asks for one more range of messages, of numbers or, behind `uid_fetch`, of UIDs (RFC 3501,
    /// sections 6.4.5 and 6.4.8). 0 is not refused, and the ends stay in their order: `10..=1` asks for the
    /// same messages as `1..=10` (section 9: seq-range). It takes memory; `Err`: memory ran out.
    pub fn range(self, range: RangeInclusive<u32>) -> Result<FetchCommand<Messages>, AllocError>
        ensures { IfOk result
            (Adds messages (call.range (range_inclusive_start range) (range_inclusive_end range))
            messages self) }
    {
        let mut args = self.continued()?;
        push_range(&mut args, range)?;
        Ok(FetchCommand::with_text(args))
    }

    /// Asks also for the messages from a number on, behind `uid_fetch` from a UID on (RFC 3501, sections
    /// 6.4.5 and 6.4.8). 0 is not refused. `n:*` always includes the last message, even where that is below n
    /// (section 9: seq-range). It takes memory; `Err`: memory ran out.
    pub fn range_from(self, range: RangeFrom<u32>) -> Result<FetchCommand<Messages>, AllocError>
        ensures { IfOk result (Adds messages (call.range_from range.start) messages self) }
    {
        let mut args = self.continued()?;
        push_open_range(&mut args, range.start)?;
        Ok(FetchCommand::with_text(args))
    }

    /// Asks for a group of attributes of the messages (RFC 3501, section 6.4.5). It takes memory;
    /// `Err`: memory ran out.
    pub fn attr_macro(self, group: AttrMacro) -> Result<FetchCommand<Modifiers>, AllocError>
        ensures { IfOk result (Adds messages (call.attr_macro group) modifiers self) }
    {
        let mut args = self.args;
        args.push(b' ')?;
        args.extend_from_slice(group.word())?;
        Ok(FetchCommand::with_text(args))
    }

    /// Asks for an attribute of the messages (RFC 3501, section 6.4.5). It takes memory;
    /// `Err`: memory ran out.
    pub fn attr(self, attribute: Attribute) -> Result<FetchCommand<Attributes>, AllocError>
        ensures { IfOk result (Adds messages (call.attr attribute) attributes self) }
    {
        let mut args = self.args;
        args.extend_from_slice(b" (")?;
        args.extend_from_slice(attribute.word())?;
        Ok(FetchCommand::with_text(args))
    }
}
