//! Sets of numbers and ranges, from their first member on.

ghost use Rattle.std.specs.Prelude.{◌≡◌, ◌++◌, codes, IfOk};
ghost use Rattle.std.specs.Range.{range_inclusive_start, range_inclusive_end};
ghost use Rattle.imap_command.specs.OtherCalls.{arguments, numbers, Adds};
ghost use Rattle.imap_command.specs.OtherCalls as call;

use super::OtherCommand;
use crate::numbers::{push_number, push_open_range, push_range};
use crate::other::{Arguments, Numbers};
use std::alloc::AllocError;
use std::ops::{RangeFrom, RangeInclusive};

impl OtherCommand<Arguments> {
    // Its text, ready for a set.
    fn spaced(self) -> Result<Vec<u8>, AllocError>
        ensures { IfOk result (λ args. args.items ≡ self ++ codes " ") }
    {
        let mut args = self.args;
        args.push(b' ')?;
        Ok(args)
    }

    /// Begins a set by this number (RFC 3501, section 9: sequence-set). 0 is not refused, though no message has it. It
    /// takes memory; `Err`: memory ran out.
    pub fn num(self, number: u32) -> Result<OtherCommand<Numbers>, AllocError>
        ensures { IfOk result (Adds arguments (call.num number) numbers self) }
    {
        let mut args = self.spaced()?;
        push_number(&mut args, u64::from(number))?;
        Ok(OtherCommand::with_text(args))
    }

    /// Begins a set by the numbers from one to another (RFC 3501, section 9: seq-range). 0 is not refused, and the ends
    /// stay in their order. It takes memory; `Err`: memory ran out.
    pub fn range(self, range: RangeInclusive<u32>) -> Result<OtherCommand<Numbers>, AllocError>
        ensures { IfOk result
            (Adds arguments (call.range (range_inclusive_start range) (range_inclusive_end range))
            numbers self) }
    {
        let mut args = self.spaced()?;
        push_range(&mut args, range)?;
        Ok(OtherCommand::with_text(args))
    }

    /// Begins a set by the numbers from one on (RFC 3501, section 9: seq-range). 0 is not refused. `n:*` always
    /// includes the last message, even where that is below n. It takes memory; `Err`: memory ran out.
    pub fn range_from(self, range: RangeFrom<u32>) -> Result<OtherCommand<Numbers>, AllocError>
        ensures { IfOk result (Adds arguments (call.range_from range.start) numbers self) }
    {
        let mut args = self.spaced()?;
        push_open_range(&mut args, range.start)?;
        Ok(OtherCommand::with_text(args))
    }
}
