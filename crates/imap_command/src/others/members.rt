//! Further members of a set.

ghost use Rattle.std.specs.Prelude.{◌≡◌, ◌++◌, codes, IfOk};
ghost use Rattle.std.specs.Range.{range_inclusive_start, range_inclusive_end};
ghost use Rattle.imap_command.specs.OtherCalls.{numbers, Adds};
ghost use Rattle.imap_command.specs.OtherCalls as call;

use super::OtherCommand;
use crate::numbers::{push_number, push_open_range, push_range};
use crate::other::Numbers;
use std::alloc::AllocError;
use std::ops::{RangeFrom, RangeInclusive};

impl OtherCommand<Numbers> {
    // Its text, ready for the set to go on.
    fn continued(self) -> Result<Vec<u8>, AllocError>
        ensures { IfOk result (λ args. args.items ≡ self ++ codes ",") }
    {
        let mut args = self.args;
        args.push(b',')?;
        Ok(args)
    }

    /// Adds a number to the set, behind a comma. It takes memory; `Err`: memory ran out.
    pub fn num(self, number: u32) -> Result<OtherCommand<Numbers>, AllocError>
        ensures { IfOk result (Adds numbers (call.num number) numbers self) }
    {
        let mut args = self.continued()?;
        push_number(&mut args, u64::from(number))?;
        Ok(OtherCommand::with_text(args))
    }

    /// Adds the numbers from one to another to the set, behind a comma. The ends stay in their order. It takes memory;
    /// `Err`: memory ran out.
    pub fn range(self, range: RangeInclusive<u32>) -> Result<OtherCommand<Numbers>, AllocError>
        ensures { IfOk result
            (Adds numbers (call.range (range_inclusive_start range) (range_inclusive_end range))
            numbers self) }
    {
        let mut args = self.continued()?;
        push_range(&mut args, range)?;
        Ok(OtherCommand::with_text(args))
    }

    /// Adds the numbers from one on to the set, behind a comma. It takes memory; `Err`: memory ran out.
    pub fn range_from(self, range: RangeFrom<u32>) -> Result<OtherCommand<Numbers>, AllocError>
        ensures { IfOk result (Adds numbers (call.range_from range.start) numbers self) }
    {
        let mut args = self.continued()?;
        push_open_range(&mut args, range.start)?;
        Ok(OtherCommand::with_text(args))
    }
}
