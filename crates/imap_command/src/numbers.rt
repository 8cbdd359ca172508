//! Numbers and ranges of messages as text.

ghost use Rattle.std.specs.Prelude.{◌≡◌, ◌++◌, OnOk, decimal, codes};
ghost use Rattle.std.specs.Range.{range_inclusive_start, range_inclusive_end};

use itoa::Buffer;
use std::alloc::AllocError;
use std::ops::RangeInclusive;

pub(crate) fn push_number(out: &mut Vec<u8>, number: u64) -> Result<(), AllocError>
    ensures { OnOk result (out.new.items ≡ out.old.items ++ decimal number) }
{
    let mut buffer = Buffer::new();
    out.extend_from_slice(buffer.format(number).as_bytes())
}

pub(crate) fn push_range(out: &mut Vec<u8>, range: RangeInclusive<u32>) -> Result<(), AllocError>
    ensures { OnOk result (out.new.items ≡ out.old.items
        ++ (decimal (range_inclusive_start range)
        ++ (codes ":" ++ decimal (range_inclusive_end range)))) }
{
    push_number(out, u64::from(*range.start()))?;
    out.push(b':')?;
    push_number(out, u64::from(*range.end()))
}

pub(crate) fn push_open_range(out: &mut Vec<u8>, first: u32) -> Result<(), AllocError>
    ensures { OnOk result (out.new.items ≡ out.old.items ++ (decimal first ++ codes ":*")) }
{
    push_number(out, u64::from(first))?;
    out.extend_from_slice(b":*")
}

pub(crate) fn push_changed_since(out: &mut Vec<u8>, mod_seq: u64) -> Result<(), AllocError>
    ensures { OnOk result (out.new.items ≡ out.old.items
        ++ (codes " (CHANGEDSINCE " ++ (decimal mod_seq ++ codes ")"))) }
{
    out.extend_from_slice(b" (CHANGEDSINCE ")?;
    push_number(out, mod_seq)?;
    out.push(b')')?;
    Ok(())
}
