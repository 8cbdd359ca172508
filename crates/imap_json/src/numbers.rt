//! Numbers, flags and ranges.

ghost use Rattle.std.specs.Prelude.{ℕ, Bool};
ghost use Rattle.imap_grammar.specs.Ranges.{Range, range_of};
ghost use Rattle.imap_json.specs.Forms.{number_json, flag_json};
ghost use Rattle.imap_json.specs.Ranges.{range_json};

use crate::forms::{ToJson, variant};
use crate::output::Output;
use std::alloc::AllocError;
use std::ops::RangeInclusive;

impl ToJson for u32 {
    ghost meaning = { ℕ };

    ghost said = { λ n. n };

    ghost json = { number_json };

    fn write(&self, out: &mut Output) -> Result<(), AllocError> {
        out.number(u64::from(*self))
    }
}

impl ToJson for u64 {
    ghost meaning = { ℕ };

    ghost said = { λ n. n };

    ghost json = { number_json };

    fn write(&self, out: &mut Output) -> Result<(), AllocError> {
        out.number(*self)
    }
}

impl ToJson for bool {
    ghost meaning = { Bool };

    ghost said = { λ b. b };

    ghost json = { flag_json };

    fn write(&self, out: &mut Output) -> Result<(), AllocError> {
        out.flag(*self)
    }
}

impl ToJson for RangeInclusive<u32> {
    ghost meaning = { Range };

    ghost said = { range_of };

    ghost json = { range_json };

    fn write(&self, out: &mut Output) -> Result<(), AllocError> {
        let ends = (*self.start(), *self.end());
        // A range whose numbers were all taken equals none that was made anew.
        if *self == (ends.0..=ends.1) {
            ends.write(out)
        } else {
            variant(out, "Spent", &ends)
        }
    }
}
