//! A reader of std as a source.

ghost use Rattle.std.specs.Prelude.{◌≡◌, false};

use crate::devices::Source;
use std::io::{self, Read};

/// A source that reads from a reader of std.
#[derive(Drop)]
pub struct Reading<R: Drop> {
    inner: R,
    has_failed: bool,
}

impl<R: Read + Drop> Reading<R> {
    /// The source over this device. It has not failed. No memory.
    pub fn new(inner: R) -> Self
        ensures inner { result.inner ≡ inner }
        ensures fresh { result.has_failed ≡ false }
    {
        Reading {
            inner,
            has_failed: false,
        }
    }
}

impl<R: Read + Drop> Source for Reading<R> {
    ghost remaining = { λ r. R.remaining r.inner };

    ghost has_failed = { λ r. r.has_failed };

    fn read(&mut self, buf: &mut [u8]) -> io::Result<usize> {
        let result = self.inner.read(buf);
        if result.is_err() {
            self.has_failed = true;
        }
        result
    }

    fn failed(&self) -> bool {
        self.has_failed
    }
}
