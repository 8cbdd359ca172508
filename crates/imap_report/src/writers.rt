//! A writer of std as a sink.

ghost use Rattle.std.specs.Prelude.{◌≡◌, false};

use crate::devices::Sink;
use std::io::{self, Write};

/// A sink that writes to a writer of std.
#[derive(Drop)]
pub struct Writing<W: Drop> {
    inner: W,
    has_failed: bool,
}

impl<W: Write + Drop> Writing<W> {
    /// The sink over this device. It has not failed. No memory.
    pub fn new(inner: W) -> Self
        ensures inner { result.inner ≡ inner }
        ensures fresh { result.has_failed ≡ false }
    {
        Writing {
            inner,
            has_failed: false,
        }
    }

    /// The writer that it was made of, as it is by now. No memory.
    pub fn into_inner(self) -> W
        ensures { result ≡ self.inner }
    {
        self.inner
    }
}

impl<W: Write + Drop> Sink for Writing<W> {
    ghost contents = { λ w. W.contents w.inner };

    ghost has_failed = { λ w. w.has_failed };

    fn write(&mut self, buf: &[u8]) -> io::Result<usize> {
        let result = self.inner.write(buf);
        let took_none = matches!(result, Ok(0)) && !buf.is_empty();
        if result.is_err() || took_none {
            self.has_failed = true;
        }
        result
    }

    fn failed(&self) -> bool {
        self.has_failed
    }
}
