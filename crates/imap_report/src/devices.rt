//! Devices that bytes are read from and written to, and writing of all bytes.

ghost use Rattle.std.specs.Prelude.{◌≡◌, ℕ, ◌≤◌, ◌<◌, Bool, true, false, List, Option, length, IfOk, OnOk, OnErr};
ghost use Rattle.std.specs.Prelude.{MatchResult, IsErrOf};
ghost use Rattle.std.specs.Io.KnownBytes.{Appends, ReadConsumes, WriteAppends};
ghost use Rattle.imap_report.specs.Devices.{AppendsFront, FailsAs};

use crate::outcome::Fault;
use std::io;

/// Where bytes come from.
pub trait Source {
    /// What reads will give from here on, where it is known.
    ghost remaining: { Self → Option (List ℕ) };

    /// Whether it has failed.
    ghost has_failed: { Self → Bool };

    /// Reads into the front of the buffer, and tells how many bytes: 0 only at the end of the bytes, or
    /// where there is no room. `Err`: the device failed, and `failed` says so from then on.
    fn read(&mut self, buf: &mut [u8]) -> io::Result<usize>
        ensures bound { IfOk result (λ n. n ≤ length buf.new) }
        ensures bytes { ReadConsumes (remaining self.old) (remaining self.new) result buf.new }
        ensures failed { MatchResult result (λ n. has_failed self.new ≡ has_failed self.old) (λ e.
            has_failed self.new ≡ true) };

    /// Whether a read has failed. `run` and `cat` ask that none has yet.
    fn failed(&self) -> bool
        ensures { result ≡ has_failed self.now };
}

/// Where bytes go to.
pub trait Sink {
    /// What was written, where it is known.
    ghost contents: { Self → Option (List ℕ) };

    /// Whether it has failed.
    ghost has_failed: { Self → Bool };

    /// Writes bytes from the front of the piece, and tells how many. `Err`: the device failed, and
    /// `failed` says so from then on. Taking none of a piece that has bytes is a failure too.
    fn write(&mut self, buf: &[u8]) -> io::Result<usize>
        ensures bound { IfOk result (λ n. n ≤ length buf.now) }
        ensures bytes { WriteAppends (contents self.old) (contents self.new) result buf.now }
        ensures went_on { IfOk result (λ n. 0 < n → has_failed self.new ≡ has_failed self.old) }
        ensures took_none { IfOk result (λ n.
            n ≡ 0 → 0 < length buf.now → has_failed self.new ≡ true) }
        ensures given_none { IfOk result (λ n.
            length buf.now ≡ 0 → has_failed self.new ≡ has_failed self.old) }
        ensures failed { OnErr result (has_failed self.new ≡ true) };

    /// Whether a write has failed. `run` and `cat` ask that none has yet.
    fn failed(&self) -> bool
        ensures { result ≡ has_failed self.now };
}

/// Writes all of the bytes. `Write`, the only fault: the writer failed before the last byte.
pub(crate) fn write_all<W: Sink>(writer: &mut W, bytes: &[u8]) -> Result<(), Fault>
    requires { W.has_failed writer.old ≡ false }
    ensures ok { OnOk result (Appends (W.contents writer.old) (W.contents writer.new) bytes.now) }
    ensures front { OnErr result
        (AppendsFront (W.contents writer.old) (W.contents writer.new) bytes.now) }
    ensures failed { FailsAs Fault.Write (W.has_failed writer.new) result }
    ensures fault { OnErr result (IsErrOf result Fault.Write) }
{
    let mut rest = bytes;
    'pieces: while !rest.is_empty() {
        match writer.write(rest) {
            Err(_) | Ok(0) => return Err(Fault::Write),
            Ok(n) => {
                let (_, after) = rest.split_at(n);
                rest = after;
            }
        }
    }
    Ok(())
}
