//! Runs: input is read piece by piece, and its report is written as its bytes come.

ghost use Rattle.std.specs.Prelude.{◌≡◌, ◌↔◌, ℕ, ◌+◌, ◌-◌, ◌^◌, ◌≤◌, ◌⊎◌, ◌++◌, List, length, true, false, IfOk, OnOk};
ghost use Rattle.std.specs.Prelude.{OnErr, IfErr};
ghost use Rattle.imap_proto.specs.declared.stream.End.TheVariants.{Denied};
ghost use Rattle.imap_report.specs.declared.wording.OnDenied.TheVariants.{Stop};
ghost use Rattle.std.specs.Io.KnownBytes.{Consumes, IsAtEnd};
ghost use Rattle.imap_report.specs.Devices.{FailsAs};
ghost use Rattle.imap_report.specs.Report.{IsReport, ReportsAll, ReportsSome, ReadsAtLeast, TellsItems};

use crate::devices::{Sink, Source};
use crate::outcome::{Fault, Finish};
use crate::readers::Reading;
use crate::telling::{tell, tell_last};
use crate::wording::{OnDenied, Wording};
use crate::writers::Writing;
use imap_proto::stream::{End, Feed};
use std::alloc::Global;

// How many bytes one read asks for.
const PIECE: usize = 4096;

// Reads a piece and feeds it, and tells how many bytes it has: none only at the end. The reader failed exactly where
// the fault is `Read`.
fn take_piece<R: Source>(reader: &mut R, feed: &mut Feed) -> Result<usize, Fault>
    requires { R.has_failed reader.old ≡ false }
    ensures taken { IfOk result (λ n.
        (piece : List ℕ)
        × Consumes (R.remaining reader.old) (R.remaining reader.new) piece
        × (feed.new ≡ feed.old ++ piece)
        × (length piece ≡ n)) }
    ensures end { IfOk result (λ n. n ≡ 0 → IsAtEnd (R.remaining reader.new)) }
    ensures some { OnErr result (ReadsAtLeast 0 (R.remaining reader.old) (R.remaining reader.new)) }
    ensures failed { FailsAs Fault.Read (R.has_failed reader.new) result }
    ensures kinds { IfErr result (λ e. (¬ (e ≡ Fault.Write)) × (¬ (e ≡ Fault.TooLong))) }
{
    let mut buffer = [0; PIECE];
    match reader.read(&mut buffer) {
        Err(_) => Err(Fault::Read),
        Ok(n) => {
            let (piece, _) = buffer.split_at(n);
            feed.feed(piece)?;
            Ok(n)
        }
    }
}

// Reads to the end, and tells how many bytes there were with those that were counted before. The reader failed exactly
// where the fault is `Read`.
fn count_on<R: Source>(reader: &mut R, counted: usize) -> Result<usize, Fault>
    requires { R.has_failed reader.old ≡ false }
    ensures read { IfOk result (λ n.
        (bytes : List ℕ)
        × Consumes (R.remaining reader.old) (R.remaining reader.new) bytes
        × (n ≡ counted + length bytes)) }
    ensures end { OnOk result (IsAtEnd (R.remaining reader.new)) }
    ensures some { OnErr result (ReadsAtLeast 0 (R.remaining reader.old) (R.remaining reader.new)) }
    ensures long { IfErr result (λ e.
        e ≡ Fault.TooLong →
        ReadsAtLeast (2 ^ 64 - 1 - counted) (R.remaining reader.old) (R.remaining reader.new)) }
    ensures failed { FailsAs Fault.Read (R.has_failed reader.new) result }
    ensures kinds { IfErr result (λ e. ¬ (e ≡ Fault.Write)) }
{
    let mut total = counted;
    let mut buffer = [0; PIECE];
    'reads: loop {
        match reader.read(&mut buffer) {
            Err(_) => return Err(Fault::Read),
            Ok(0) => return Ok(total),
            Ok(n) => total = total.checked_add(n).ok_or(Fault::TooLong)?,
        }
    }
}

// Whether nothing more is told of what was denied.
fn is_over(end: End, on_denied: OnDenied) -> bool
    ensures { (result ≡ true) ↔ ((end ≡ Denied) × (on_denied ≡ Stop)) }
{
    matches!((end, on_denied), (End::Denied, OnDenied::Stop))
}

// Reads all input piece by piece, and writes the line of each thing that stands in it as soon as the bytes read tell
// it. It tells how many bytes are left behind these, and why they give no more; and holds only what waits, or the
// denied line that isn't whole. The reader failed exactly where the fault is `Read`, and the writer exactly where it
// is `Write`.
fn tell_items<T: Wording, R: Source, W: Sink>(
    alloc: Global,
    wording: &T,
    reader: &mut R,
    writer: &mut W,
) -> Result<(End, usize), Fault>
    requires reads { R.has_failed reader.old ≡ false }
    requires writes { W.has_failed writer.old ≡ false }
    ensures told { IfOk result (λ x.
        TellsItems (T.words wording.now) (R.remaining reader.old) (R.remaining reader.new)
        (W.contents writer.old) (W.contents writer.new) x.0 x.1) }
    ensures begun { OnErr result
        (ReportsSome (T.words wording.now) (R.remaining reader.old) (R.remaining reader.new)
        (W.contents writer.old) (W.contents writer.new)) }
    ensures read { FailsAs Fault.Read (R.has_failed reader.new) result }
    ensures write { FailsAs Fault.Write (W.has_failed writer.new) result }
    ensures long { IfErr result (λ e.
        e ≡ Fault.TooLong →
        ReadsAtLeast (2 ^ 64 - 1) (R.remaining reader.old) (R.remaining reader.new)) }
{
    let mut feed = Feed::new(alloc);
    let mut end = End::Waits;
    // Each piece has at least one byte, so after 2^64 - 1 of them the input is too long.
    'pieces: for _ in 0..u64::MAX {
        let n = take_piece(reader, &mut feed)?;
        if n == 0 {
            return Ok((end, feed.held().len()));
        }
        end = tell(alloc, wording, &mut feed, writer)?;
        if is_over(end, wording.on_denied()) {
            let left = count_on(reader, feed.held().len())?;
            return Ok((End::Denied, left));
        }
    }
    Err(Fault::TooLong)
}

/// Reads all input piece by piece and writes its report in these words: a line for each response, and for each line
/// that is skipped, as soon as the bytes read tell it, and a last line that tells what is left. It takes memory for a
/// piece, for what waits, and for a response. After a `Fault` what was written is a beginning of the report of what
/// was read, and never all of it.
///
/// `Read`: the reader failed. `Write`: the writer failed. `TooLong`: at least 2^64 - 1 bytes were read.
/// `OutOfMemory`: memory ran out. Where a device failed no other answer comes than its fault. Neither device may have
/// failed before. A sink has no flush, so a writer that buffers has to be flushed behind the run.
///
/// A denied line that is to be skipped is held until it is whole, and read from its start after each piece.
pub fn run<T: Wording, R: Source, W: Sink>(
    alloc: Global,
    wording: &T,
    reader: &mut R,
    writer: &mut W,
) -> Result<Finish, Fault>
    requires reads { R.has_failed reader.old ≡ false }
    requires writes { W.has_failed writer.old ≡ false }
    ensures whole { IfOk result
        (ReportsAll (T.words wording.now) (R.remaining reader.old) (R.remaining reader.new)
        (W.contents writer.old) (W.contents writer.new)) }
    ensures begun { OnErr result
        (ReportsSome (T.words wording.now) (R.remaining reader.old) (R.remaining reader.new)
        (W.contents writer.old) (W.contents writer.new)) }
    ensures read { FailsAs Fault.Read (R.has_failed reader.new) result }
    ensures write { FailsAs Fault.Write (W.has_failed writer.new) result }
    ensures long { IfErr result (λ e.
        e ≡ Fault.TooLong →
        ReadsAtLeast (2 ^ 64 - 1) (R.remaining reader.old) (R.remaining reader.new)) }
{
    let (end, left) = tell_items(alloc, wording, reader, writer)?;
    tell_last(alloc, wording, end, left, writer)
}

/// The report of these bytes in these words, and what its last line tells.
///
/// It takes memory. `OutOfMemory`: memory ran out, for the report itself, too. `TooLong`: the input has at least
/// 2^64 - 1 bytes. No other fault comes.
pub fn report_of<T: Wording>(
    alloc: Global,
    wording: &T,
    input: &[u8],
) -> Result<(Finish, Vec<u8>), Fault>
    ensures report { IfOk result (λ told.
        IsReport (T.words wording.now) input.now told.1.items told.0) }
    ensures long { IfErr result (λ e. e ≡ Fault.TooLong → 2 ^ 64 - 1 ≤ length input.now) }
    ensures kinds { IfErr result (λ e. (e ≡ Fault.TooLong) ⊎ (e ≡ Fault.OutOfMemory)) }
{
    let mut reader = Reading::new(input);
    let mut writer = Writing::new(Vec::new(alloc));
    match run(alloc, wording, &mut reader, &mut writer) {
        Ok(finish) => Ok((finish, writer.into_inner())),
        Err(Fault::TooLong) => Err(Fault::TooLong),
        Err(_) => Err(Fault::OutOfMemory),
    }
}
