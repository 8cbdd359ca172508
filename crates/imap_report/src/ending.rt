//! The whole program, and the exit status that it ends with.

ghost use Rattle.std.specs.Prelude.{◌≡◌, ◌<◌, ◌⊎◌, false, true};
ghost use Rattle.std.specs.Process.{exit_status};
ghost use Rattle.imap_report.specs.Ending.{status_of};
ghost use Rattle.imap_report.specs.Report.{ReportsAll, ReportsSome};

use crate::devices::{Sink, Source};
use crate::outcome::{Fault, Finish};
use crate::running::run;
use crate::wording::Wording;
use std::alloc::Global;
use std::process::ExitCode;

/// The exit status that tells how a run ended: 0 for `End`, 2 for `Waiting`, 3 for `Denied`, and 1
/// for a fault. No memory.
pub fn exit_of(outcome: Result<Finish, Fault>) -> ExitCode
    ensures { exit_status result ≡ status_of outcome }
{
    match outcome {
        Ok(Finish::End) => ExitCode::SUCCESS,
        Ok(Finish::Waiting) => ExitCode::from(2),
        Ok(Finish::Denied) => ExitCode::from(3),
        Err(_) => ExitCode::FAILURE,
    }
}

/// Reads the source and writes the report of its bytes in these words as they come, to the end where no fault stops
/// it. The exit status tells how that ended; it is 1 after any fault, and wherever a device failed. After a fault it
/// prints `fault` on standard error, and what was written is a beginning of the report, and never all of it. It takes
/// memory.
///
/// Neither device may have failed before. A sink has no flush, so a writer that buffers has to be flushed behind the
/// call.
pub fn cat<E: Eprint, T: Wording, R: Source, W: Sink>(
    alloc: Global,
    rt: &E,
    wording: &T,
    reader: &mut R,
    writer: &mut W,
) -> ExitCode
    requires reads { R.has_failed reader.old ≡ false }
    requires writes { W.has_failed writer.old ≡ false }
    ensures finished { (finish : Finish) →
        exit_status result ≡ status_of (Ok finish) →
        ReportsAll (T.words wording.now) (R.remaining reader.old) (R.remaining reader.new)
        (W.contents writer.old) (W.contents writer.new) finish }
    ensures broken_off { exit_status result ≡ 1 →
        ReportsSome (T.words wording.now) (R.remaining reader.old) (R.remaining reader.new)
        (W.contents writer.old) (W.contents writer.new) }
    ensures failed { (R.has_failed reader.new ≡ true) ⊎ (W.has_failed writer.new ≡ true) →
        exit_status result ≡ 1 }
    ensures known { exit_status result < 4 }
{
    let outcome = run(alloc, wording, reader, writer);
    if outcome.is_err() {
        let _ = eprintln!(rt; "fault");
    }
    exit_of(outcome)
}
