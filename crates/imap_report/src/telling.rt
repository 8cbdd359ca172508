//! Reports: the line of each thing that stands in a stream, and the last line.

ghost use Rattle.std.specs.Prelude.{◌≡◌, List, ℕ, length, false, IfOk, OnOk, OnErr, IfErr, string_bytes};
ghost use Rattle.imap_grammar.specs.Meaning.{Denies};
ghost use Rattle.imap_grammar.specs.Rule.{meaning};
ghost use Rattle.imap_proto.specs.Lines as rule;
ghost use Rattle.imap_proto.specs.Streams.{EndsAs};
ghost use Rattle.imap_report.specs.declared.wording.OnDenied.TheVariants.{Skip};
ghost use Rattle.imap_report.specs.Devices.{FailsAs};
ghost use Rattle.imap_report.specs.Report.{line, FinishesAs, IsReport, IsTurn, IsLeft, NoItem, Told, Writes, Begins};

use crate::devices::{Sink, write_all};
use crate::outcome::{Fault, Finish};
use crate::wording::{OnDenied, Wording};
use imap_proto::stream::{End, Feed, FeedError, logical_line};
use std::alloc::{AllocError, Global};

// What comes next of a feed.
#[derive(Drop)]
pub(crate) enum Turn {
    // A line.
    Line(String),
    // None, and why.
    Stop(End),
}

fn as_line(text: String) -> Result<String, AllocError>
    ensures { IfOk result (λ s. string_bytes s ≡ line (string_bytes text)) }
{
    let mut text = text;
    text.push_str("\n")?;
    Ok(text)
}

// Skips the denied line in front, where it is whole.
fn skipping_turn<T: Wording>(
    alloc: Global,
    wording: &T,
    feed: &mut Feed,
) -> Result<Turn, AllocError>
    requires denied { Denies (meaning rule.response) feed.old }
    requires skips { (T.words wording.now).on_denied ≡ Skip }
    ensures { IfOk result (IsTurn (T.words wording.now) feed.old feed.new) }
{
    let text = match logical_line(feed.held()) {
        Ok((_, line)) => wording.skipped(alloc, line)?,
        Err(_) => return Ok(Turn::Stop(End::Denied)),
    };
    let text = as_line(text)?;
    feed.skip_line();
    Ok(Turn::Line(text))
}

fn next_turn<T: Wording>(alloc: Global, wording: &T, feed: &mut Feed) -> Result<Turn, AllocError>
    ensures { IfOk result (IsTurn (T.words wording.now) feed.old feed.new) }
{
    let before = feed.held().len();
    match feed.next() {
        Ok(Some(response)) => {
            let text = wording.response(alloc, &response, before - feed.held().len());
            drop(response);
            Ok(Turn::Line(as_line(text?)?))
        }
        Ok(None) => Ok(Turn::Stop(End::Waits)),
        Err(FeedError::Denied) => match wording.on_denied() {
            OnDenied::Stop => Ok(Turn::Stop(End::Denied)),
            OnDenied::Skip => skipping_turn(alloc, wording, feed),
        },
        Err(FeedError::OutOfMemory) => Err(AllocError),
    }
}

/// Writes a line for each thing that stands at the front of the feed, and tells why no more does. The writer failed
/// exactly where the fault is `Write`.
pub(crate) fn tell<T: Wording, W: Sink>(
    alloc: Global,
    wording: &T,
    feed: &mut Feed,
    writer: &mut W,
) -> Result<End, Fault>
    requires { W.has_failed writer.old ≡ false }
    ensures told { OnOk result
        (Told (T.words wording.now) feed.old feed.new (W.contents writer.old) (W.contents writer.new)) }
    ensures ends { IfOk result (EndsAs feed.new) }
    ensures none { OnOk result (NoItem (T.words wording.now).on_denied feed.new) }
    ensures begun { OnErr result
        (Begins (T.words wording.now) (W.contents writer.old) (W.contents writer.new) feed.old) }
    ensures failed { FailsAs Fault.Write (W.has_failed writer.new) result }
    ensures kinds { IfErr result (λ e. (¬ (e ≡ Fault.Read)) × (¬ (e ≡ Fault.TooLong))) }
{
    'turns: loop {
        match next_turn(alloc, wording, feed)? {
            Turn::Line(text) => write_all(writer, text.as_bytes())?,
            Turn::Stop(end) => return Ok(end),
        }
    }
}

// How a run finishes, where so many bytes are left.
fn finish_of(end: End, left: usize) -> Finish
    ensures { (m : List ℕ) → EndsAs m end → length m ≡ left → FinishesAs m result }
{
    match end {
        End::Denied => Finish::Denied,
        End::Waits if left == 0 => Finish::End,
        End::Waits => Finish::Waiting,
    }
}

// The last line, where so many bytes are left.
fn last_line<T: Wording>(
    alloc: Global,
    wording: &T,
    end: End,
    left: usize,
) -> Result<(Finish, String), AllocError>
    ensures { IfOk result (λ x.
        (m : List ℕ) →
        IsLeft (T.words wording.now) end left m →
        IsReport (T.words wording.now) m (string_bytes x.1) x.0) }
{
    let finish = finish_of(end, left);
    let text = wording.last(alloc, finish, left)?;
    Ok((finish, as_line(text)?))
}

/// Writes the last line, where so many bytes are left, and tells how the run finishes. The writer failed exactly where
/// the fault is `Write`.
pub(crate) fn tell_last<T: Wording, W: Sink>(
    alloc: Global,
    wording: &T,
    end: End,
    left: usize,
    writer: &mut W,
) -> Result<Finish, Fault>
    requires { W.has_failed writer.old ≡ false }
    ensures whole { IfOk result (λ f.
        (m : List ℕ) →
        IsLeft (T.words wording.now) end left m →
        Writes (T.words wording.now) (W.contents writer.old) (W.contents writer.new) m f) }
    ensures begun { OnErr result
        ((m : List ℕ) →
        IsLeft (T.words wording.now) end left m →
        Begins (T.words wording.now) (W.contents writer.old) (W.contents writer.new) m) }
    ensures failed { FailsAs Fault.Write (W.has_failed writer.new) result }
    ensures kinds { IfErr result (λ e. (¬ (e ≡ Fault.Read)) × (¬ (e ≡ Fault.TooLong))) }
{
    let (finish, text) = last_line(alloc, wording, end, left)?;
    write_all(writer, text.as_bytes())?;
    Ok(finish)
}
