//! Logical lines (RFC 3501, sections 2.2 and 4.3). None of the readers takes memory.

ghost use Rattle.std.specs.Prelude.{◌≤◌, length};
ghost use Rattle.imap_grammar.specs.Answer.{Answers, StepsExactly};
ghost use Rattle.imap_grammar.specs.Memory.{NeverFails};
ghost use Rattle.imap_grammar.specs.Positions.{Ahead, Inside, maybe_in, named_in, StepsExactlyAt};
ghost use Rattle.imap_grammar.specs.Rule.{run0, run1, opt, ◌▹◌};
ghost use Rattle.imap_proto.specs.LogicalLines as rule;
ghost use Rattle.imap_proto.specs.LogicalLines.{NeverDenied};

use imap_bytes::at::Reached;
use imap_bytes::at::span::{Span, sliced};
use imap_bytes::at::strings::literal;
use imap_bytes::at::tags::{cut0, cut1, tag};
use imap_bytes::{IResult, first, maybe};
use imap_grammar::scanning::{Class, run_end};

// A CR.
struct Cr;

impl Class for Cr {
    ghost class = { rule.is_cr };

    fn has(c: u8) -> bool {
        c == b'\r'
    }
}

// A byte that neither ends a line nor begins a literal.
struct PlainByte;

impl Class for PlainByte {
    ghost class = { rule.is_plain };

    fn has(c: u8) -> bool {
        c != b'\r' && c != b'\n' && c != b'{'
    }
}

fn plain(m: &[u8], p: usize) -> Reached<Span>
    requires { p ≤ length m.now }
    ensures steps { StepsExactlyAt (run1 rule.is_plain) (named_in m.now) m.now p result }
    ensures inside { Inside m.now p result }
{
    let (_, i) = m.split_at(p);
    cut1(run_end::<PlainByte>(i), m, p)
}

#[tactic(auto, unfolding(crate::specs::LogicalLines::line_text))]
fn line_text(m: &[u8], p: usize) -> Reached<Span>
    requires { p ≤ length m.now }
    ensures steps { StepsExactlyAt rule.line_text (named_in m.now) m.now p result }
    ensures inside { Inside m.now p result }
{
    first!(plain(m, p));
    first!(literal(m, p));
    tag(b"{", m, p)
}

// CRs that no LF follows, maybe none, and what stands behind them.
fn text_behind_crs(m: &[u8], p: usize) -> Reached<Span>
    requires { p ≤ length m.now }
    ensures steps { StepsExactlyAt (run0 rule.is_cr ▹ rule.line_text) (named_in m.now) m.now p
        result }
    ensures inside { Inside m.now p result }
{
    let (_, i) = m.split_at(p);
    let (p, _) = cut0(run_end::<Cr>(i), m, p)?;
    line_text(m, p)
}

#[tactic(auto, unfolding(crate::specs::LogicalLines::line_part))]
fn line_part(m: &[u8], p: usize) -> Reached<Span>
    requires { p ≤ length m.now }
    ensures steps { StepsExactlyAt rule.line_part (named_in m.now) m.now p result }
    ensures inside { Inside m.now p result }
{
    first!(text_behind_crs(m, p));
    tag(b"\n", m, p)
}

fn next_part(m: &[u8], p: usize) -> Reached<Option<Span>>
    requires { p ≤ length m.now }
    ensures steps { StepsExactlyAt (opt rule.line_part) (maybe_in m.now) m.now p result }
    ensures ahead { Ahead m.now p result }
{
    maybe!(line_part(m, p), p)
}

fn line_content(m: &[u8], p: usize) -> Reached<Span>
    requires { p ≤ length m.now }
    ensures steps { StepsExactlyAt rule.line_content (named_in m.now) m.now p result }
    ensures inside { Inside m.now p result }
{
    let mut q = p;
    'parts: loop {
        let (after, part) = next_part(m, q)?;
        match part {
            None => return Ok((q, Span { start: p, end: q })),
            Some(_) => q = after,
        }
    }
}

// The CRs in front of an LF, and the LF.
#[tactic(auto, unfolding(crate::specs::LogicalLines::line_close))]
fn line_close(m: &[u8], p: usize) -> Reached<(Span, Span)>
    requires { p ≤ length m.now }
    ensures steps { StepsExactlyAt rule.line_close
        (λ x. (named_in m.now x.0, named_in m.now x.1)) m.now p result }
    ensures ahead { Ahead m.now p result }
{
    let (_, i) = m.split_at(p);
    let (p, crs) = cut1(run_end::<Cr>(i), m, p)?;
    let (p, lf) = tag(b"\n", m, p)?;
    Ok((p, (crs, lf)))
}

#[tactic(auto, unfolding(crate::specs::LogicalLines::logical_line))]
fn line_at(m: &[u8], p: usize) -> Reached<Span>
    requires { p ≤ length m.now }
    ensures steps { StepsExactlyAt rule.logical_line (named_in m.now) m.now p result }
    ensures inside { Inside m.now p result }
{
    let (q, _) = line_content(m, p)?;
    let (q, _) = line_close(m, q)?;
    Ok((q, Span { start: p, end: q }))
}

/// The logical line at the front, with its CRLF, and the bytes behind it (RFC 3501, sections 2.2 and 4.3): any literals
/// and any other bytes, up to the first CRLF that belongs to no literal. No memory.
///
/// A `{` that begins no literal, and a CR that no LF follows, are bytes like any other. It is never `Error` nor
/// `Failure`. `Incomplete`: the line isn't whole; `Needed::Size` is how many bytes its last literal lacks.
#[tactic(auto, using(imap_grammar::proofs::Agreement::exact_answer))]
pub fn logical_line(bytes: &[u8]) -> IResult<&[u8], &[u8]>
    ensures steps { StepsExactly rule.logical_line (λ x. x.now) bytes.now result }
    ensures answer { Answers rule.logical_line (λ x. x.now) bytes.now result }
    ensures not_denied { NeverDenied result }
    ensures no_failure { NeverFails result }
{
    sliced(bytes, line_at(bytes, 0))
}
