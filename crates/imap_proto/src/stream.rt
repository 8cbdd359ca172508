//! Streams: bytes that come in pieces, and the responses in them (RFC 3501, section 2.2.2).
//!
//! However the bytes are cut into pieces, the same responses come of them: `laws::streams`.

ghost use Rattle.std.specs.Prelude.{◌≡◌, ◌≤◌, ◌<◌, ◌+◌, ◌++◌, [], List, ℕ, length, map, drop, IfOk, IfErr, IfSome};
ghost use Rattle.std.specs.Prelude.{IsOk, OnOk, OnErr, MatchResult, Ok as Found, Err as Refused};
ghost use Rattle.imap_grammar.specs.declared.answer.Err.TheVariants.{Failure};
ghost use Rattle.imap_grammar.specs.Memory.{FailsOnlyIf};
ghost use Rattle.imap_proto.specs.declared.stream.FeedError.TheVariants.{OutOfMemory};
ghost use Rattle.imap_proto.specs.Streams.{Fed, joined};
ghost use Rattle.imap_grammar.specs.Meaning.{Denies};
ghost use Rattle.imap_grammar.specs.Rule.{meaning};
ghost use Rattle.imap_proto.specs.Lines as rule;
ghost use Rattle.imap_proto.specs.Fronts.{GaveFront, HasGivenFront, PassesFront};
ghost use Rattle.imap_proto.specs.Skipping.{Passed, PassesPiece, PassesResponse, PassesLine, Dropped};
ghost use Rattle.imap_proto.specs.Feeds.{Gave, HasGivenMore, IsFedMore, IsOwnedFront, IsFront, Settles, Puts, WaitsFor};
ghost use Rattle.imap_proto.specs.Feeds.{RefusesAs, FeedMayWant, TakesAll, IsWhole};

use crate::kept::{Front, kept_front};
pub use crate::logical_lines::logical_line;
use crate::response::Response;
use crate::whole;
use imap_bytes::at::Reached;
use imap_bytes::{Err, Needed};
use std::alloc::{AllocError, Global};
use std::marker::Model;
use thiserror::Error;

/// Why a stream gives no more responses.
#[derive(Clone, Copy, Debug, PartialEq, Eq)]
pub enum End {
    /// What is left is no response yet, and is not denied; or nothing is left.
    Waits,
    /// No response begins with what is left.
    Denied,
}

/// Why a feed gives no answer. The feed is then as it was before.
#[derive(Clone, Copy, Debug, PartialEq, Eq, Error)]
pub enum FeedError {
    /// No response begins with what it holds, whatever is fed behind that.
    #[error("denied")]
    Denied,
    /// Memory ran out.
    #[error("out of memory")]
    OutOfMemory,
}

impl From<AllocError> for FeedError {
    ghost from_gives = { λ _ e. e ≡ OutOfMemory };

    fn from(_error: AllocError) -> FeedError {
        FeedError::OutOfMemory
    }
}

/// Bytes of a server that come in pieces, and that give their responses one by one.
///
/// What is given is dropped from the front, and what is behind it is moved there only when more than half of all bytes
/// are spent: so fewer bytes are moved than were fed. Where a literal lacks n bytes, nothing is read again until n
/// bytes more were fed. Where it isn't known how many are lacking, the line is read from its start after each piece,
/// since it may be denied by then: a line of L bytes in pieces of p is read some L / p times, some L * L / 2p bytes in
/// all.
///
/// A reading may go on behind the end of its line, where the line announces a literal: only what stands behind that
/// tells whether the line is the longer or the shorter one. So many lines, or many attributes of one line, may have the
/// same bytes read again and again: L bytes that are held can cost time in proportion to L * L. The feed has no limit
/// of its own. A caller who fears such lines stops feeding where `held` grows too long.
#[derive(Drop)]
pub struct Feed {
    alloc: Global,
    bytes: Vec<u8>,
    // What is held is what stands from here on.
    start: usize,
    // What is held waits, whatever comes, until so many bytes more were fed.
    wanted: usize,
}

impl Model for Feed {
    ghost Value = { List ℕ };

    ghost view = { λ f. drop f.start f.bytes.items };

    ghost invariant = { λ f.
        (f.start + f.start ≤ length f.bytes.items)
        × WaitsFor (drop f.start f.bytes.items) f.wanted };
}

// Drops the bytes in front of the start, where they are more than half of all, and tells the new start. Where it
// moves bytes, these are fewer than it drops.
fn compacted(bytes: &mut Vec<u8>, start: usize) -> usize
    requires { start ≤ length bytes.old.items }
    ensures half { result + result ≤ length bytes.new.items }
    ensures same { drop result bytes.new.items ≡ drop start bytes.old.items }
    ensures moves { ¬ (bytes.new.items ≡ bytes.old.items) → length bytes.new.items < start }
{
    let held = bytes.len() - start;
    if start <= held {
        return start;
    }
    bytes.copy_within(start.., 0);
    bytes.truncate(held);
    0
}

// How many bytes are behind what is owned, and this.
//
// It is generic in what it hands on, as `settle` and `put` are: what is proved over a type parameter is proved once,
// and each step over a response is dear.
#[inline(always)]
fn reached<R: Drop>(left: usize, owned: Result<R, AllocError>) -> Reached<R>
    ensures { MatchResult owned (λ r. result ≡ Found (left, r)) (λ _. result ≡ Refused Failure) }
{
    Ok((left, owned?))
}

// The response at the front with all its texts owned, and how many bytes are behind it.
pub(crate) fn owned_front(alloc: Global, held: &[u8]) -> Reached<Response<'static>>
    ensures front { IsOwnedFront held.now result }
    ensures within { IfOk result (λ x. x.0 ≤ length held.now) }
    ensures failure { FailsOnlyIf (FeedMayWant held.now) result }
{
    match Response::parse(alloc, held) {
        Ok((rest, response)) => reached(rest.len(), response.into_owned(alloc)),
        Err(error) => Err(error),
    }
}

impl Feed {
    /// A feed that holds nothing. No memory.
    pub fn new(alloc: Global) -> Feed
        ensures empty { result ≡ [] }
        ensures begins { Fed [] [] result }
        ensures passes { Passed [] [] result }
    {
        Feed {
            alloc,
            bytes: Vec::new(alloc),
            start: 0,
            wanted: 1,
        }
    }

    /// Puts a piece behind what it holds. It takes memory; `Err`: memory ran out, and the feed is as it was.
    pub fn feed(&mut self, piece: &[u8]) -> Result<(), AllocError>
        ensures fed { OnOk result (self.new ≡ self.old ++ piece.now) }
        ensures goes_on { OnOk result (IsFedMore self.old piece.now self.new) }
        ensures passes { OnOk result (PassesPiece self.old piece.now self.new) }
        ensures kept { OnErr result (self.new ≡ self.old) }
    {
        self.bytes.extend_from_slice(piece)?;
        self.wanted = self.wanted.saturating_sub(piece.len());
        Ok(())
    }

    /// What it was fed and has not yet given. No memory.
    pub fn held(&self) -> &[u8]
        ensures { result.now ≡ self.now }
    {
        let (_, held) = self.bytes.split_at(self.start);
        held
    }

    /// The response at the front of what it holds, with all its texts owned; its bytes are held no longer. `None`
    /// where more bytes are needed, or nothing is held.
    ///
    /// It takes memory, to read a response and to own it. `OutOfMemory`: memory ran out, and the same call may be made
    /// again; it is answered only where `Response::parse` may want memory, or where a response stands in front. It is
    /// never answered where that response takes no memory and holds no text to be copied, as `EXISTS` and `EXPUNGE`.
    /// `Denied`: no response begins so, and every later call says that again, whatever is fed, or `OutOfMemory`. Both
    /// leave what is held. A response takes at least one byte, so a loop over `next` ends.
    pub fn next(&mut self) -> Result<Option<Response<'static>>, FeedError>
        ensures gives { IfOk result (λ r. Gave self.old r self.new) }
        ensures goes_on { IfOk result (λ r. IfSome r (λ x. HasGivenMore self.old x self.new)) }
        ensures passes { IfOk result (λ r. IfSome r (λ x. PassesResponse self.old x self.new)) }
        ensures fewer { IfOk result (λ r. IfSome r (λ _. length self.new < length self.old)) }
        ensures denied { IfErr result (RefusesAs self.old) }
        ensures kept { OnErr result (self.new ≡ self.old) }
    {
        if self.wanted > 0 {
            return Ok(None);
        }
        let front = owned_front(self.alloc, self.held());
        self.settle(front)
    }

    /// What `next` gives, but a `FETCH` is kept: its bytes once, and where its attributes stand in them. It is read
    /// once, and no text of it is copied apart from those bytes.
    ///
    /// It takes memory, for a `FETCH` as `KeptFetch::keep` does, and for another response as `next` does; its faults
    /// are those of `next`. `next` and `next_kept` may be called by turns.
    pub fn next_kept(&mut self) -> Result<Option<Front>, FeedError>
        ensures gives { IfOk result (λ r. GaveFront self.old r self.new) }
        ensures goes_on { IfOk result (λ r. IfSome r (λ x. HasGivenFront self.old x self.new)) }
        ensures passes { IfOk result (λ r. IfSome r (λ x. PassesFront self.old x self.new)) }
        ensures fewer { IfOk result (λ r. IfSome r (λ _. length self.new < length self.old)) }
        ensures denied { IfErr result (RefusesAs self.old) }
        ensures kept { OnErr result (self.new ≡ self.old) }
    {
        if self.wanted > 0 {
            return Ok(None);
        }
        let kept = kept_front(self.alloc, self.held());
        self.settle(kept)
    }

    /// Drops the logical line at the front of what it holds (RFC 3501, sections 2.2 and 4.3), and tells its length with
    /// its CRLF: so `next` reads what is behind it. `None` where the line isn't whole yet: then nothing changes, and
    /// the same call may be made again behind more bytes. No memory.
    ///
    /// It is meant for a line that `next` has `Denied`, one with no rule. What came of the bytes is the same then,
    /// however they were cut: `laws::skipping`. A whole response is dropped too, where one stands in front. The feed
    /// knows neither whether the server meant a literal where the line's bytes look like one, as in a text that ends in
    /// `{5}`, nor where a line of a server that breaks the rules ends: so what follows may be a part of the same line.
    /// And a tagged line that is skipped is lost to the command that waits for it.
    pub fn skip_line(&mut self) -> Option<usize>
        ensures drops { Dropped self.old result self.new }
        ensures passes { Denies (meaning rule.response) self.old →
            IfSome result (λ n. PassesLine self.old n self.new) }
        ensures fewer { IfSome result (λ n. (0 < n) × (length self.new + n ≡ length self.old)) }
    {
        match logical_line(self.held()) {
            Ok((rest, line)) => {
                let skipped = Ok((rest.len(), line.len()));
                self.settle(skipped).unwrap_or(None)
            }
            Err(_) => None,
        }
    }

    // Moves on behind what stands in front, or waits for what is lacking.
    #[inline(always)]
    fn settle<R: Drop>(&mut self, front: Reached<R>) -> Result<Option<R>, FeedError>
        requires { IsFront self.old front }
        ensures { Settles self.old front result self.new }
    {
        match front {
            Ok((left, response)) => {
                let start = self.bytes.len() - left;
                self.start = compacted(&mut self.bytes, start);
                self.wanted = 0;
                Ok(Some(response))
            }
            Err(Err::Incomplete(Needed::Size(n))) => {
                self.wanted = n;
                Ok(None)
            }
            Err(Err::Incomplete(Needed::Unknown)) => {
                self.wanted = 1;
                Ok(None)
            }
            Err(Err::Error) => Err(FeedError::Denied),
            Err(Err::Failure) => Err(FeedError::OutOfMemory),
        }
    }
}

/// What stands in the pieces of a stream.
pub type Whole = whole::Whole<Response<'static>>;

// Puts a response behind the others, or tells why none was given.
#[inline(always)]
fn put<R: Drop>(
    responses: &mut Vec<R>,
    given: Result<Option<R>, FeedError>,
) -> Result<Option<End>, AllocError>
    ensures { IfOk result (λ end. Puts responses.old.items given end responses.new.items) }
{
    match given {
        Ok(Some(response)) => {
            responses.push(response)?;
            Ok(None)
        }
        Ok(None) => Ok(Some(End::Waits)),
        Err(FeedError::Denied) => Ok(Some(End::Denied)),
        Err(FeedError::OutOfMemory) => Err(AllocError),
    }
}

// Takes the responses that a feed has, puts them behind the others, and tells why it gives no more.
fn take_all(feed: &mut Feed, responses: &mut Vec<Response<'static>>) -> Result<End, AllocError>
    ensures { IfOk result (TakesAll feed.old responses.old.items feed.new responses.new.items) }
{
    'responses: loop {
        if let Some(end) = put(responses, feed.next())? {
            return Ok(end);
        }
    }
}

/// All responses that stand in the pieces, one behind another, and what is left behind them.
///
/// It takes memory unless there are no pieces; `Err`: memory ran out. Behind a denial no response is read.
pub fn read_pieces(alloc: Global, pieces: &[&[u8]]) -> Result<Whole, AllocError>
    ensures whole { IfOk result (IsWhole (joined (map (λ p. p.now) pieces.now))) }
    ensures memory { pieces.now ≡ [] → IsOk result }
{
    if pieces.is_empty() {
        return Ok(Whole {
            responses: Vec::new(alloc),
            rest: Vec::new(alloc),
            end: End::Waits,
        });
    }
    let mut feed = Feed::new(alloc);
    let mut responses = Vec::new(alloc);
    let mut end = End::Waits;
    for piece in pieces {
        feed.feed(piece)?;
        match end {
            End::Waits => end = take_all(&mut feed, &mut responses)?,
            End::Denied => {}
        }
    }
    let rest = Vec::from_slice(alloc, feed.held())?;
    Ok(Whole {
        responses,
        rest,
        end,
    })
}
