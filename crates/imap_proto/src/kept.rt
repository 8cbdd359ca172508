//! Fetches that are kept: the bytes of one `FETCH` once, and its attributes as positions in them.

ghost use Rattle.std.specs.Prelude.{◌≡◌, ◌≤◌, ◌<◌, Some, Ok as Found, Err as Refused, length, slice_get, IfOk};
ghost use Rattle.std.specs.Prelude.{MatchResult};
ghost use Rattle.imap_grammar.specs.Memory.{FailsOnlyIf};
ghost use Rattle.imap_grammar.specs.Positions.{StepsAt};
ghost use Rattle.imap_body.specs.AttributeValues.{attribute_value};
ghost use Rattle.imap_body.specs.SpannedAttributes.{InFront};
ghost use Rattle.imap_proto.specs.Kept.{Keeps, message_number, consumed_bytes, attributes_of, unescaped_attributes_of};
ghost use Rattle.imap_proto.specs.Kept.{attributes_left, spans_of, without_value};
ghost use Rattle.imap_proto.specs.Feeds.{FeedMayWant};
ghost use Rattle.imap_proto.specs.Fronts.{BeginsFetch, IsKeptFront};
ghost use Rattle.imap_proto.specs.declared.kept.Front.TheVariants as front;
ghost use Rattle.imap_proto.specs.Memory.{MayWantMemory};
ghost use Rattle.imap_proto.specs.Responses.{fetch_in};
ghost use Rattle.imap_proto.specs.Lines as rule;

use crate::fetched::fetched;
use crate::response::Response;
use crate::stream::owned_front;
use imap_body::AttributeValue;
use imap_body::spanned::SpannedAttribute;
use imap_bytes::at::Reached;
use imap_bytes::at::numbers::number;
use imap_bytes::at::tags::tag;
use imap_bytes::lists::tried;
use imap_bytes::{Err, IResult};
use std::alloc::{AllocError, Global};

// A line that tells of a message: its number, and its attributes as positions in the line.
#[tactic(auto, using(crate::proofs::Ended::ended_later), unfolding(crate::proofs::Ended::fetch_rules))]
fn fetch_line(alloc: Global, m: &[u8]) -> Reached<(u32, Vec<SpannedAttribute>)>
    ensures steps { StepsAt rule.fetch_line (fetch_in m.now) m.now 0 result }
    ensures within { IfOk result (λ x. x.0 ≤ length m.now) }
    ensures rests { InFront fetch_in result }
    ensures failure { FailsOnlyIf (MayWantMemory m.now) result }
    ensures begins { FailsOnlyIf (BeginsFetch m.now) result }
{
    let (p, _) = tag(b"* ", m, 0)?;
    let (p, number) = number(m, p)?;
    let (p, attributes) = fetched(alloc, m, p)?;
    Ok((p, (number, attributes)))
}

// An answer, its value dropped.
fn valueless<T: Drop>(answer: IResult<&[u8], T>) -> Result<(), Err>
    ensures { result ≡ without_value answer.entry }
{
    match answer {
        Ok(_) => Ok(()),
        Err(e) => Err(e),
    }
}

/// A `FETCH` that is kept (RFC 3501, section 7.4.2): what it consumed, once, and where its attributes stand in that.
#[derive(Drop)]
pub struct KeptFetch {
    alloc: Global,
    number: u32,
    attributes: Vec<SpannedAttribute>,
    bytes: Vec<u8>,
}

impl KeptFetch {
    /// Keeps the `FETCH` at the front of the message (RFC 3501, section 7.4.2); `None` where another response stands
    /// there.
    ///
    /// `Error`, `Incomplete` and `Failure` as `Response::parse`. Whether a `FETCH` stands there may depend on bytes
    /// behind it. So `bytes()`, parsed alone, may be `Incomplete`.
    ///
    /// It takes memory for its bytes and its attributes, and for another response as `Response::parse` does. Keeping
    /// from `Feed::held` takes nothing off the feed: its `next` reads the same bytes again.
    pub fn keep(alloc: Global, msg: &[u8]) -> Result<Option<KeptFetch>, Err>
        ensures keeps { Keeps msg.now result }
        ensures failure { FailsOnlyIf (MayWantMemory msg.now) result }
    {
        let Some((q, (number, attributes))) = tried(fetch_line(alloc, msg))? else {
            valueless(Response::parse(alloc, msg))?;
            return Ok(None);
        };
        let (front, _) = msg.split_at(q);
        let bytes = Vec::from_slice(alloc, front)?;
        Ok(Some(KeptFetch {
            alloc,
            number,
            attributes,
            bytes,
        }))
    }

    /// The number of the message. No memory.
    pub fn number(&self) -> u32
        ensures { result ≡ message_number self.now }
    {
        self.number
    }

    /// How many attributes it has, at least one. No memory.
    pub fn len(&self) -> usize
        ensures { result ≡ length (attributes_of self.now) }
    {
        self.attributes.len()
    }

    /// The bytes that it consumed. No memory.
    pub fn bytes(&self) -> &[u8]
        ensures { result.now ≡ consumed_bytes self.now }
    {
        &self.bytes
    }

    /// The attribute at k, which must be below `len`: the same as in the parsed list, each text borrowed from the
    /// kept bytes where its own bytes are UTF-8.
    ///
    /// It reads no rule again. It always takes memory, at least for one attribute; more for section paths, lists,
    /// envelopes, body structures and texts that are not UTF-8. `Err`: memory ran out.
    pub fn attribute(&self, k: usize) -> Result<AttributeValue<'_>, AllocError>
        requires { k < length (attributes_of self.now) }
        ensures { IfOk result (λ v.
            slice_get (attributes_of self.now) k ≡ Some (attribute_value v)) }
    {
        self.attributes[k].value(self.alloc, &self.bytes)
    }

    /// The attribute at k, which must be below `len`, each quoted string without its escapes (RFC 3501, section 9:
    /// quoted): of `\\` and `\"` the second byte stays. Literals and atoms are as they stand, and where nothing was
    /// undone a text is borrowed as `attribute` has it.
    ///
    /// It takes memory as `attribute` does, and for each quoted string that has a `\`. `Err`: memory ran out.
    pub fn unescaped(&self, k: usize) -> Result<AttributeValue<'_>, AllocError>
        requires { k < length (attributes_of self.now) }
        ensures { IfOk result (λ v.
            slice_get (unescaped_attributes_of self.now) k ≡ Some (attribute_value v)) }
    {
        self.attributes[k].unescaped(self.alloc, &self.bytes)
    }

    /// Its attributes in their order, each as `attribute` gives it. No memory for the iterator itself.
    pub fn attributes(&self) -> Attributes<'_>
        ensures { attributes_left result ≡ attributes_of self.now }
    {
        Attributes {
            alloc: self.alloc,
            left: &self.attributes,
            bytes: &self.bytes,
        }
    }

    /// The bytes of the attribute at k, which must be below `len`: its name and what stands behind that. No memory.
    pub fn span(&self, k: usize) -> &[u8]
        requires { k < length (attributes_of self.now) }
        ensures { slice_get (spans_of self.now) k ≡ Some result.now }
    {
        self.attributes[k].span().part(&self.bytes)
    }
}

/// The attributes of a kept fetch, in their order (`KeptFetch::attributes`).
#[derive(Drop)]
pub struct Attributes<'a> {
    alloc: Global,
    left: &'a [SpannedAttribute],
    bytes: &'a [u8],
}

impl<'a> Iterator for Attributes<'a> {
    ghost use Rattle.std.specs.Iterator.{item_count};
    ghost use Rattle.imap_proto.specs.Kept.{GivesAttribute};

    type Item = Result<AttributeValue<'a>, AllocError>;

    ghost next_gives = { GivesAttribute };

    ghost remaining = { item_count attributes_left };

    /// The next attribute, as `KeptFetch::attribute` gives it; `Err`: memory ran out, and the attribute is passed over.
    fn next(&mut self) -> Option<Result<AttributeValue<'a>, AllocError>> {
        let (first, others) = self.left.split_first()?;
        self.left = others;
        Some(first.value(self.alloc, self.bytes))
    }
}

/// What stands at the front of a feed (`Feed::next_kept`).
#[derive(Drop)]
pub enum Front {
    /// A `FETCH`, kept with its bytes.
    Fetch(KeptFetch),
    /// Another response, with all its texts owned.
    Other(Response<'static>),
}

fn other_front(owned: Reached<Response<'static>>) -> Reached<Front>
    ensures { MatchResult owned.entry (λ x. result ≡ Found (x.0, front.Other x.1))
        (λ e. result ≡ Refused e) }
{
    match owned {
        Ok((left, response)) => Ok((left, Front::Other(response))),
        Err(error) => Err(error),
    }
}

// What stands in front, a FETCH kept, and how many bytes are behind it. A FETCH is read once.
pub(crate) fn kept_front(alloc: Global, held: &[u8]) -> Reached<Front>
    ensures front { IsKeptFront held.now result }
    ensures failure { FailsOnlyIf (FeedMayWant held.now) result }
{
    let Some((q, (number, attributes))) = tried(fetch_line(alloc, held))? else {
        return other_front(owned_front(alloc, held));
    };
    let (front, rest) = held.split_at(q);
    let bytes = Vec::from_slice(alloc, front)?;
    let fetch = KeptFetch {
        alloc,
        number,
        attributes,
        bytes,
    };
    Ok((rest.len(), Front::Fetch(fetch)))
}
