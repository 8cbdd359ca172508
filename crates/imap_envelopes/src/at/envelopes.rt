//! Addresses and envelopes at a position, and what is kept of their byte strings.

ghost use Rattle.std.specs.Prelude.{◌≡◌, ◌==◌, ◌≤◌, length, drop, map};
ghost use Rattle.std.specs.Option.{option_map};
ghost use Rattle.imap_grammar.specs.Ascii.{open_parenthesis};
ghost use Rattle.imap_grammar.specs.Meaning.{begins};
ghost use Rattle.imap_grammar.specs.Memory.{NeverFails};
ghost use Rattle.imap_envelopes.specs.Envelopes as envelopes;
ghost use Rattle.imap_envelopes.specs.Envelopes.{spaced, last_fields_seen};
ghost use Rattle.imap_envelopes.specs.Reading.{Reads, ReadsExactly};
ghost use Rattle.imap_body_types.specs.EnvelopeValues.{address_seen, addresses_seen, envelope_seen};

use crate::at::lists::ROOM;
use crate::at::texts::{byte_string, spaced_byte_string};
use crate::kept::kept_bytes;
use crate::{Input, Keep};
use imap_body_types::shapes::envelopes::{Address, Envelope};
use imap_bytes::Err;
use imap_bytes::at::Reached;
use imap_bytes::at::strings::nil;
use imap_bytes::at::tags::{maybe_space, tag};

// The last fields of an envelope, as they are kept.
#[derive(Drop)]
struct LastFields<B> {
    to: Option<Vec<Address<B>>>,
    cc: Option<Vec<Address<B>>>,
    bcc: Option<Vec<Address<B>>>,
    in_reply_to: Option<B>,
    message_id: Option<B>,
}

// A byte string, if there is one, as it is kept.
#[inline(always)]
fn kept_string<K: Keep>(keep: &K, m: &[u8], p: usize) -> Reached<Option<K::Bytes>>
    requires start { p ≤ length m.now }
    requires serves { K.serves keep.now m.now }
    ensures reads { ReadsExactly envelopes.byte_string (λ n. option_map (K.bytes_said n)) m.now p
        result }
    ensures no_failure { NeverFails result }
{
    let (q, bytes) = byte_string(m, p)?;
    Ok((q, kept_bytes(keep, m, bytes)))
}

// A space, then the same.
#[inline(always)]
fn spaced_string<K: Keep>(keep: &K, m: &[u8], p: usize) -> Reached<Option<K::Bytes>>
    requires start { p ≤ length m.now }
    requires serves { K.serves keep.now m.now }
    ensures reads { ReadsExactly (spaced envelopes.byte_string)
        (λ n. option_map (K.bytes_said n)) m.now p result }
    ensures no_failure { NeverFails result }
{
    let (q, bytes) = spaced_byte_string(m, p)?;
    Ok((q, kept_bytes(keep, m, bytes)))
}

/// An address (RFC 3501, section 9: address). No memory, and so no `Input`, which has an allocator.
#[tactic(auto, unfolding(crate::specs::Envelopes::address))]
pub fn address<K: Keep>(keep: &K, m: &[u8], p: usize) -> Reached<Address<K::Bytes>>
    requires start { p ≤ length m.now }
    requires serves { K.serves keep.now m.now }
    ensures reads { ReadsExactly envelopes.address (λ n. address_seen (K.bytes_said n)) m.now p
        result }
    ensures no_failure { NeverFails result }
{
    let (p, _) = tag(b"(", m, p)?;
    let (p, name) = kept_string(keep, m, p)?;
    let (p, adl) = spaced_string(keep, m, p)?;
    let (p, mailbox) = spaced_string(keep, m, p)?;
    let (p, host) = spaced_string(keep, m, p)?;
    let (p, _) = tag(b")", m, p)?;
    Ok((
        p,
        Address {
            name,
            adl,
            mailbox,
            host,
        },
    ))
}

// An address, and maybe a space.
#[tactic(auto, unfolding(crate::specs::Envelopes::listed_address))]
fn listed_address<K: Keep>(input: &Input<K>, p: usize) -> Reached<Address<K::Bytes>>
    requires { p ≤ length input.now }
    ensures { ReadsExactly envelopes.listed_address
        (λ n. address_seen (K.bytes_said n)) input.now p result }
{
    let (q, address) = address(&input.keep, input.message, p)?;
    let (q, _) = maybe_space(input.message, q)?;
    Ok((q, address))
}

#[tactic(auto, unfolding(crate::specs::Envelopes::some_addresses))]
fn some_addresses<K: Keep>(input: &Input<K>, p: usize) -> Reached<Vec<Address<K::Bytes>>>
    requires { p ≤ length input.now }
    ensures { Reads envelopes.some_addresses
        (λ n x. map (address_seen (K.bytes_said n)) x.items) input.now p result }
{
    // The first is read in the loop, too, so that an address is read in one place, whose calls the compiler takes in.
    let mut items = Vec::with_capacity(input.alloc, ROOM)?;
    let mut q = p;
    'addresses: loop {
        match listed_address(input, q) {
            Ok((after, address)) => {
                items.push(address)?;
                q = after;
            }
            Err(error) => match error {
                Err::Error => break,
                _ => return Err(error),
            },
        }
    }
    if items.is_empty() {
        return Err(Err::Error);
    }
    Ok((q, items))
}

// Whether the next byte opens a list.
#[inline(always)]
fn list_opens(m: &[u8], p: usize) -> bool
    requires { p ≤ length m.now }
    ensures { result ≡ begins (λ b. b == open_parenthesis) (drop p m.now) }
{
    let (_, i) = m.split_at(p);
    matches!(i.first(), Some(b'('))
}

// `NIL`, or addresses in parentheses (RFC 3501, section 9: env-from).
fn addresses<K: Keep>(input: &Input<K>, p: usize) -> Reached<Option<Vec<Address<K::Bytes>>>>
    requires { p ≤ length input.now }
    ensures { Reads envelopes.addresses
        (λ n. addresses_seen (K.bytes_said n)) input.now p result }
{
    if !list_opens(input.message, p) {
        let (q, _) = nil(input.message, p)?;
        return Ok((q, None));
    }
    let (q, _) = tag(b"(", input.message, p)?;
    let (q, list) = some_addresses(input, q)?;
    let (q, _) = tag(b")", input.message, q)?;
    Ok((q, Some(list)))
}

fn spaced_addresses<K: Keep>(input: &Input<K>, p: usize) -> Reached<Option<Vec<Address<K::Bytes>>>>
    requires { p ≤ length input.now }
    ensures { Reads (spaced envelopes.addresses)
        (λ n. addresses_seen (K.bytes_said n)) input.now p result }
{
    let (p, _) = tag(b" ", input.message, p)?;
    addresses(input, p)
}

// To whom a message went, and which message it is, up to the end of the envelope. A reader of its own, since one of
// all ten fields takes longer to prove.
#[tactic(auto, unfolding(crate::specs::Envelopes::last_fields_seen))]
#[inline(always)]
fn last_fields<K: Keep>(input: &Input<K>, p: usize) -> Reached<LastFields<K::Bytes>>
    requires { p ≤ length input.now }
    ensures { Reads envelopes.last_fields
        (λ n. last_fields_seen (K.bytes_said n)) input.now p result }
{
    let (p, to) = spaced_addresses(input, p)?;
    let (p, cc) = spaced_addresses(input, p)?;
    let (p, bcc) = spaced_addresses(input, p)?;
    let (p, in_reply_to) = spaced_string(&input.keep, input.message, p)?;
    let (p, message_id) = spaced_string(&input.keep, input.message, p)?;
    let (p, _) = tag(b")", input.message, p)?;
    Ok((
        p,
        LastFields {
            to,
            cc,
            bcc,
            in_reply_to,
            message_id,
        },
    ))
}

/// An envelope (RFC 3501, section 9: envelope). It takes memory for its lists of addresses.
#[tactic(auto, unfolding(crate::specs::Envelopes::envelope, imap_body_types::specs::EnvelopeValues::envelope_seen))]
pub fn envelope<K: Keep>(input: &Input<K>, p: usize) -> Reached<Envelope<K::Bytes>>
    requires { p ≤ length input.now }
    ensures { Reads envelopes.envelope
        (λ n. envelope_seen (K.bytes_said n)) input.now p result }
{
    let (p, _) = tag(b"(", input.message, p)?;
    let (p, date) = kept_string(&input.keep, input.message, p)?;
    let (p, subject) = spaced_string(&input.keep, input.message, p)?;
    let (p, from) = spaced_addresses(input, p)?;
    let (p, sender) = spaced_addresses(input, p)?;
    let (p, reply_to) = spaced_addresses(input, p)?;
    let (p, last) = last_fields(input, p)?;
    Ok((
        p,
        Envelope {
            date,
            subject,
            from,
            sender,
            reply_to,
            to: last.to,
            cc: last.cc,
            bcc: last.bcc,
            in_reply_to: last.in_reply_to,
            message_id: last.message_id,
        },
    ))
}
