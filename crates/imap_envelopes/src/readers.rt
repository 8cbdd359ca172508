//! Readers of addresses and envelopes, each of the rule of its name.
//!
//! Each answers `Error` where its rule denies what stands there, whatever follows; `Incomplete` where more bytes are
//! needed to tell; and `Failure` only where memory ran out.

ghost use Rattle.imap_grammar.specs.Answer.{Answers, Steps, StepsExactly};
ghost use Rattle.imap_grammar.specs.Memory.{NeverFails};
ghost use Rattle.imap_envelopes.specs.Envelopes as envelopes;
ghost use Rattle.imap_envelopes.specs.Reading.{Reads};
ghost use Rattle.imap_body_types.specs.EnvelopeValues.{address_seen, envelope_seen};
ghost use Rattle.imap_body_types.specs.Spans.{bytes_of};

use crate::{Input, Keep, Positions, Values, at};
use imap_body_types::{Address, Envelope, shapes};
use imap_bytes::IResult;
use imap_bytes::at::Reached;
use imap_bytes::at::span::rest;
use std::alloc::Global;

/// An address: four nstrings in parentheses (RFC 3501, section 9: address). Its byte strings are borrowed.
///
/// A field that is missing, or that its rule denies, is `Error`. No memory.
#[tactic(auto, using(imap_grammar::proofs::Agreement::exact_answer))]
pub fn address(i: &[u8]) -> IResult<&[u8], Address<'_>>
    ensures steps { StepsExactly envelopes.address (address_seen bytes_of) i.now result }
    ensures answer { Answers envelopes.address (address_seen bytes_of) i.now result }
    ensures no_failure { NeverFails result }
{
    let (q, spans) = at::envelopes::address(&Positions, i, 0)?;
    Ok((rest(i, q), spans.value(i)))
}

// With any keeper: the borrow checker takes no input whose keeper borrows.
fn kept_envelope<K: Keep>(
    alloc: Global,
    message: &[u8],
    keep: K,
) -> Reached<shapes::envelopes::Envelope<K::Bytes>>
    requires { K.serves keep message.now }
    ensures { Reads envelopes.envelope
        (λ n. envelope_seen (K.bytes_said n)) message.now 0 result }
{
    let input = Input {
        alloc,
        message,
        keep,
    };
    at::envelopes::envelope(&input, 0)
}

/// An envelope: its ten fields in parentheses (RFC 3501, section 9: envelope). Its byte strings are borrowed.
///
/// A field that is missing, or that its rule denies, is `Error`. It takes memory for the lists of addresses.
#[tactic(auto, using(imap_grammar::proofs::Agreement::answered))]
pub fn envelope(alloc: Global, i: &[u8]) -> IResult<&[u8], Envelope<'_>>
    ensures steps { Steps envelopes.envelope (envelope_seen bytes_of) i.now result }
    ensures answer { Answers envelopes.envelope (envelope_seen bytes_of) i.now result }
{
    let (q, envelope) = kept_envelope(alloc, i, Values { alloc, message: i })?;
    Ok((rest(i, q), envelope))
}
