//! What stands at the front of some bytes.

ghost use Rattle.std.specs.Prelude.{◌≡◌, ◌+◌, ◌-◌, ◌<◌, ◌≤◌, ◌^◌, ◌⊎◌, List, ℕ, Ok as Found, length};
ghost use Rattle.imap_grammar.specs.Step.{step};
ghost use Rattle.imap_proto.specs.Lines as rule;
ghost use Rattle.imap_proto.specs.Memory.{MayWantMemory, TakesNone};
ghost use Rattle.imap_proto.specs.Responses.{ResponseValue};
ghost use Rattle.imap_c.specs.Numbers.{found, waits, out_of_memory, strange_cursor};
ghost use Rattle.imap_c.specs.Answers.{Tells, TellsLine, no_response};
ghost use Rattle.imap_c.specs.Cursors.{held, Fits};

use crate::answers::{Answer, LineAnswer, found, missing, refused, without_response};
use crate::cursors::{Cursor, moved};
use imap_proto::stream::logical_line;
use imap_proto::{Err, Response};
use std::alloc::Global;

#[tactic(auto, using(imap_proto::proofs::Streams::shorter))]
fn parsed(alloc: Global, bytes: &[u8]) -> Answer
    ensures answer { Tells bytes.now result }
    ensures within { result.consumed ≤ length bytes.now }
    ensures failure { result.outcome ≡ out_of_memory → MayWantMemory bytes.now }
    ensures memory { (v : ResponseValue) (rest : List ℕ) →
        step rule.response bytes.now ≡ Found (rest, v) →
        TakesNone v →
        result.outcome ≡ found }
{
    match Response::parse(alloc, bytes) {
        Ok((rest, response)) => {
            let answer = found(&response, bytes.len() - rest.len());
            drop(response); // By a call: dropped in place, each of its kinds would be proved here.
            answer
        }
        Err(error) => refused(&error),
    }
}

/// What stands at the front of the bytes: a response and how many bytes it has, or why there is none. It answers what
/// `Response::parse` of `imap_proto` does, in numbers. It takes memory as that does, and gives it back.
#[unsafe(no_mangle)]
pub extern "C" fn imap_parse(alloc: Global, bytes: &[u8]) -> Answer
    ensures answer { Tells bytes.now result }
    ensures failure { result.outcome ≡ out_of_memory → MayWantMemory bytes.now }
    ensures memory { (v : ResponseValue) (rest : List ℕ) →
        step rule.response bytes.now ≡ Found (rest, v) →
        TakesNone v →
        result.outcome ≡ found }
{
    parsed(alloc, bytes)
}

/// The next response in a buffer: what stands from the cursor's start on, as `imap_parse` answers it. Behind a response
/// the cursor moves to what follows. Where a literal lacks bytes, the cursor keeps how many have to be there, and
/// nothing is read again before they are.
///
/// The cursor has to be one that an earlier call left, over the same bytes or fewer of them, or a new one. A cursor
/// that begins behind the bytes is answered as outcome 4. With any other a response may be waited for that is there: no
/// more comes of it.
#[unsafe(no_mangle)]
pub extern "C" fn imap_next(alloc: Global, bytes: &[u8], cursor: &mut Cursor) -> Answer
    ensures answer { Fits bytes.now cursor.old → Tells (held bytes.now cursor.old) result }
    ensures fits { Fits bytes.now cursor.old → Fits bytes.now cursor.new }
    ensures strange { length bytes.now < cursor.old.start →
        (result ≡ no_response strange_cursor 0) × (cursor.new ≡ cursor.old) }
    ensures wants { cursor.old.start ≤ length bytes.now →
        length (held bytes.now cursor.old) < cursor.old.wanted →
        (result ≡ no_response waits (cursor.old.wanted - length (held bytes.now cursor.old)))
        × (cursor.new ≡ cursor.old) }
    ensures reads { cursor.old.start ≤ length bytes.now →
        cursor.old.wanted ≤ length (held bytes.now cursor.old) →
        Tells (held bytes.now cursor.old) result }
    ensures moves { cursor.old.start ≤ length bytes.now →
        cursor.new.start ≡ cursor.old.start + result.consumed }
    ensures spares { 0 < result.missing →
        (cursor.new.wanted ≡ length (held bytes.now cursor.old) + result.missing)
        ⊎ (2 ^ 64 ≤ length (held bytes.now cursor.old) + result.missing) }
    ensures failure { result.outcome ≡ out_of_memory → MayWantMemory (held bytes.now cursor.old) }
    ensures memory { (v : ResponseValue) (rest : List ℕ) →
        cursor.old.start ≤ length bytes.now →
        cursor.old.wanted ≤ length (held bytes.now cursor.old) →
        step rule.response (held bytes.now cursor.old) ≡ Found (rest, v) →
        TakesNone v →
        result.outcome ≡ found }
{
    let Cursor { start, wanted } = *cursor;
    if start > bytes.len() {
        return without_response(4, 0);
    }
    let (_, held) = bytes.split_at(start);
    if held.len() < wanted {
        return without_response(1, wanted - held.len());
    }
    let answer = parsed(alloc, held);
    *cursor = moved(start, held.len(), answer);
    answer
}

/// The logical line at the front of the bytes (RFC 3501, sections 2.2 and 4.3): any literals and any other bytes, up to
/// the first CRLF that belongs to no literal. No memory.
#[unsafe(no_mangle)]
pub extern "C" fn imap_logical_line(bytes: &[u8]) -> LineAnswer
    ensures { TellsLine bytes.now result }
{
    match logical_line(bytes) {
        Ok((_, line)) => LineAnswer {
            consumed: line.len(),
            missing: 0,
        },
        Err(Err::Incomplete(needed)) => LineAnswer {
            consumed: 0,
            missing: missing(needed),
        },
        Err(Err::Error | Err::Failure) => LineAnswer {
            consumed: 0,
            missing: 0,
        },
    }
}
