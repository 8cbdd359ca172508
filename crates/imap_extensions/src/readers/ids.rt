//! What an implementation says of itself.

ghost use Rattle.std.specs.FinMap.{empty};
ghost use Rattle.std.specs.Prelude.{◌≡◌, Some, option_map, OnOk};
ghost use Rattle.imap_grammar.specs.Answer.{Answers, Steps};
ghost use Rattle.imap_grammar.specs.Memory.{BeginsWord, FailsOnlyIf, SucceedsFor};
ghost use Rattle.imap_grammar.specs.Rule.{gives, opt};
ghost use Rattle.imap_extensions.specs.Ids as ids;
ghost use Rattle.imap_extensions.specs.Ids.{id_value, pair_value, put_pair as put_value, map_of_pairs};

use crate::types::ids::{IdMap, put};
use imap_bytes::lists::tried;
use imap_bytes::tags::{blanks0, blanks1, tag, word};
use imap_bytes::{IResult, maybe, nil, nstring_utf8, string_utf8};
use std::alloc::{AllocError, Global};
use std::borrow::CowStr;
use std::collections::HashMap;

// A field, and its value if it has one.
type IdPair<'a> = (CowStr<'a>, Option<CowStr<'a>>);

#[tactic(auto, unfolding(crate::specs::Ids::id_pair))]
#[inline(always)]
fn id_pair(alloc: Global, i: &[u8]) -> IResult<&[u8], IdPair<'_>>
    ensures { Steps ids.id_pair pair_value i.now result }
{
    let (rest, key) = string_utf8(alloc, i)?;
    let (rest, _) = blanks1(rest)?;
    let (rest, value) = nstring_utf8(alloc, rest)?;
    Ok((rest, (key, value)))
}

// A pair behind blanks.
#[tactic(auto, unfolding(crate::specs::Ids::next_pair))]
fn next_pair(alloc: Global, i: &[u8]) -> IResult<&[u8], IdPair<'_>>
    ensures { Steps ids.next_pair pair_value i.now result }
{
    let (rest, _) = blanks1(i)?;
    id_pair(alloc, rest)
}

// A pair behind blanks, if there is one.
fn maybe_next_pair(alloc: Global, i: &[u8]) -> IResult<&[u8], Option<IdPair<'_>>>
    ensures { Steps (opt ids.next_pair) (option_map pair_value) i.now result }
{
    maybe!(next_pair(alloc, i), i)
}

// A pair without a value is dropped.
fn put_pair<'a>(map: &mut IdMap<'a>, pair: IdPair<'a>) -> Result<(), AllocError>
    ensures { OnOk result
        (id_value map.new ≡ put_value (id_value map.old) (pair_value pair.entry)) }
{
    match pair {
        (key, Some(value)) => put(map, key, value),
        (_, None) => Ok(()),
    }
}

// Pairs, put into an empty map as they are read: of equal fields the last counts.
fn put_pairs<'a>(alloc: Global, map: &mut IdMap<'a>, i: &'a [u8]) -> IResult<&'a [u8], ()>
    requires { id_value map.old ≡ empty }
    ensures { Steps (gives map_of_pairs ids.id_pairs) (λ x. id_value map.new) i.now result }
{
    let (mut rest, mut pair) = id_pair(alloc, i)?;
    'pairs: loop {
        put_pair(map, pair)?;
        let (after, next) = maybe_next_pair(alloc, rest)?;
        match next {
            None => return Ok((rest, ())),
            Some(found) => pair = found,
        }
        rest = after;
    }
}

#[tactic(auto, unfolding(crate::specs::Ids::id_map))]
fn put_list<'a>(alloc: Global, map: &mut IdMap<'a>, i: &'a [u8]) -> IResult<&'a [u8], ()>
    requires { id_value map.old ≡ empty }
    ensures steps { Steps ids.id_map (λ x. id_value map.new) i.now result }
    ensures memory { FailsOnlyIf (BeginsWord "(" i.now) result }
{
    let (rest, _) = tag(b"(", i)?;
    let (rest, _) = put_pairs(alloc, map, rest)?;
    let (rest, _) = blanks0(rest)?;
    let (rest, _) = tag(b")", rest)?;
    Ok((rest, ()))
}

#[tactic(auto, using(crate::proofs::IdPairs::some_params_is))]
fn some_params<'a>(alloc: Global, map: &mut IdMap<'a>, i: &'a [u8]) -> IResult<&'a [u8], ()>
    requires { id_value map.old ≡ empty }
    ensures steps { Steps ids.some_params (λ x. Some (id_value map.new)) i.now result }
    ensures memory { FailsOnlyIf (BeginsWord "(" i.now) result }
{
    put_list(alloc, map, i)
}

// The map is made here and filled where it stands, since each move of it is dear. An empty one takes no memory.
#[tactic(auto, unfolding(crate::specs::Ids::id_params))]
fn id_params(alloc: Global, i: &[u8]) -> IResult<&[u8], Option<IdMap<'_>>>
    ensures steps { Steps ids.id_params (option_map id_value) i.now result }
    ensures memory { SucceedsFor ids.IsNil ids.id_params i.now result }
{
    let mut map = HashMap::new(alloc);
    match tried(some_params(alloc, &mut map, i))? {
        Some((rest, _)) => Ok((rest, Some(map))),
        None => {
            let (rest, _) = nil(i)?;
            Ok((rest, None))
        }
    }
}

/// `ID`, and fields with their values, or `NIL` (RFC 2971, section 4: id_response).
///
/// A field whose value is `NIL` is left out, and of equal fields the last counts. `NIL` in place of the list is `None`.
/// Any other word, and behind it neither fields in parentheses nor `NIL`, is `Error`. It takes memory only behind `ID`,
/// for the map, and for texts that are not UTF-8; for `NIL` none.
#[tactic(auto, using(imap_grammar::proofs::Agreement::answered), unfolding(crate::specs::Ids::id))]
pub fn id(alloc: Global, i: &[u8]) -> IResult<&[u8], Option<IdMap<'_>>>
    ensures steps { Steps ids.id (option_map id_value) i.now result }
    ensures answer { Answers ids.id (option_map id_value) i.now result }
    ensures memory { SucceedsFor ids.IsNil ids.id i.now result }
    ensures worded { FailsOnlyIf (BeginsWord "ID" i.now) result }
{
    let (rest, _) = word(b"ID", i)?;
    let (rest, _) = blanks1(rest)?;
    id_params(alloc, rest)
}
