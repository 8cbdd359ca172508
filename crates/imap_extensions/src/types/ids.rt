//! What an implementation says of itself.

ghost use Rattle.std.specs.Prelude.{◌≡◌, [], IfOk, IsOk, OnOk};
ghost use Rattle.std.specs.FinMap.{insert};
ghost use Rattle.std.specs.Cow.{cow_str_bytes};
ghost use Rattle.imap_grammar.specs.Text.{text_of, owned_text as owned};
ghost use Rattle.imap_extensions.specs.Ids.{id_value};
ghost use Rattle.imap_extensions.specs.Owned.{owned_id};

use imap_shared::owned::owned_text;
use std::alloc::{AllocError, Global};
use std::borrow::CowStr;
use std::collections::HashMap;

/// What an implementation says of itself: fields and their values (RFC 2971, section 3.3).
pub type IdMap<'a> = HashMap<CowStr<'a>, CowStr<'a>>;

// The map with this value at this key.
pub(crate) fn put<'a>(
    map: &mut IdMap<'a>,
    key: CowStr<'a>,
    value: CowStr<'a>,
) -> Result<(), AllocError>
    ensures { OnOk result
        (id_value map.new
        ≡ insert (id_value map.old) (cow_str_bytes key.entry) (text_of value.entry)) }
{
    map.insert(key, value)?;
    Ok(())
}

fn put_owned(
    alloc: Global,
    map: &mut IdMap<'static>,
    key: CowStr<'_>,
    value: CowStr<'_>,
) -> Result<(), AllocError>
    ensures { OnOk result
        (id_value map.new
        ≡ insert (id_value map.old) (cow_str_bytes key.entry) (owned (text_of value.entry))) }
{
    let key = owned_text(alloc, key)?;
    let value = owned_text(alloc, value)?;
    put(map, key, value)
}

/// The same map with all texts owned, its keys too. It takes memory for the map unless that is empty, and for borrowed
/// texts; `Err`: memory ran out.
pub fn owned_id_map(alloc: Global, map: IdMap<'_>) -> Result<IdMap<'static>, AllocError>
    ensures same { IfOk result (λ m. id_value m ≡ owned_id (id_value map.entry)) }
    ensures memory { map.entry.entries ≡ [] → IsOk result }
{
    let mut owned = HashMap::new(alloc);
    for (key, value) in map {
        put_owned(alloc, &mut owned, key, value)?;
    }
    Ok(owned)
}
