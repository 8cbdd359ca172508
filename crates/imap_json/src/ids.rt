//! What an implementation says of itself.

ghost use Rattle.std.specs.Prelude.{◌≡◌, IfOk, OnOk};
ghost use Rattle.imap_extensions.specs.Ids.{IdValue, id_value};
ghost use Rattle.imap_json.specs.Forms.{Appends, fields_front};
ghost use Rattle.imap_json.specs.Ids.{id_json, id_fields, table_fields};

use crate::forms::{ToJson, field};
use crate::output::Output;
use imap_extensions::IdMap;
use std::alloc::{AllocError, Global};
use std::borrow::CowStr;
use std::collections::{BTreeMap, HashMap};

// The fields in the order of their keys. It takes memory for the table; `Err`: memory ran out.
fn in_order<'m, 'a>(
    alloc: Global,
    fields: &'m IdMap<'a>,
) -> Result<BTreeMap<&'m str, &'m CowStr<'a>>, AllocError>
    ensures { IfOk result (λ table. table_fields table ≡ id_fields (id_value fields.now)) }
{
    let mut table = BTreeMap::new(alloc);
    for (key, value) in fields.iter() {
        table.insert(key.as_str(), value)?;
    }
    Ok(table)
}

fn write_fields(table: &BTreeMap<&str, &CowStr<'_>>, out: &mut Output) -> Result<(), AllocError>
    ensures { OnOk result (Appends out.old out.new (fields_front (table_fields table.now))) }
{
    for (key, value) in table.iter() {
        field(out, *key, *value)?;
    }
    Ok(())
}

impl<'a> ToJson for HashMap<CowStr<'a>, CowStr<'a>> {
    ghost meaning = { IdValue };

    ghost said = { id_value };

    ghost json = { id_json };

    // It takes memory for a table of the fields, too.
    fn write(&self, out: &mut Output) -> Result<(), AllocError> {
        let table = in_order(out.alloc, self)?;
        out.begin_object()?;
        write_fields(&table, out)?;
        out.end_object()
    }
}
