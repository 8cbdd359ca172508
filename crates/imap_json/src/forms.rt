//! The forms that values of all types are told in.

ghost use Rattle.std.specs.Prelude.{List, Option, map, option_map, OnOk};
ghost use Rattle.serde_json.specs.Data.{Data};
ghost use Rattle.imap_json.specs.Forms.{option_json, list_json, pair_json, triple_json, variant_json, Appends, Tells};
ghost use Rattle.imap_json.specs.Forms.{field_tokens, items_front};

use crate::output::Output;
use std::alloc::AllocError;

/// What is told as JSON.
pub(crate) trait ToJson {
    /// What values are seen as.
    ghost meaning: { Type 0 };

    /// What this is seen as.
    ghost said: { Self → meaning };

    /// The JSON of what a value is seen as.
    ghost json: { meaning → Data };

    /// Writes its JSON. It takes memory for the text; `Err`: memory ran out.
    fn write(&self, out: &mut Output) -> Result<(), AllocError>
        ensures { OnOk result (Tells out.old out.new (json (said self.now))) };
}

/// Writes a member of an object.
pub(crate) fn field<T: ToJson>(out: &mut Output, name: &str, value: &T) -> Result<(), AllocError>
    ensures { OnOk result
        (Appends out.old out.new (field_tokens name.now (T.json (T.said value.now)))) }
{
    out.key(name)?;
    value.write(out)
}

/// Writes a variant with one field.
pub(crate) fn variant<T: ToJson>(out: &mut Output, name: &str, value: &T) -> Result<(), AllocError>
    ensures { OnOk result
        (Tells out.old out.new (variant_json name.now (T.json (T.said value.now)))) }
{
    out.begin_object()?;
    field(out, name, value)?;
    out.end_object()
}

impl<T: ToJson> ToJson for &T {
    ghost meaning = { T.meaning };

    ghost said = { λ x. T.said x.now };

    ghost json = { T.json };

    fn write(&self, out: &mut Output) -> Result<(), AllocError> {
        T::write(*self, out)
    }
}

impl<T: ToJson> ToJson for Option<T> {
    ghost meaning = { Option T.meaning };

    ghost said = { option_map T.said };

    ghost json = { option_json T.json };

    fn write(&self, out: &mut Output) -> Result<(), AllocError> {
        match self {
            None => out.null(),
            Some(value) => value.write(out),
        }
    }
}

fn write_items<T: ToJson>(items: &[T], out: &mut Output) -> Result<(), AllocError>
    ensures { OnOk result
        (Appends out.old out.new (items_front (map T.json (map T.said items.now)))) }
{
    for item in items {
        item.write(out)?;
    }
    Ok(())
}

impl<T: ToJson> ToJson for Vec<T> {
    ghost meaning = { List T.meaning };

    ghost said = { λ v. map T.said v.items };

    ghost json = { list_json T.json };

    fn write(&self, out: &mut Output) -> Result<(), AllocError> {
        out.begin_array()?;
        write_items(self, out)?;
        out.end_array()
    }
}

impl<A: ToJson, B: ToJson> ToJson for (A, B) {
    ghost meaning = { A.meaning × B.meaning };

    ghost said = { λ p. (A.said p.0, B.said p.1) };

    ghost json = { pair_json A.json B.json };

    fn write(&self, out: &mut Output) -> Result<(), AllocError> {
        out.begin_array()?;
        self.0.write(out)?;
        self.1.write(out)?;
        out.end_array()
    }
}

impl<A: ToJson, B: ToJson, C: ToJson> ToJson for (A, B, C) {
    ghost meaning = { A.meaning × B.meaning × C.meaning };

    ghost said = { λ p. (A.said p.0, B.said p.1, C.said p.2) };

    ghost json = { triple_json A.json B.json C.json };

    fn write(&self, out: &mut Output) -> Result<(), AllocError> {
        out.begin_array()?;
        self.0.write(out)?;
        self.1.write(out)?;
        self.2.write(out)?;
        out.end_array()
    }
}
