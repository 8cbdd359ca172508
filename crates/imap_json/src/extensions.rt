//! Extension data of bodies.

ghost use Rattle.std.specs.Prelude.{[], ◌∷◌, codes, map, OnOk};
ghost use Rattle.json.specs.Token.{begin_object, end_object, begin_array, end_array, key};
ghost use Rattle.imap_grammar.specs.Text.{text_of};
ghost use Rattle.imap_body_types.specs.ExtensionValues.{DispositionValue, disposition_seen, ExtensionValue};
ghost use Rattle.imap_body_types.specs.ExtensionValues.{extension_seen};
ghost use Rattle.imap_json.specs.Forms.{Appends, Tells, items_front};
ghost use Rattle.imap_json.specs.Extensions.{disposition_json, extension_json};

use crate::forms::{ToJson, field, variant};
use crate::output::Output;
use imap_body_types::{BodyExtension, ContentDisposition};
use std::alloc::AllocError;

impl<'a> ToJson for ContentDisposition<'a> {
    ghost meaning = { DispositionValue };

    ghost said = { disposition_seen text_of };

    ghost json = { disposition_json };

    fn write(&self, out: &mut Output) -> Result<(), AllocError> {
        out.begin_object()?;
        field(out, "ty", &self.ty)?;
        field(out, "params", &self.params)?;
        out.end_object()
    }
}

fn begin_list(out: &mut Output) -> Result<(), AllocError>
    ensures { OnOk result (Appends out.old out.new
        (begin_object ∷ key (codes "List") ∷ begin_array ∷ [])) }
{
    out.begin_object()?;
    out.key("List")?;
    out.begin_array()
}

fn end_list(out: &mut Output) -> Result<(), AllocError>
    ensures { OnOk result (Appends out.old out.new (end_array ∷ end_object ∷ [])) }
{
    out.end_array()?;
    out.end_object()
}

#[cycle(extension)]
fn write_extension(extension: &BodyExtension<'_>, out: &mut Output) -> Result<(), AllocError>
    ensures { OnOk result
        (Tells out.old out.new (extension_json (extension_seen text_of extension.now))) }
{
    match extension {
        BodyExtension::Num(n) => variant(out, "Num", n),
        BodyExtension::Str(text) => variant(out, "Str", text),
        BodyExtension::List(members) => {
            begin_list(out)?;
            write_extensions(members, out)?;
            end_list(out)
        }
    }
}

#[cycle(extension)]
fn write_extensions(extensions: &Vec<BodyExtension<'_>>, out: &mut Output) -> Result<(), AllocError>
    ensures { OnOk result (Appends out.old out.new
        (items_front (map extension_json (map (extension_seen text_of) extensions.now.items)))) }
{
    for extension in extensions {
        write_extension(extension, out)?;
    }
    Ok(())
}

impl<'a> ToJson for BodyExtension<'a> {
    ghost meaning = { ExtensionValue };

    ghost said = { extension_seen text_of };

    ghost json = { extension_json };

    fn write(&self, out: &mut Output) -> Result<(), AllocError> {
        write_extension(self, out)
    }
}
