//! What is written to: a text of JSON that grows.

ghost use Rattle.std.specs.Prelude.{◌≡◌, [], ◌∷◌, OnOk, decimal, string_bytes};
ghost use Rattle.json.specs.Token.{begin_object, end_object, begin_array, end_array, key, string, number, boolean};
ghost use Rattle.json.specs.Token.{null};
ghost use Rattle.json.specs.Print.{print};

use json::Writer;
use std::alloc::{AllocError, Global};

// A text of JSON so far, and where more memory comes from.
#[derive(Drop)]
pub(crate) struct Output {
    pub(crate) alloc: Global,
    pub(crate) writer: Writer,
}

impl Output {
    ghost use Rattle.imap_json.specs.Forms.{Appends};

    // No text yet. No memory.
    pub(crate) fn new(alloc: Global) -> Output
        ensures tokens { result.writer.tokens ≡ [] }
        ensures before { result.writer.before ≡ [] }
    {
        Output {
            alloc,
            writer: Writer::new(Vec::new(alloc)),
        }
    }

    pub(crate) fn begin_object(&mut self) -> Result<(), AllocError>
        ensures { OnOk result (Appends self.old self.new (begin_object ∷ [])) }
    {
        self.writer.begin_object()
    }

    pub(crate) fn end_object(&mut self) -> Result<(), AllocError>
        ensures { OnOk result (Appends self.old self.new (end_object ∷ [])) }
    {
        self.writer.end_object()
    }

    pub(crate) fn begin_array(&mut self) -> Result<(), AllocError>
        ensures { OnOk result (Appends self.old self.new (begin_array ∷ [])) }
    {
        self.writer.begin_array()
    }

    pub(crate) fn end_array(&mut self) -> Result<(), AllocError>
        ensures { OnOk result (Appends self.old self.new (end_array ∷ [])) }
    {
        self.writer.end_array()
    }

    pub(crate) fn key(&mut self, name: &str) -> Result<(), AllocError>
        ensures { OnOk result (Appends self.old self.new (key name.now ∷ [])) }
    {
        self.writer.key(name)
    }

    pub(crate) fn string(&mut self, text: &str) -> Result<(), AllocError>
        ensures { OnOk result (Appends self.old self.new (string text.now ∷ [])) }
    {
        self.writer.string(text)
    }

    pub(crate) fn number(&mut self, n: u64) -> Result<(), AllocError>
        ensures { OnOk result (Appends self.old self.new (number (decimal n) ∷ [])) }
    {
        self.writer.u64(n)
    }

    pub(crate) fn flag(&mut self, b: bool) -> Result<(), AllocError>
        ensures { OnOk result (Appends self.old self.new (boolean b ∷ [])) }
    {
        self.writer.boolean(b)
    }

    pub(crate) fn null(&mut self) -> Result<(), AllocError>
        ensures { OnOk result (Appends self.old self.new (null ∷ [])) }
    {
        self.writer.null()
    }

    // The text that was written. No memory.
    pub(crate) fn into_text(self) -> String
        requires { self.writer.before ≡ [] }
        ensures { string_bytes result ≡ print self.writer.tokens }
    {
        let Output { writer, .. } = self;
        match String::from_utf8(writer.into_inner()) {
            Ok(text) => text,
            Err(_) => unreachable!(),
        }
    }
}
