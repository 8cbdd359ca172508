//! From spans to values: what they name in a message.

ghost use Rattle.std.specs.Prelude.{◌≡◌, IfOk};
ghost use Rattle.imap_grammar.specs.Positions.{named_in};
ghost use Rattle.imap_body.specs.AttributeValues.{attribute_value, parts_in};

use crate::attributes::{AttributeSpans, AttributeValue};
use imap_body_types::maps::changes::{NamedBytes, NamedTexts};
use std::alloc::{AllocError, Global};

impl AttributeSpans {
    /// The attribute that its spans name in m. It always takes memory, at least for one attribute; `Err`: memory ran
    /// out.
    pub fn value<'a>(&self, alloc: Global, m: &'a [u8]) -> Result<AttributeValue<'a>, AllocError>
        ensures { IfOk result (λ v. attribute_value v ≡ parts_in (named_in m.now) self.now) }
    {
        let texts = NamedTexts { alloc, message: m };
        self.try_map(alloc, &texts, &NamedBytes { message: m }, &texts)
    }
}
