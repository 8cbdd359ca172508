//! The same attributes with all texts owned.

ghost use Rattle.std.specs.Prelude.{◌≡◌, [], IfOk, IsOk, map};
ghost use Rattle.imap_body.specs.AttributeValues.{attribute_value};
ghost use Rattle.imap_body.specs.Changed.{owned_attribute};

use crate::attributes::AttributeValue;
use imap_body_types::maps::changes::Owning;
use std::alloc::{AllocError, Global};

impl<'a> AttributeValue<'a> {
    /// The same attribute with all texts owned. It is consumed. It always takes memory, at least for one attribute;
    /// more for what it holds, also for texts that are owned already; `Err`: memory ran out.
    pub fn into_owned(self, alloc: Global) -> Result<AttributeValue<'static>, AllocError>
        ensures { IfOk result (λ x.
            attribute_value x ≡ owned_attribute (attribute_value self.entry)) }
    {
        let owning = Owning::new(alloc);
        self.into_mapped(alloc, &owning, &owning, &owning)
    }
}

/// The same attributes in their order, with all texts owned. It takes memory for the list unless that is empty, and for
/// what the attributes hold, also for texts that are owned already; `Err`: memory ran out.
pub fn owned_attributes(
    alloc: Global,
    attributes: &[AttributeValue<'_>],
) -> Result<Vec<AttributeValue<'static>>, AllocError>
    ensures same { IfOk result (λ v.
        map attribute_value v.items ≡ map owned_attribute (map attribute_value attributes.now)) }
    ensures memory { attributes.now ≡ [] → IsOk result }
{
    let owning = Owning::new(alloc);
    let mut owned = Vec::with_capacity(alloc, attributes.len())?;
    for attribute in attributes {
        attribute.push_mapped(alloc, &owning, &owning, &owning, &mut owned)?;
    }
    Ok(owned)
}
