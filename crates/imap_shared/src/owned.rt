//! Owned texts: what a value has once it borrows nothing. An owned text is moved.

ghost use Rattle.std.specs.Prelude.{◌≡◌, [], map, option_map, IfOk, IfSome, IsOk};
ghost use Rattle.imap_grammar.specs.Text.{Text, text_of, owned_text as owned_form, IsOwned};
ghost use Rattle.imap_shared.specs.Capabilities.{CapabilityValue, capability_value};
ghost use Rattle.imap_shared.specs.Owned.{owned_capability};

use crate::types::capabilities::Capability;
use std::alloc::{AllocError, Global};
use std::borrow::CowStr;

/// What has an owned form: the same, with all texts owned.
pub trait IntoOwned: Drop {
    /// The owned form.
    type Owned: Drop;

    /// What values say.
    ghost meaning: { Type 0 };

    /// What this says.
    ghost said: { Self → meaning };

    /// The same with all texts owned.
    ghost owned: { meaning → meaning };

    /// What an owned form says.
    ghost owned_said: { Self.Owned → meaning };

    /// The owned form. It may take memory; `Err`: memory ran out.
    fn into_owned(self, alloc: Global) -> Result<Self::Owned, AllocError>
        ensures { IfOk result (λ o. owned_said o ≡ owned (said self)) };
}

/// The owned forms of a list. It takes memory for the list unless that is empty, and where they do; `Err`: memory ran
/// out.
pub fn each_owned<T: IntoOwned>(alloc: Global, list: Vec<T>) -> Result<Vec<T::Owned>, AllocError>
    ensures same { IfOk result (λ v.
        map T.owned_said v.items ≡ map T.owned (map T.said list.items)) }
    ensures memory { list.items ≡ [] → IsOk result }
{
    let mut owned = Vec::with_capacity(alloc, list.len())?;
    for item in list {
        owned.push(item.into_owned(alloc)?)?;
    }
    Ok(owned)
}

/// The same text, owned. It takes memory only where the text is borrowed; `Err`: memory ran out.
pub fn owned_text(alloc: Global, text: CowStr<'_>) -> Result<CowStr<'static>, AllocError>
    ensures same { IfOk result (λ t. text_of t ≡ owned_form (text_of text.entry)) }
    ensures memory { IsOwned (text_of text.entry) → IsOk result }
{
    match text {
        CowStr::Borrowed(text) => Ok(CowStr::Owned(String::from_str(alloc, text)?)),
        CowStr::Owned(text) => Ok(CowStr::Owned(text)),
    }
}

/// The same text, owned, if there is one. It takes memory only where there is a borrowed text; `Err`: memory ran out.
pub fn owned_optional_text(
    alloc: Global,
    text: Option<CowStr<'_>>,
) -> Result<Option<CowStr<'static>>, AllocError>
    ensures same { IfOk result (λ t.
        option_map text_of t ≡ option_map owned_form (option_map text_of text.entry)) }
    ensures memory { IfSome (option_map text_of text.entry) IsOwned → IsOk result }
{
    Ok(match text {
        None => None,
        Some(text) => Some(owned_text(alloc, text)?),
    })
}

impl<'a> IntoOwned for CowStr<'a> {
    type Owned = CowStr<'static>;

    ghost meaning = { Text };

    ghost said = { text_of };

    ghost owned = { owned_form };

    ghost owned_said = { text_of };

    fn into_owned(self, alloc: Global) -> Result<CowStr<'static>, AllocError> {
        owned_text(alloc, self)
    }
}

/// The same texts, owned. It takes memory for the list unless that is empty, and for borrowed texts; `Err`: memory ran
/// out.
pub fn owned_texts(
    alloc: Global,
    texts: Vec<CowStr<'_>>,
) -> Result<Vec<CowStr<'static>>, AllocError>
    ensures same { IfOk result (λ v.
        map text_of v.items ≡ map owned_form (map text_of texts.entry.items)) }
    ensures memory { texts.entry.items ≡ [] → IsOk result }
{
    each_owned(alloc, texts)
}

impl<'a> IntoOwned for Capability<'a> {
    type Owned = Capability<'static>;

    ghost meaning = { CapabilityValue };

    ghost said = { capability_value };

    ghost owned = { owned_capability };

    ghost owned_said = { capability_value };

    fn into_owned(self, alloc: Global) -> Result<Capability<'static>, AllocError> {
        self.into_owned(alloc)
    }
}

/// The same capabilities, their texts owned. It takes memory for the list unless that is empty, and for borrowed texts;
/// `Err`: memory ran out.
pub fn owned_capabilities(
    alloc: Global,
    capabilities: Vec<Capability<'_>>,
) -> Result<Vec<Capability<'static>>, AllocError>
    ensures same { IfOk result (λ v.
        map capability_value v.items
        ≡ map owned_capability (map capability_value capabilities.entry.items)) }
    ensures memory { capabilities.entry.items ≡ [] → IsOk result }
{
    each_owned(alloc, capabilities)
}
