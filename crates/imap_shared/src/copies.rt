//! Copies of texts. Each text of a copy is borrowed or owned as the one that it is a copy of.

ghost use Rattle.std.specs.Prelude.{◌≡◌, [], map, IfOk, IsOk};
ghost use Rattle.imap_grammar.specs.Text.{Text, text_of};
ghost use Rattle.imap_shared.specs.Copies.{IsLent};

use std::alloc::AllocError;
use std::borrow::CowStr;

/// What can be copied where there is memory.
pub trait TryClone: Drop {
    /// What values say.
    ghost meaning: { Type 0 };

    /// What this says.
    ghost said: { Self → meaning };

    /// A copy. It may take memory; `Err`: memory ran out.
    fn try_clone(&self) -> Result<Self, AllocError>
        ensures { IfOk result (λ c. said c ≡ said self.now) };
}

/// A copy of a list. It takes memory for the list unless that is empty, and where copies do; `Err`: memory ran out.
pub fn each_copied<T: TryClone>(list: &Vec<T>) -> Result<Vec<T>, AllocError>
    ensures same { IfOk result (λ v. map T.said v.items ≡ map T.said list.now.items) }
    ensures memory { list.now.items ≡ [] → IsOk result }
{
    let mut copies = Vec::with_capacity(*list.allocator(), list.len())?;
    for item in list {
        copies.push(item.try_clone()?)?;
    }
    Ok(copies)
}

/// The same text. It takes memory only where the text is owned; `Err`: memory ran out.
pub fn copied_text<'a>(text: &CowStr<'a>) -> Result<CowStr<'a>, AllocError>
    ensures same { IfOk result (λ t. text_of t ≡ text_of text.now) }
    ensures memory { IsLent (text_of text.now) → IsOk result }
{
    match text {
        CowStr::Borrowed(text) => Ok(CowStr::Borrowed(*text)),
        CowStr::Owned(text) => Ok(CowStr::Owned(text.clone()?)),
    }
}

impl<'a> TryClone for CowStr<'a> {
    ghost meaning = { Text };

    ghost said = { text_of };

    fn try_clone(&self) -> Result<CowStr<'a>, AllocError> {
        copied_text(self)
    }
}

/// The same texts. It takes memory for the list unless that is empty, and for owned texts; `Err`: memory ran out.
pub fn copied_texts<'a>(texts: &Vec<CowStr<'a>>) -> Result<Vec<CowStr<'a>>, AllocError>
    ensures same { IfOk result (λ v. map text_of v.items ≡ map text_of texts.now.items) }
    ensures memory { texts.now.items ≡ [] → IsOk result }
{
    each_copied(texts)
}
