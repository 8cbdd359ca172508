//! Attributes of mailbox names, and the data of LIST.

ghost use Rattle.std.specs.Prelude.{◌≡◌, [], IfOk, IfSome, IsOk};
ghost use Rattle.std.specs.Option.{option_map};
ghost use Rattle.imap_grammar.specs.Text.{text_of, IsOwned};
ghost use Rattle.imap_shared.specs.Copies.{IsLent};
ghost use Rattle.imap_data.specs.Names.{NameAttributeValue, name_attribute_value, list_value, IsLentNameAttribute};
ghost use Rattle.imap_data.specs.Owned.{owned_name_attribute, owned_list, IsOwnedNameAttribute};

use imap_shared::copies::{TryClone, copied_text, each_copied};
use imap_shared::owned::{IntoOwned, each_owned, owned_optional_text, owned_text};
use std::alloc::{AllocError, Global};
use std::borrow::CowStr;

/// An attribute of a mailbox's name (RFC 3501, section 7.2.2; RFC 6154, section 2).
#[derive(Debug, Drop, PartialEq, Eq)]
pub enum NameAttribute<'a> {
    /// `\Noinferiors`
    NoInferiors,
    /// `\Noselect`
    NoSelect,
    /// `\Marked`
    Marked,
    /// `\Unmarked`
    Unmarked,
    /// `\All`
    All,
    /// `\Archive`
    Archive,
    /// `\Drafts`
    Drafts,
    /// `\Flagged`
    Flagged,
    /// `\Junk`
    Junk,
    /// `\Sent`
    Sent,
    /// `\Trash`
    Trash,
    /// Any other, its backslash included, as it stands.
    Extension(CowStr<'a>),
}

/// What LIST and LSUB say of a mailbox (RFC 3501, section 7.2.2).
#[derive(Debug, Drop, PartialEq, Eq)]
pub struct MailboxListData<'a> {
    /// The attributes of its name, in the order of the line.
    pub name_attributes: Vec<NameAttribute<'a>>,
    /// The hierarchy delimiter: raw content of a quoted string, whose backslashes stay, so that a backslash is told
    /// as two. `None` is `NIL`: the names are flat.
    pub delimiter: Option<CowStr<'a>>,
    /// The name, raw: backslashes of a quoted string stay, and modified UTF-7 (section 5.1.3) isn't decoded. INBOX in
    /// any case is `INBOX`.
    pub name: CowStr<'a>,
}

impl<'a> NameAttribute<'a> {
    /// A copy. It takes memory only for an owned text; `Err`: memory ran out.
    pub fn clone(&self) -> Result<Self, AllocError>
        ensures same { IfOk result (λ c. name_attribute_value c ≡ name_attribute_value self.now) }
        ensures memory { IsLentNameAttribute (name_attribute_value self.now) → IsOk result }
    {
        Ok(match self {
            NameAttribute::NoInferiors => NameAttribute::NoInferiors,
            NameAttribute::NoSelect => NameAttribute::NoSelect,
            NameAttribute::Marked => NameAttribute::Marked,
            NameAttribute::Unmarked => NameAttribute::Unmarked,
            NameAttribute::All => NameAttribute::All,
            NameAttribute::Archive => NameAttribute::Archive,
            NameAttribute::Drafts => NameAttribute::Drafts,
            NameAttribute::Flagged => NameAttribute::Flagged,
            NameAttribute::Junk => NameAttribute::Junk,
            NameAttribute::Sent => NameAttribute::Sent,
            NameAttribute::Trash => NameAttribute::Trash,
            NameAttribute::Extension(text) => NameAttribute::Extension(copied_text(text)?),
        })
    }

    /// The same attribute with its text owned. It takes memory only for a borrowed text; `Err`: memory ran out.
    pub fn into_owned(self, alloc: Global) -> Result<NameAttribute<'static>, AllocError>
        ensures same { IfOk result (λ a.
            name_attribute_value a ≡ owned_name_attribute (name_attribute_value self.entry)) }
        ensures memory { IsOwnedNameAttribute (name_attribute_value self.entry) → IsOk result }
    {
        Ok(match self {
            NameAttribute::NoInferiors => NameAttribute::NoInferiors,
            NameAttribute::NoSelect => NameAttribute::NoSelect,
            NameAttribute::Marked => NameAttribute::Marked,
            NameAttribute::Unmarked => NameAttribute::Unmarked,
            NameAttribute::All => NameAttribute::All,
            NameAttribute::Archive => NameAttribute::Archive,
            NameAttribute::Drafts => NameAttribute::Drafts,
            NameAttribute::Flagged => NameAttribute::Flagged,
            NameAttribute::Junk => NameAttribute::Junk,
            NameAttribute::Sent => NameAttribute::Sent,
            NameAttribute::Trash => NameAttribute::Trash,
            NameAttribute::Extension(text) => NameAttribute::Extension(owned_text(alloc, text)?),
        })
    }
}

impl<'a> TryClone for NameAttribute<'a> {
    ghost meaning = { NameAttributeValue };

    ghost said = { name_attribute_value };

    fn try_clone(&self) -> Result<NameAttribute<'a>, AllocError> {
        self.clone()
    }
}

impl<'a> IntoOwned for NameAttribute<'a> {
    type Owned = NameAttribute<'static>;

    ghost meaning = { NameAttributeValue };

    ghost said = { name_attribute_value };

    ghost owned = { owned_name_attribute };

    ghost owned_said = { name_attribute_value };

    fn into_owned(self, alloc: Global) -> Result<NameAttribute<'static>, AllocError> {
        self.into_owned(alloc)
    }
}

fn copied_delimiter<'a>(delimiter: &Option<CowStr<'a>>) -> Result<Option<CowStr<'a>>, AllocError>
    ensures same { IfOk result (λ t. option_map text_of t ≡ option_map text_of delimiter.now) }
    ensures memory { IfSome (option_map text_of delimiter.now) IsLent → IsOk result }
{
    Ok(match delimiter {
        None => None,
        Some(text) => Some(copied_text(text)?),
    })
}

impl<'a> MailboxListData<'a> {
    /// A copy. It takes memory for the attributes, if there are any, and for owned texts; `Err`: memory ran out.
    pub fn clone(&self) -> Result<Self, AllocError>
        ensures same { IfOk result (λ c. list_value c ≡ list_value self.now) }
        ensures memory { self.now.name_attributes.items ≡ []
            → IfSome (option_map text_of self.now.delimiter) IsLent
            → IsLent (text_of self.now.name)
            → IsOk result }
    {
        Ok(MailboxListData {
            name_attributes: each_copied(&self.name_attributes)?,
            delimiter: copied_delimiter(&self.delimiter)?,
            name: copied_text(&self.name)?,
        })
    }

    /// The same data with all texts owned. It takes memory for the attributes, if there are any, and for borrowed
    /// texts; `Err`: memory ran out.
    pub fn into_owned(self, alloc: Global) -> Result<MailboxListData<'static>, AllocError>
        ensures same { IfOk result (λ l. list_value l ≡ owned_list (list_value self.entry)) }
        ensures memory { self.entry.name_attributes.items ≡ []
            → IfSome (option_map text_of self.entry.delimiter) IsOwned
            → IsOwned (text_of self.entry.name)
            → IsOk result }
    {
        Ok(MailboxListData {
            name_attributes: each_owned(alloc, self.name_attributes)?,
            delimiter: owned_optional_text(alloc, self.delimiter)?,
            name: owned_text(alloc, self.name)?,
        })
    }
}
