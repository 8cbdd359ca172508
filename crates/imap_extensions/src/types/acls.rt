//! Access control lists.

ghost use Rattle.std.specs.Prelude.{◌≡◌, [], IfOk, IsOk};
ghost use Rattle.imap_grammar.specs.Text.{text_of, IsOwned};
ghost use Rattle.imap_extensions.specs.Acls.{AclEntryValue, acl_entry_value, acl_value, list_rights_value};
ghost use Rattle.imap_extensions.specs.Acls.{my_rights_value};
ghost use Rattle.imap_extensions.specs.Owned.{owned_acl_entry, owned_acl, owned_list_rights, owned_my_rights};

use imap_shared::AclRight;
use imap_shared::owned::{IntoOwned, each_owned, owned_text};
use std::alloc::{AllocError, Global};
use std::borrow::CowStr;

/// Who has which rights (RFC 4314, section 3.6).
#[derive(Debug, Drop, PartialEq, Eq)]
pub struct AclEntry<'a> {
    /// Whose rights these are, raw: backslashes of a quoted string stay. A `-` before a name denies them.
    pub identifier: CowStr<'a>,
    /// The rights, in the order in which their letters stand.
    pub rights: Vec<AclRight>,
}

/// The access control list of a mailbox: ACL (RFC 4314, section 3.6).
#[derive(Debug, Drop, PartialEq, Eq)]
pub struct Acl<'a> {
    /// The mailbox's name, raw: backslashes of a quoted string stay, and modified UTF-7 isn't decoded. INBOX in any
    /// case is `INBOX`.
    pub mailbox: CowStr<'a>,
    /// Its entries, maybe none.
    pub acls: Vec<AclEntry<'a>>,
}

/// The rights that an identifier always has, and those that it may be granted: LISTRIGHTS (RFC 4314, section 3.7).
#[derive(Debug, Drop, PartialEq, Eq)]
pub struct ListRights<'a> {
    /// The mailbox's name, raw: backslashes of a quoted string stay, and modified UTF-7 isn't decoded. INBOX in any
    /// case is `INBOX`.
    pub mailbox: CowStr<'a>,
    /// Whose rights these are, raw.
    pub identifier: CowStr<'a>,
    /// The rights that it has always, maybe none.
    pub required: Vec<AclRight>,
    /// The rights that it may be granted, their groups joined in order.
    pub optional: Vec<AclRight>,
}

/// The client's own rights: MYRIGHTS (RFC 4314, section 3.8).
#[derive(Debug, Drop, PartialEq, Eq)]
pub struct MyRights<'a> {
    /// The mailbox's name, raw: backslashes of a quoted string stay, and modified UTF-7 isn't decoded. INBOX in any
    /// case is `INBOX`.
    pub mailbox: CowStr<'a>,
    /// The rights, in the order in which their letters stand.
    pub rights: Vec<AclRight>,
}

impl<'a> AclEntry<'a> {
    /// The same entry with its text owned. It takes memory only where that is borrowed; `Err`: memory ran out.
    pub fn into_owned(self, alloc: Global) -> Result<AclEntry<'static>, AllocError>
        ensures same { IfOk result (λ entry.
            acl_entry_value entry ≡ owned_acl_entry (acl_entry_value self.entry)) }
        ensures memory { IsOwned (text_of self.entry.identifier) → IsOk result }
    {
        let AclEntry { identifier, rights } = self;
        Ok(AclEntry {
            identifier: owned_text(alloc, identifier)?,
            rights,
        })
    }
}

impl<'a> IntoOwned for AclEntry<'a> {
    type Owned = AclEntry<'static>;

    ghost meaning = { AclEntryValue };

    ghost said = { acl_entry_value };

    ghost owned = { owned_acl_entry };

    ghost owned_said = { acl_entry_value };

    fn into_owned(self, alloc: Global) -> Result<AclEntry<'static>, AllocError> {
        self.into_owned(alloc)
    }
}

impl<'a> Acl<'a> {
    /// The same list with all texts owned. It takes memory for entries, and for borrowed texts; `Err`: memory ran out.
    pub fn into_owned(self, alloc: Global) -> Result<Acl<'static>, AllocError>
        ensures same { IfOk result (λ acl. acl_value acl ≡ owned_acl (acl_value self.entry)) }
        ensures memory { IsOwned (text_of self.entry.mailbox) → self.entry.acls.items ≡ []
            → IsOk result }
    {
        Ok(Acl {
            mailbox: owned_text(alloc, self.mailbox)?,
            acls: each_owned(alloc, self.acls)?,
        })
    }
}

impl<'a> ListRights<'a> {
    /// The same rights with all texts owned. It takes memory only for borrowed texts; `Err`: memory ran out.
    pub fn into_owned(self, alloc: Global) -> Result<ListRights<'static>, AllocError>
        ensures same { IfOk result (λ rights.
            list_rights_value rights ≡ owned_list_rights (list_rights_value self.entry)) }
        ensures memory { IsOwned (text_of self.entry.mailbox)
            → IsOwned (text_of self.entry.identifier) → IsOk result }
    {
        Ok(ListRights {
            mailbox: owned_text(alloc, self.mailbox)?,
            identifier: owned_text(alloc, self.identifier)?,
            required: self.required,
            optional: self.optional,
        })
    }
}

impl<'a> MyRights<'a> {
    /// The same rights with the mailbox's name owned. It takes memory only where that is borrowed; `Err`: memory ran
    /// out.
    pub fn into_owned(self, alloc: Global) -> Result<MyRights<'static>, AllocError>
        ensures same { IfOk result (λ rights.
            my_rights_value rights ≡ owned_my_rights (my_rights_value self.entry)) }
        ensures memory { IsOwned (text_of self.entry.mailbox) → IsOk result }
    {
        Ok(MyRights {
            mailbox: owned_text(alloc, self.mailbox)?,
            rights: self.rights,
        })
    }
}
