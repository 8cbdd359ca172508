//! Quotas.

ghost use Rattle.std.specs.Prelude.{◌≡◌, [], IfOk, IsOk};
ghost use Rattle.imap_grammar.specs.Text.{text_of, IsOwned};
ghost use Rattle.imap_shared.specs.Copies.{IsLent};
ghost use Rattle.imap_extensions.specs.Quotas.{QuotaResourceValue, quota_resource_name_value, quota_resource_value};
ghost use Rattle.imap_extensions.specs.Quotas.{quota_value, quota_root_value, IsLentName};
ghost use Rattle.imap_extensions.specs.Owned.{owned_quota_resource_name, owned_quota_resource, owned_quota};
ghost use Rattle.imap_extensions.specs.Owned.{owned_quota_root, IsOwnedName};

use imap_shared::copies::{TryClone, copied_text, copied_texts, each_copied};
use imap_shared::owned::{IntoOwned, each_owned, owned_text, owned_texts};
use std::alloc::{AllocError, Global};
use std::borrow::CowStr;

/// What a resource of a quota is called (RFC 2087, section 3).
#[derive(Debug, Drop, PartialEq, Eq, Hash)]
pub enum QuotaResourceName<'a> {
    /// `STORAGE`: the messages' sizes, in units of 1024 octets.
    Storage,
    /// `MESSAGE`: how many messages there are.
    Message,
    /// Any other, raw; and any name in quotes or as a literal, `STORAGE` too.
    Atom(CowStr<'a>),
}

/// A resource of a quota (RFC 2087, section 5.1).
#[derive(Debug, Drop, PartialEq, Eq, Hash)]
pub struct QuotaResource<'a> {
    /// What it is called.
    pub name: QuotaResourceName<'a>,
    /// How much of it is used.
    pub usage: u64,
    /// How much of it may be used.
    pub limit: u64,
}

/// The resources of a quota root (RFC 2087, section 5.1).
#[derive(Debug, Drop, PartialEq, Eq, Hash)]
pub struct Quota<'a> {
    /// The quota root's name, raw: backslashes of a quoted string stay.
    pub root_name: CowStr<'a>,
    /// Its resources, maybe none.
    pub resources: Vec<QuotaResource<'a>>,
}

/// The quota roots of a mailbox (RFC 2087, section 5.2).
#[derive(Debug, Drop, PartialEq, Eq, Hash)]
pub struct QuotaRoot<'a> {
    /// The mailbox's name, raw: backslashes of a quoted string stay, modified UTF-7 isn't decoded, and INBOX stays as
    /// it is written.
    pub mailbox_name: CowStr<'a>,
    /// The names of its quota roots, maybe none, raw.
    pub quota_root_names: Vec<CowStr<'a>>,
}

impl<'a> QuotaResourceName<'a> {
    /// The same name. It takes memory only for an owned text; `Err`: memory ran out.
    pub fn clone(&self) -> Result<Self, AllocError>
        ensures same { IfOk result (λ copy.
            quota_resource_name_value copy ≡ quota_resource_name_value self.now) }
        ensures memory { IsLentName (quota_resource_name_value self.now) → IsOk result }
    {
        Ok(match self {
            QuotaResourceName::Storage => QuotaResourceName::Storage,
            QuotaResourceName::Message => QuotaResourceName::Message,
            QuotaResourceName::Atom(name) => QuotaResourceName::Atom(copied_text(name)?),
        })
    }

    /// The same name with its text owned. It takes memory only where that is borrowed; `Err`: memory ran out.
    pub fn into_owned(self, alloc: Global) -> Result<QuotaResourceName<'static>, AllocError>
        ensures same { IfOk result (λ name.
            quota_resource_name_value name
            ≡ owned_quota_resource_name (quota_resource_name_value self.entry)) }
        ensures memory { IsOwnedName (quota_resource_name_value self.entry) → IsOk result }
    {
        Ok(match self {
            QuotaResourceName::Storage => QuotaResourceName::Storage,
            QuotaResourceName::Message => QuotaResourceName::Message,
            QuotaResourceName::Atom(name) => QuotaResourceName::Atom(owned_text(alloc, name)?),
        })
    }
}

impl<'a> QuotaResource<'a> {
    /// The same resource. It takes memory only for an owned text; `Err`: memory ran out.
    pub fn clone(&self) -> Result<Self, AllocError>
        ensures same { IfOk result (λ copy.
            quota_resource_value copy ≡ quota_resource_value self.now) }
        ensures memory { IsLentName (quota_resource_name_value self.now.name) → IsOk result }
    {
        Ok(QuotaResource {
            name: self.name.clone()?,
            usage: self.usage,
            limit: self.limit,
        })
    }

    /// The same resource with its text owned. It takes memory only where that is borrowed; `Err`: memory ran out.
    pub fn into_owned(self, alloc: Global) -> Result<QuotaResource<'static>, AllocError>
        ensures same { IfOk result (λ resource.
            quota_resource_value resource
            ≡ owned_quota_resource (quota_resource_value self.entry)) }
        ensures memory { IsOwnedName (quota_resource_name_value self.entry.name) → IsOk result }
    {
        let QuotaResource { name, usage, limit } = self;
        Ok(QuotaResource {
            name: name.into_owned(alloc)?,
            usage,
            limit,
        })
    }
}

impl<'a> TryClone for QuotaResource<'a> {
    ghost meaning = { QuotaResourceValue };

    ghost said = { quota_resource_value };

    fn try_clone(&self) -> Result<QuotaResource<'a>, AllocError> {
        self.clone()
    }
}

impl<'a> IntoOwned for QuotaResource<'a> {
    type Owned = QuotaResource<'static>;

    ghost meaning = { QuotaResourceValue };

    ghost said = { quota_resource_value };

    ghost owned = { owned_quota_resource };

    ghost owned_said = { quota_resource_value };

    fn into_owned(self, alloc: Global) -> Result<QuotaResource<'static>, AllocError> {
        self.into_owned(alloc)
    }
}

impl<'a> Quota<'a> {
    /// The same quota. It takes memory for resources, and for owned texts; `Err`: memory ran out.
    pub fn clone(&self) -> Result<Self, AllocError>
        ensures same { IfOk result (λ copy. quota_value copy ≡ quota_value self.now) }
        ensures memory { IsLent (text_of self.now.root_name) → self.now.resources.items ≡ []
            → IsOk result }
    {
        Ok(Quota {
            root_name: copied_text(&self.root_name)?,
            resources: each_copied(&self.resources)?,
        })
    }

    /// The same quota with all texts owned. It takes memory for resources, and for borrowed texts; `Err`: memory ran
    /// out.
    pub fn into_owned(self, alloc: Global) -> Result<Quota<'static>, AllocError>
        ensures same { IfOk result (λ quota.
            quota_value quota ≡ owned_quota (quota_value self.entry)) }
        ensures memory { IsOwned (text_of self.entry.root_name) → self.entry.resources.items ≡ []
            → IsOk result }
    {
        Ok(Quota {
            root_name: owned_text(alloc, self.root_name)?,
            resources: each_owned(alloc, self.resources)?,
        })
    }
}

impl<'a> QuotaRoot<'a> {
    /// The same roots. It takes memory for the list of them unless that is empty, and for owned texts; `Err`: memory
    /// ran out.
    pub fn clone(&self) -> Result<Self, AllocError>
        ensures same { IfOk result (λ copy. quota_root_value copy ≡ quota_root_value self.now) }
        ensures memory { IsLent (text_of self.now.mailbox_name)
            → self.now.quota_root_names.items ≡ [] → IsOk result }
    {
        Ok(QuotaRoot {
            mailbox_name: copied_text(&self.mailbox_name)?,
            quota_root_names: copied_texts(&self.quota_root_names)?,
        })
    }

    /// The same roots with all texts owned. It takes memory for the list of them unless that is empty, and for borrowed
    /// texts; `Err`: memory ran out.
    pub fn into_owned(self, alloc: Global) -> Result<QuotaRoot<'static>, AllocError>
        ensures same { IfOk result (λ root.
            quota_root_value root ≡ owned_quota_root (quota_root_value self.entry)) }
        ensures memory { IsOwned (text_of self.entry.mailbox_name)
            → self.entry.quota_root_names.items ≡ [] → IsOk result }
    {
        Ok(QuotaRoot {
            mailbox_name: owned_text(alloc, self.mailbox_name)?,
            quota_root_names: owned_texts(alloc, self.quota_root_names)?,
        })
    }
}
