//! Laws of the types of this crate, as contracts of functions that do nothing. Those of its rules are in `imap_data`.

ghost use Rattle.std.specs.Prelude.{◌≡◌};
ghost use Rattle.imap_grammar.specs.Equality.{Tells, HashesAlike};
ghost use Rattle.imap_extensions.specs.Quotas.{QuotaResourceNameValue, QuotaResourceValue, QuotaValue, QuotaRootValue};
ghost use Rattle.imap_extensions.specs.Quotas.{quota_content, quota_resource_content, quota_resource_name_content};
ghost use Rattle.imap_extensions.specs.Quotas.{quota_root_content, lent_quota_resource_name, lent_quota_resource};
ghost use Rattle.imap_extensions.specs.Quotas.{lent_quota, lent_quota_root};
ghost use Rattle.imap_extensions.specs.Ids.{IdValue, id_content, lent_id};
ghost use Rattle.imap_extensions.specs.Acls.{AclEntryValue, AclValue, ListRightsValue, MyRightsValue};
ghost use Rattle.imap_extensions.specs.Acls.{acl_entry_content, acl_content, list_rights_content, my_rights_content};
ghost use Rattle.imap_extensions.specs.Acls.{lent_acl_entry, lent_acl, lent_list_rights, lent_my_rights};
ghost use Rattle.imap_extensions.specs.Owned.{owned_quota_resource_name, owned_quota_resource, owned_quota};
ghost use Rattle.imap_extensions.specs.Owned.{owned_quota_root, owned_id, owned_acl_entry, owned_acl};
ghost use Rattle.imap_extensions.specs.Owned.{owned_list_rights, owned_my_rights};

use crate::types::acls::{Acl, AclEntry, ListRights, MyRights};
use crate::types::ids::IdMap;
use crate::types::quotas::{Quota, QuotaResource, QuotaResourceName, QuotaRoot};
use std::hash::Hash;

/// `==` tells whether two values say the same: texts by their bytes, whichever are borrowed.
pub fn equality()
    ensures quota_resource_name { Tells ⟦<QuotaResourceName<'static> as PartialEq>⟧.eq
        quota_resource_name_content }
    ensures quota_resource { Tells ⟦<QuotaResource<'static> as PartialEq>⟧.eq
        quota_resource_content }
    ensures quota { Tells ⟦<Quota<'static> as PartialEq>⟧.eq quota_content }
    ensures quota_root { Tells ⟦<QuotaRoot<'static> as PartialEq>⟧.eq quota_root_content }
    ensures id_map { Tells ⟦<IdMap<'static> as PartialEq>⟧.eq id_content }
    ensures acl_entry { Tells ⟦<AclEntry<'static> as PartialEq>⟧.eq acl_entry_content }
    ensures acl { Tells ⟦<Acl<'static> as PartialEq>⟧.eq acl_content }
    ensures list_rights { Tells ⟦<ListRights<'static> as PartialEq>⟧.eq list_rights_content }
    ensures my_rights { Tells ⟦<MyRights<'static> as PartialEq>⟧.eq my_rights_content }
{}

/// Values that say the same hash alike.
pub fn hashing()
    ensures quota_resource_name { HashesAlike ⟦<QuotaResourceName<'static> as Hash>⟧.hash_input
        quota_resource_name_content }
    ensures quota_resource { HashesAlike ⟦<QuotaResource<'static> as Hash>⟧.hash_input
        quota_resource_content }
    ensures quota { HashesAlike ⟦<Quota<'static> as Hash>⟧.hash_input quota_content }
    ensures quota_root { HashesAlike ⟦<QuotaRoot<'static> as Hash>⟧.hash_input quota_root_content }
{}

/// An owned value says the same as the value that it was made from.
pub fn owning()
    ensures quota_resource_name { (n : QuotaResourceNameValue) →
        lent_quota_resource_name (owned_quota_resource_name n) ≡ lent_quota_resource_name n }
    ensures quota_resource { (r : QuotaResourceValue) →
        lent_quota_resource (owned_quota_resource r) ≡ lent_quota_resource r }
    ensures quota { (q : QuotaValue) → lent_quota (owned_quota q) ≡ lent_quota q }
    ensures quota_root { (q : QuotaRootValue) →
        lent_quota_root (owned_quota_root q) ≡ lent_quota_root q }
    ensures id_map { (m : IdValue) → lent_id (owned_id m) ≡ lent_id m }
    ensures acl_entry { (e : AclEntryValue) →
        lent_acl_entry (owned_acl_entry e) ≡ lent_acl_entry e }
    ensures acl { (a : AclValue) → lent_acl (owned_acl a) ≡ lent_acl a }
    ensures list_rights { (r : ListRightsValue) →
        lent_list_rights (owned_list_rights r) ≡ lent_list_rights r }
    ensures my_rights { (r : MyRightsValue) →
        lent_my_rights (owned_my_rights r) ≡ lent_my_rights r }
{}

/// The owned form of a value doesn't depend on which of its texts are borrowed.
pub fn lending()
    ensures quota_resource_name { (n : QuotaResourceNameValue) →
        owned_quota_resource_name (lent_quota_resource_name n) ≡ owned_quota_resource_name n }
    ensures quota_resource { (r : QuotaResourceValue) →
        owned_quota_resource (lent_quota_resource r) ≡ owned_quota_resource r }
    ensures quota { (q : QuotaValue) → owned_quota (lent_quota q) ≡ owned_quota q }
    ensures quota_root { (q : QuotaRootValue) →
        owned_quota_root (lent_quota_root q) ≡ owned_quota_root q }
    ensures id_map { (m : IdValue) → owned_id (lent_id m) ≡ owned_id m }
    ensures acl_entry { (e : AclEntryValue) →
        owned_acl_entry (lent_acl_entry e) ≡ owned_acl_entry e }
    ensures acl { (a : AclValue) → owned_acl (lent_acl a) ≡ owned_acl a }
    ensures list_rights { (r : ListRightsValue) →
        owned_list_rights (lent_list_rights r) ≡ owned_list_rights r }
    ensures my_rights { (r : MyRightsValue) →
        owned_my_rights (lent_my_rights r) ≡ owned_my_rights r }
{}
