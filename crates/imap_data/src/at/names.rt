//! Attributes of mailbox names, and the data of LIST, at a position.

ghost use Rattle.std.specs.Prelude.{◌≤◌, length, drop, map};
ghost use Rattle.std.specs.Option.{option_map};
ghost use Rattle.imap_grammar.specs.Lists.{opened};
ghost use Rattle.imap_grammar.specs.Memory.{FailsOnlyIf, StartsWith};
ghost use Rattle.imap_grammar.specs.Positions.{Ahead, ReadsAt, ReadsExactlyAt, StepsAt};
ghost use Rattle.imap_grammar.specs.Text.{text_of, IsOwned};
ghost use Rattle.imap_bytes.specs.Texts.{YieldsOwned, quoted_utf8 as quoted_rule};
ghost use Rattle.imap_data.specs.NameGroups as groups;
ghost use Rattle.imap_data.specs.Names as names;
ghost use Rattle.imap_data.specs.Names.{name_attribute_value, list_value, ListMayWant};

use crate::types::names::{MailboxListData, NameAttribute};
use imap_bytes::at::span::rest;
use imap_bytes::at::tags::tag;
use imap_bytes::at::texts::quoted_utf8;
use imap_bytes::at::{Reached, nil, parenthesized_list};
use imap_bytes::tags::second;
use imap_bytes::{first, on_word};
use imap_shared::at::flags::backslashed_text;
use imap_shared::at::mailboxes::mailbox;
use std::alloc::Global;
use std::borrow::CowStr;

#[tactic(auto, unfolding(crate::specs::NameGroups::extension))]
fn extension(m: &[u8], p: usize) -> Reached<NameAttribute<'_>>
    requires { p ≤ length m.now }
    ensures { ReadsExactlyAt groups.extension name_attribute_value m.now p result }
{
    let (q, text) = backslashed_text(m, p)?;
    Ok((q, NameAttribute::Extension(CowStr::Borrowed(text))))
}

#[tactic(auto, unfolding(crate::specs::NameGroups::name_attribute_of_n))]
fn name_attribute_of_n(m: &[u8], p: usize) -> Reached<NameAttribute<'_>>
    requires { p ≤ length m.now }
    ensures { ReadsExactlyAt groups.name_attribute_of_n name_attribute_value m.now p result }
{
    on_word!(b"\\Noinferiors", m, p, NameAttribute::NoInferiors);
    on_word!(b"\\Noselect", m, p, NameAttribute::NoSelect);
    extension(m, p)
}

#[tactic(auto, unfolding(crate::specs::NameGroups::name_attribute_of_m_u))]
fn name_attribute_of_m_u(m: &[u8], p: usize) -> Reached<NameAttribute<'_>>
    requires { p ≤ length m.now }
    ensures { ReadsExactlyAt groups.name_attribute_of_m_u name_attribute_value m.now p result }
{
    on_word!(b"\\Marked", m, p, NameAttribute::Marked);
    on_word!(b"\\Unmarked", m, p, NameAttribute::Unmarked);
    extension(m, p)
}

#[tactic(auto, unfolding(crate::specs::NameGroups::name_attribute_of_a))]
fn name_attribute_of_a(m: &[u8], p: usize) -> Reached<NameAttribute<'_>>
    requires { p ≤ length m.now }
    ensures { ReadsExactlyAt groups.name_attribute_of_a name_attribute_value m.now p result }
{
    on_word!(b"\\All", m, p, NameAttribute::All);
    on_word!(b"\\Archive", m, p, NameAttribute::Archive);
    extension(m, p)
}

#[tactic(auto, unfolding(crate::specs::NameGroups::name_attribute_of_d_f_j))]
fn name_attribute_of_d_f_j(m: &[u8], p: usize) -> Reached<NameAttribute<'_>>
    requires { p ≤ length m.now }
    ensures { ReadsExactlyAt groups.name_attribute_of_d_f_j name_attribute_value m.now p result }
{
    on_word!(b"\\Drafts", m, p, NameAttribute::Drafts);
    on_word!(b"\\Flagged", m, p, NameAttribute::Flagged);
    on_word!(b"\\Junk", m, p, NameAttribute::Junk);
    extension(m, p)
}

#[tactic(auto, unfolding(crate::specs::NameGroups::name_attribute_of_s_t))]
fn name_attribute_of_s_t(m: &[u8], p: usize) -> Reached<NameAttribute<'_>>
    requires { p ≤ length m.now }
    ensures { ReadsExactlyAt groups.name_attribute_of_s_t name_attribute_value m.now p result }
{
    on_word!(b"\\Sent", m, p, NameAttribute::Sent);
    on_word!(b"\\Trash", m, p, NameAttribute::Trash);
    extension(m, p)
}

// An attribute of a name: a known word in any case, or any other with its backslash
// (RFC 3501, section 9: mbx-list-flags; RFC 6154, section 6: use-attr). No memory.
//
// All begin with a backslash, so the byte behind it tells which are tried.
#[tactic(auto, using(crate::proofs::SecondBytes::arms))]
pub(crate) fn name_attribute(m: &[u8], p: usize) -> Reached<NameAttribute<'_>>
    requires { p ≤ length m.now }
    ensures { ReadsExactlyAt names.name_attribute name_attribute_value m.now p result }
{
    match second(rest(m, p)) {
        None => extension(m, p),
        Some(b'n' | b'N') => name_attribute_of_n(m, p),
        Some(b'm' | b'M' | b'u' | b'U') => name_attribute_of_m_u(m, p),
        Some(b'a' | b'A') => name_attribute_of_a(m, p),
        Some(b'd' | b'D' | b'f' | b'F' | b'j' | b'J') => name_attribute_of_d_f_j(m, p),
        Some(b's' | b'S' | b't' | b'T') => name_attribute_of_s_t(m, p),
        Some(_) => extension(m, p),
    }
}

fn name_attributes(alloc: Global, m: &[u8], p: usize) -> Reached<Vec<NameAttribute<'_>>>
    requires { p ≤ length m.now }
    ensures reads { ReadsAt names.name_attributes (λ x. map name_attribute_value x.items) m.now p
        result }
    ensures memory { FailsOnlyIf (StartsWith (opened names.name_attribute) (drop p m.now)) result }
{
    let item = |k: usize|
        requires { k ≤ length m.now }
        ensures { ReadsExactlyAt names.name_attribute name_attribute_value m.entry.now k result }
    { name_attribute(m, k) };
    parenthesized_list(alloc, item, m, p)
}

// The hierarchy delimiter, `None` for NIL.
#[tactic(auto, unfolding(crate::specs::Names::delimiter))]
fn delimiter(alloc: Global, m: &[u8], p: usize) -> Reached<Option<CowStr<'_>>>
    requires { p ≤ length m.now }
    ensures reads { ReadsAt names.delimiter (option_map text_of) m.now p result }
    ensures memory { FailsOnlyIf (YieldsOwned IsOwned quoted_rule (drop p m.now)) result }
{
    first!(quoted_utf8(alloc, m, p), text => Some(text));
    let (q, _) = nil(m, p)?;
    Ok((q, None))
}

// What LIST and LSUB say of a mailbox (RFC 3501, section 9: mailbox-list).
#[tactic(auto, unfolding(crate::specs::Names::list_data))]
#[inline(always)]
pub(crate) fn list_data(alloc: Global, m: &[u8], p: usize) -> Reached<MailboxListData<'_>>
    requires { p ≤ length m.now }
    ensures steps { StepsAt names.list_data list_value m.now p result }
    ensures ahead { Ahead m.now p result }
    ensures memory { FailsOnlyIf (ListMayWant (drop p m.now)) result }
{
    let (p, name_attributes) = name_attributes(alloc, m, p)?;
    let (p, _) = tag(b" ", m, p)?;
    let (p, delimiter) = delimiter(alloc, m, p)?;
    let (p, _) = tag(b" ", m, p)?;
    let (p, name) = mailbox(alloc, m, p)?;
    Ok((
        p,
        MailboxListData {
            name_attributes,
            delimiter,
            name,
        },
    ))
}
