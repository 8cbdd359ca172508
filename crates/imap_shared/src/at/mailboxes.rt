//! Mailbox names at a position.

ghost use Rattle.std.specs.Prelude.{◌≡◌, ◌≤◌, length, drop, codes};
ghost use Rattle.imap_grammar.specs.Meaning.{is_word};
ghost use Rattle.imap_grammar.specs.Positions.{ReadsAt};
ghost use Rattle.imap_grammar.specs.Tags.{same_letter};
ghost use Rattle.imap_grammar.specs.Text.{text_of, IsOwned};
ghost use Rattle.imap_bytes.specs.Texts.{astring_utf8 as astring_rule, FailsForOwned};
ghost use Rattle.imap_shared.specs.Mailboxes as mailboxes;
ghost use Rattle.imap_shared.specs.Mailboxes.{mailbox_of};

use imap_bytes::at::Reached;
use imap_bytes::at::texts::astring_utf8;
use std::alloc::Global;
use std::borrow::CowStr;

fn is_inbox(name: &str) -> bool
    ensures { result ≡ is_word same_letter (codes "INBOX") name.now }
{
    name.eq_ignore_ascii_case("INBOX")
}

fn mailbox_name(name: CowStr<'_>) -> CowStr<'_>
    ensures { text_of result ≡ mailbox_of (text_of name.entry) }
{
    if is_inbox(name.as_str()) {
        CowStr::Borrowed("INBOX")
    } else {
        name
    }
}

/// A mailbox's name: an astring as text, and `INBOX` for INBOX in any case (RFC 3501, section 9: mailbox).
///
/// What is no astring is `Error`. It takes memory only for bytes that are not UTF-8.
#[tactic(auto, unfolding(crate::specs::Mailboxes::mailbox))]
pub fn mailbox(alloc: Global, m: &[u8], p: usize) -> Reached<CowStr<'_>>
    requires { p ≤ length m.now }
    ensures reads { ReadsAt mailboxes.mailbox text_of m.now p result }
    ensures memory { FailsForOwned IsOwned astring_rule (drop p m.now) result }
{
    let (q, name) = astring_utf8(alloc, m, p)?;
    Ok((q, mailbox_name(name)))
}
