//! What the readers that keep strings read.

ghost use Rattle.std.specs.Prelude.{◌≡◌, ◌<◌, ◌≤◌, ℕ, List, length, drop, slice_get, slice_index_or, IfOk};
ghost use Rattle.imap_body_types.specs.Spans.{text_in};
ghost use Rattle.imap_envelopes.specs.Keeping.{IsKeptOf};

use crate::keep::Keep;
use imap_body_types::spans::SpannedText;
use std::alloc::{AllocError, Global};
use std::marker::Model;

/// A message, and what is kept of what is read in it, which serves for that message. A contract sees the message.
#[derive(Drop)]
pub struct Input<'m, K: Keep> {
    /// Where memory is taken for lists and trees.
    pub alloc: Global,
    /// The message that is read.
    pub message: &'m [u8],
    /// What is kept of its strings.
    pub keep: K,
}

impl<'m, K: Keep> Model for Input<'m, K> {
    ghost Value = { List ℕ };

    ghost view = { λ i. i.message.now };

    ghost invariant = { λ i. K.serves i.keep i.message.now };
}

impl<'m, K: Keep> Input<'m, K> {
    /// Keeps a text of the message. It may take memory; `Err`: memory ran out.
    #[inline(always)]
    pub fn text(&self, text: SpannedText) -> Result<K::Text, AllocError>
        ensures { IfOk result (IsKeptOf text_in K.text_said self.now text) }
    {
        self.keep.text(self.message, text)
    }

    /// The byte at p, if there is one. No memory.
    ///
    /// The contract says that it is a byte: a proof isn't told that of what an input holds.
    #[inline(always)]
    pub fn byte_at(&self, p: usize) -> Option<u8>
        requires { p ≤ length self.now }
        ensures is { result ≡ slice_get (drop p self.now) 0 }
        ensures fits { slice_index_or (drop p self.now) 0 0 < 256 }
    {
        byte_at(self.message, p)
    }
}

#[inline(always)]
fn byte_at(m: &[u8], p: usize) -> Option<u8>
    requires { p ≤ length m.now }
    ensures is { result ≡ slice_get (drop p m.now) 0 }
    ensures fits { slice_index_or (drop p m.now) 0 0 < 256 }
{
    let (_, i) = m.split_at(p);
    match i.first() {
        None => None,
        Some(byte) => Some(*byte),
    }
}
