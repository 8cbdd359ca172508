//! Maps of envelopes and addresses.

ghost use Rattle.std.specs.Prelude.{◌≡◌, IfOk, IsOk, map};
ghost use Rattle.imap_body_types.specs.EnvelopeValues.{IsBlank, address_seen, addresses_seen, envelope_seen};

use super::change::Change;
use super::parts::mapped_optional_text;
use crate::shapes::envelopes::{Address, Envelope};
use std::alloc::{AllocError, Global};

impl<B> Address<B> {
    /// The same address with each text changed.
    pub(crate) fn try_map<C: Change<B>>(&self, c: &C) -> Result<Address<C::To>, AllocError>
        ensures changed { IfOk result (λ a.
            address_seen C.after a ≡ address_seen (C.before c.now) self.now) }
        ensures memory { IsBlank self.now → IsOk result }
    {
        Ok(Address {
            name: mapped_optional_text(c, &self.name)?,
            adl: mapped_optional_text(c, &self.adl)?,
            mailbox: mapped_optional_text(c, &self.mailbox)?,
            host: mapped_optional_text(c, &self.host)?,
        })
    }
}

fn mapped_address_list<B, C: Change<B>>(
    alloc: Global,
    c: &C,
    addresses: &Vec<Address<B>>,
) -> Result<Vec<Address<C::To>>, AllocError>
    ensures { IfOk result (λ v.
        map (address_seen C.after) v.items
        ≡ map (address_seen (C.before c.now)) addresses.now.items) }
{
    let mut mapped = Vec::with_capacity(alloc, addresses.len())?;
    for address in addresses {
        mapped.reserve(1)?;
        mapped.push_reserved(or_drop!(address.try_map(c)));
    }
    Ok(mapped)
}

fn mapped_addresses<B, C: Change<B>>(
    alloc: Global,
    c: &C,
    addresses: &Option<Vec<Address<B>>>,
) -> Result<Option<Vec<Address<C::To>>>, AllocError>
    ensures { IfOk result (λ t.
        addresses_seen C.after t ≡ addresses_seen (C.before c.now) addresses.now) }
{
    match addresses {
        None => Ok(None),
        Some(addresses) => Ok(Some(mapped_address_list(alloc, c, addresses)?)),
    }
}

impl<B> Envelope<B> {
    /// The same envelope with each text changed. It takes memory for the lists, and where c does; `Err`: memory ran
    /// out.
    #[tactic(auto, unfolding(crate::specs::EnvelopeValues::envelope_seen))]
    pub fn try_map<C: Change<B>>(&self, alloc: Global, c: &C) -> Result<Envelope<C::To>, AllocError>
        ensures { IfOk result (λ e.
            envelope_seen C.after e ≡ envelope_seen (C.before c.now) self.now) }
    {
        Ok(Envelope {
            date: mapped_optional_text(c, &self.date)?,
            subject: mapped_optional_text(c, &self.subject)?,
            from: mapped_addresses(alloc, c, &self.from)?,
            sender: mapped_addresses(alloc, c, &self.sender)?,
            reply_to: mapped_addresses(alloc, c, &self.reply_to)?,
            to: mapped_addresses(alloc, c, &self.to)?,
            cc: mapped_addresses(alloc, c, &self.cc)?,
            bcc: mapped_addresses(alloc, c, &self.bcc)?,
            in_reply_to: mapped_optional_text(c, &self.in_reply_to)?,
            message_id: mapped_optional_text(c, &self.message_id)?,
        })
    }
}

/// The same envelope, boxed, with each text changed. It takes memory for the box and the lists, and where d does;
/// `Err`: memory ran out.
///
/// It is never inlined: its stack frame is large, and a caller that inlined it would clear it at each call.
#[inline(never)]
pub fn mapped_envelope<B, D: Change<B>>(
    alloc: Global,
    d: &D,
    envelope: &Envelope<B>,
) -> Result<Box<Envelope<D::To>>, AllocError>
    ensures { IfOk result (λ e.
        envelope_seen D.after e.value ≡ envelope_seen (D.before d.now) envelope.now) }
{
    let mapped = or_drop!(envelope.try_map(alloc, d));
    Ok(Box::new(alloc, mapped)?)
}
