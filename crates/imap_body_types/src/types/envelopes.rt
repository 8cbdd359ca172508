//! Envelopes and addresses, their byte strings as they stand in a message.

use crate::shapes::envelopes;
use std::borrow::CowSlice;

/// An address (RFC 3501, section 9: address).
pub type Address<'a> = envelopes::Address<CowSlice<'a, u8>>;

/// An envelope (RFC 3501, section 9: envelope).
pub type Envelope<'a> = envelopes::Envelope<CowSlice<'a, u8>>;
