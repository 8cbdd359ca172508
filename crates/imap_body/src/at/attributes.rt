//! The attribute at a position: which it is, by its first byte.

ghost use Rattle.std.specs.Prelude.{◌≤◌, length};
ghost use Rattle.imap_body.specs.Attributes as rules;
ghost use Rattle.imap_body.specs.Reading.{ReadsAttribute};

use crate::at::messages::{body_attribute, message_attribute};
use crate::at::skipped::msg_att_unknown;
use crate::at::worded;
use crate::keep::{Answer, KeepAttribute};
use imap_bytes::{Err, Needed, first};
use imap_envelopes::Input;

// One function for each first letter, never inlined: each answer takes room on the stack, and `attribute` would clear
// the room of all of them at each call.

#[tactic(auto, unfolding(crate::specs::Attributes::attribute_of_b))]
#[inline(never)]
fn attribute_of_b<K: KeepAttribute>(input: &Input<K>, p: usize) -> Answer<K>
    requires { p ≤ length input.now }
    ensures { ReadsAttribute K.text_said K.bytes_said rules.attribute_of_b input.now p result }
{
    first!(body_attribute(input, p));
    msg_att_unknown(input, p)
}

#[tactic(auto, unfolding(crate::specs::Attributes::attribute_of_e))]
#[inline(never)]
fn attribute_of_e<K: KeepAttribute>(input: &Input<K>, p: usize) -> Answer<K>
    requires { p ≤ length input.now }
    ensures { ReadsAttribute K.text_said K.bytes_said rules.attribute_of_e input.now p result }
{
    first!(worded::msg_att_envelope(input, p));
    first!(worded::msg_att_email_id(input, p));
    msg_att_unknown(input, p)
}

#[tactic(auto, unfolding(crate::specs::Attributes::attribute_of_f))]
#[inline(never)]
fn attribute_of_f<K: KeepAttribute>(input: &Input<K>, p: usize) -> Answer<K>
    requires { p ≤ length input.now }
    ensures { ReadsAttribute K.text_said K.bytes_said rules.attribute_of_f input.now p result }
{
    first!(worded::msg_att_flags(input, p));
    msg_att_unknown(input, p)
}

#[tactic(auto, unfolding(crate::specs::Attributes::attribute_of_i))]
#[inline(never)]
fn attribute_of_i<K: KeepAttribute>(input: &Input<K>, p: usize) -> Answer<K>
    requires { p ≤ length input.now }
    ensures { ReadsAttribute K.text_said K.bytes_said rules.attribute_of_i input.now p result }
{
    first!(worded::msg_att_internal_date(input, p));
    msg_att_unknown(input, p)
}

#[tactic(auto, unfolding(crate::specs::Attributes::attribute_of_m))]
#[inline(never)]
fn attribute_of_m<K: KeepAttribute>(input: &Input<K>, p: usize) -> Answer<K>
    requires { p ≤ length input.now }
    ensures { ReadsAttribute K.text_said K.bytes_said rules.attribute_of_m input.now p result }
{
    first!(worded::msg_att_mod_seq(input, p));
    msg_att_unknown(input, p)
}

#[tactic(auto, unfolding(crate::specs::Attributes::attribute_of_r))]
#[inline(never)]
fn attribute_of_r<K: KeepAttribute>(input: &Input<K>, p: usize) -> Answer<K>
    requires { p ≤ length input.now }
    ensures { ReadsAttribute K.text_said K.bytes_said rules.attribute_of_r input.now p result }
{
    first!(message_attribute(input, p));
    msg_att_unknown(input, p)
}

#[tactic(auto, unfolding(crate::specs::Attributes::attribute_of_s))]
#[inline(never)]
fn attribute_of_s<K: KeepAttribute>(input: &Input<K>, p: usize) -> Answer<K>
    requires { p ≤ length input.now }
    ensures { ReadsAttribute K.text_said K.bytes_said rules.attribute_of_s input.now p result }
{
    first!(worded::msg_att_save_date(input, p));
    msg_att_unknown(input, p)
}

#[tactic(auto, unfolding(crate::specs::Attributes::attribute_of_t))]
#[inline(never)]
fn attribute_of_t<K: KeepAttribute>(input: &Input<K>, p: usize) -> Answer<K>
    requires { p ≤ length input.now }
    ensures { ReadsAttribute K.text_said K.bytes_said rules.attribute_of_t input.now p result }
{
    first!(worded::msg_att_thread_id(input, p));
    msg_att_unknown(input, p)
}

#[tactic(auto, unfolding(crate::specs::Attributes::attribute_of_u))]
#[inline(never)]
fn attribute_of_u<K: KeepAttribute>(input: &Input<K>, p: usize) -> Answer<K>
    requires { p ≤ length input.now }
    ensures { ReadsAttribute K.text_said K.bytes_said rules.attribute_of_u input.now p result }
{
    first!(worded::msg_att_uid(input, p));
    msg_att_unknown(input, p)
}

#[tactic(auto, unfolding(crate::specs::Attributes::attribute_of_x))]
#[inline(never)]
fn attribute_of_x<K: KeepAttribute>(input: &Input<K>, p: usize) -> Answer<K>
    requires { p ≤ length input.now }
    ensures { ReadsAttribute K.text_said K.bytes_said rules.attribute_of_x input.now p result }
{
    first!(worded::msg_att_gmail_labels(input, p));
    first!(worded::msg_att_gmail_msgid(input, p));
    first!(worded::msg_att_gmail_thrid(input, p));
    msg_att_unknown(input, p)
}

/// An attribute (RFC 3501, section 9: msg-att): of the alternatives those are tried, in order, that may start with the
/// first byte.
///
/// It takes memory for lists, envelopes and body structures, and, where values are kept of its strings, for texts that
/// are not UTF-8.
#[tactic(auto, using(crate::proofs::AttributeFirstBytes::arms))]
pub(crate) fn attribute<K: KeepAttribute>(input: &Input<K>, p: usize) -> Answer<K>
    requires { p ≤ length input.now }
    ensures { ReadsAttribute K.text_said K.bytes_said rules.attribute input.now p result }
{
    match input.byte_at(p) {
        None => Err(Err::Incomplete(Needed::Unknown)),
        Some(b'b' | b'B') => attribute_of_b(input, p),
        Some(b'e' | b'E') => attribute_of_e(input, p),
        Some(b'f' | b'F') => attribute_of_f(input, p),
        Some(b'i' | b'I') => attribute_of_i(input, p),
        Some(b'm' | b'M') => attribute_of_m(input, p),
        Some(b'r' | b'R') => attribute_of_r(input, p),
        Some(b's' | b'S') => attribute_of_s(input, p),
        Some(b't' | b'T') => attribute_of_t(input, p),
        Some(b'u' | b'U') => attribute_of_u(input, p),
        Some(b'x' | b'X') => attribute_of_x(input, p),
        Some(_) => msg_att_unknown(input, p),
    }
}
