//! Attributes that are a word and one value.

ghost use Rattle.std.specs.Prelude.{◌≤◌, length};
ghost use Rattle.imap_grammar.specs.Positions.{Ahead, Inside, named_in, StepsExactlyAt};
ghost use Rattle.imap_body_types.specs.Spans.{RestsOn, text_in};
ghost use Rattle.imap_body.specs.Attributes as rules;
ghost use Rattle.imap_body.specs.Reading.{ReadsAttribute, ReadsAttributeExactly};

use crate::attributes::AttributeParts;
use crate::keep::{Answer, KeepAttribute};
use imap_body_types::or_drop;
use imap_body_types::spans::SpannedText;
use imap_bytes::at::Reached;
use imap_bytes::at::numbers::{number, number_64};
use imap_bytes::at::span::Span;
use imap_bytes::at::strings::{astring_chars, nil};
use imap_bytes::at::tags::{tag, word};
use imap_bytes::strings::as_utf8;
use imap_bytes::{Err, first};
use imap_envelopes::Input;
use imap_envelopes::at::envelopes::envelope;
use imap_envelopes::at::texts::{nstring_text, string_text};
use imap_envelopes::kept::kept_text;
use imap_shared::at::{gmail_msgid, gmail_thrid};

#[tactic(auto, using(crate::proofs::Resting::envelope_rests), unfolding(crate::specs::Attributes::msg_att_envelope))]
#[inline(never)] // Its stack frame is large, and a caller that inlined it would clear it at each call.
pub(crate) fn msg_att_envelope<K: KeepAttribute>(input: &Input<K>, p: usize) -> Answer<K>
    requires { p ≤ length input.now }
    ensures { ReadsAttribute K.text_said K.bytes_said rules.msg_att_envelope input.now p result }
{
    let (p, _) = word(b"ENVELOPE ", input.message, p)?;
    let (p, envelope) = or_drop!(envelope(input, p));
    Ok((
        p,
        AttributeParts::Envelope(Box::new(input.alloc, envelope)?),
    ))
}

#[tactic(auto, unfolding(crate::specs::Attributes::date))]
fn date(m: &[u8], p: usize) -> Reached<SpannedText>
    requires { p ≤ length m.now }
    ensures steps { StepsExactlyAt rules.date (text_in (named_in m.now)) m.now p result }
    ensures ahead { Ahead m.now p result }
    ensures rests { RestsOn text_in result }
{
    string_text(m, p)
}

#[tactic(auto, unfolding(crate::specs::Attributes::msg_att_internal_date))]
pub(crate) fn msg_att_internal_date<K: KeepAttribute>(input: &Input<K>, p: usize) -> Answer<K>
    requires { p ≤ length input.now }
    ensures { ReadsAttribute K.text_said K.bytes_said rules.msg_att_internal_date input.now p result }
{
    let (p, _) = word(b"INTERNALDATE ", input.message, p)?;
    let (p, date) = date(input.message, p)?;
    let date = input.text(date)?;
    Ok((p, AttributeParts::InternalDate(date)))
}

#[tactic(auto, unfolding(crate::specs::Attributes::msg_att_flags))]
pub(crate) fn msg_att_flags<K: KeepAttribute>(input: &Input<K>, p: usize) -> Answer<K>
    requires { p ≤ length input.now }
    ensures { ReadsAttribute K.text_said K.bytes_said rules.msg_att_flags input.now p result }
{
    let (p, _) = word(b"FLAGS ", input.message, p)?;
    let (p, flags) = input.keep.flags(input.alloc, input.message, p)?;
    Ok((p, AttributeParts::Flags(flags)))
}

#[tactic(auto, unfolding(crate::specs::Attributes::msg_att_uid))]
pub(crate) fn msg_att_uid<K: KeepAttribute>(input: &Input<K>, p: usize) -> Answer<K>
    requires { p ≤ length input.now }
    ensures { ReadsAttributeExactly K.text_said K.bytes_said rules.msg_att_uid input.now p result }
{
    let (p, _) = word(b"UID ", input.message, p)?;
    let (p, uid) = number(input.message, p)?;
    Ok((p, AttributeParts::Uid(uid)))
}

#[tactic(auto, unfolding(crate::specs::Attributes::msg_att_mod_seq))]
pub(crate) fn msg_att_mod_seq<K: KeepAttribute>(input: &Input<K>, p: usize) -> Answer<K>
    requires { p ≤ length input.now }
    ensures { ReadsAttributeExactly K.text_said K.bytes_said rules.msg_att_mod_seq input.now p result }
{
    let (p, _) = word(b"MODSEQ ", input.message, p)?;
    let (p, _) = tag(b"(", input.message, p)?;
    let (p, mod_seq) = number_64(input.message, p)?;
    let (p, _) = tag(b")", input.message, p)?;
    Ok((p, AttributeParts::ModSeq(mod_seq)))
}

#[tactic(auto, unfolding(crate::specs::Attributes::msg_att_gmail_labels))]
pub(crate) fn msg_att_gmail_labels<K: KeepAttribute>(input: &Input<K>, p: usize) -> Answer<K>
    requires { p ≤ length input.now }
    ensures { ReadsAttribute K.text_said K.bytes_said rules.msg_att_gmail_labels input.now p result }
{
    let (p, labels) = input.keep.labels(input.alloc, input.message, p)?;
    Ok((p, AttributeParts::GmailLabels(labels)))
}

#[tactic(auto, unfolding(crate::specs::Attributes::msg_att_gmail_msgid))]
pub(crate) fn msg_att_gmail_msgid<K: KeepAttribute>(input: &Input<K>, p: usize) -> Answer<K>
    requires { p ≤ length input.now }
    ensures { ReadsAttributeExactly K.text_said K.bytes_said rules.msg_att_gmail_msgid input.now p result }
{
    let (p, number) = gmail_msgid(input.message, p)?;
    Ok((p, AttributeParts::GmailMsgId(number)))
}

#[tactic(auto, unfolding(crate::specs::Attributes::msg_att_gmail_thrid))]
pub(crate) fn msg_att_gmail_thrid<K: KeepAttribute>(input: &Input<K>, p: usize) -> Answer<K>
    requires { p ≤ length input.now }
    ensures { ReadsAttributeExactly K.text_said K.bytes_said rules.msg_att_gmail_thrid input.now p result }
{
    let (p, number) = gmail_thrid(input.message, p)?;
    Ok((p, AttributeParts::GmailThrId(number)))
}

#[tactic(auto, using(imap_grammar::proofs::Positions::kept_self), unfolding(crate::specs::Attributes::id_bytes))]
fn id_bytes(m: &[u8], p: usize) -> Reached<Span>
    requires { p ≤ length m.now }
    ensures steps { StepsExactlyAt rules.id_bytes (named_in m.now) m.now p result }
    ensures inside { Inside m.now p result }
{
    let (q, id) = astring_chars(m, p)?;
    as_utf8(id.bytes(m)).ok_or(Err::Error)?;
    Ok((q, id))
}

#[tactic(auto, using(crate::proofs::Resting::ids), unfolding(crate::specs::Attributes::object_id))]
fn object_id(m: &[u8], p: usize) -> Reached<SpannedText>
    requires { p ≤ length m.now }
    ensures steps { StepsExactlyAt rules.object_id (text_in (named_in m.now)) m.now p result }
    ensures ahead { Ahead m.now p result }
    ensures rests { RestsOn text_in result }
{
    let (q, id) = id_bytes(m, p)?;
    Ok((q, SpannedText::Part(id)))
}

#[tactic(auto, unfolding(crate::specs::Attributes::bracketed_id))]
fn bracketed_id(m: &[u8], p: usize) -> Reached<SpannedText>
    requires { p ≤ length m.now }
    ensures steps { StepsExactlyAt rules.bracketed_id (text_in (named_in m.now)) m.now p result }
    ensures ahead { Ahead m.now p result }
    ensures rests { RestsOn text_in result }
{
    let (p, _) = tag(b"(", m, p)?;
    let (p, id) = object_id(m, p)?;
    let (p, _) = tag(b")", m, p)?;
    Ok((p, id))
}

#[tactic(auto, unfolding(crate::specs::Attributes::msg_att_email_id))]
pub(crate) fn msg_att_email_id<K: KeepAttribute>(input: &Input<K>, p: usize) -> Answer<K>
    requires { p ≤ length input.now }
    ensures { ReadsAttribute K.text_said K.bytes_said rules.msg_att_email_id input.now p result }
{
    let (p, _) = word(b"EMAILID ", input.message, p)?;
    let (p, id) = bracketed_id(input.message, p)?;
    let id = input.text(id)?;
    Ok((p, AttributeParts::EmailId(id)))
}

#[tactic(auto, unfolding(crate::specs::Attributes::msg_att_thread_id))]
pub(crate) fn msg_att_thread_id<K: KeepAttribute>(input: &Input<K>, p: usize) -> Answer<K>
    requires { p ≤ length input.now }
    ensures { ReadsAttribute K.text_said K.bytes_said rules.msg_att_thread_id input.now p result }
{
    let (p, _) = word(b"THREADID ", input.message, p)?;
    first!(nil(input.message, p), _ => AttributeParts::ThreadId(None));
    let (p, id) = bracketed_id(input.message, p)?;
    let id = input.text(id)?;
    Ok((p, AttributeParts::ThreadId(Some(id))))
}

#[tactic(auto, unfolding(crate::specs::Attributes::msg_att_save_date))]
pub(crate) fn msg_att_save_date<K: KeepAttribute>(input: &Input<K>, p: usize) -> Answer<K>
    requires { p ≤ length input.now }
    ensures { ReadsAttribute K.text_said K.bytes_said rules.msg_att_save_date input.now p result }
{
    let (p, _) = word(b"SAVEDATE ", input.message, p)?;
    let (p, date) = nstring_text(input.message, p)?;
    let date = kept_text(input, date)?;
    Ok((p, AttributeParts::SaveDate(date)))
}
