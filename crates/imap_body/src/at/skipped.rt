//! Any other attribute: its value is skipped.

ghost use Rattle.std.specs.Prelude.{◌≤◌, length};
ghost use Rattle.imap_grammar.specs.Positions.{Ahead, Inside, named_in, StepsExactlyAt};
ghost use Rattle.imap_grammar.specs.Rule.{run0, run1};
ghost use Rattle.imap_body.specs.Attributes as rules;
ghost use Rattle.imap_body.specs.Reading.{ReadsAttributeExactly};

use crate::attributes::AttributeParts;
use crate::keep::{Answer, KeepAttribute};
use imap_bytes::at::Reached;
use imap_bytes::at::span::Span;
use imap_bytes::at::strings::{atom, nstring};
use imap_bytes::at::tags::{cut0, cut1, tag};
use imap_bytes::first;
use imap_envelopes::Input;
use imap_grammar::scanning::{Class, run_end};

// Any byte but `)`.
struct CharWithinBrackets;

impl Class for CharWithinBrackets {
    ghost class = { rules.is_within_brackets };

    fn has(c: u8) -> bool {
        c != b')'
    }
}

fn within_brackets(m: &[u8], p: usize) -> Reached<Span>
    requires { p ≤ length m.now }
    ensures steps { StepsExactlyAt (run0 rules.is_within_brackets) (named_in m.now) m.now p result }
    ensures inside { Inside m.now p result }
{
    let (_, i) = m.split_at(p);
    cut0(run_end::<CharWithinBrackets>(i), m, p)
}

// Any byte but a space and `)`.
struct BareChar;

impl Class for BareChar {
    ghost class = { rules.is_bare };

    fn has(c: u8) -> bool {
        c != b' ' && c != b')'
    }
}

fn bare(m: &[u8], p: usize) -> Reached<Span>
    requires { p ≤ length m.now }
    ensures steps { StepsExactlyAt (run1 rules.is_bare) (named_in m.now) m.now p result }
    ensures inside { Inside m.now p result }
{
    let (_, i) = m.split_at(p);
    cut1(run_end::<BareChar>(i), m, p)
}

#[tactic(auto, unfolding(crate::specs::Attributes::skipped_brackets))]
fn skipped_brackets(m: &[u8], p: usize) -> Reached<()>
    requires { p ≤ length m.now }
    ensures steps { StepsExactlyAt rules.skipped_brackets (λ x. tt) m.now p result }
    ensures ahead { Ahead m.now p result }
{
    let (p, _) = tag(b"(", m, p)?;
    let (p, _) = within_brackets(m, p)?;
    let (p, _) = tag(b")", m, p)?;
    Ok((p, ()))
}

#[tactic(auto, unfolding(crate::specs::Attributes::skipped_nstring))]
fn skipped_nstring(m: &[u8], p: usize) -> Reached<()>
    requires { p ≤ length m.now }
    ensures steps { StepsExactlyAt rules.skipped_nstring (λ x. tt) m.now p result }
    ensures ahead { Ahead m.now p result }
{
    let (p, _) = nstring(m, p)?;
    Ok((p, ()))
}

// A value that is skipped, whatever it holds.
#[tactic(auto, unfolding(crate::specs::Attributes::skipped_value, crate::specs::Attributes::skipped_bare))]
fn skipped_value(m: &[u8], p: usize) -> Reached<()>
    requires { p ≤ length m.now }
    ensures steps { StepsExactlyAt rules.skipped_value (λ x. tt) m.now p result }
    ensures ahead { Ahead m.now p result }
{
    first!(skipped_brackets(m, p));
    first!(skipped_nstring(m, p));
    let (p, _) = bare(m, p)?;
    Ok((p, ()))
}

// Any other attribute: its name, and a value that is skipped. A call of its own: it is rare, and each reader that tells
// attributes apart would clear the room that it needs.
#[tactic(auto, unfolding(crate::specs::Attributes::msg_att_unknown))]
#[inline(never)]
pub(crate) fn msg_att_unknown<K: KeepAttribute>(input: &Input<K>, p: usize) -> Answer<K>
    requires { p ≤ length input.now }
    ensures { ReadsAttributeExactly K.text_said K.bytes_said rules.msg_att_unknown input.now p result }
{
    let (p, _) = atom(input.message, p)?;
    let (p, _) = tag(b" ", input.message, p)?;
    let (p, _) = skipped_value(input.message, p)?;
    Ok((p, AttributeParts::Unknown))
}
