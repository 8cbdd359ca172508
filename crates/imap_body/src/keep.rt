//! What is kept of an attribute: positions of a message, or what these name in it.

ghost use Rattle.std.specs.Prelude.{◌≡◌, ◌≤◌, ◌++◌, ◌∷◌, [], List, length, drop, map, IfOk, OnOk};
ghost use Rattle.imap_grammar.specs.Positions.{Ahead, named_in, StepsAt};
ghost use Rattle.imap_grammar.specs.Text.{text_of};
ghost use Rattle.imap_grammar.specs.declared.at.span.Span.{Span};
ghost use Rattle.imap_body_types.specs.declared.spans.SpannedText.{SpannedText};
ghost use Rattle.imap_body_types.specs.declared.spans.SpannedText.TheVariants.{Part};
ghost use Rattle.imap_body_types.specs.Spans.{RestsOn, bytes_of, text_in};
ghost use Rattle.imap_shared.specs.Flags as flags;
ghost use Rattle.imap_shared.specs.Gmail as gmail;
ghost use Rattle.imap_body.specs.AttributeValues.{attribute_value};
ghost use Rattle.imap_body.specs.declared.spanned_attribute.SpannedAttribute.{SpannedAttribute};
ghost use Rattle.imap_body.specs.SpannedAttributes.{attribute_said};

use crate::attributes::{AttributeKept, AttributeValue};
use crate::spanned_attribute::SpannedAttribute;
use imap_body_types::spans::{Span, SpannedText};
use imap_bytes::at::Reached;
use imap_envelopes::{Keep, Positions, Values};
use imap_shared::{at, readers};
use std::alloc::{AllocError, Global};
use std::borrow::{CowSlice, CowStr};

// What a reader of an attribute answers, where K keeps its strings.
pub(crate) type Answer<K> = Reached<AttributeKept<<K as Keep>::Text, <K as Keep>::Bytes>>;

// How many attributes a list of positions gets room for: positions are small.
const ROOM_FOR_POSITIONS: usize = 4;

/// What a list keeps of each attribute that is read.
pub(crate) trait KeepAttribute: Keep {
    /// What is kept of an attribute.
    type Attribute: Drop;

    /// These are kept of the attributes that were read.
    ghost keeps: { Self →
        List (SpannedAttribute Self.Text Self.Bytes) →
        List Self.Attribute →
        Type 0 };

    /// The keeper of what stands from p on in its message. No memory.
    fn behind(&self, m: &[u8], p: usize) -> Self
        requires start { p ≤ length m.now }
        requires serves { Self.serves self.now m.now }
        ensures { Self.serves result (drop p m.now) };

    /// What is kept of flags (RFC 3501, section 9: flag-list). It takes memory for the list.
    fn flags(&self, alloc: Global, m: &[u8], p: usize) -> Reached<Vec<Self::Text>>
        requires start { p ≤ length m.now }
        requires serves { Self.serves self.now m.now }
        ensures steps { StepsAt flags.flag_list (λ x. map (Self.text_said (named_in m.now)) x.items)
            m.now p result }
        ensures ahead { Ahead m.now p result }
        ensures rests { RestsOn (λ n x. map (Self.text_said n) x.items) result };

    /// What is kept of Gmail's labels, after their word (Gmail's X-GM-EXT-1). It takes memory for the list, and, where
    /// values are kept, for texts that are not UTF-8.
    fn labels(&self, alloc: Global, m: &[u8], p: usize) -> Reached<Vec<Self::Text>>
        requires start { p ≤ length m.now }
        requires serves { Self.serves self.now m.now }
        ensures steps { StepsAt gmail.gmail_label_list
            (λ x. map (Self.text_said (named_in m.now)) x.items) m.now p result }
        ensures ahead { Ahead m.now p result }
        ensures rests { RestsOn (λ n x. map (Self.text_said n) x.items) result };

    /// An empty list. It may take memory, for what is kept of a few; `Err`: memory ran out.
    fn start(&self, alloc: Global) -> Result<Vec<Self::Attribute>, AllocError>
        ensures { IfOk result (λ kept. keeps self.now [] kept.items) };

    /// Puts what is kept of the attribute after what is kept of the others. It may take memory; `Err`: memory ran out.
    fn add(
        &self,
        attribute: SpannedAttribute<Self::Text, Self::Bytes>,
        kept: &mut Vec<Self::Attribute>,
    ) -> Result<(), AllocError>
        ensures { (read : List (SpannedAttribute Self.Text Self.Bytes)) →
            keeps self.now read kept.old.items →
            OnOk result (keeps self.now (read ++ attribute ∷ []) kept.new.items) };
}

impl KeepAttribute for Positions {
    type Attribute = SpannedAttribute;

    ghost keeps = { λ k read kept. kept ≡ read };

    fn behind(&self, _m: &[u8], _p: usize) -> Positions {
        Positions
    }

    fn flags(&self, alloc: Global, m: &[u8], p: usize) -> Reached<Vec<SpannedText>>
        requires start { p ≤ length m.now }
        ensures steps { StepsAt flags.flag_list (λ x. map (text_in (named_in m.now)) x.items) m.now
            p result }
        ensures ahead { Ahead m.now p result }
        ensures rests { RestsOn (λ n x. map (text_in n) x.items) result }
    {
        let (q, spans) = at::flag_list(alloc, m, p)?;
        Ok((q, texts_of(alloc, &spans)?))
    }

    fn labels(&self, alloc: Global, m: &[u8], p: usize) -> Reached<Vec<SpannedText>>
        requires start { p ≤ length m.now }
        ensures steps { StepsAt gmail.gmail_label_list (λ x. map (text_in (named_in m.now)) x.items)
            m.now p result }
        ensures ahead { Ahead m.now p result }
        ensures rests { RestsOn (λ n x. map (text_in n) x.items) result }
    {
        let (q, spans) = at::gmail_label_list(alloc, m, p)?;
        Ok((q, texts_of(alloc, &spans)?))
    }

    fn start(&self, alloc: Global) -> Result<Vec<SpannedAttribute>, AllocError> {
        Vec::with_capacity(alloc, ROOM_FOR_POSITIONS)
    }

    fn add(
        &self,
        attribute: SpannedAttribute,
        kept: &mut Vec<SpannedAttribute>,
    ) -> Result<(), AllocError>
        ensures { (read : List (SpannedAttribute SpannedText Span)) →
            kept.old.items ≡ read →
            OnOk result (kept.new.items ≡ read ++ attribute ∷ []) }
    {
        kept.reserve(1)?;
        kept.push_reserved(attribute);
        Ok(())
    }
}

impl<'a> KeepAttribute for Values<'a> {
    type Attribute = AttributeValue<'a>;

    ghost keeps = { λ k read kept.
        map attribute_value kept
        ≡ map (attribute_said (λ n. text_of) (λ n. bytes_of) k.message.now) read };

    fn behind(&self, _m: &[u8], p: usize) -> Values<'a> {
        let (_, message) = self.message.split_at(p);
        Values {
            alloc: self.alloc,
            message,
        }
    }

    fn flags(&self, alloc: Global, m: &[u8], p: usize) -> Reached<Vec<CowStr<'a>>>
        requires start { p ≤ length m.now }
        requires serves { self.now.message.now ≡ m.now }
        ensures steps { StepsAt flags.flag_list (λ x. map text_of x.items) m.now p result }
        ensures ahead { Ahead m.now p result }
        ensures rests { RestsOn (λ n x. map text_of x.items) result }
    {
        let (_, i) = self.message.split_at(p);
        let (rest, flags) = readers::flag_list(alloc, i)?;
        Ok((self.message.len() - rest.len(), flags))
    }

    fn labels(&self, alloc: Global, m: &[u8], p: usize) -> Reached<Vec<CowStr<'a>>>
        requires start { p ≤ length m.now }
        requires serves { self.now.message.now ≡ m.now }
        ensures steps { StepsAt gmail.gmail_label_list (λ x. map text_of x.items) m.now p result }
        ensures ahead { Ahead m.now p result }
        ensures rests { RestsOn (λ n x. map text_of x.items) result }
    {
        let (_, i) = self.message.split_at(p);
        let (rest, labels) = readers::gmail_label_list(alloc, i)?;
        Ok((self.message.len() - rest.len(), labels))
    }

    fn start(&self, alloc: Global) -> Result<Vec<AttributeValue<'a>>, AllocError> {
        Ok(Vec::new(alloc))
    }

    #[inline(always)]
    fn add(
        &self,
        attribute: SpannedAttribute<CowStr<'a>, CowSlice<'a, u8>>,
        kept: &mut Vec<AttributeValue<'a>>,
    ) -> Result<(), AllocError>
        ensures { (read : List (SpannedAttribute _ _)) →
            map attribute_value kept.old.items
            ≡ map (attribute_said (λ n. text_of) (λ n. bytes_of) self.now.message.now) read →
            OnOk result
            (map attribute_value kept.new.items
            ≡ map (attribute_said (λ n. text_of) (λ n. bytes_of) self.now.message.now)
            (read ++ attribute.entry ∷ [])) }
    {
        attribute.push_parts(self.message, kept)
    }
}

// The texts that spans are.
fn texts_of(alloc: Global, spans: &Vec<Span>) -> Result<Vec<SpannedText>, AllocError>
    ensures { IfOk result (λ v. v.items ≡ map Part spans.now.items) }
{
    let mut texts = Vec::with_capacity(alloc, spans.len())?;
    for span in spans {
        texts.push(SpannedText::Part(*span))?;
    }
    Ok(texts)
}
