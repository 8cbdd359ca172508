//! Laws over the definitions of commands. Each is the contract of a function that does nothing.

ghost use Rattle.std.specs.Prelude.{◌≡◌, ◌↔◌, ℕ, List, All, None, IsTrue};
ghost use Rattle.imap_command.specs.Apart.{CallsToldApart};
ghost use Rattle.imap_command.specs.Arguments.{refusal};
ghost use Rattle.imap_command.specs.Ascii.{nul, line_feed, carriage_return};
ghost use Rattle.imap_command.specs.OneLine.{OneLine, RefusedAs, StaysInLine};
ghost use Rattle.imap_command.specs.OtherApart.{WordsToldApart};
ghost use Rattle.imap_command.specs.OtherLine.{LiteralEndsLine, OtherOneLine};

use crate::command::State;
use crate::errors::BuildError;
use crate::sections::{Partial, Section, SectionText};
use crate::words::{AttrMacro, Attribute};

/// Finished commands with equal bytes were built by equal calls, ranges compared by their printed
/// ends.
pub fn calls_told_apart()
    ensures { CallsToldApart }
{}

/// Where no argument is refused, what the calls tell has no carriage return, line feed or zero byte: so a finished
/// command is one line, and no argument brings in another (RFC 3501, section 9: command, quoted).
pub fn one_line()
    ensures { OneLine }
{}

/// A command that has no builder of its own, built by calls that the types allow, is one line too: its bytes have no
/// carriage return, line feed or zero byte. A `{` outside quoted strings, by which a server takes what follows for a
/// literal's length, stands at the end of the line alone, and only where the last call was `literal` (RFC 3501, section
/// 4.3).
pub fn other_lines()
    ensures one_line { OtherOneLine }
    ensures literal_ends_line { LiteralEndsLine }
{}

/// Commands that have no builder of their own and have equal bytes show equal words: which words stand between the
/// spaces, which are quoted strings and what these say, and which stand in a list.
pub fn other_words_told_apart()
    ensures { WordsToldApart }
{}

/// An argument without carriage return, line feed and zero byte is not refused. One that has such a byte is refused by
/// the name of the first.
pub fn refusals()
    ensures accepted { (argument : List ℕ) → All StaysInLine argument → refusal argument ≡ None }
    ensures carriage_return { RefusedAs carriage_return BuildError.CarriageReturn }
    ensures line_feed { RefusedAs line_feed BuildError.LineFeed }
    ensures nul { RefusedAs nul BuildError.Nul }
{}

/// `==` tells whether two values are the same.
pub fn equality()
    ensures build_error { (x y : BuildError) →
        IsTrue (⟦<BuildError as PartialEq>⟧.eq x y) ↔ (x ≡ y) }
    ensures state { (x y : State) → IsTrue (⟦<State as PartialEq>⟧.eq x y) ↔ (x ≡ y) }
    ensures attr_macro { (x y : AttrMacro) → IsTrue (⟦<AttrMacro as PartialEq>⟧.eq x y) ↔ (x ≡ y) }
    ensures attribute { (x y : Attribute) → IsTrue (⟦<Attribute as PartialEq>⟧.eq x y) ↔ (x ≡ y) }
{}

/// A clone takes no memory, and is the same value.
pub fn cloning()
    ensures state { (x copy : State) →
        ⟦<State as Clone>⟧.is_infallible x × (⟦<State as Clone>⟧.is_clone x copy → copy ≡ x) }
    ensures attr_macro { (x copy : AttrMacro) →
        ⟦<AttrMacro as Clone>⟧.is_infallible x
        × (⟦<AttrMacro as Clone>⟧.is_clone x copy → copy ≡ x) }
    ensures attribute { (x copy : Attribute) →
        ⟦<Attribute as Clone>⟧.is_infallible x
        × (⟦<Attribute as Clone>⟧.is_clone x copy → copy ≡ x) }
    ensures partial { (x copy : Partial) →
        ⟦<Partial as Clone>⟧.is_infallible x × (⟦<Partial as Clone>⟧.is_clone x copy → copy ≡ x) }
    ensures section_text { (x copy : SectionText) →
        ⟦<SectionText<'static> as Clone>⟧.is_infallible x
        × (⟦<SectionText<'static> as Clone>⟧.is_clone x copy → copy ≡ x) }
    ensures section { (x copy : Section) →
        ⟦<Section<'static> as Clone>⟧.is_infallible x
        × (⟦<Section<'static> as Clone>⟧.is_clone x copy → copy ≡ x) }
{}
