//! Laws of the whole grammar, as contracts of functions that do nothing.

ghost use Rattle.std.specs.Prelude.{◌≡◌, Some, codes, string_bytes};
ghost use Rattle.imap_grammar.specs.Text.{as_text};
ghost use Rattle.imap_data.specs.Codes as code;
ghost use Rattle.imap_proto.specs.OutcomeTexts.{spells_parts};
ghost use Rattle.imap_grammar.specs.Stable.{Stable};
ghost use Rattle.imap_grammar.specs.Equality.{Tells};
ghost use Rattle.imap_grammar.specs.Copying.{CopiesFreely};
ghost use Rattle.imap_proto.specs.Outcomes as outcomes;
ghost use Rattle.imap_proto.specs.Lines as rule;
ghost use Rattle.imap_proto.specs.LogicalLines.{logical_line, NoLineIsDenied, LinesEnd};
ghost use Rattle.imap_proto.specs.Skipping.{item, SomePast, OnePast, PastGoesOn, PastBeginsSo, FedIsPassed, FeedsPast};
ghost use Rattle.imap_proto.specs.Skipping.{PastCuttingsAlike};
ghost use Rattle.imap_proto.specs.Streams.{SomeSplit, OneSplit, BeginningsWait, SplitsGoOn, FeedsSplit, CuttingsAlike};
ghost use Rattle.imap_proto.specs.Feeds.{OneWhole, lent_whole};
ghost use Rattle.imap_grammar.specs.ReadBack.{Spells};
ghost use Rattle.imap_proto.specs.Owned.{owned_outcome, owned_response};
ghost use Rattle.imap_proto.specs.CountLines.{CountIsRead, exists_of, recent_of};
ghost use Rattle.imap_proto.specs.Quoting.{QuotedIsRead, QuotedIsUnescaped};
ghost use Rattle.imap_proto.specs.LineTexts.{spells_response, BracketIsSaid, LiteralIsTooLong, CanonicalReadsBack};
ghost use Rattle.imap_proto.specs.LineTexts.{Same, SaidAlike, SameReadsBack};
ghost use Rattle.imap_proto.specs.Responses.{OutcomeValue, ResponseValue, Expunge, outcome_value, response_value};
ghost use Rattle.imap_proto.specs.Responses.{lent_outcome, lent_response};

use crate::outcome::Outcome;
use crate::response::{RequestId, Response};
use crate::stream::{End, FeedError, Whole};
use imap_body::laws;
pub use imap_command::laws::{calls_told_apart, one_line, refusals};

/// Each rule has one answer. Bytes that are appended change neither a value nor a denial; and where n bytes are
/// lacking, k appended ones (k < n) leave n - k lacking.
#[tactic(auto, using(imap_grammar::proofs::Stability::is_stable))]
pub fn stable()
    ensures outcome { Stable outcomes.outcome }
    ensures spaced_outcome { Stable outcomes.spaced_outcome }
    ensures continuation { Stable rule.continuation }
    ensures status_data { Stable rule.status_data }
    ensures expunge { Stable rule.expunge }
    ensures fetched { Stable rule.fetched }
    ensures fetch { Stable rule.fetch }
    ensures vanished_data { Stable rule.vanished_data }
    ensures datum { Stable rule.datum }
    ensures request_tag { Stable rule.request_tag }
    ensures data_line { Stable rule.data_line }
    ensures tagged { Stable rule.tagged }
    ensures response { Stable rule.response }
    ensures logical_line { Stable logical_line }
    ensures item { Stable item }
{}

/// Logical lines (RFC 3501, sections 2.2 and 4.3): no bytes are denied, and each line ends in CRLF.
#[tactic(auto, using(crate::proofs::LogicalLines::no_line_is_denied, crate::proofs::LogicalLines::lines_end))]
pub fn logical_lines()
    ensures no_line_is_denied { NoLineIsDenied }
    ensures lines_end { LinesEnd }
{}

/// A stream of responses has one split, however its bytes are cut into pieces; and what a response consumed waits
/// until its last byte is there.
#[tactic(auto, using(crate::proofs::Grounds::streams))]
pub fn streams()
    ensures some_split { SomeSplit }
    ensures one_split { OneSplit }
    ensures beginnings_wait { BeginningsWait }
    ensures splits_go_on { SplitsGoOn }
    ensures feeds_split { FeedsSplit }
    ensures cuttings_alike { CuttingsAlike }
    ensures one_whole { OneWhole }
{}

/// A stream that is read on behind the lines which are denied has one outcome, its responses and its skipped lines in
/// their order, however its bytes are cut into pieces. Where nothing is denied it is the split.
#[tactic(auto, using(crate::proofs::Grounds::skipping))]
pub fn skipping()
    ensures some_past { SomePast }
    ensures one_past { OnePast }
    ensures past_goes_on { PastGoesOn }
    ensures past_begins_so { PastBeginsSo }
    ensures fed_is_passed { FedIsPassed }
    ensures feeds_past { FeedsPast }
    ensures past_cuttings_alike { PastCuttingsAlike }
{}

/// What the grammar takes spells the response. On the canonical text of a response that it yields, the grammar yields
/// that response again, with all texts borrowed, and what follows the text is left whole, whatever it is. Two kinds are
/// excepted: `has_bracket`, a status or a continuation without a code whose information begins with `[`, and
/// `has_too_long_text`, with a text too long to be written as a literal. A response with its texts borrowed is the same
/// response. Responses that say the same have one canonical text, and are of these kinds alike: so the canonical text
/// of an owned response, as a feed gives it, reads back as it.
#[tactic(auto, using(crate::proofs::Grounds::texts))]
pub fn read_back()
    ensures spells { Spells rule.response spells_response }
    ensures canonical { CanonicalReadsBack }
    ensures same { (r : ResponseValue) → Same (lent_response r) r }
    ensures alike { SaidAlike }
    ensures marks { SameReadsBack }
{}

/// What `read_back` excepts is no more than it says: a status or a continuation without a code whose information begins
/// with `[`, and a response with a literal of 2^32 bytes or more in its canonical text.
#[tactic(auto, using(crate::proofs::Exceptions::bracket_is_said, crate::proofs::Exceptions::literal_is_too_long))]
pub fn exceptions()
    ensures bracket { BracketIsSaid }
    ensures too_long { LiteralIsTooLong }
{}

/// A line of `EXISTS`, `RECENT` or `EXPUNGE` is read from its text, with spaces before its end or without, whatever
/// follows.
#[tactic(auto, using(crate::proofs::Grounds::count_lines))]
pub fn count_lines()
    ensures exists { CountIsRead " EXISTS" exists_of }
    ensures recent { CountIsRead " RECENT" recent_of }
    ensures expunge { CountIsRead " EXPUNGE" (λ n. Expunge n) }
{}

/// What a command quotes, the grammar of responses reads as one quoted string (RFC 3501, section 9: quoted), whose
/// content without its escapes is the argument.
#[tactic(auto, using(crate::proofs::Quoting::quoted_is_read, crate::proofs::Quoting::quoted_is_unescaped))]
pub fn quoting()
    ensures read { QuotedIsRead }
    ensures unescaped { QuotedIsUnescaped }
{}

/// An owned response says the same as the response that it was made from.
#[tactic(auto, using(crate::proofs::Marks::owned_is_same))]
pub fn owning()
    ensures { (r : ResponseValue) → Same (owned_response r) r }
{}

/// Responses that say the same have one owned response: to borrow the texts of a value before they are owned changes
/// nothing.
#[tactic(auto, using(crate::proofs::Marks::owned_lent_outcome, crate::proofs::Marks::owned_lent_response))]
pub fn lending()
    ensures outcome { (o : OutcomeValue) → owned_outcome (lent_outcome o) ≡ owned_outcome o }
    ensures response { (r : ResponseValue) → owned_response (lent_response r) ≡ owned_response r }
{}

/// `==` tells whether two values say the same: texts by their bytes, whichever are borrowed.
pub fn equality()
    ensures request_id { Tells ⟦<RequestId as PartialEq>⟧.eq (λ tag. string_bytes tag.0) }
    ensures outcome { Tells ⟦<Outcome<'static> as PartialEq>⟧.eq (λ o.
        lent_outcome (outcome_value o)) }
    ensures response { Tells ⟦<Response<'static> as PartialEq>⟧.eq (λ r.
        lent_response (response_value r)) }
    ensures end { Tells ⟦<End as PartialEq>⟧.eq (λ e. e) }
    ensures feed_error { Tells ⟦<FeedError as PartialEq>⟧.eq (λ e. e) }
    ensures whole { Tells ⟦<Whole as PartialEq>⟧.eq lent_whole }
{
    laws::equality();
}

/// A clone takes no memory, and is the same value.
pub fn cloning()
    ensures end { CopiesFreely ⟦<End as Clone>⟧.is_infallible ⟦<End as Clone>⟧.is_clone }
    ensures feed_error { CopiesFreely ⟦<FeedError as Clone>⟧.is_infallible
        ⟦<FeedError as Clone>⟧.is_clone }
{}

/// The default of an outcome has neither a code nor a text.
pub fn defaults()
    ensures outcome { (o : Outcome) →
        ⟦<Outcome<'static> as Default>⟧.is_default o → outcome_value o ≡ outcomes.no_outcome }
{}

/// Texts that don't spell the outcome of a status: two characters between the code and the information, and another
/// code. So no definition of spelling is wider than these allow.
pub fn no_spelling()
    ensures two_characters { ¬ (spells_parts (Some code.Alert) (Some (as_text (codes "x")))
        (codes "[ALERT]  x")) }
    ensures another_code { ¬ (spells_parts (Some code.Alert) (Some (as_text (codes "x")))
        (codes "[PARSE] x")) }
{}
