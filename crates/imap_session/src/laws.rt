//! Laws of sessions, as contracts of functions that do nothing.

ghost use Rattle.imap_grammar.specs.Equality.{Tells};
ghost use Rattle.imap_session.specs.Answers.{event_value, lent_event};
ghost use Rattle.imap_session.specs.Runs.{AllIsPassed, NoneIsLost, OutcomeFollows, StateFollows, CuttingsAlike};

use crate::errors::{SendError, SessionError};
use crate::event::Event;
use imap_proto::laws;

/// After any steps of a new session, the responses that were taken and the lines that were skipped, and then the bytes
/// that it holds, are all bytes that it was fed. Where no line was skipped, the responses that were taken, and then
/// those that stand in the held bytes, are those that stand in all bytes that it was fed, with the same rest and the
/// same end: none is skipped, and none is lost. Where only denied lines were skipped, the same holds of the responses
/// and lines of the outcome that a stream has which is read on behind denied lines (`imap_proto::laws::skipping`). Its
/// state is the one that the accepted commands and the taken responses give, in their order. So where the same bytes
/// are cut otherwise, and the same commands are accepted between the same responses and skipped lines, these and the
/// state are the same.
#[tactic(auto, using(crate::proofs::Runs::laws))]
pub fn runs()
    ensures all_is_passed { AllIsPassed }
    ensures none_is_lost { NoneIsLost }
    ensures outcome_follows { OutcomeFollows }
    ensures state_follows { StateFollows }
    ensures cuttings_alike { CuttingsAlike }
{}

/// `==` tells whether two values say the same: texts by their bytes, whichever are borrowed.
pub fn equality()
    ensures event { Tells ⟦<Event as PartialEq>⟧.eq (λ e. lent_event (event_value e)) }
    ensures send_error { Tells ⟦<SendError as PartialEq>⟧.eq (λ e. e) }
    ensures session_error { Tells ⟦<SessionError as PartialEq>⟧.eq (λ e. e) }
{
    laws::equality();
}
