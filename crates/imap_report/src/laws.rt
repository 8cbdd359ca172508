//! Laws of the types of this crate, as contracts of functions that do nothing.

ghost use Rattle.imap_grammar.specs.Equality.{Tells};
ghost use Rattle.imap_grammar.specs.Copying.{CopiesFreely};
ghost use Rattle.imap_report.specs.Report.{SomeReport, OneReport};

use crate::outcome::{Fault, Finish};
use crate::plain::Plain;
use crate::wording::OnDenied;

/// `==` tells whether two values are the same.
pub fn equality()
    ensures finish { Tells ⟦<Finish as PartialEq>⟧.eq (λ x. x) }
    ensures fault { Tells ⟦<Fault as PartialEq>⟧.eq (λ x. x) }
    ensures on_denied { Tells ⟦<OnDenied as PartialEq>⟧.eq (λ x. x) }
    ensures plain { Tells ⟦<Plain as PartialEq>⟧.eq (λ x. x) }
{}

/// A clone takes no memory, and is the same value.
pub fn cloning()
    ensures finish { CopiesFreely ⟦<Finish as Clone>⟧.is_infallible ⟦<Finish as Clone>⟧.is_clone }
    ensures fault { CopiesFreely ⟦<Fault as Clone>⟧.is_infallible ⟦<Fault as Clone>⟧.is_clone }
    ensures on_denied { CopiesFreely ⟦<OnDenied as Clone>⟧.is_infallible ⟦<OnDenied as Clone>⟧.is_clone }
    ensures plain { CopiesFreely ⟦<Plain as Clone>⟧.is_infallible ⟦<Plain as Clone>⟧.is_clone }
{}

/// In any words all bytes have a report, and one only.
#[tactic(auto, using(crate::proofs::Turns::some_report, crate::proofs::Turns::one_report))]
pub fn reports()
    ensures some { SomeReport }
    ensures one { OneReport }
{}
