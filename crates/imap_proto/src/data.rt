//! What a data line says. Each reader of a datum ends its line, so that a response is made in one place.
//!
//! The readers of lines are never inlined: one function that had them all in it would clear, at each response, the room
//! on its stack for the values of all of them.

ghost use Rattle.std.specs.Prelude.{◌≡◌, ◌⊎◌, Err as Refused};
ghost use Rattle.imap_grammar.specs.Answer.{Steps, StepsExactly};
ghost use Rattle.imap_grammar.specs.Memory.{BeginsWord, NeverFails, FailsOnlyIf, SucceedsFor};
ghost use Rattle.imap_grammar.specs.Rule.{◌⨾◌};
ghost use Rattle.imap_grammar.specs.Tags.{crlf};
ghost use Rattle.imap_extensions.specs.Acls.{AclMayWant};
ghost use Rattle.imap_data.specs.MailboxData.{NamesMayWant, MailboxMayWant};
ghost use Rattle.imap_proto.specs.Memory.{StatusMayWant, TakesNone};
ghost use Rattle.imap_proto.specs.Responses.{response_value};
ghost use Rattle.imap_proto.specs.Lines as rule;

use crate::fetched::{Space, fetched};
use crate::outcomes::spaced_outcome;
use crate::response::Response;
use imap_bytes::at::span::rest;
use imap_bytes::tags::{cut0, tag, word};
use imap_bytes::{Err, IResult};
use imap_data::MailboxDatum;
use imap_data::readers::{
    acl, capability_data, enabled_data, id, list_or_lsub, list_rights, mailbox_datum,
    metadata_solicited, metadata_unsolicited, my_rights, quota, quota_root, status, vanished,
};
use imap_grammar::scanning::run_end;
use std::alloc::Global;

#[tactic(auto, unfolding(crate::specs::Lines::spaces))]
fn spaces(i: &[u8]) -> IResult<&[u8], &[u8]>
    ensures steps { StepsExactly rule.spaces (λ x. x.now) i.now result }
    ensures no_failure { NeverFails result }
{
    cut0(run_end::<Space>(i), i)
}

// Spaces, and the end of the line.
fn line_end(i: &[u8]) -> IResult<&[u8], (&[u8], &[u8])>
    ensures steps { StepsExactly (rule.spaces ⨾ crlf) (λ x. (x.0.now, x.1.now)) i.now result }
    ensures no_failure { NeverFails result }
{
    let (rest, before) = spaces(i)?;
    let (rest, end) = tag(b"\r\n", rest)?;
    Ok((rest, (before, end)))
}

// Where the reader answers, ends its line and answers the response that is made of what it found; goes on where it
// denies.
macro_rules! whole_line {
    ($answer:expr, $found:ident => $response:expr) => {
        match $answer {
            Ok((rest, $found)) => match line_end(rest) {
                Ok((rest, _)) => return Ok((rest, $response)),
                Err(e) => {
                    drop($found); // By a call, for the reason that `or_drop!` gives.
                    return Err(e);
                }
            },
            Err(Err::Error) => {}
            Err(e) => return Err(e),
        }
    };
}

#[tactic(auto, unfolding(crate::specs::Lines::status_line, crate::specs::Lines::status_data))]
#[inline(never)]
pub(crate) fn status_line(alloc: Global, i: &[u8]) -> IResult<&[u8], Response<'_>>
    ensures steps { Steps rule.status_line response_value i.now result }
    ensures failure { FailsOnlyIf (StatusMayWant i.now) result }
    ensures memory { SucceedsFor TakesNone rule.status_line i.now result }
{
    let (rest, status) = status(i)?;
    whole_line!(spaced_outcome(alloc, rest), outcome => Response::Data { status, outcome });
    Err(Err::Error)
}

/// `EXISTS`, `RECENT` and `EXPUNGE`, whose number stood in front. No memory.
///
/// They are apart from `FETCH`, so that they clear no room on the stack for its attributes.
#[tactic(auto, unfolding(crate::specs::Lines::count_line))]
#[inline(never)]
pub(crate) fn count_line<'a>(n: u32, i: &'a [u8]) -> IResult<&'a [u8], Response<'a>>
    ensures { StepsExactly (rule.count_line n) response_value i.now result }
{
    whole_line!(word(b" EXISTS", i), found => Response::MailboxData(MailboxDatum::Exists(n)));
    whole_line!(word(b" RECENT", i), found => Response::MailboxData(MailboxDatum::Recent(n)));
    whole_line!(word(b" EXPUNGE", i), found => Response::Expunge(n));
    Err(Err::Error)
}

/// `FETCH`, whose number stood in front.
#[tactic(auto, using(crate::proofs::Ended::ended_later), unfolding(crate::specs::Lines::fetched_line))]
#[inline(never)]
pub(crate) fn fetched_line<'a>(
    alloc: Global,
    n: u32,
    i: &'a [u8],
) -> IResult<&'a [u8], Response<'a>>
    ensures steps { Steps (rule.fetched_line n) response_value i.now result }
    ensures failure { FailsOnlyIf (BeginsWord " FETCH " i.now) result }
{
    let (q, attributes) = fetched(alloc, i, 0)?;
    Ok((rest(i, q), Response::Fetch(n, attributes)))
}

#[tactic(auto, unfolding(crate::specs::Lines::mailbox_line))]
#[inline(never)]
pub(crate) fn mailbox_line(alloc: Global, i: &[u8]) -> IResult<&[u8], Response<'_>>
    ensures steps { Steps rule.mailbox_line response_value i.now result }
    ensures failure { FailsOnlyIf (MailboxMayWant i.now) result }
    ensures memory { SucceedsFor TakesNone rule.mailbox_line i.now result }
{
    whole_line!(mailbox_datum(alloc, i), found => Response::MailboxData(found));
    Err(Err::Error)
}

#[tactic(auto, unfolding(crate::specs::Lines::list_line))]
#[inline(never)]
pub(crate) fn list_line(alloc: Global, i: &[u8]) -> IResult<&[u8], Response<'_>>
    ensures steps { Steps rule.list_line response_value i.now result }
    ensures failure { FailsOnlyIf (NamesMayWant i.now ⊎ BeginsWord "LISTRIGHTS" i.now) result }
    ensures memory { SucceedsFor TakesNone rule.list_line i.now result }
{
    whole_line!(list_or_lsub(alloc, i), found => Response::MailboxData(found));
    whole_line!(list_rights(alloc, i), found => Response::ListRights(found));
    Err(Err::Error)
}

#[tactic(auto, unfolding(crate::specs::Lines::capability_line))]
#[inline(never)]
pub(crate) fn capability_line(alloc: Global, i: &[u8]) -> IResult<&[u8], Response<'_>>
    ensures steps { Steps rule.capability_line response_value i.now result }
    ensures failure { FailsOnlyIf (BeginsWord "CAPABILITY" i.now) result }
{
    whole_line!(capability_data(alloc, i), found => Response::Capabilities(found));
    Err(Err::Error)
}

#[tactic(auto, unfolding(crate::specs::Lines::enabled_line))]
#[inline(never)]
pub(crate) fn enabled_line(alloc: Global, i: &[u8]) -> IResult<&[u8], Response<'_>>
    ensures steps { Steps rule.enabled_line response_value i.now result }
    ensures failure { FailsOnlyIf (BeginsWord "ENABLED" i.now) result }
{
    whole_line!(enabled_data(alloc, i), found => Response::Capabilities(found));
    Err(Err::Error)
}

#[tactic(auto, unfolding(crate::specs::Lines::annotation_line))]
#[inline(never)]
pub(crate) fn annotation_line(alloc: Global, i: &[u8]) -> IResult<&[u8], Response<'_>>
    ensures steps { Steps rule.annotation_line response_value i.now result }
    ensures failure { FailsOnlyIf (BeginsWord "METADATA " i.now ⊎ BeginsWord "MYRIGHTS" i.now)
        result }
{
    whole_line!(metadata_solicited(alloc, i), found => Response::MailboxData(found));
    whole_line!(metadata_unsolicited(alloc, i), found => Response::MailboxData(found));
    whole_line!(my_rights(alloc, i), found => Response::MyRights(found));
    Err(Err::Error)
}

#[tactic(auto, unfolding(crate::specs::Lines::vanished_line, crate::specs::Lines::vanished_data))]
#[inline(never)]
pub(crate) fn vanished_line(alloc: Global, i: &[u8]) -> IResult<&[u8], Response<'_>>
    ensures steps { Steps rule.vanished_line response_value i.now result }
    ensures failure { FailsOnlyIf (BeginsWord "VANISHED" i.now) result }
{
    whole_line!(vanished(alloc, i), found => Response::Vanished { earlier: found.0, uids: found.1 });
    Err(Err::Error)
}

#[tactic(auto, unfolding(crate::specs::Lines::quota_line))]
#[inline(never)]
pub(crate) fn quota_line(alloc: Global, i: &[u8]) -> IResult<&[u8], Response<'_>>
    ensures steps { Steps rule.quota_line response_value i.now result }
    ensures failure { FailsOnlyIf (BeginsWord "QUOTA" i.now ⊎ BeginsWord "QUOTAROOT" i.now) result }
{
    whole_line!(quota(alloc, i), found => Response::Quota(found));
    whole_line!(quota_root(alloc, i), found => Response::QuotaRoot(found));
    Err(Err::Error)
}

#[tactic(auto, unfolding(crate::specs::Lines::id_line))]
#[inline(never)]
pub(crate) fn id_line(alloc: Global, i: &[u8]) -> IResult<&[u8], Response<'_>>
    ensures steps { Steps rule.id_line response_value i.now result }
    ensures failure { FailsOnlyIf (BeginsWord "ID" i.now) result }
    ensures memory { SucceedsFor TakesNone rule.id_line i.now result }
{
    whole_line!(id(alloc, i), found => Response::Id(found));
    Err(Err::Error)
}

#[tactic(auto, unfolding(crate::specs::Lines::acl_line))]
#[inline(never)]
pub(crate) fn acl_line(alloc: Global, i: &[u8]) -> IResult<&[u8], Response<'_>>
    ensures steps { Steps rule.acl_line response_value i.now result }
    ensures failure { FailsOnlyIf (AclMayWant i.now) result }
{
    whole_line!(acl(alloc, i), found => Response::Acl(found));
    Err(Err::Error)
}

// An answer without a response. It is a call, so that an answer of a line is copied once.
#[cold]
#[inline(never)]
pub(crate) fn no_response<'a>(e: Err) -> IResult<&'a [u8], Response<'a>>
    ensures { result ≡ Refused e }
{
    Err(e)
}
