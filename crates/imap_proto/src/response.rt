//! Responses.

ghost use Rattle.std.specs.Prelude.{◌≡◌, [], map, option_map, string_bytes, IfOk, IsOk};
ghost use Rattle.imap_grammar.specs.Answer.{Answers, Steps};
ghost use Rattle.imap_grammar.specs.Memory.{FailsOnlyIf, SucceedsFor};
ghost use Rattle.imap_extensions.specs.Ids.{id_value, IsNil};
ghost use Rattle.imap_extensions.specs.Owned.{owned_id as owned_map};
ghost use Rattle.imap_body.specs.AttributeValues.{attribute_value};
ghost use Rattle.imap_body.specs.Changed.{owned_attribute};
ghost use Rattle.imap_proto.specs.Responses.{response_value, EndsLine};
ghost use Rattle.imap_proto.specs.Owned.{owned_response, IsMovedWhole};
ghost use Rattle.imap_proto.specs.LineTexts.{Spelled};
ghost use Rattle.imap_proto.specs.Memory.{MayWantMemory, TakesNone};
ghost use Rattle.imap_proto.specs.Lines as rule;

use crate::lines;
use crate::outcome::Outcome;
use imap_body::AttributeValue;
use imap_body_types::or_drop;
use imap_bytes::IResult;
use imap_data::{Acl, Capability, ListRights, MailboxDatum, MyRights, Quota, QuotaRoot, Status};
use imap_extensions::{IdMap, owned_id_map};
use imap_shared::owned::owned_capabilities;
use std::alloc::{AllocError, Global};
use std::borrow::CowStr;
use std::collections::HashMap;
use std::ops::RangeInclusive;

/// The tag of the command that a line answers (RFC 3501, section 2.2.1).
#[derive(Debug, Drop, PartialEq, Eq)]
pub struct RequestId(pub String);

impl RequestId {
    /// The bytes of the tag. No memory.
    pub fn as_bytes(&self) -> &[u8]
        ensures { result.now ≡ string_bytes self.now.0 }
    {
        self.0.as_bytes()
    }

    /// The same tag. It takes memory unless the tag is empty; `Err`: memory ran out.
    pub fn clone(&self) -> Result<Self, AllocError>
        ensures same { IfOk result (λ copy. string_bytes copy.0 ≡ string_bytes self.now.0) }
        ensures memory { string_bytes self.now.0 ≡ [] → IsOk result }
    {
        if self.0.is_empty() {
            return Ok(RequestId(String::new(*self.0.allocator())));
        }
        Ok(RequestId(self.0.clone()?))
    }
}

/// A response of a server (RFC 3501, section 7).
#[derive(Debug, Drop, PartialEq, Eq)]
pub enum Response<'a> {
    /// `CAPABILITY` (RFC 3501, section 7.2.1), with `Imap4rev1` among them, and `ENABLED` (RFC 5161, section 3.2),
    /// each an `Atom`.
    Capabilities(Vec<Capability<'a>>),
    /// `+`: the server waits for the rest of a command (RFC 3501, section 7.5).
    Continue(Outcome<'a>),
    /// A tagged line: a command is done (RFC 3501, section 7.1).
    Done {
        /// The command's tag.
        tag: RequestId,
        /// How it went.
        status: Status,
        /// The code and the text.
        outcome: Outcome<'a>,
    },
    /// An untagged status line (RFC 3501, section 7.1), as the greeting is.
    Data {
        /// How it went.
        status: Status,
        /// The code and the text.
        outcome: Outcome<'a>,
    },
    /// `EXPUNGE`: the number of the message that is gone (RFC 3501, section 7.4.1).
    Expunge(u32),
    /// `VANISHED` (RFC 7162, section 3.2.10).
    Vanished {
        /// Whether `(EARLIER)` stands there: the messages were gone before.
        earlier: bool,
        /// The unique identifiers as ranges, their ends as written: one identifier n is `n..=n`, and `4:2` is
        /// `4..=2`, over which a loop runs no time.
        uids: Vec<RangeInclusive<u32>>,
    },
    /// `FETCH`: the number of a message and its attributes (RFC 3501, section 7.4.2).
    Fetch(u32, Vec<AttributeValue<'a>>),
    /// Data of a mailbox (RFC 3501, sections 7.2 and 7.3; RFC 5256, section 4; RFC 5464, section 4.4; Gmail's items).
    MailboxData(MailboxDatum<'a>),
    /// `QUOTA` (RFC 2087, section 5.1).
    Quota(Quota<'a>),
    /// `QUOTAROOT` (RFC 2087, section 5.2).
    QuotaRoot(QuotaRoot<'a>),
    /// `ID` (RFC 2971, section 3.2). `None` is `NIL`.
    Id(Option<HashMap<CowStr<'a>, CowStr<'a>>>),
    /// `ACL` (RFC 4314, section 3.6).
    Acl(Acl<'a>),
    /// `LISTRIGHTS` (RFC 4314, section 3.7).
    ListRights(ListRights<'a>),
    /// `MYRIGHTS` (RFC 4314, section 3.8).
    MyRights(MyRights<'a>),
}

/// What `Response::parse` answers.
pub type ParseResult<'a> = IResult<&'a [u8], Response<'a>>;

fn owned_attributes(
    alloc: Global,
    attributes: Vec<AttributeValue<'_>>,
) -> Result<Vec<AttributeValue<'static>>, AllocError>
    ensures { IfOk result (λ v.
        map attribute_value v.items
        ≡ map owned_attribute (map attribute_value attributes.entry.items)) }
{
    let owned = imap_body::owned_attributes(alloc, &attributes);
    drop(attributes); // By a call, for the reason that `or_drop!` gives.
    owned
}

fn owned_id(alloc: Global, id: Option<IdMap<'_>>) -> Result<Option<IdMap<'static>>, AllocError>
    ensures same { IfOk result (λ m.
        option_map id_value m ≡ option_map owned_map (option_map id_value id.entry)) }
    ensures memory { IsNil (option_map id_value id.entry) → IsOk result }
{
    Ok(match id {
        None => None,
        Some(map) => Some(owned_id_map(alloc, map)?),
    })
}

impl<'a> Response<'a> {
    /// The same response with all texts owned, so that the bytes which it was read from need not be kept.
    ///
    /// It takes memory for lists, for the map of an ID and for borrowed texts, in a `Fetch` also for texts that are
    /// owned already; lists without texts are moved. So it takes none for numbers, for `VANISHED`, for `ID NIL`, nor
    /// for a status whose code has no list of texts and whose information is owned or missing. `Err`: memory ran out.
    pub fn into_owned(self, alloc: Global) -> Result<Response<'static>, AllocError>
        ensures same { IfOk result (λ r.
            response_value r ≡ owned_response (response_value self.entry)) }
        ensures memory { IsMovedWhole (response_value self.entry) → IsOk result }
    {
        Ok(match self {
            Response::Capabilities(capabilities) => {
                Response::Capabilities(or_drop!(owned_capabilities(alloc, capabilities)))
            }
            Response::Continue(outcome) => Response::Continue(or_drop!(outcome.into_owned(alloc))),
            Response::Done {
                tag,
                status,
                outcome,
            } => Response::Done {
                outcome: or_drop!(outcome.into_owned(alloc), tag),
                tag,
                status,
            },
            Response::Data { status, outcome } => Response::Data {
                status,
                outcome: or_drop!(outcome.into_owned(alloc)),
            },
            Response::Expunge(number) => Response::Expunge(number),
            Response::Vanished { earlier, uids } => Response::Vanished { earlier, uids },
            Response::Fetch(number, attributes) => {
                Response::Fetch(number, or_drop!(owned_attributes(alloc, attributes)))
            }
            Response::MailboxData(datum) => Response::MailboxData(or_drop!(datum.into_owned(
                alloc
            ))),
            Response::Quota(quota) => Response::Quota(or_drop!(quota.into_owned(alloc))),
            Response::QuotaRoot(root) => Response::QuotaRoot(or_drop!(root.into_owned(alloc))),
            Response::Id(id) => Response::Id(or_drop!(owned_id(alloc, id))),
            Response::Acl(acl) => Response::Acl(or_drop!(acl.into_owned(alloc))),
            Response::ListRights(rights) => Response::ListRights(or_drop!(rights.into_owned(
                alloc
            ))),
            Response::MyRights(rights) => Response::MyRights(or_drop!(rights.into_owned(alloc))),
        })
    }

    /// The response at the front of the message, and the bytes behind it (RFC 3501, section 9: response).
    ///
    /// `Error`: no bytes behind these make a response. `Incomplete`: more bytes are needed. `Failure`: memory ran out,
    /// and nothing else. The message is only read.
    ///
    /// Texts borrow from the message exactly where their bytes are UTF-8. Two kinds are excepted: those of type
    /// `String`, which are always owned (the tag of a tagged line, the entry and the value of a `Metadata`), and the
    /// keys of an ID map: of two equal ones either may be kept.
    ///
    /// It takes memory for lists, envelopes and body structures, for the map of an ID, for the tag of a tagged line,
    /// for the entry and the value of a `Metadata`, and for texts that are not UTF-8. So `Failure` is answered only for
    /// the tag of a tagged line that is there whole; in an outcome, where the word of a code that may hold a list
    /// stands or the text is not UTF-8; behind `* ` and a number and ` FETCH `, or one of some words; and behind FLAGS,
    /// LIST, LSUB, STATUS, SEARCH, SORT and ACL only where a first item of their list or a text that is not UTF-8
    /// stands. It is not answered where the response is one number (`EXPUNGE`, `EXISTS`, `RECENT`, Gmail's), `ID NIL`,
    /// or an untagged status or a continuation with no list in its code and a borrowed text. One kind is excepted: a
    /// text without a code that begins as a code with a list does, as `[CAPABILITY`, since it is tried as that code
    /// first.
    #[inline(always)]
    pub fn parse(alloc: Global, msg: &'a [u8]) -> ParseResult<'a>
        ensures steps { Steps rule.response response_value msg.now result }
        ensures answer { Answers rule.response response_value msg.now result }
        ensures spells { IfOk result (λ x. Spelled msg.now x.0.now (response_value x.1)) }
        ensures line { IfOk result (λ x. EndsLine msg.now x.0.now) }
        ensures failure { FailsOnlyIf (MayWantMemory msg.now) result }
        ensures memory { SucceedsFor TakesNone rule.response msg.now result }
    {
        lines::response(alloc, msg)
    }
}
