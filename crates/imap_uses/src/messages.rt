//! What a FETCH tells of a message.

ghost use Rattle.std.specs.Prelude.{◌≡◌, IfOk, IfErr, map};
ghost use Rattle.imap_grammar.specs.Answer.{Refuses};
ghost use Rattle.imap_grammar.specs.Rule.{meaning};
ghost use Rattle.imap_proto.specs.Lines as rule;
ghost use Rattle.imap_body.specs.AttributeValues.{attribute_value};
ghost use Rattle.imap_proto.specs.Responses.{response_value};
ghost use Rattle.imap_uses.specs.Messages.{uid_told, first_uid, told_uid, BeginsTelling};

use imap_proto::{AttributeValue, Err, Response};
use std::alloc::Global;

// The UID that an attribute is.
fn uid(attribute: &AttributeValue<'_>) -> Option<u32>
    ensures { result ≡ uid_told (attribute_value attribute.now) }
{
    match attribute {
        AttributeValue::Uid(uid) => Some(*uid),
        _ => None,
    }
}

// The first UID among attributes of a message.
fn uid_among(attributes: &[AttributeValue<'_>]) -> Option<u32>
    ensures { result ≡ first_uid (map attribute_value attributes.now) }
{
    for attribute in attributes {
        if let Some(uid) = uid(attribute) {
            return Some(uid);
        }
    }
    None
}

/// The UID that a response tells of a message (RFC 3501, section 2.3.1.1): the first in a FETCH; none in any other
/// response. No memory.
pub fn uid_of(response: &Response<'_>) -> Option<u32>
    ensures { result ≡ told_uid (response_value response.now) }
{
    match response {
        Response::Fetch(_, attributes) => uid_among(attributes),
        _ => None,
    }
}

/// The UID that the line at the front tells. `Error`, `Incomplete` and `Failure` as `Response::parse`.
pub fn uid_in_line(alloc: Global, bytes: &[u8]) -> Result<Option<u32>, Err>
    ensures told { IfOk result (λ uid. BeginsTelling bytes.now uid) }
    ensures refused { IfErr result (Refuses (meaning rule.response) bytes.now) }
{
    let (_, response) = Response::parse(alloc, bytes)?;
    let uid = uid_of(&response);
    drop(response);
    Ok(uid)
}
