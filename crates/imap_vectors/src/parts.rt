//! Part search over trees that are read.

use crate::answers::assert_says;
use imap_body::readers::body_structure;
use imap_proto::bodystructure::BodyStructParser;
use imap_proto::imap_core::{Err, IResult};
use imap_proto::rfc3501::body_structure::BodyStructure;
use std::alloc::Global;
use std::test::*;

/// Which body is looked for.
#[derive(Clone, Copy)]
enum Sought {
    Any,
    Basic,
    Text,
    /// A single part of so many octets.
    Octets(u32),
    /// One of this subtype.
    Subtype(&'static str),
}

fn octets(body: &BodyStructure<'_>) -> Option<u32> {
    match body {
        BodyStructure::Basic { other, .. } => Some(other.octets),
        BodyStructure::Text { other, .. } => Some(other.octets),
        BodyStructure::Message { other, .. } => Some(other.octets),
        BodyStructure::Multipart { .. } => None,
    }
}

fn is_sought(body: &BodyStructure<'_>, sought: Sought) -> bool {
    match (sought, body) {
        (Sought::Any, _) => true,
        (Sought::Basic, BodyStructure::Basic { .. }) => true,
        (Sought::Text, BodyStructure::Text { .. }) => true,
        (Sought::Octets(n), body) => octets(body) == Some(n),
        (Sought::Subtype(name), body) => {
            *body.content_type().subtype == *name && *body.common().ty.subtype == *name
        }
        _ => false,
    }
}

// The path of the first body that is sought, if memory was left.
fn searched(alloc: Global, root: &BodyStructure<'_>, sought: Sought) -> Option<Option<Vec<u32>>> {
    match BodyStructParser::new(alloc, root) {
        Ok(parser) => parser.search(|body| is_sought(body, sought)).ok(),
        Err(_) => None,
    }
}

const LONE: &[u8] = b"(\"A\" \"B\" NIL NIL NIL NIL 1)";

const THREE: &[u8] =
    b"((\"A\" \"B\" NIL NIL NIL NIL 1)(\"A\" \"B\" NIL NIL NIL NIL 2)(\"A\" \"B\" NIL NIL NIL NIL 3) \"M\")";

// Two parts inside the first of two.
const NESTED: &[u8] =
    b"(((\"A\" \"B\" NIL NIL NIL NIL 1)(\"A\" \"B\" NIL NIL NIL NIL 2) \"M\")(\"TEXT\" \"B\" NIL NIL NIL NIL 3 1) \"M\")";

// Two parts inside the second of three.
const BETWEEN: &[u8] =
    b"((\"A\" \"B\" NIL NIL NIL NIL 1)((\"A\" \"B\" NIL NIL NIL NIL 2)(\"A\" \"B\" NIL NIL NIL NIL 3) \"M\")(\"A\" \"B\" NIL NIL NIL NIL 4) \"M\")";

// Three parts inside the second of two, which is in the first of one.
const DEEP: &[u8] =
    b"(((\"A\" \"B\" NIL NIL NIL NIL 1)((\"A\" \"B\" NIL NIL NIL NIL 2)(\"A\" \"B\" NIL NIL NIL NIL 3)(\"A\" \"B\" NIL NIL NIL NIL 4) \"M\") \"M\") \"M\")";

// A part two multiparts deep, and one beside these.
const BESIDE: &[u8] =
    b"((((\"A\" \"B\" NIL NIL NIL NIL 1) \"M\") \"M\")(\"A\" \"B\" NIL NIL NIL NIL 2) \"M\")";

const MIXED: &[u8] =
    b"((\"TEXT\" \"PLAIN\" NIL NIL NIL \"7BIT\" 5 1)(\"IMAGE\" \"PNG\" NIL NIL NIL \"BASE64\" 9) \"MIXED\")";

const MESSAGE: &[u8] =
    b"(\"MESSAGE\" \"RFC822\" NIL NIL NIL NIL 9 (NIL NIL NIL NIL NIL NIL NIL NIL NIL NIL) (\"TEXT\" \"B\" NIL NIL NIL NIL 3 1) 4)";

static SEARCHES: &[(&[u8], Sought, &str)] = &[
    (LONE, Sought::Basic, "Some([])"),
    (LONE, Sought::Text, "None"),
    (THREE, Sought::Octets(3), "Some([3])"),
    (THREE, Sought::Octets(4), "None"),
    (NESTED, Sought::Basic, "Some([1, 1])"),
    (NESTED, Sought::Octets(2), "Some([1, 2])"),
    (NESTED, Sought::Text, "Some([2])"),
    (NESTED, Sought::Any, "Some([])"),
    (BETWEEN, Sought::Octets(2), "Some([2, 1])"),
    (BETWEEN, Sought::Octets(4), "Some([3])"),
    (DEEP, Sought::Octets(1), "Some([1, 1])"),
    (DEEP, Sought::Octets(4), "Some([1, 2, 3])"),
    (BESIDE, Sought::Basic, "Some([1, 1, 1])"),
    (MIXED, Sought::Text, "Some([1])"),
    (MIXED, Sought::Basic, "Some([2])"),
    (MESSAGE, Sought::Text, "None"),
    (MESSAGE, Sought::Octets(9), "Some([])"),
    (MESSAGE, Sought::Subtype("RFC822"), "Some([])"),
    (MESSAGE, Sought::Subtype("B"), "None"),
    (MIXED, Sought::Subtype("PLAIN"), "Some([1])"),
    (MIXED, Sought::Subtype("PNG"), "Some([2])"),
    (MIXED, Sought::Subtype("MIXED"), "Some([])"),
];

// The path of the first body that is sought in the body at the front.
fn searched_in(alloc: Global, i: &[u8], sought: Sought) -> IResult<&[u8], Option<Vec<u32>>> {
    match body_structure(alloc, i) {
        Ok((rest, root)) => {
            let path = searched(alloc, &root, sought);
            drop(root);
            Ok((rest, path.ok_or(Err::Failure)?))
        }
        Err(error) => Err(error),
    }
}

#[test]
fn parts(rt: HostRuntime) {
    let alloc = rt.alloc();
    for (input, sought, want) in SEARCHES {
        assert_says(&rt, alloc, searched_in(alloc, input, *sought), want);
    }
}
