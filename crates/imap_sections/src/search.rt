//! Part search: the path of the first body at which a predicate holds.

ghost use Rattle.std.specs.Prelude.{◌≡◌, ◌++◌, ◌∷◌, ℕ, List, [], true, false, Some, Err, map, slice_get, IfOk, OnOk};
ghost use Rattle.std.specs.Prelude.{IfErr};
ghost use Rattle.std.specs.Option.{option_map};
ghost use Rattle.std.specs.Fn.{FnReturnsAt};
ghost use Rattle.imap_grammar.specs.Text.{text_of};
ghost use Rattle.imap_body_types.specs.Spans.{bytes_of};
ghost use Rattle.imap_body_types.specs.BodyValues.{body_seen};
ghost use Rattle.imap_sections.specs.Search.{visited, too_many, is_crowded, part_seen, parts_of, FindsFirst};
ghost use Rattle.imap_sections.specs.declared.search.PartsError.TheVariants.{TooManyParts, OutOfMemory};

use imap_body_types::BodyStructure;
use std::alloc::{AllocError, AllocFailed, Global};
use thiserror::Error;

/// Why the bodies inside a body can't be held.
#[derive(Clone, Copy, Debug, PartialEq, Eq, Error)]
pub enum PartsError {
    /// Memory ran out.
    #[error("out of memory")]
    OutOfMemory,
    /// A multipart has more than 4,294,967,295 bodies.
    #[error("too many parts")]
    TooManyParts,
}

impl From<AllocError> for PartsError {
    ghost from_gives = { λ e r. r ≡ OutOfMemory };

    fn from(_: AllocError) -> PartsError {
        PartsError::OutOfMemory
    }
}

impl<T: Drop> From<AllocFailed<T>> for PartsError {
    ghost from_gives = { λ e r. r ≡ OutOfMemory };

    fn from(_: AllocFailed<T>) -> PartsError {
        PartsError::OutOfMemory
    }
}

/// A body and its path.
#[derive(Drop)]
struct Part<'b, 'a> {
    path: Vec<u32>,
    body: &'b BodyStructure<'a>,
}

// Puts a body at its path behind the parts.
fn hold<'b, 'a>(
    body: &'b BodyStructure<'a>,
    path: &Vec<u32>,
    parts: &mut Vec<Part<'b, 'a>>,
) -> Result<(), AllocError>
    ensures { OnOk result
        (map part_seen parts.new.items
        ≡ map part_seen parts.old.items
        ++ ((path.now.items, body_seen text_of bytes_of body.now) ∷ [])) }
{
    parts.reserve(1)?;
    let path = path.clone()?;
    parts.push_reserved(Part { path, body });
    Ok(())
}

// Puts a body at its path, and the bodies inside it, behind the parts.
fn visit<'b, 'a>(
    body: &'b BodyStructure<'a>,
    path: &mut Vec<u32>,
    parts: &mut Vec<Part<'b, 'a>>,
) -> Result<(), PartsError>
    ensures parts { OnOk result
        (map part_seen parts.new.items
        ≡ map part_seen parts.old.items
        ++ visited path.old.items (body_seen text_of bytes_of body.now)) }
    ensures path { OnOk result (path.new.items ≡ path.old.items) }
    ensures few { OnOk result (too_many (body_seen text_of bytes_of body.now) ≡ false) }
    ensures many { IfErr result (λ e.
        e ≡ TooManyParts → too_many (body_seen text_of bytes_of body.now) ≡ true) }
    ensures crowded { is_crowded (body_seen text_of bytes_of body.now) ≡ true →
        result ≡ Err TooManyParts }
{
    let BodyStructure::Multipart { bodies, .. } = body else {
        hold(body, path, parts)?;
        return Ok(());
    };
    if bodies.len() > u32::MAX as usize {
        return Err(PartsError::TooManyParts);
    }
    hold(body, path, parts)?;
    let mut number = 0u32;
    for inner in bodies {
        number += 1;
        path.push(number)?;
        visit(inner, path, parts)?;
        path.pop();
    }
    Ok(())
}

/// A body and the bodies inside it, each with its path: the numbers of the parts on the way to it, from 1 (RFC 3501,
/// section 6.4.5).
#[derive(Drop)]
pub struct BodyStructParser<'b, 'a> {
    parts: Vec<Part<'b, 'a>>,
}

impl<'b, 'a> BodyStructParser<'b, 'a> {
    /// Root and the bodies inside it, parent before child and left to right.
    ///
    /// The body inside a message is none of them: search it by a parser of its own, and put the message's section in
    /// front of the path that is found there. Where it is no multipart, its own section is the message's and `.1` (RFC
    /// 3501, section 6.4.5).
    ///
    /// It takes memory for the list of bodies, and for their paths. `TooManyParts`: a multipart has more than
    /// 4,294,967,295 bodies, which is judged before it is held, and so before any memory is taken where root is that
    /// multipart. `OutOfMemory`: memory ran out, before such a multipart was reached if there is one.
    pub fn new(
        alloc: Global,
        root: &'b BodyStructure<'a>,
    ) -> Result<BodyStructParser<'b, 'a>, PartsError>
        ensures holds { IfOk result (λ p.
            map part_seen (parts_of p) ≡ visited [] (body_seen text_of bytes_of root.now)) }
        ensures few { IfOk result (λ p. too_many (body_seen text_of bytes_of root.now) ≡ false) }
        ensures many { IfErr result (λ e.
            e ≡ TooManyParts → too_many (body_seen text_of bytes_of root.now) ≡ true) }
        ensures crowded { is_crowded (body_seen text_of bytes_of root.now) ≡ true →
            result ≡ Err TooManyParts }
    {
        let mut parts = Vec::new(alloc);
        let mut path = Vec::new(alloc);
        visit(root, &mut path, &mut parts)?;
        Ok(BodyStructParser { parts })
    }

    /// The path of the first body at which f holds, and `None` where it holds at none. It takes memory for that path
    /// alone; `Err`: memory ran out.
    ///
    /// Joined by dots, a path is the section of its part. The empty path is root's: where root is no multipart, its
    /// section is `1` (RFC 3501, section 6.4.5).
    ///
    /// f must be callable on each body that is held, and should answer the same each time.
    pub fn search<F: Fn(&BodyStructure<'a>) -> bool>(
        &self,
        f: F,
    ) -> Result<Option<Vec<u32>>, AllocError>
        requires { (i : ℕ) (part : _) →
            slice_get (parts_of self.now) i ≡ Some part →
            F.pre f part.body }
        ensures first { IfOk result (λ found.
            FindsFirst (λ p. FnReturnsAt F.Fn f p.body.now) (λ p. p.path.items) (parts_of self.now)
            (option_map (λ v. v.items) found)) }
        ensures memory { IfErr result (λ e. (found : List ℕ)
            × FindsFirst (λ p. FnReturnsAt F.Fn f p.body.now) (λ p. p.path.items)
            (parts_of self.now) (Some found)) }
    {
        let Some(part) = self.first(f) else {
            return Ok(None);
        };
        let path = part.path.clone()?;
        Ok(Some(path))
    }

    // The first part at whose body f holds.
    fn first<F: Fn(&BodyStructure<'a>) -> bool>(&self, f: F) -> Option<&Part<'b, 'a>>
        requires { (i : ℕ) (part : _) →
            slice_get (parts_of self.now) i ≡ Some part →
            F.pre f part.body }
        ensures { FindsFirst (λ p. FnReturnsAt F.Fn f p.body.now) (λ p. p.path.items)
            (parts_of self.now) (option_map (λ p. p.now.path.items) result) }
    {
        for part in &self.parts {
            if f(part.body) {
                return Some(part);
            }
        }
        None
    }
}
