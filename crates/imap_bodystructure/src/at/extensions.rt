//! Extension data of bodies at a position.

ghost use Rattle.std.specs.Prelude.{◌≡◌, ◌≤◌, ◌<◌, length, map, IfOk};
ghost use Rattle.imap_grammar.specs.Text.{Text};
ghost use Rattle.std.specs.Option.{option_map};
ghost use Rattle.imap_grammar.specs.Memory.{FailsOnlyIf};
ghost use Rattle.imap_bytes.specs.Texts as texts;
ghost use Rattle.imap_envelopes.specs.Envelopes.{spaced};
ghost use Rattle.imap_envelopes.specs.Reading.{Reads, ReadsExactly};
ghost use Rattle.imap_bodystructure.specs.Fields as fields;
ghost use Rattle.imap_bodystructure.specs.Extensions as extensions;
ghost use Rattle.imap_bodystructure.specs.Extensions.{maybe_spaced, shared_fields_seen};
ghost use Rattle.imap_envelopes.specs.Spanned.{maybe_text_in};
ghost use Rattle.imap_body_types.specs.FieldValues.{params_seen};
ghost use Rattle.imap_body_types.specs.ExtensionValues.{disposition_seen, languages_seen, extension_seen};
ghost use Rattle.imap_body_types.specs.ExtensionValues.{ext_1part_seen, ext_mpart_seen};

use crate::at::fields::body_fld_param;
use crate::limits::MAX_EXTENSION_DEPTH;
use imap_body_types::or_drop;
use imap_body_types::shapes::extensions::{
    BodyExt1Part, BodyExtMPart, BodyExtension, ContentDisposition,
};
use imap_body_types::shapes::fields::BodyParams;
use imap_body_types::spans::SpannedText;
use imap_bytes::at::Reached;
use imap_bytes::at::numbers::number;
use imap_bytes::at::strings::nil;
use imap_bytes::at::tags::{blanks0, tag};
use imap_bytes::lists::tried;
use imap_bytes::{Err, Needed, first, maybe};
use imap_envelopes::at::lists::list_of_one;
use imap_envelopes::at::texts::{
    nstring_text, spaced_nstring_text, spaced_string_text, string_text,
};
use imap_envelopes::kept::kept_text;
use imap_envelopes::{Input, Keep};
use std::alloc::{AllocError, Global};

// What extension data of single parts and of multiparts ends with, as it is kept.
#[derive(Drop)]
struct SharedFields<S> {
    disposition: Option<ContentDisposition<S>>,
    language: Option<Vec<S>>,
    location: Option<S>,
    extension: Option<BodyExtension<S>>,
}

fn spaced_params<K: Keep>(input: &Input<K>, p: usize) -> Reached<BodyParams<K::Text>>
    requires { p ≤ length input.now }
    ensures { Reads (spaced fields.body_fld_param)
        (λ n. params_seen (K.text_said n)) input.now p result }
{
    let (p, _) = tag(b" ", input.message, p)?;
    body_fld_param(input, p)
}

// `NIL`, or a disposition in parentheses (RFC 3501, section 9: body-fld-dsp).
#[tactic(auto, unfolding(crate::specs::Extensions::body_fld_dsp))]
fn body_fld_dsp<K: Keep>(input: &Input<K>, p: usize) -> Reached<Option<ContentDisposition<K::Text>>>
    requires { p ≤ length input.now }
    ensures { Reads extensions.body_fld_dsp
        (λ n. option_map (disposition_seen (K.text_said n))) input.now p result }
{
    first!(nil(input.message, p), _ => None);
    let (q, _) = tag(b"(", input.message, p)?;
    let (q, ty) = string_text(input.message, q)?;
    let (q, params) = spaced_params(input, q)?;
    let (q, _) = tag(b")", input.message, q)?;
    let ty = input.text(ty)?;
    Ok((q, Some(ContentDisposition { ty, params })))
}

#[tactic(auto, unfolding(crate::specs::Extensions::some_languages))]
fn some_languages<K: Keep>(input: &Input<K>, p: usize) -> Reached<Vec<K::Text>>
    requires { p ≤ length input.now }
    ensures { Reads extensions.some_languages
        (λ n x. map (K.text_said n) x.items) input.now p result }
{
    let (mut q, first) = string_text(input.message, p)?;
    let first = input.text(first)?;
    let mut items = list_of_one(input.alloc, first)?;
    'languages: while let Some((after, language)) = tried(spaced_string_text(input.message, q))? {
        items.push(input.text(language)?)?;
        q = after;
    }
    Ok((q, items))
}

#[tactic(auto, unfolding(crate::specs::Extensions::language_list))]
fn language_list<K: Keep>(input: &Input<K>, p: usize) -> Reached<Option<Vec<K::Text>>>
    requires { p ≤ length input.now }
    ensures { Reads extensions.language_list
        (λ n. languages_seen (K.text_said n)) input.now p result }
{
    let (p, _) = tag(b"(", input.message, p)?;
    let (p, languages) = some_languages(input, p)?;
    let (p, _) = blanks0(input.message, p)?;
    let (p, _) = tag(b")", input.message, p)?;
    Ok((p, Some(languages)))
}

// A language as a list of one; `None` stays `None`.
fn one_language<S: Drop>(alloc: Global, language: Option<S>) -> Result<Option<Vec<S>>, AllocError>
    ensures { IfOk result (λ x.
        (f : S → Text) → languages_seen f x ≡ extensions.one_language (option_map f language)) }
{
    match language {
        None => Ok(None),
        Some(language) => Ok(Some(list_of_one(alloc, language)?)),
    }
}

// `NIL`, a language, or languages in parentheses (RFC 3501, section 9: body-fld-lang).
#[tactic(auto, unfolding(crate::specs::Extensions::body_fld_lang))]
fn body_fld_lang<K: Keep>(input: &Input<K>, p: usize) -> Reached<Option<Vec<K::Text>>>
    requires { p ≤ length input.now }
    ensures { Reads extensions.body_fld_lang
        (λ n. languages_seen (K.text_said n)) input.now p result }
{
    first!(nstring_text(input.message, p), language => one_language(input.alloc, kept_text(input, language)?)?);
    language_list(input, p)
}

#[tactic(auto, using(crate::proofs::Seeing::numbers), unfolding(crate::specs::Extensions::number_extension))]
fn number_extension<K: Keep>(m: &[u8], p: usize) -> Reached<BodyExtension<K::Text>>
    requires { p ≤ length m.now }
    ensures { ReadsExactly extensions.number_extension
        (λ n. extension_seen (K.text_said n)) m.now p result }
{
    let (p, n) = number(m, p)?;
    Ok((p, BodyExtension::Num(n)))
}

#[tactic(auto, using(crate::proofs::Seeing::string_seen), unfolding(crate::specs::Extensions::string_extension))]
fn string_extension<K: Keep>(input: &Input<K>, p: usize) -> Reached<BodyExtension<K::Text>>
    requires { p ≤ length input.now }
    ensures { Reads extensions.string_extension
        (λ n. extension_seen (K.text_said n)) input.now p result }
{
    let (p, text) = nstring_text(input.message, p)?;
    Ok((p, BodyExtension::Str(kept_text(input, text)?)))
}

/// Extension data, with up to `level` lists inside one another (RFC 3501, section 9: body-extension). At level 0 a
/// list is `Error`.
///
/// It takes memory for lists, and, where values are kept of its strings, for texts that are not UTF-8.
#[cycle(extension)]
pub fn extension<K: Keep>(input: &Input<K>, level: u32, p: usize) -> Reached<BodyExtension<K::Text>>
    requires { p ≤ length input.now }
    ensures { Reads (extensions.extension level)
        (λ n. extension_seen (K.text_said n)) input.now p result }
{
    match input.byte_at(p) {
        None => Err(Err::Incomplete(Needed::Unknown)),
        Some(b'"' | b'{' | b'n' | b'N') => string_extension(input, p),
        Some(b'(') => extension_list(input, level, p),
        Some(b) if b.is_ascii_digit() => number_extension::<K>(input.message, p),
        Some(_) => Err(Err::Error),
    }
}

// A list in parentheses. At level 0 it denies without looking.
#[cycle(extension)]
fn extension_list<K: Keep>(
    input: &Input<K>,
    level: u32,
    p: usize,
) -> Reached<BodyExtension<K::Text>>
    requires { p ≤ length input.now }
    ensures reads { Reads (extensions.extension_list level)
        (λ n. extension_seen (K.text_said n)) input.now p result }
    ensures memory { FailsOnlyIf (0 < level) result }
{
    if level == 0 {
        return Err(Err::Error);
    }
    bracketed_extensions(input, level - 1, p)
}

#[cycle(extension)]
#[tactic(auto, using(crate::proofs::Seeing::lists), unfolding(crate::specs::Extensions::bracketed_extensions))]
fn bracketed_extensions<K: Keep>(
    input: &Input<K>,
    level: u32,
    p: usize,
) -> Reached<BodyExtension<K::Text>>
    requires { p ≤ length input.now }
    ensures { Reads (extensions.bracketed_extensions (extensions.extension_list level))
        (λ n. extension_seen (K.text_said n)) input.now p result }
{
    let (p, _) = tag(b"(", input.message, p)?;
    let (p, members) = some_extensions(input, level, p)?;
    let (p, _) = blanks0(input.message, p)?;
    let (p, _) = tag(b")", input.message, p)?;
    Ok((p, BodyExtension::List(members)))
}

#[cycle(extension)]
#[tactic(auto, unfolding(crate::specs::Extensions::some_extensions))]
fn some_extensions<K: Keep>(
    input: &Input<K>,
    level: u32,
    p: usize,
) -> Reached<Vec<BodyExtension<K::Text>>>
    requires { p ≤ length input.now }
    ensures { Reads (extensions.some_extensions (extensions.extension_list level))
        (λ n x. map (extension_seen (K.text_said n)) x.items) input.now p result }
{
    let (mut q, first) = extension(input, level, p)?;
    let mut items = list_of_one(input.alloc, first)?;
    'extensions: while let Some((after, extension)) = tried(spaced_extension(input, level, q))? {
        items.push(extension)?;
        q = after;
    }
    Ok((q, items))
}

#[cycle(extension)]
#[inline(always)]
fn spaced_extension<K: Keep>(
    input: &Input<K>,
    level: u32,
    p: usize,
) -> Reached<BodyExtension<K::Text>>
    requires { p ≤ length input.now }
    ensures { Reads (spaced (extensions.extension level))
        (λ n. extension_seen (K.text_said n)) input.now p result }
{
    let (p, _) = tag(b" ", input.message, p)?;
    extension(input, level, p)
}

/// Extension data, up to `MAX_EXTENSION_DEPTH` lists inside one another (RFC 3501, section 9: body-extension). A
/// deeper list is `Error`. It takes memory as `extension` does.
#[tactic(auto, unfolding(crate::specs::Extensions::body_extension))]
pub fn body_extension<K: Keep>(input: &Input<K>, p: usize) -> Reached<BodyExtension<K::Text>>
    requires { p ≤ length input.now }
    ensures { Reads extensions.body_extension
        (λ n. extension_seen (K.text_said n)) input.now p result }
{
    extension(input, MAX_EXTENSION_DEPTH, p)
}

// The readers below read a field behind a space. One that its rule denies counts as missing, with its space, and
// nothing is read.

#[inline(always)]
fn maybe_nstring_text(m: &[u8], p: usize) -> Reached<Option<SpannedText>>
    requires { p ≤ length m.now }
    ensures { ReadsExactly (maybe_spaced texts.nstring_utf8) maybe_text_in m.now p result }
{
    first!(spaced_nstring_text(m, p));
    Ok((p, None))
}

fn maybe_params<K: Keep>(input: &Input<K>, p: usize) -> Reached<BodyParams<K::Text>>
    requires { p ≤ length input.now }
    ensures { Reads (maybe_spaced fields.body_fld_param)
        (λ n. params_seen (K.text_said n)) input.now p result }
{
    first!(spaced_params(input, p));
    Ok((p, None))
}

fn spaced_disposition<K: Keep>(
    input: &Input<K>,
    p: usize,
) -> Reached<Option<ContentDisposition<K::Text>>>
    requires { p ≤ length input.now }
    ensures { Reads (spaced extensions.body_fld_dsp)
        (λ n. option_map (disposition_seen (K.text_said n))) input.now p result }
{
    let (p, _) = tag(b" ", input.message, p)?;
    body_fld_dsp(input, p)
}

#[inline(always)]
fn maybe_disposition<K: Keep>(
    input: &Input<K>,
    p: usize,
) -> Reached<Option<ContentDisposition<K::Text>>>
    requires { p ≤ length input.now }
    ensures { Reads (maybe_spaced extensions.body_fld_dsp)
        (λ n. option_map (disposition_seen (K.text_said n))) input.now p result }
{
    first!(spaced_disposition(input, p));
    Ok((p, None))
}

fn spaced_languages<K: Keep>(input: &Input<K>, p: usize) -> Reached<Option<Vec<K::Text>>>
    requires { p ≤ length input.now }
    ensures { Reads (spaced extensions.body_fld_lang)
        (λ n. languages_seen (K.text_said n)) input.now p result }
{
    let (p, _) = tag(b" ", input.message, p)?;
    body_fld_lang(input, p)
}

#[inline(always)]
fn maybe_languages<K: Keep>(input: &Input<K>, p: usize) -> Reached<Option<Vec<K::Text>>>
    requires { p ≤ length input.now }
    ensures { Reads (maybe_spaced extensions.body_fld_lang)
        (λ n. languages_seen (K.text_said n)) input.now p result }
{
    first!(spaced_languages(input, p));
    Ok((p, None))
}

#[tactic(auto, unfolding(crate::specs::Extensions::last_extension, crate::specs::Extensions::body_extension))]
#[inline(always)]
fn last_extension<K: Keep>(input: &Input<K>, p: usize) -> Reached<Option<BodyExtension<K::Text>>>
    requires { p ≤ length input.now }
    ensures { Reads extensions.last_extension
        (λ n. option_map (extension_seen (K.text_said n))) input.now p result }
{
    maybe!(spaced_extension(input, MAX_EXTENSION_DEPTH, p), p)
}

// The fields that extension data of single parts and of multiparts ends with. A reader of their own, since one of all
// fields takes longer to prove.
#[tactic(auto, unfolding(crate::specs::Extensions::shared_fields_seen))]
#[inline(always)]
fn shared_fields<K: Keep>(input: &Input<K>, p: usize) -> Reached<SharedFields<K::Text>>
    requires { p ≤ length input.now }
    ensures { Reads extensions.shared_fields
        (λ n. shared_fields_seen (K.text_said n)) input.now p result }
{
    let (p, disposition) = maybe_disposition(input, p)?;
    let (p, language) = or_drop!(maybe_languages(input, p), disposition);
    let (p, location) = or_drop!(maybe_nstring_text(input.message, p), language, disposition);
    let location = kept_text(input, location)?;
    let (p, extension) = or_drop!(last_extension(input, p), location, language, disposition);
    Ok((
        p,
        SharedFields {
            disposition,
            language,
            location,
            extension,
        },
    ))
}

/// Extension data of a single part (RFC 3501, section 9: body-ext-1part).
///
/// A field that its rule denies counts as missing, with its space: nothing is read for it, and the next field is tried
/// in its place. It takes memory for lists, and, where values are kept of its strings, for texts that are not UTF-8.
#[tactic(auto, unfolding(crate::proofs::Seeing::ext_1part))]
pub fn body_ext_1part<K: Keep>(input: &Input<K>, p: usize) -> Reached<BodyExt1Part<K::Text>>
    requires { p ≤ length input.now }
    ensures { Reads extensions.body_ext_1part
        (λ n. ext_1part_seen (K.text_said n)) input.now p result }
{
    let (p, md5) = maybe_nstring_text(input.message, p)?;
    let md5 = kept_text(input, md5)?;
    let (p, shared) = shared_fields(input, p)?;
    Ok((
        p,
        BodyExt1Part {
            md5,
            disposition: shared.disposition,
            language: shared.language,
            location: shared.location,
            extension: shared.extension,
        },
    ))
}

/// Extension data of a multipart (RFC 3501, section 9: body-ext-mpart).
///
/// A field that its rule denies counts as missing, with its space: nothing is read for it, and the next field is tried
/// in its place. It takes memory for lists, and, where values are kept of its strings, for texts that are not UTF-8.
#[tactic(auto, unfolding(crate::proofs::Seeing::ext_mpart))]
pub fn body_ext_mpart<K: Keep>(input: &Input<K>, p: usize) -> Reached<BodyExtMPart<K::Text>>
    requires { p ≤ length input.now }
    ensures { Reads extensions.body_ext_mpart
        (λ n. ext_mpart_seen (K.text_said n)) input.now p result }
{
    let (p, param) = maybe_params(input, p)?;
    let (p, shared) = shared_fields(input, p)?;
    Ok((
        p,
        BodyExtMPart {
            param,
            disposition: shared.disposition,
            language: shared.language,
            location: shared.location,
            extension: shared.extension,
        },
    ))
}
