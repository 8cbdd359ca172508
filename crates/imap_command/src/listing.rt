//! Words and quoted strings behind a space, and lists of them.

ghost use Rattle.std.specs.Prelude.{◌≡◌, ◌++◌, OnOk, map};
ghost use Rattle.imap_command.specs.Arguments.{quoted};
ghost use Rattle.imap_command.specs.OtherWords.{behind_space, bracketed, spaced};

use crate::arguments::push_quoted;
use std::alloc::AllocError;

pub(crate) fn push_word(out: &mut Vec<u8>, word: &str) -> Result<(), AllocError>
    ensures { OnOk result (out.new.items ≡ out.old.items ++ behind_space word.now) }
{
    out.push(b' ')?;
    out.extend_from_slice(word.as_bytes())
}

pub(crate) fn push_string(out: &mut Vec<u8>, string: &str) -> Result<(), AllocError>
    ensures { OnOk result (out.new.items ≡ out.old.items ++ behind_space (quoted string.now)) }
{
    out.push(b' ')?;
    push_quoted(out, string)
}

// A list of words in brackets.
pub(crate) fn push_word_list(out: &mut Vec<u8>, words: &[&str]) -> Result<(), AllocError>
    ensures { OnOk result (out.new.items
        ≡ out.old.items ++ bracketed (map (λ word. word.now) words.now)) }
{
    out.push(b'(')?;
    push_words(out, words)?;
    out.push(b')')?;
    Ok(())
}

// A list of quoted strings in brackets.
pub(crate) fn push_string_list(out: &mut Vec<u8>, strings: &[&str]) -> Result<(), AllocError>
    ensures { OnOk result (out.new.items
        ≡ out.old.items ++ bracketed (map quoted (map (λ text. text.now) strings.now))) }
{
    out.push(b'(')?;
    push_strings(out, strings)?;
    out.push(b')')?;
    Ok(())
}

fn push_words(out: &mut Vec<u8>, words: &[&str]) -> Result<(), AllocError>
    ensures { OnOk result (out.new.items
        ≡ out.old.items ++ spaced (map (λ word. word.now) words.now)) }
{
    if let [first, others @ ..] = words {
        out.extend_from_slice(first.as_bytes())?;
        for word in others {
            push_word(out, word)?;
        }
    }
    Ok(())
}

fn push_strings(out: &mut Vec<u8>, strings: &[&str]) -> Result<(), AllocError>
    ensures { OnOk result (out.new.items
        ≡ out.old.items ++ spaced (map quoted (map (λ text. text.now) strings.now))) }
{
    if let [first, others @ ..] = strings {
        push_quoted(out, first)?;
        for string in others {
            push_string(out, string)?;
        }
    }
    Ok(())
}
