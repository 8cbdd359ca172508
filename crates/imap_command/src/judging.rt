//! The judgement of names, words and lists. None takes memory.

ghost use Rattle.std.specs.Prelude.{◌≡◌, map};
ghost use Rattle.imap_command.specs.Arguments.{judgement, refusal};
ghost use Rattle.imap_command.specs.OtherWords.{first_refusal, name_refusal, word_refusal};
ghost use Rattle.imap_command.specs.OtherWords as words;

use crate::BuildError;
use crate::arguments::judge;

// Refuses a name that isn't made of words of letters, digits, `-` and `.` with a space between two.
pub(crate) fn judge_name(name: &str) -> Result<(), BuildError>
    ensures { result ≡ judgement (name_refusal name.now) }
{
    if is_name(name.as_bytes()) {
        Ok(())
    } else {
        Err(BuildError::BadName)
    }
}

// Refuses a word that is empty or has a byte that would end it, or the line.
pub(crate) fn judge_word(word: &str) -> Result<(), BuildError>
    ensures { result ≡ judgement (word_refusal word.now) }
{
    if is_word(word.as_bytes()) {
        Ok(())
    } else {
        Err(BuildError::BadWord)
    }
}

pub(crate) fn judge_words(words: &[&str]) -> Result<(), BuildError>
    ensures { result ≡ judgement (first_refusal word_refusal (map (λ word. word.now) words.now)) }
{
    for word in words {
        if !is_word(word.as_bytes()) {
            return Err(BuildError::BadWord);
        }
    }
    Ok(())
}

pub(crate) fn judge_strings(strings: &[&str]) -> Result<(), BuildError>
    ensures { result ≡ judgement (first_refusal refusal (map (λ text. text.now) strings.now)) }
{
    for string in strings {
        if let Err(refusal) = judge(string) {
            return Err(refusal);
        }
    }
    Ok(())
}

fn is_word_byte(byte: u8) -> bool
    ensures { result ≡ words.is_word_byte byte }
{
    byte > 32 && byte < 127 && !matches!(byte, b'"' | b'(' | b')' | b'{')
}

fn is_word(word: &[u8]) -> bool
    ensures { result ≡ words.is_word word.now }
{
    for byte in word {
        if !is_word_byte(*byte) {
            return false;
        }
    }
    !word.is_empty()
}

fn is_name_byte(byte: u8) -> bool
    ensures { result ≡ words.is_name_byte byte }
{
    byte.is_ascii_alphanumeric() || byte == b'-' || byte == b'.'
}

fn is_name(name: &[u8]) -> bool
    ensures { result ≡ words.is_name name.now }
{
    let mut is_begun = false;
    for byte in name {
        if *byte == b' ' {
            if !is_begun {
                return false;
            }
            is_begun = false;
        } else if is_name_byte(*byte) {
            is_begun = true;
        } else {
            return false;
        }
    }
    is_begun
}
