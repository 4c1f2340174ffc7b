ghost use Rattle.std.specs.Prelude.{◌≡◌, ◌≤◌, ◌==◌, ◌||◌, not, IfOk, length, map};
ghost use Rattle.std.specs.Char.{is_ascii_whitespace};
ghost use Rattle.std.specs.List.{filter, list_any, prefix_len};
ghost use Rattle.std.specs.Str.{chars};
ghost use Rattle.odata_queries.specs.Disguise.{bare, has_filter_word, is_back, is_silent, seen, shows_filter, words_of};
ghost use Rattle.odata_queries.specs.Query.{is_filter_name, name_of};

use super::query::{has_byte, name_and_value};
use super::query_name::is_filter_in_bytes;
use std::alloc::{AllocError, Global};
use std::str;

/// Whether some reader passes over the character.
fn is_silent(character: char) -> bool
    ensures { result ≡ is_silent character }
{
    character == '\0' || character == '\u{FEFF}'
}

/// Whether some reader takes the character off at the end of a name.
fn is_back(character: char) -> bool
    ensures { result ≡ is_back character }
{
    !is_silent(character)
        && (character.is_whitespace()
            || character.is_control()
            || character == '+'
            || character == ']')
}

/// The character as a byte: 0 for a silent one, a space for what some readers take off at the end of a name.
fn seen(character: char) -> u8
    ensures { result ≡ seen character }
{
    if is_silent(character) {
        0
    } else if is_back(character) {
        b' '
    } else if character.is_ascii() {
        character as u8
    } else {
        128
    }
}

/// The characters of a text, each as a byte.
fn seen_bytes(alloc: Global, text: &str) -> Result<Vec<u8>, AllocError>
    ensures { IfOk result (λ bytes. bytes.items ≡ map seen (chars text.now)) }
{
    text.chars().map(|character| seen(character)).collect(alloc)
}

/// The characters of a text that are not silent, each as a byte.
fn audible_bytes(alloc: Global, text: &str) -> Result<Vec<u8>, AllocError>
    ensures { IfOk result (λ bytes. bytes.items ≡ map seen (filter (λ c. not (is_silent c)) (chars text.now))) }
{
    text.chars()
        .filter(|character| !is_silent(*character))
        .map(|character| seen(character))
        .collect(alloc)
}

/// How many spaces and `[` stand in front.
fn front_length(name: &[u8]) -> usize
    ensures value { result ≡ prefix_len (λ b. is_ascii_whitespace b || b == 91) name.now }
    ensures within { result ≤ length name.now }
{
    name.iter()
        .take_while(|byte| byte.is_ascii_whitespace() || **byte == b'[')
        .count()
}

/// A name without the spaces at both ends, and without `[` in front.
fn bare(name: &[u8]) -> &[u8]
    ensures { result.now ≡ bare name.now }
{
    name[front_length(name)..].trim_ascii_end()
}

/// Whether what stands before the first `=` of a word is the filter's name, but for what is taken off at its ends.
fn is_filter_word(word: &[u8]) -> bool
    ensures { result ≡ is_filter_name (bare (name_of word.now)) }
{
    is_filter_in_bytes(bare(name_and_value(word).0))
}

/// Whether one of the words has the filter's name.
fn has_filter_word(bytes: &[u8]) -> bool
    ensures { result ≡ list_any (λ word. is_filter_name (bare (name_of word))) (words_of bytes.now) }
{
    bytes
        .split(|byte| *byte == 0 || *byte == b';' || *byte == b'&' || *byte == b'?')
        .any(|word| is_filter_word(word))
}

/// Whether one of a text's words has the filter's name, with the silent characters or without them.
fn shows_in(alloc: Global, text: &str) -> Result<bool, AllocError>
    ensures { IfOk result (λ shows. shows ≡ (has_filter_word (chars text.now)
        || has_filter_word (filter (λ c. not (is_silent c)) (chars text.now)))) }
{
    let all = seen_bytes(alloc, text)?;
    let bytes = all.as_slice();
    if has_filter_word(bytes) {
        return Ok(true);
    }
    if !has_byte(bytes, 0) {
        return Ok(false);
    }
    let audible = audible_bytes(alloc, text)?;
    let shows = has_filter_word(audible.as_slice());
    Ok(shows)
}

/// Whether to some reader of these bytes one of their words has the filter's name.
pub fn shows_filter(alloc: Global, bytes: &[u8]) -> Result<bool, AllocError>
    ensures { IfOk result (λ shows. shows ≡ shows_filter bytes.now) }
{
    match str::from_utf8(bytes) {
        Ok(text) => {
            let shows = shows_in(alloc, text)?;
            Ok(shows)
        }
        Err(_) => Ok(false),
    }
}
