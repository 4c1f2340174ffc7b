ghost use Rattle.std.specs.Prelude.{◌≡◌, IsCharBoundary};
ghost use Rattle.odata_text.specs.private.Lengths.{IsReach};
ghost use Rattle.odata_text.specs.Spelling.{IsDottedWord, IsLeftOutName, IsNamed, IsWordSpelling, Spells, SpellsLeftOut};

use super::ascii_case::is_named;
use super::form::LeftOutKind;
use super::identifier::identifier_length;
use super::pattern::{both_length, byte_length, longer};
use super::quoted::string_length;
use super::token::TokenKind;

/// How many bytes the word at the front takes, with all its dots, 0 if there is none.
pub fn word_length(rest: &str) -> usize
    ensures reach { IsReach IsWordSpelling result rest.now }
    ensures boundary { IsCharBoundary rest.now result }
{
    let mut length = identifier_length(rest);
    if length == 0 {
        return 0;
    }
    while length < rest.len() && rest.as_bytes()[length] == b'.' {
        let part = identifier_length(&rest[length + 1..]);
        if part == 0 {
            return length;
        }
        length += 1 + part;
    }
    length
}

/// How many bytes the word at the front takes if it has a dot, else 0.
fn dotted_length(rest: &str) -> usize
    ensures { IsReach IsDottedWord result rest.now }
{
    let word = word_length(rest);
    if identifier_length(rest) < word {
        return word;
    }
    0
}

/// How many bytes the `$` and the identifier at the front take, 0 if there are none.
pub fn dollar_length(rest: &str) -> usize
    ensures { IsReach (Spells TokenKind.Dollar) result rest.now }
{
    let mark = byte_length(b'$', rest.as_bytes());
    let name = identifier_length(&rest[mark..]);
    both_length(mark, name)
}

/// How many bytes the enumeration literal at the front takes, 0 if there is none.
pub fn enum_length(rest: &str) -> usize
    ensures { IsReach (Spells TokenKind.EnumLit) result rest.now }
{
    let word = dotted_length(rest);
    let text = string_length(&rest.as_bytes()[word..]);
    both_length(word, text)
}

/// The length of the name, if it stands at the front in any case of its letters, else 0.
fn name_length(name: &[u8], rest: &[u8]) -> usize
    ensures { IsReach (IsNamed name.now) result rest.now }
{
    if name.len() <= rest.len() && is_named(&rest[..name.len()], name) {
        return name.len();
    }
    0
}

/// How many bytes the name of a type that is left out takes at the front, 0 if there is none.
fn left_out_name_length(rest: &[u8]) -> usize
    ensures { IsReach IsLeftOutName result rest.now }
{
    let duration = name_length(b"duration", rest);
    let binary = name_length(b"binary", rest);
    let geography = name_length(b"geography", rest);
    let geometry = name_length(b"geometry", rest);
    longer(duration, longer(binary, longer(geography, geometry)))
}

/// How many bytes the name of a left-out type at the front takes with its quoted text, 0 without these.
pub fn quoted_length(rest: &[u8]) -> usize
    ensures { IsReach (SpellsLeftOut LeftOutKind.Quoted) result rest.now }
{
    let name = left_out_name_length(rest);
    let text = string_length(&rest[name..]);
    both_length(name, text)
}
