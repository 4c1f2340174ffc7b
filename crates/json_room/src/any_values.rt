//! Values that nobody looks at.
ghost use Rattle.std.specs.Prelude.{◌<◌, ◌≤◌, ℕ, List, length, IfSome, IsSome};
ghost use Rattle.std.specs.Str.{IsUtf8};
ghost use Rattle.json.specs.Token.{number};
ghost use Rattle.json.specs.Lex.{fresh, after_value};
ghost use Rattle.serde_json.specs.Read.{number_of};
ghost use Rattle.json_room.specs.private.Lexemes.{IsTextAt};
ghost use Rattle.json_room.specs.Lexemes.{StandsTo, tokens_at};
ghost use Rattle.json_room.specs.private.ItemTokens.{ReadsItems, ReadsMembers};
ghost use Rattle.json_room.specs.ValueStands.{ValueStands};
ghost use Rattle.json_room.specs.private.ValuesStand.{PassesTo, PassesAnyMember};

use super::blanks::past_blanks;
use super::decode_buffer::DecodeBuffer;
use super::escaped_texts::any_text_end;
use super::number_text::number_of_text;
use super::numbers::{number_at, short_number_end};
use super::roomy_line::RoomyLine;
use super::words::{null_end, truth_end};

/// The offset after a number that has a value. Its clause says nothing of `None`.
#[inline(always)]
pub fn any_number_end(line: &RoomyLine<'_>, place: usize) -> Option<usize>
    requires { place ≤ length line.now }
    ensures { IfSome result (λ to. (s : List ℕ) × StandsTo line.now place (number s) to × IsSome (number_of s)) }
{
    if let Some(end) = short_number_end(line, place) {
        if line.byte(end) | 0x20 != b'e' {
            return Some(end);
        }
    }
    let Some((text, end)) = number_at(line, place) else {
        return None;
    };
    match number_of_text(text) {
        Some(_) => Some(end),
        None => None,
    }
}

/// The offset after the JSON value that stands there, nested no deeper than that. Its clause says nothing of `None`.
#[inline(never)]
#[cycle(any)]
pub fn any_value_end(
    line: &RoomyLine<'_>,
    place: usize,
    depth: usize,
    buffer: &mut DecodeBuffer,
) -> Option<usize>
    requires { place ≤ length line.now }
    ensures { IfSome result (λ to. ValueStands depth line.now place to (λ json. Unit {0})) }
{
    match line.byte(place) {
        b'"' => any_text_end(line, place, buffer),
        b't' | b'f' => match truth_end(line, place) {
            Some((_, end)) => Some(end),
            None => None,
        },
        b'n' => null_end(line, place),
        b'[' => if depth == 0 {
            None
        } else {
            items_end(line, place + 1, depth - 1, buffer)
        },
        b'{' => if depth == 0 {
            None
        } else {
            members_end(line, place + 1, depth - 1, buffer)
        },
        _ => any_number_end(line, place),
    }
}

/// The offset after an array's items and its bracket.
#[inline(never)]
#[cycle(any)]
fn items_end(
    line: &RoomyLine<'_>,
    from: usize,
    depth: usize,
    buffer: &mut DecodeBuffer,
) -> Option<usize>
    requires { from ≤ length line.now }
    ensures { IfSome result (λ to. PassesTo line.now from to
        × ReadsItems depth (tokens_at fresh line.now from) (tokens_at after_value line.now to) (λ jsons. Unit {0})) }
{
    let mut place = past_blanks(line, from);
    if line.byte(place) == b']' {
        return Some(place + 1);
    }
    'items: loop {
        match any_value_end(line, place, depth, buffer) {
            Some(end) => place = past_blanks(line, end),
            None => return None,
        }
        match line.byte(place) {
            b',' => place = past_blanks(line, place + 1),
            b']' => return Some(place + 1),
            _ => return None,
        }
    }
}

/// The offset after an object's members and its brace.
#[inline(never)]
#[cycle(any)]
fn members_end(
    line: &RoomyLine<'_>,
    from: usize,
    depth: usize,
    buffer: &mut DecodeBuffer,
) -> Option<usize>
    requires { from ≤ length line.now }
    ensures { IfSome result (λ to. PassesTo line.now from to
        × ReadsMembers depth (tokens_at fresh line.now from) (tokens_at after_value line.now to) (λ found. Unit {0})) }
{
    let mut place = past_blanks(line, from);
    if line.byte(place) == b'}' {
        return Some(place + 1);
    }
    'members: loop {
        match member_end(line, place, depth, buffer) {
            Some(end) => place = past_blanks(line, end),
            None => return None,
        }
        match line.byte(place) {
            b',' => place = past_blanks(line, place + 1),
            b'}' => return Some(place + 1),
            _ => return None,
        }
    }
}

/// The offset after a member's name, its colon and its value.
#[inline(always)]
#[cycle(any)]
fn member_end(
    line: &RoomyLine<'_>,
    place: usize,
    depth: usize,
    buffer: &mut DecodeBuffer,
) -> Option<usize>
    requires { place ≤ length line.now }
    ensures { IfSome result (PassesAnyMember depth line.now place) }
{
    let Some(end) = any_text_end(line, place, buffer) else {
        return None;
    };
    let colon = past_blanks(line, end);
    if line.byte(colon) != b':' {
        return None;
    }
    any_value_end(line, past_blanks(line, colon + 1), depth, buffer)
}
