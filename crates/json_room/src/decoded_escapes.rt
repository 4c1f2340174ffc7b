//! What an escape stands for, but for surrogates (RFC 8259, section 7).
ghost use Rattle.std.specs.Prelude.{◌≡◌, ◌+◌, ◌<◌, ◌≤◌, Some, get_or, length, IfSome};
ghost use Rattle.json.specs.Text.{code_unit, short_escape};
ghost use Rattle.json_room.specs.private.Escapes.{EscapesAt};

use super::escapes::hex_digit;

/// What four hexadecimal digits write.
#[inline(always)]
fn unit_at(bytes: &[u8], place: usize) -> Option<u32>
    requires { place + 4 ≤ length bytes.now }
    ensures value { IfSome result (λ unit.
        code_unit (get_or bytes.now place 0) (get_or bytes.now (place + 1) 0) (get_or bytes.now (place + 2) 0)
        (get_or bytes.now (place + 3) 0) ≡ Some unit) }
    ensures ascii { IfSome result (λ unit. get_or bytes.now (place + 3) 0 < 128) }
{
    let first = hex_digit(bytes[place]);
    let second = hex_digit(bytes[place + 1]);
    let third = hex_digit(bytes[place + 2]);
    let last = hex_digit(bytes[place + 3]);
    if (first < 16) & (second < 16) & (third < 16) & (last < 16) {
        Some(first * 4096 + second * 256 + third * 16 + last)
    } else {
        None
    }
}

/// What a backslash and a byte after it stand for, where no digits follow.
#[inline(always)]
fn reported_by_byte(byte: u8) -> Option<u8>
    ensures value { IfSome result (λ reported. short_escape byte ≡ Some reported) }
    ensures ascii { IfSome result (λ reported. (reported < 128) × (byte < 128)) }
{
    match byte {
        b'"' | b'\\' | b'/' => Some(byte),
        b'n' => Some(b'\n'),
        b't' => Some(b'\t'),
        b'r' => Some(b'\r'),
        b'b' => Some(8),
        b'f' => Some(12),
        _ => None,
    }
}

/// The character that an escape stands for, from after its backslash on, and the offset after it.
#[inline(always)]
pub(crate) fn escape_at(bytes: &[u8], place: usize) -> Option<(char, usize)>
    requires { place ≤ length bytes.now }
    ensures { IfSome result (λ found. EscapesAt bytes.now place found.0 found.1) }
{
    if place == bytes.len() {
        return None;
    }
    if bytes[place] != b'u' {
        return match reported_by_byte(bytes[place]) {
            Some(reported) => Some((reported as char, place + 1)),
            None => None,
        };
    }
    if bytes.len() - place < 5 {
        return None;
    }
    let Some(unit) = unit_at(bytes, place + 1) else {
        return None;
    };
    match char::from_u32(unit) {
        Some(character) => Some((character, place + 5)),
        None => None,
    }
}
