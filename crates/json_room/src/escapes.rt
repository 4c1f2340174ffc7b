//! Escapes that are passed without being decoded, but for surrogates (RFC 8259, section 7).
ghost use Rattle.std.specs.Prelude.{◌≡◌, ◌+◌, ◌<◌, ◌≤◌, ℕ, get_or, length, true, IfSome, IsTrue};
ghost use Rattle.std.specs.Char.{digit_value};
ghost use Rattle.json.specs.Run.{is_plain};
ghost use Rattle.json_room.specs.private.PassedTexts.{IsShortEscape, PassesEscape};

use super::roomy_line::RoomyLine;

/// The offset after an escape, from after its backslash on.
#[inline(always)]
pub(crate) fn escape_end(line: &RoomyLine<'_>, place: usize) -> Option<usize>
    requires { place ≤ length line.now }
    ensures { IfSome result (PassesEscape line.now place) }
{
    let byte = line.byte(place);
    if is_short_escape(byte) {
        return Some(place + 1);
    }
    if byte == b'u' {
        return unit_end(line, place + 1);
    }
    None
}

/// Whether a byte after a backslash is an escape by itself.
#[inline(always)]
fn is_short_escape(byte: u8) -> bool
    ensures { IsTrue result → IsShortEscape byte }
{
    match byte {
        b'"' | b'\\' | b'/' | b'b' | b'f' | b'n' | b'r' | b't' => true,
        _ => false,
    }
}

/// The offset after the four digits of an escape, which follow a backslash and a `u`, where they write no surrogate.
#[inline(always)]
fn unit_end(line: &RoomyLine<'_>, place: usize) -> Option<usize>
    requires within { place ≤ length line.now }
    requires after_u { (before : ℕ) × (before + 1 ≡ place) × (get_or line.now before 0 ≡ 117) }
    ensures { (before : ℕ) → before + 1 ≡ place → IfSome result (PassesEscape line.now before) }
{
    let first = hex_digit(line.byte(place));
    if first >= 16 {
        return None;
    }
    let second = hex_digit(line.byte(place + 1));
    if second >= 16 {
        return None;
    }
    let third = hex_digit(line.byte(place + 2));
    if third >= 16 {
        return None;
    }
    let last = hex_digit(line.byte(place + 3));
    if last >= 16 {
        return None;
    }
    match char::from_u32(first * 4096 + second * 256 + third * 16 + last) {
        Some(_) => Some(place + 4),
        None => None,
    }
}

/// The value of a hexadecimal digit; of any other byte one that is too large.
#[inline(always)]
pub(crate) fn hex_digit(byte: u8) -> u32
    ensures value { result ≡ digit_value byte }
    ensures ascii { result < 16 → byte < 128 }
    ensures plain { result < 16 → is_plain byte ≡ true }
{
    match byte {
        b'0'..=b'9' => (byte - b'0') as u32,
        b'a'..=b'z' => (byte - b'a') as u32 + 10,
        b'A'..=b'Z' => (byte - b'A') as u32 + 10,
        _ => 36,
    }
}
