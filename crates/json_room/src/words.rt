//! The words of JSON: true, false and null (RFC 8259, section 3).
ghost use Rattle.std.specs.Prelude.{◌≡◌, ◌≢◌, ◌+◌, ◌<◌, ◌≤◌, ◌^◌, ℕ, length, get_or, IfSome, IsTrue};
ghost use Rattle.json.specs.Token.{boolean, null};
ghost use Rattle.json_room.specs.private.Lexemes.{StandsAt};
ghost use Rattle.json_room.specs.Lexemes.{StandsTo};

use super::roomy_line::RoomyLine;
use std::simd::prelude::*;

/// Whether these four bytes of a word are there.
#[inline(always)]
fn stand_4(line: &RoomyLine<'_>, place: usize, word: u8x4) -> bool
    requires within { place ≤ length line.now }
    requires word { (k : ℕ) → k < length word → get_or word k 0 ≢ 10 }
    ensures stands { IsTrue result → StandsAt line.now place word }
    ensures short { length line.now + 64 < 2 ^ 63 }
{
    are_4(line.bytes(), place, word)
}

/// Whether these four bytes are there, wherever the line ends.
#[inline(always)]
fn are_4(bytes: &[u8], from: usize, word: u8x4) -> bool
    requires { from + 4 ≤ length bytes.now }
    ensures { IsTrue result → (k : ℕ) → k < 4 → get_or bytes.now (from + k) 0 ≡ get_or word k 0 }
{
    are_equal_4(u8x4::from_slice(&bytes[from..]), word)
}

#[inline(always)]
fn are_equal_4(lanes: u8x4, others: u8x4) -> bool
    ensures { IsTrue result → lanes ≡ others }
{
    lanes.simd_eq(others).to_bitmask() == 0xf
}

/// The truth value that begins there, and the offset after it. Neither value is guessed: no branch tells them apart.
/// Its clause says nothing of `None`.
#[inline(always)]
pub fn truth_end(line: &RoomyLine<'_>, place: usize) -> Option<(bool, usize)>
    requires { place ≤ length line.now }
    ensures { IfSome result (λ found. StandsTo line.now place (boolean found.0) found.1) }
{
    let bytes = line.bytes();
    let is_true = are_4(bytes, place, u8x4::from_array(*b"true"));
    let is_false = (bytes[place] == b'f') & are_4(bytes, place + 1, u8x4::from_array(*b"alse"));
    if is_true | is_false {
        Some((is_true, place + 4 + is_false as usize))
    } else {
        None
    }
}

/// The offset after the null that begins there. Its clause says nothing of `None`.
#[inline(always)]
pub fn null_end(line: &RoomyLine<'_>, place: usize) -> Option<usize>
    requires { place ≤ length line.now }
    ensures { IfSome result (λ to. StandsTo line.now place null to) }
{
    if stand_4(line, place, u8x4::from_array(*b"null")) {
        Some(place + 4)
    } else {
        None
    }
}
