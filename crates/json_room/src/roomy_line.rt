//! A line, the LF after it and the room after that.
ghost use Rattle.std.specs.Prelude.{◌≡◌, ◌+◌, ◌<◌, ◌≤◌, ◌^◌, length, get_or, take, IfSome, IsTrue};
ghost use Rattle.std.specs.Str.{IsAscii};

use super::utf8::is_utf8;
use std::marker::Model;

/// How many bytes there are from a line's LF on, at least.
pub const ROOM: usize = 64;

/// A line in UTF-8 at the front of longer bytes: an LF follows it, and at least 63 bytes follow that.
///
/// So up to its LF any 64 bytes may be loaded at once without a test of the length, and every lexeme ends by the LF.
#[derive(Drop)]
pub struct RoomyLine<'a> {
    text: &'a str,
    bytes: &'a [u8],
}

impl<'a> Model for RoomyLine<'a> {
    ghost use Rattle.std.specs.Prelude.{ℕ, List};
    ghost use Rattle.std.specs.Coded.{coded_list, coded_ℕ};
    ghost use Rattle.json_room.specs.RoomyLine.{IsRoomy};

    ghost Value = { List ℕ };

    ghost coded = { coded_list coded_ℕ };

    ghost view = { λ l. l.text.now };

    ghost invariant = { IsRoomy };
}

impl<'a> RoomyLine<'a> {
    /// The line that is this text, at the front of these bytes.
    #[inline(always)]
    pub fn new(text: &'a str, bytes: &'a [u8]) -> RoomyLine<'a>
        requires front { take (length text.now) bytes.now ≡ text.now }
        requires line_feed { get_or bytes.now (length text.now) 0 ≡ 10 }
        requires room { length text.now + 64 ≤ length bytes.now }
        ensures { result ≡ text.now }
    {
        RoomyLine { text, bytes }
    }

    /// The line as a text.
    #[inline(always)]
    pub fn text(&self) -> &'a str
        ensures { result.now ≡ self.now }
    {
        self.text
    }

    /// The bytes of the line, its LF, and all that follows.
    #[inline(always)]
    pub fn bytes(&self) -> &'a [u8]
        ensures front { take (length self.now) result.now ≡ self.now }
        ensures line_feed { get_or result.now (length self.now) 0 ≡ 10 }
        ensures room { length self.now + 64 ≤ length result.now }
    {
        self.bytes
    }

    /// The byte at an offset; at the end of the line its LF.
    #[inline(always)]
    pub fn byte(&self, place: usize) -> u8
        requires { place ≤ length self.now }
        ensures here { result ≡ get_or self.now place 10 }
        ensures short { length self.now + 64 < 2 ^ 63 }
    {
        let bytes = self.bytes;
        bytes[place]
    }
}

/// Whether an LF follows so many bytes, and at least 63 bytes follow that. Its clauses say nothing of false.
#[inline(always)]
pub fn has_room(bytes: &[u8], count: usize) -> bool
    ensures line_feed { IsTrue result → get_or bytes.now count 0 ≡ 10 }
    ensures room { IsTrue result → count + 64 ≤ length bytes.now }
{
    bytes.len() >= ROOM && count <= bytes.len() - ROOM && bytes[count] == b'\n'
}

/// The first bytes, so many, as a text; `None` where they are not in UTF-8. They may be known to be of ASCII.
/// Its clause says nothing of `None`.
#[inline(always)]
pub fn front_text(bytes: &[u8], count: usize, is_ascii: bool) -> Option<&str>
    requires room { count + 64 ≤ length bytes.now }
    requires ascii { IsTrue is_ascii → IsAscii (take count bytes.now) }
    ensures { IfSome result (λ text. text.now ≡ take count bytes.now) }
{
    if is_ascii || is_utf8(bytes, count) {
        Some(unsafe { str::from_utf8_unchecked(&bytes[..count]) })
    } else {
        None
    }
}
