//! White space within a line, or a document of several (RFC 8259, section 2).
ghost use Rattle.std.specs.Prelude.{◌≡◌, ◌≤◌, length, true, IsTrue};
ghost use Rattle.json.specs.Word.{is_space};
ghost use Rattle.json_room.specs.LexemesAt.{PassesSpaces};

use super::roomy_line::RoomyLine;

/// Whether a byte is white space.
#[inline(always)]
fn is_blank(byte: u8) -> bool
    ensures { IsTrue result → is_space byte ≡ true }
{
    (byte == b' ') | (byte == b'\t') | (byte == b'\r') | (byte == b'\n')
}

/// The first offset from there on without white space of the text: mostly this one or the next.
#[inline(always)]
pub fn past_blanks(line: &RoomyLine<'_>, from: usize) -> usize
    requires { from ≤ length line.now }
    ensures { PassesSpaces line.now from result }
{
    if line.byte(from) > b' ' {
        return from;
    }
    if line.byte(from) == b' ' && line.byte(from + 1) > b' ' {
        return from + 1;
    }
    past_some_blanks(line, from)
}

#[inline(never)]
fn past_some_blanks(line: &RoomyLine<'_>, from: usize) -> usize
    requires { from ≤ length line.now }
    ensures { PassesSpaces line.now from result }
{
    let end = line.text().len();
    let mut place = from;
    while place < end && is_blank(line.byte(place)) {
        place += 1;
    }
    place
}
