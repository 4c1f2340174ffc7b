//! Lines that are copied to where they have room after them.
ghost use Rattle.std.specs.Prelude.{◌≡◌, ◌+◌, ◌<◌, ◌≤◌, length, get_or, take, IsTrue};

use super::roomy_line::ROOM;

/// Copies a line to where it has a line feed and room after it, unless out of memory. What else was there stays.
/// Its clauses say nothing of false, nor of what was there.
#[inline(always)]
pub fn copy_with_room(line: &[u8], room: &mut Vec<u8>) -> bool
    ensures copied { IsTrue result → take (length line.now) room.new.items ≡ line.now }
    ensures line_feed { IsTrue result → get_or room.new.items (length line.now) 0 ≡ 10 }
    ensures room { IsTrue result → length line.now + 64 ≤ length room.new.items }
{
    let count = line.len();
    if room.len() < ROOM || count > room.len() - ROOM {
        return take_room(line, room);
    }
    write_line(room.as_mut_slice(), line);
    true
}

/// Writes a line and a line feed over the front of a buffer.
#[inline(always)]
fn write_line(room: &mut [u8], line: &[u8])
    requires { length line.now < length room.old }
    ensures long { length room.new ≡ length room.old }
    ensures copied { take (length line.now) room.new ≡ line.now }
    ensures line_feed { get_or room.new (length line.now) 0 ≡ 10 }
{
    let (front, rest) = room.split_at_mut(line.len());
    front.copy_from_slice(line);
    rest[0] = b'\n';
}

/// The same in a buffer that is made for it.
#[inline(never)]
fn take_room(line: &[u8], room: &mut Vec<u8>) -> bool
    ensures copied { IsTrue result → take (length line.now) room.new.items ≡ line.now }
    ensures line_feed { IsTrue result → get_or room.new.items (length line.now) 0 ≡ 10 }
    ensures room { IsTrue result → length line.now + 64 ≤ length room.new.items }
{
    room.clear();
    room.extend_from_slice(line).is_ok() && room.extend_from_slice(&[b'\n'; ROOM]).is_ok()
}
