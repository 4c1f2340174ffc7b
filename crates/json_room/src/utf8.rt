//! Whether the first bytes are in UTF-8 (RFC 3629): each run of bytes beyond ASCII is tested by itself.
ghost use Rattle.std.specs.Prelude.{◌≡◌, ◌+◌, ◌<◌, ◌≤◌, length, map, take, IsTrue};
ghost use Rattle.std.specs.Simd.Lanes.{mask_l};
ghost use Rattle.std.specs.Str.{IsUtf8};
ghost use Rattle.json_room.specs.private.Lexemes.{AsciiBetween};
ghost use Rattle.json_room.specs.private.Utf8.{is_beyond};

use std::simd::prelude::*;

/// Whether the first bytes, so many, are in UTF-8.
#[inline(never)]
pub(crate) fn is_utf8(bytes: &[u8], count: usize) -> bool
    requires { count + 64 ≤ length bytes.now }
    ensures { IsTrue result → IsUtf8 (take count bytes.now) }
{
    let mut place = 0;
    while place < count {
        let first = ascii_end(bytes, place, count);
        let end = beyond_end(bytes, first, count);
        if !is_run_utf8(&bytes[first..end]) {
            return false;
        }
        place = end;
    }
    true
}

/// Whether a run of bytes is in UTF-8. Most are one character of two bytes, and the last one is none.
#[inline(always)]
fn is_run_utf8(run: &[u8]) -> bool
    ensures { IsTrue result → IsUtf8 run.now }
{
    if run.len() == 0 {
        return true;
    }
    if run.len() == 2 {
        return is_character_of_two(run[0], run[1]);
    }
    str::from_utf8(run).is_ok()
}

/// Whether two bytes are a character.
#[inline(always)]
fn is_character_of_two(first: u8, second: u8) -> bool
    ensures { IsTrue result → (194 ≤ first) × (first < 224) × (128 ≤ second) × (second < 192) }
{
    (first >= 0xc2) & (first < 0xe0) & (second >= 0x80) & (second < 0xc0)
}

/// Which of sixteen bytes are beyond ASCII: the first is the lowest bit.
#[inline(always)]
fn beyond_16(lanes: u8x16) -> u64
    ensures { result ≡ mask_l (map is_beyond lanes) }
{
    lanes.simd_ge(u8x16::splat(0x80)).to_bitmask()
}

/// The first offset from there on that has a byte beyond ASCII; the last offset where none has.
#[inline(always)]
fn ascii_end(bytes: &[u8], from: usize, count: usize) -> usize
    requires within { from ≤ count }
    requires room { count + 64 ≤ length bytes.now }
    ensures bounds { (from ≤ result) × (result ≤ count) }
    ensures ascii { AsciiBetween bytes.now from result }
{
    let mut place = from;
    while place < count {
        let beyond = beyond_16(u8x16::from_slice(&bytes[place..]));
        if beyond != 0 {
            return count.min(place + beyond.trailing_zeros() as usize);
        }
        place += 16;
    }
    count
}

/// The first offset after that one that has a byte of ASCII; the last offset where none has.
#[inline(always)]
fn beyond_end(bytes: &[u8], from: usize, count: usize) -> usize
    requires within { from ≤ count }
    requires room { count + 64 ≤ length bytes.now }
    ensures bounds { (from ≤ result) × (result ≤ count) }
    ensures further { from < count → from < result }
{
    let mut place = count.min(from + 1);
    while place < count && bytes[place] >= 0x80 {
        place += 1;
    }
    place
}
