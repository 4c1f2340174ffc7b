//! Texts without escapes (RFC 8259, section 7).
ghost use Rattle.std.specs.Prelude.{◌≡◌, ℕ, ◌+◌, ◌<◌, ◌≤◌, ◌^◌, List, length, map, None, IfSome};
ghost use Rattle.std.specs.Simd.Lanes.{mask_l};
ghost use Rattle.std.specs.Str.{IsUtf8};
ghost use Rattle.json.specs.Run.{is_stop};
ghost use Rattle.json.specs.Written.{PlainBetween};
ghost use Rattle.json_room.specs.LexemesAt.{IsTextAt};

use super::roomy_line::RoomyLine;
use std::simd::prelude::*;

/// Which of 32 bytes are quotes, backslashes or control characters: the first is the lowest bit.
#[inline(always)]
fn stops_32(lanes: u8x32) -> u64
    ensures { result ≡ mask_l (map is_stop lanes) }
{
    (lanes.simd_eq(u8x32::splat(b'"'))
        | lanes.simd_eq(u8x32::splat(b'\\'))
        | lanes.simd_lt(u8x32::splat(0x20))).to_bitmask()
}

/// The first of 32 offsets that has a quote, a backslash or a control character; `None` where all are plain.
#[inline(always)]
fn plain_run(line: &RoomyLine<'_>, place: usize) -> Option<usize>
    requires { place ≤ length line.now }
    ensures bounds { IfSome result (λ end. (place ≤ end) × (end ≤ length line.now)) }
    ensures plain { IfSome result (PlainBetween line.now place) }
    ensures further { result ≡ None → place + 32 ≤ length line.now }
    ensures all { result ≡ None → PlainBetween line.now place (place + 32) }
    ensures short { length line.now + 64 < 2 ^ 63 }
{
    let bytes = line.bytes();
    let stops = stops_32(u8x32::from_slice(&bytes[place..]));
    if stops == 0 {
        None
    } else {
        Some(place + stops.trailing_zeros() as usize)
    }
}

/// The first offset from there on that has a quote, a backslash or a control character.
#[inline(always)]
pub fn plain_end(line: &RoomyLine<'_>, from: usize) -> usize
    requires { from ≤ length line.now }
    ensures bounds { (from ≤ result) × (result ≤ length line.now) }
    ensures plain { PlainBetween line.now from result }
{
    let mut place = from;
    loop {
        match plain_run(line, place) {
            Some(end) => return end,
            None => place += 32,
        }
    }
}

/// The offset after the text without escapes that begins there. Its clauses say nothing of `None`.
#[inline(always)]
pub fn text_end(line: &RoomyLine<'_>, place: usize) -> Option<usize>
    requires { place ≤ length line.now }
    ensures further { IfSome result (λ to. place < to) }
    ensures text { IfSome result (λ to. (s : List ℕ) × IsTextAt line.now place s to × IsUtf8 s) }
{
    match text_at(line, place) {
        Some((_, end)) => Some(end),
        None => None,
    }
}

/// The text without escapes that begins there, and the offset after it. Its clauses say nothing of `None`.
#[inline(always)]
pub fn text_at<'a>(line: &RoomyLine<'a>, place: usize) -> Option<(&'a str, usize)>
    requires { place ≤ length line.now }
    ensures further { IfSome result (λ found. place < found.1) }
    ensures text { IfSome result (λ found. IsTextAt line.now place found.0.now found.1) }
{
    if line.byte(place) != b'"' {
        return None;
    }
    let end = plain_end(line, place + 1);
    if line.byte(end) != b'"' {
        return None;
    }
    let text = line.text();
    Some((&text[place + 1..end], end + 1))
}
