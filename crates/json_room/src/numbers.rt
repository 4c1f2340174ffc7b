//! Numbers (RFC 8259, section 6), most of which are digits alone.
ghost use Rattle.std.specs.Prelude.{◌≡◌, ◌≢◌, ℕ, ◌+◌, ◌*◌, ◌<◌, ◌≤◌, ◌^◌, ◌-◌, List, length, drop, get_or, map, None, IfSome, IsSome, IsTrue};
ghost use Rattle.std.specs.Simd.Lanes.{mask_l};
ghost use Rattle.json.specs.Run.{is_no_digit};
ghost use Rattle.json.specs.Token.{number};
ghost use Rattle.serde_json.specs.Read.{number_of};
ghost use Rattle.json_room.specs.WholeNumbers.{IsWhole};
ghost use Rattle.json_room.specs.private.Lexemes.{AsciiBetween, DigitsBetween, WritesWhole};
ghost use Rattle.json_room.specs.private.ShortNumbers.{EndsFraction};
ghost use Rattle.json_room.specs.Lexemes.{StandsTo};

use super::roomy_line::RoomyLine;
use json::is_number;
use std::simd::prelude::*;

/// A number of so many bytes is below 10^300, which a float holds.
const LONGEST: usize = 300;

/// Which of sixteen bytes are no digits: the first is the lowest bit.
#[inline(always)]
fn others_16(lanes: u8x16) -> u64
    ensures { result ≡ mask_l (map is_no_digit lanes) }
{
    (lanes - u8x16::splat(b'0'))
        .simd_gt(u8x16::splat(9))
        .to_bitmask()
}

/// The first of sixteen offsets that has no digit; `None` where all have one.
#[inline(always)]
fn digit_run(line: &RoomyLine<'_>, place: usize) -> Option<usize>
    requires { place ≤ length line.now }
    ensures bounds { IfSome result (λ end. (place ≤ end) × (end ≤ place + 16) × (end ≤ length line.now)) }
    ensures digits { IfSome result (DigitsBetween line.now place) }
    ensures further { result ≡ None → place + 16 ≤ length line.now }
    ensures all { result ≡ None → DigitsBetween line.now place (place + 16) }
    ensures short { length line.now + 64 < 2 ^ 63 }
{
    let bytes = line.bytes();
    let others = others_16(u8x16::from_slice(&bytes[place..]));
    if others == 0 {
        None
    } else {
        Some(place + others.trailing_zeros() as usize)
    }
}

/// The first offset from there on that has no digit.
#[inline(always)]
fn digits_end(line: &RoomyLine<'_>, from: usize) -> usize
    requires { from ≤ length line.now }
    ensures bounds { (from ≤ result) × (result ≤ length line.now) }
    ensures digits { DigitsBetween line.now from result }
{
    let mut place = from;
    loop {
        match digit_run(line, place) {
            Some(end) => return end,
            None => place += 16,
        }
    }
}

/// Whether the first of some digits is 0 only where it is the only one.
#[inline(always)]
fn starts_whole(line: &RoomyLine<'_>, from: usize, end: usize) -> bool
    requires digits { (from < end) × (end ≤ length line.now) }
    ensures { IsTrue result → get_or line.now from 0 ≡ 48 → end ≡ from + 1 }
{
    end == from + 1 || line.byte(from) != b'0'
}

/// The offset after a number of at most `most` digits, without a sign, a fraction and an exponent. Numbers of 16 digits
/// and more are not looked at. Its clause says nothing of `None`.
#[inline(always)]
pub fn digits_up_to(line: &RoomyLine<'_>, place: usize, most: usize) -> Option<usize>
    requires { place ≤ length line.now }
    ensures { IfSome result (λ to. (s : List ℕ) × StandsTo line.now place (number s) to
        × ((n : ℕ) × IsWhole s n × (n < 10 ^ most))) }
{
    let Some(end) = digit_run(line, place) else {
        return None;
    };
    if end == place || end - place > most || !starts_whole(line, place, end) {
        return None;
    }
    Some(end)
}

/// Returns the number that at most 18 digits write, and the offset after it. A sign, a fraction or an exponent is left
/// to others. Its clauses say nothing of `None`.
#[inline(always)]
pub fn whole_at(line: &RoomyLine<'_>, place: usize) -> Option<(u64, usize)>
    requires { place ≤ length line.now }
    ensures whole { IfSome result (λ found. (s : List ℕ) × StandsTo line.now place (number s) found.1
        × IsWhole s found.0) }
    ensures few { IfSome result (λ found. found.0 < 10 ^ (found.1 - place)) }
{
    let Some((number, end)) = digits_value(line, place) else {
        return None;
    };
    if !starts_whole(line, place, end) {
        return None;
    }
    Some((number, end))
}

/// What the digits there write, at most 18 of them, and the offset after them; `None` where there are none.
#[inline(always)]
fn digits_value(line: &RoomyLine<'_>, from: usize) -> Option<(u64, usize)>
    requires { from ≤ length line.now }
    ensures bounds { IfSome result (λ found. (from < found.1) × (found.1 ≤ length line.now)) }
    ensures writes { IfSome result (λ found. WritesWhole (drop from line.now) (found.1 - from) found.0) }
{
    let first = line.byte(from);
    if !first.is_ascii_digit() {
        return None;
    }
    let mut number = (first - b'0') as u64;
    let mut place = from + 1;
    while place - from < 18 && line.byte(place).is_ascii_digit() {
        number = number * 10 + (line.byte(place) - b'0') as u64;
        place += 1;
    }
    Some((number, place))
}

/// The offset after a number without a sign and without an exponent, whose value is not asked for.
#[inline(always)]
pub(crate) fn short_number_end(line: &RoomyLine<'_>, from: usize) -> Option<usize>
    requires { from ≤ length line.now }
    ensures { IfSome result (λ to. (s : List ℕ) × StandsTo line.now from (number s) to × IsSome (number_of s)) }
{
    let point = digits_end(line, from);
    if point == from || !starts_whole(line, from, point) {
        return None;
    }
    let Some(end) = fraction_end(line, point) else {
        return None;
    };
    if end - from > LONGEST {
        return None;
    }
    Some(end)
}

/// The offset after a point and digits, and the same offset where there is no point.
#[inline(always)]
fn fraction_end(line: &RoomyLine<'_>, from: usize) -> Option<usize>
    requires { from ≤ length line.now }
    ensures { IfSome result (λ to. EndsFraction line.now from to) }
{
    if line.byte(from) != b'.' {
        return Some(from);
    }
    let end = digits_end(line, from + 1);
    if end == from + 1 {
        return None;
    }
    Some(end)
}

#[inline(always)]
fn is_of_number(byte: u8) -> bool
    ensures ascii { IsTrue result → byte < 128 }
    ensures other { IsTrue result → byte ≢ 10 }
{
    byte.is_ascii_digit() || matches!(byte, b'.' | b'-' | b'+' | b'e' | b'E')
}

/// The first offset from there on that has no byte of a number.
#[inline(always)]
fn number_bytes_end(line: &RoomyLine<'_>, from: usize) -> usize
    requires { from ≤ length line.now }
    ensures bounds { (from ≤ result) × (result ≤ length line.now) }
    ensures ascii { AsciiBetween line.now from result }
{
    let mut place = from;
    while is_of_number(line.byte(place)) {
        place += 1;
    }
    place
}

/// The number that begins there, however it is written, and the offset after it. Its clause says nothing of `None`.
#[inline(never)]
pub fn number_at<'a>(line: &RoomyLine<'a>, place: usize) -> Option<(&'a str, usize)>
    requires { place ≤ length line.now }
    ensures { IfSome result (λ found. StandsTo line.now place (number found.0.now) found.1) }
{
    let end = number_bytes_end(line, place);
    if end == place {
        return None;
    }
    let text = line.text();
    let written = &text[place..end];
    if is_number(written) {
        Some((written, end))
    } else {
        None
    }
}
