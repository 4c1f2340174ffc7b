//! Texts that are seen at once to be a day, a moment or a Guid. Others may be too.
ghost use Rattle.std.specs.Prelude.{◌≡◌, ◌⊎◌, ℕ, List, ◌+◌, ◌<◌, ◌≤◌, ◌/◌, ◌%◌, ◌^◌, length, get_or, IfSome, IsTrue};
ghost use Rattle.std.specs.Char.{digit_value};
ghost use Rattle.edm_values.specs.Civil.{Date};
ghost use Rattle.edm_values.specs.DateLiteral.{DateValue};
ghost use Rattle.edm_values.specs.GuidLiteral.{GuidValue};
ghost use Rattle.edm_values.specs.MomentLiteral.{MomentValue};
ghost use Rattle.edm_values.specs.MomentParts.{MomentParts};
ghost use Rattle.room_literals.specs.SureTexts.{IsLiteralAt};
ghost use Rattle.room_literals.specs.private.SureTexts.{AreWithin, IsDayAt, IsDaySpelled, IsFractionAt, IsGuidAt};
ghost use Rattle.room_literals.specs.private.SureTexts.{IsMinutesAt, IsOffsetAt};

use json_room::RoomyLine;
use std::simd::prelude::*;

/// The lowest bytes of a day of the years from 1000 on, and how far above those its bytes may be.
const DAY: [u8; 16] = *b"1000-00-00\0\0\0\0\0\0";

const DAY_SPANS: [u8; 16] = [8, 9, 9, 9, 0, 1, 9, 0, 2, 9, 255, 255, 255, 255, 255, 255];

/// The same of a day with the minutes of a clock.
const MINUTES: [u8; 16] = *b"1000-00-00T00:00";

const MINUTES_SPANS: [u8; 16] = [8, 9, 9, 9, 0, 1, 9, 0, 2, 9, 0, 2, 9, 0, 5, 9];

/// The same of a colon and the seconds of a clock.
const SECONDS: [u8; 16] = *b":00\0\0\0\0\0\0\0\0\0\0\0\0\0";

const SECONDS_SPANS: [u8; 16] = [
    0, 5, 9, 255, 255, 255, 255, 255, 255, 255, 255, 255, 255, 255, 255, 255,
];

/// Whether each of sixteen bytes is the lowest of its lane or above that, by no more than its span.
#[inline(always)]
fn are_within(bytes: &[u8], from: usize, lows: [u8; 16], spans: [u8; 16]) -> bool
    requires { from + 16 ≤ length bytes.now }
    ensures { IsTrue result → AreWithin bytes.now from lows spans }
{
    (u8x16::from_slice(&bytes[from..]) - u8x16::from_array(lows))
        .simd_gt(u8x16::from_array(spans))
        .to_bitmask()
        == 0
}

/// What two digits write.
#[inline(always)]
fn two(tens: u8, units: u8) -> u8
    requires tens { (48 ≤ tens) × (tens ≤ 57) }
    requires units { (48 ≤ units) × (units ≤ 57) }
    ensures bound { result < 100 }
    ensures tens { tens ≡ 48 + result / 10 }
    ensures units { units ≡ 48 + result % 10 }
{
    (tens - b'0') * 10 + (units - b'0')
}

/// Whether a month of the year and one of its first 28 days stand in ten bytes that are spelled as a day.
#[inline(always)]
fn is_in_month(bytes: &[u8], from: usize) -> bool
    requires room { from + 10 ≤ length bytes.now }
    requires spelled { IsDaySpelled bytes.now from }
    ensures { IsTrue result → IsDayAt bytes.now from }
{
    let month = two(bytes[from + 5], bytes[from + 6]);
    let day = two(bytes[from + 8], bytes[from + 9]);
    month >= 1 && month <= 12 && day >= 1 && day <= 28
}

/// Whether ten bytes are a day up to the 28th of its month.
#[inline(always)]
fn is_day(bytes: &[u8], from: usize) -> bool
    requires { from + 16 ≤ length bytes.now }
    ensures { IsTrue result → IsDayAt bytes.now from }
{
    are_within(bytes, from, DAY, DAY_SPANS) && is_in_month(bytes, from)
}

/// The offset after a day in its quotes. Its clause says nothing of `None`.
#[inline(always)]
pub fn day_end(line: &RoomyLine<'_>, place: usize) -> Option<usize>
    requires { place ≤ length line.now }
    ensures { IfSome result (IsLiteralAt line.now place (λ text. (date : Date) × DateValue text date)) }
{
    let bytes = line.bytes();
    if bytes[place] == b'"' && bytes[place + 11] == b'"' && is_day(bytes, place + 1) {
        Some(place + 12)
    } else {
        None
    }
}

/// Whether sixteen bytes are such a day and the minutes of a clock.
#[inline(always)]
fn are_minutes(bytes: &[u8], from: usize) -> bool
    requires { from + 16 ≤ length bytes.now }
    ensures { IsTrue result → IsMinutesAt bytes.now from }
{
    if !are_within(bytes, from, MINUTES, MINUTES_SPANS) || !is_in_month(bytes, from) {
        return false;
    }
    two(bytes[from + 11], bytes[from + 12]) < 24
}

/// The offset after a point and at most nine digits, or the same offset where no point stands.
#[inline(always)]
fn fraction_end(bytes: &[u8], from: usize) -> Option<usize>
    requires { from + 10 ≤ length bytes.now }
    ensures { IfSome result (IsFractionAt bytes.now from) }
{
    if bytes[from] != b'.' {
        return Some(from);
    }
    let mut place = from + 1;
    while place < from + 10 && bytes[place].is_ascii_digit() {
        place += 1;
    }
    if place == from + 1 { None } else { Some(place) }
}

/// The offset after an offset.
#[inline(always)]
fn offset_end(bytes: &[u8], from: usize) -> Option<usize>
    requires { from + 6 ≤ length bytes.now }
    ensures { IfSome result (IsOffsetAt bytes.now from) }
{
    if bytes[from] == b'Z' {
        return Some(from + 1);
    }
    if is_sign(bytes[from])
        && is_digit_pair(bytes, from + 1)
        && bytes[from + 3] == b':'
        && is_digit_pair(bytes, from + 4)
        && two(bytes[from + 1], bytes[from + 2]) < 24
        && two(bytes[from + 4], bytes[from + 5]) < 60
    {
        return Some(from + 6);
    }
    None
}

/// Whether a byte is a plus or a minus.
#[inline(always)]
fn is_sign(byte: u8) -> bool
    ensures { IsTrue result → (byte ≡ 43) ⊎ (byte ≡ 45) }
{
    if byte == b'+' {
        return true;
    }
    byte == b'-'
}

/// Whether two bytes are digits.
#[inline(always)]
fn is_digit_pair(bytes: &[u8], from: usize) -> bool
    requires { from + 2 ≤ length bytes.now }
    ensures first { IsTrue result → (48 ≤ get_or bytes.now from 0) × (get_or bytes.now from 0 ≤ 57) }
    ensures second { IsTrue result → (48 ≤ get_or bytes.now (from + 1) 0) × (get_or bytes.now (from + 1) 0 ≤ 57) }
{
    bytes[from].is_ascii_digit() && bytes[from + 1].is_ascii_digit()
}

/// The offset after a moment in its quotes. Its clause says nothing of `None`.
#[inline(always)]
pub fn moment_end(line: &RoomyLine<'_>, place: usize) -> Option<usize>
    requires { place ≤ length line.now }
    ensures { IfSome result (IsLiteralAt line.now place (λ text. (moment : MomentParts) × MomentValue text moment)) }
{
    let bytes = line.bytes();
    if bytes[place] != b'"'
        || !are_minutes(bytes, place + 1)
        || !are_within(bytes, place + 17, SECONDS, SECONDS_SPANS)
    {
        return None;
    }
    let Some(offset) = fraction_end(bytes, place + 20) else {
        return None;
    };
    let Some(end) = offset_end(bytes, offset) else {
        return None;
    };
    if bytes[end] == b'"' {
        Some(end + 1)
    } else {
        None
    }
}

/// Which of sixteen bytes are hexadecimal digits: the first one is the lowest bit.
#[inline(always)]
fn hex_bits(bytes: &[u8], from: usize) -> u64
    requires { from + 16 ≤ length bytes.now }
    ensures { (k : ℕ) → k < 16 → result / 2 ^ k % 2 ≡ 1 → digit_value (get_or bytes.now (from + k) 0) < 16 }
{
    let lanes = u8x16::from_slice(&bytes[from..]);
    ((lanes - u8x16::splat(b'0')).simd_le(u8x16::splat(9))
        | (lanes - u8x16::splat(b'a')).simd_le(u8x16::splat(5))
        | (lanes - u8x16::splat(b'A')).simd_le(u8x16::splat(5))).to_bitmask()
}

/// Whether 36 bytes are a Guid.
#[inline(always)]
fn is_guid(bytes: &[u8], from: usize) -> bool
    requires { from + 36 ≤ length bytes.now }
    ensures { IsTrue result → IsGuidAt bytes.now from }
{
    let first = hex_bits(bytes, from);
    let second = hex_bits(bytes, from + 16);
    let third = hex_bits(bytes, from + 20);
    if first != 0xdeff || second != 0xff7b || third != 0xfff7 {
        return false;
    }
    if bytes[from + 8] != b'-' || bytes[from + 13] != b'-' || bytes[from + 18] != b'-' {
        return false;
    }
    bytes[from + 23] == b'-'
}

/// The offset after a Guid in its quotes. Its clause says nothing of `None`.
#[inline(always)]
pub fn guid_end(line: &RoomyLine<'_>, place: usize) -> Option<usize>
    requires { place ≤ length line.now }
    ensures { IfSome result (IsLiteralAt line.now place (λ text. (guid : List ℕ) × GuidValue text guid)) }
{
    let bytes = line.bytes();
    if bytes[place] == b'"' && bytes[place + 37] == b'"' && is_guid(bytes, place + 1) {
        Some(place + 38)
    } else {
        None
    }
}
