//! Bytes of a text that stand for themselves, where nothing need follow the text.
ghost use Rattle.std.specs.Prelude.{◌≡◌, ◌+◌, ◌≤◌, length, get_or, map, None, IfSome};
ghost use Rattle.std.specs.Simd.Lanes.{mask_l};
ghost use Rattle.json.specs.Run.{is_stop};
ghost use Rattle.json.specs.Written.{PlainBetween};

use std::simd::prelude::*;

/// The byte at an offset, or a space past the end.
#[inline(always)]
pub(crate) fn byte_at(bytes: &[u8], place: usize) -> u8
    ensures { result ≡ get_or bytes.now place 32 }
{
    if place < bytes.len() {
        bytes[place]
    } else {
        b' '
    }
}

/// Which of sixteen bytes are quotes, backslashes or control characters: the first one is the lowest bit.
#[inline(always)]
fn stops_16(lanes: u8x16) -> u64
    ensures { result ≡ mask_l (map is_stop lanes) }
{
    (lanes.simd_eq(u8x16::splat(b'"'))
        | lanes.simd_eq(u8x16::splat(b'\\'))
        | lanes.simd_lt(u8x16::splat(0x20))).to_bitmask()
}

/// The same of eight bytes.
#[inline(always)]
fn stops_8(lanes: u8x8) -> u64
    ensures { result ≡ mask_l (map is_stop lanes) }
{
    (lanes.simd_eq(u8x8::splat(b'"'))
        | lanes.simd_eq(u8x8::splat(b'\\'))
        | lanes.simd_lt(u8x8::splat(0x20))).to_bitmask()
}

/// How many of sixteen bytes stand before the first quote, backslash or control character; none where all are plain,
/// which is asked before they are counted: that saves two instructions.
#[inline(always)]
fn plain_run_16(bytes: &[u8], place: usize) -> Option<usize>
    requires { place + 16 ≤ length bytes.now }
    ensures few { IfSome result (λ run. run ≤ 16) }
    ensures plain { IfSome result (λ run. PlainBetween bytes.now place (place + run)) }
    ensures all { result ≡ None → PlainBetween bytes.now place (place + 16) }
{
    let stops = stops_16(u8x16::from_slice(&bytes[place..]));
    if stops == 0 {
        None
    } else {
        Some(stops.trailing_zeros() as usize)
    }
}

/// The same of eight bytes: eight where all are plain.
#[inline(always)]
fn plain_run_8(bytes: &[u8], place: usize) -> usize
    requires { place + 8 ≤ length bytes.now }
    ensures few { result ≤ 8 }
    ensures plain { PlainBetween bytes.now place (place + result) }
{
    let stops = stops_8(u8x8::from_slice(&bytes[place..]));
    if stops == 0 {
        8
    } else {
        stops.trailing_zeros() as usize
    }
}

/// The first offset from there on with a quote, a backslash or a control character.
#[inline(always)]
fn plain_end_slowly(bytes: &[u8], from: usize) -> usize
    requires { from ≤ length bytes.now }
    ensures bounds { (from ≤ result) × (result ≤ length bytes.now) }
    ensures plain { PlainBetween bytes.now from result }
{
    let mut place = from;
    while place < bytes.len()
        && (bytes[place] != b'"') & (bytes[place] != b'\\') & (bytes[place] >= 0x20)
    {
        place += 1;
    }
    place
}

/// The same, where fewer than sixteen bytes are left.
#[inline(never)]
fn plain_end_of_few(bytes: &[u8], from: usize) -> usize
    requires { from ≤ length bytes.now }
    ensures bounds { (from ≤ result) × (result ≤ length bytes.now) }
    ensures plain { PlainBetween bytes.now from result }
{
    if bytes.len() - from < 8 {
        return plain_end_slowly(bytes, from);
    }
    let run = plain_run_8(bytes, from);
    if run < 8 {
        return from + run;
    }
    plain_end_slowly(bytes, from + 8)
}

/// The same, sixteen bytes at a time.
#[inline(always)]
pub(crate) fn plain_end(bytes: &[u8], from: usize) -> usize
    requires { from ≤ length bytes.now }
    ensures bounds { (from ≤ result) × (result ≤ length bytes.now) }
    ensures plain { PlainBetween bytes.now from result }
{
    let mut place = from;
    while bytes.len() - place >= 16 {
        if let Some(run) = plain_run_16(bytes, place) {
            return place + run;
        }
        place += 16;
    }
    plain_end_of_few(bytes, place)
}
