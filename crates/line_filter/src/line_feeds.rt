//! Line feeds, sixty-four bytes at a time.
ghost use Rattle.std.specs.Prelude.{◌≡◌, ◌≤◌, length, map, MatchOption, IfSome, IsTrue};
ghost use Rattle.std.specs.Simd.Lanes.{mask_l};
ghost use Rattle.memchr.specs.Find.{IsFirst, NoneBefore, Nowhere, Passes, is_byte};
ghost use Rattle.line_filter.specs.private.Ascii.{AsciiBetween, is_beyond};

use memchr::memchr;
use std::simd::prelude::*;

/// Which of sixty-four bytes are LFs: the first one is the lowest bit.
#[inline(always)]
fn feeds_64(lanes: u8x64) -> u64
    ensures { result ≡ mask_l (map (is_byte 10) lanes) }
{
    lanes.simd_eq(u8x64::splat(b'\n')).to_bitmask()
}

/// Which of sixty-four bytes are beyond ASCII.
#[inline(always)]
fn beyond_64(lanes: u8x64) -> u64
    ensures { result ≡ mask_l (map is_beyond lanes) }
{
    lanes.simd_ge(u8x64::splat(0x80)).to_bitmask()
}

/// The first LF from one offset up to another, and whether all bytes before it are seen to be of ASCII. The last bytes,
/// fewer than sixty-four, are searched for the LF alone, so at an LF among them it is false.
#[inline(always)]
pub(crate) fn first_line_feed(bytes: &[u8], from: usize, to: usize) -> Option<(usize, bool)>
    requires { (from ≤ to) × (to ≤ length bytes.now) }
    ensures first { MatchOption result (Nowhere (Passes (is_byte 10) bytes.now) from to)
        (λ found. NoneBefore (Passes (is_byte 10) bytes.now) from to found.0 × Passes (is_byte 10) bytes.now found.0) }
    ensures ascii { IfSome result (λ found. IsTrue found.1 → AsciiBetween bytes.now from found.0) }
{
    let mut offset = from;
    let mut is_ascii = true;
    while to - offset >= 64 {
        let lanes = u8x64::from_slice(&bytes[offset..]);
        let feeds = feeds_64(lanes);
        let beyond = beyond_64(lanes);
        if feeds != 0 {
            let count = feeds.trailing_zeros();
            return Some((
                offset + count as usize,
                is_ascii & (beyond.trailing_zeros() >= count),
            ));
        }
        is_ascii = is_ascii & (beyond == 0);
        offset += 64;
    }
    match line_feed_of_few(bytes, offset, to) {
        Some(feed) => Some((feed, false)),
        None => None,
    }
}

/// The first LF from one offset up to another.
#[inline(never)]
pub(crate) fn line_feed_of_few(bytes: &[u8], from: usize, to: usize) -> Option<usize>
    requires { (from ≤ to) × (to ≤ length bytes.now) }
    ensures { IsFirst (Passes (is_byte 10) bytes.now) from to result }
{
    match memchr(b'\n', &bytes[from..to]) {
        Some(count) => Some(from + count),
        None => None,
    }
}
