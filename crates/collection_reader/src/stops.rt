//! Bytes of an item that may change where it ends, sixteen bytes at a time.
ghost use Rattle.std.specs.Prelude.{◌≡◌, map};
ghost use Rattle.std.specs.Simd.Lanes.{mask_l};
ghost use Rattle.collection_reader.specs.private.PlainBytes.{is_stop};

use std::simd::prelude::*;

/// Which of sixteen bytes are quotes, backslashes, brackets, braces or control characters: the first one is the lowest
/// bit.
#[inline(always)]
pub(crate) fn stops_16(lanes: u8x16) -> u64
    ensures { result ≡ mask_l (map is_stop lanes) }
{
    (lanes.simd_eq(u8x16::splat(b'"'))
        | lanes.simd_eq(u8x16::splat(b'\\'))
        | lanes.simd_eq(u8x16::splat(b'{'))
        | lanes.simd_eq(u8x16::splat(b'['))
        | lanes.simd_eq(u8x16::splat(b'}'))
        | lanes.simd_eq(u8x16::splat(b']'))
        | lanes.simd_lt(u8x16::splat(0x20))).to_bitmask()
}
