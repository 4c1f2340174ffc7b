//! Many bytes of an item at once.
ghost use Rattle.std.specs.Prelude.{◌≡◌, ◌∷◌, ◌+◌, ◌<◌, ◌≤◌, [], length, slice_range, IfSome};
ghost use Rattle.collection_reader.specs.private.ItemRuns.{PassesTo, depth_after, is_bracket, is_turn, text_after};

use crate::item_scan::ITEM_DEPTH;
use crate::stops::stops_16;
use std::simd::prelude::*;

/// How many bytes are looked at together.
const BLOCK: usize = 16;

/// How far bytes of an item were passed, and where they end: how many brackets and braces are open, and whether in a
/// text.
#[derive(Clone, Copy)]
pub(crate) struct Run {
    pub(crate) end: usize,
    pub(crate) depth: u8,
    pub(crate) in_text: bool,
}

/// Where bytes of an item end.
#[derive(Clone, Copy)]
struct Ends {
    depth: u8,
    in_text: bool,
}

/// Whether a byte is a bracket or a brace.
#[inline(always)]
fn is_bracket(byte: u8) -> bool
    ensures { result ≡ is_bracket byte }
{
    (byte == b'{') | (byte == b'[') | (byte == b'}') | (byte == b']')
}

/// How many brackets and braces are open after a byte.
#[inline(always)]
fn depth_after(depth: u8, in_text: bool, byte: u8) -> u8
    requires some { 0 < depth }
    requires few { depth ≤ 125 }
    ensures { result ≡ depth_after depth in_text byte }
{
    if in_text {
        depth
    } else if (byte == b'{') | (byte == b'[') {
        depth + 1
    } else if (byte == b'}') | (byte == b']') {
        depth - 1
    } else {
        depth
    }
}

/// Whether bytes end in a text with one more that no backslash stands before.
#[inline(always)]
fn text_after(in_text: bool, byte: u8) -> bool
    ensures { result ≡ text_after in_text byte }
{
    if byte == b'"' { !in_text } else { in_text }
}

/// Whether a byte is a quote, a bracket or a brace.
#[inline(always)]
fn is_turn(byte: u8) -> bool
    ensures { result ≡ is_turn byte }
{
    (byte == b'"') | is_bracket(byte)
}

/// Where bytes of an item end with one more that is no plain one. `None` where it must be looked at by itself: it
/// closes the item, opens too many, or is no quote, bracket or brace.
#[inline(always)]
fn ends_after(depth: u8, in_text: bool, byte: u8) -> Option<Ends>
    requires some { 0 < depth }
    requires few { depth ≤ 125 }
    ensures { IfSome result (λ ends. PassesTo depth in_text (byte ∷ []) ends.depth ends.in_text) }
{
    if !is_turn(byte) {
        return None;
    }
    let nested = depth_after(depth, in_text, byte);
    if nested == 0 {
        return None;
    }
    if nested > ITEM_DEPTH {
        return None;
    }
    Some(Ends {
        depth: nested,
        in_text: text_after(in_text, byte),
    })
}

/// Passes sixteen bytes of an item, or those before one that must be looked at by itself.
#[inline(always)]
fn pass_block(bytes: &[u8], from: usize, depth: u8, in_text: bool) -> Run
    requires within { from + 16 ≤ length bytes.now }
    requires some { 0 < depth }
    requires few { depth ≤ 125 }
    ensures within { (from ≤ result.end) × (result.end ≤ from + 16) }
    ensures passes { PassesTo depth in_text (slice_range bytes.now from result.end) result.depth result.in_text }
{
    let block = from + BLOCK;
    let mut stops = stops_16(u8x16::from_slice(&bytes[from..]));
    let mut end = from;
    let mut nested = depth;
    let mut is_text = in_text;
    while stops != 0 {
        let run = stops.trailing_zeros();
        let at = end + run as usize;
        if at >= block {
            break;
        }
        let Some(ends) = ends_after(nested, is_text, bytes[at]) else {
            return Run {
                end: at,
                depth: nested,
                in_text: is_text,
            };
        };
        nested = ends.depth;
        is_text = ends.in_text;
        stops = stops >> (run + 1);
        end = at + 1;
    }
    Run {
        end: block,
        depth: nested,
        in_text: is_text,
    }
}

/// Passes bytes of an item, of which so many brackets and braces are open, up to one that must be looked at by itself,
/// or to the last sixteen.
#[inline(always)]
pub(crate) fn pass_item(bytes: &[u8], from: usize, depth: u8, in_text: bool) -> Run
    requires within { from ≤ length bytes.now }
    requires some { 0 < depth }
    requires few { depth ≤ 125 }
    ensures within { (from ≤ result.end) × (result.end ≤ length bytes.now) }
    ensures passes { PassesTo depth in_text (slice_range bytes.now from result.end) result.depth result.in_text }
{
    let mut end = from;
    let mut nested = depth;
    let mut is_text = in_text;
    while bytes.len() - end >= BLOCK {
        let run = pass_block(bytes, end, nested, is_text);
        let block = end + BLOCK;
        end = run.end;
        nested = run.depth;
        is_text = run.in_text;
        if end < block {
            break;
        }
    }
    Run {
        end,
        depth: nested,
        in_text: is_text,
    }
}
