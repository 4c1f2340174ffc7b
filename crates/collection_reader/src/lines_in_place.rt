//! The lines of items, written over the bytes of their document.
ghost use Rattle.std.specs.Prelude.{ℕ, List, ◌≡◌, ◌+◌, ◌++◌, ◌<◌, ◌≤◌, ◌-◌, drop, length, slice_range, take};
ghost use Rattle.collection_reader.specs.declared.item_scan.Phase.{Phase};
ghost use Rattle.collection_reader.specs.private.ItemRuns.{mode_of};
ghost use Rattle.collection_reader.specs.private.ItemText.{HasRoom, Scanned, scanned, steps};
ghost use Rattle.collection_reader.specs.private.Written.{IsWritten};

use crate::document::Document;
use crate::item_run::pass_item;
use crate::item_scan::{ITEM_DEPTH, Phase};
use crate::nest::{Mode, Nest};

/// Moves the bytes between two offsets to one before them; the offset after them there.
fn move_back(bytes: &mut [u8], from: usize, end: usize, to: usize) -> usize
    requires order { (to ≤ from) × (from ≤ end) × (end ≤ length bytes.old) }
    ensures end { result ≡ to + (end - from) }
    ensures len { length bytes.new ≡ length bytes.old }
    ensures moved { take result bytes.new ≡ take to bytes.old ++ slice_range bytes.old from end }
    ensures rest { drop end bytes.new ≡ drop end bytes.old }
{
    if from <= to {
        return end;
    }
    bytes.copy_within(from..end, to);
    to + (end - from)
}

/// The mode of bytes that end in a text, or outside.
fn mode_of(in_text: bool) -> Mode
    ensures { result ≡ mode_of in_text }
{
    if in_text { Mode::Text } else { Mode::Outside }
}

/// Passes bytes of an item that go into its line as they are, from within its brackets; the offset after them.
#[inline(always)]
fn pass_within(document: &mut Document, bytes: &[u8], from: usize, in_text: bool) -> usize
    requires within { from ≤ length bytes.now }
    requires item { document.old.scan.phase ≡ Phase.Item }
    requires mode { document.old.scan.nest.mode ≡ mode_of in_text }
    requires some { 0 < document.old.scan.nest.depth }
    requires few { document.old.scan.nest.depth ≤ 125 }
    ensures within { (from ≤ result) × (result ≤ length bytes.now) }
    ensures passed { steps (scanned document.old) (slice_range bytes.now from result)
        ≡ record { scanned = scanned document.new; put = slice_range bytes.now from result } }
    ensures room { (count : ℕ) → HasRoom document.old count → HasRoom document.new count }
{
    let run = pass_item(bytes, from, document.scan.nest.depth, in_text);
    document.scan.nest = Nest {
        depth: run.depth,
        mode: mode_of(run.in_text),
    };
    run.end
}

/// The same by the mode: none are passed after a backslash.
#[inline(always)]
fn pass_in_mode(document: &mut Document, bytes: &[u8], from: usize) -> usize
    requires within { from ≤ length bytes.now }
    requires item { document.old.scan.phase ≡ Phase.Item }
    requires some { 0 < document.old.scan.nest.depth }
    requires few { document.old.scan.nest.depth ≤ 125 }
    ensures within { (from ≤ result) × (result ≤ length bytes.now) }
    ensures passed { steps (scanned document.old) (slice_range bytes.now from result)
        ≡ record { scanned = scanned document.new; put = slice_range bytes.now from result } }
    ensures room { (count : ℕ) → HasRoom document.old count → HasRoom document.new count }
{
    match document.scan.nest.mode {
        Mode::Outside => pass_within(document, bytes, from, false),
        Mode::Text => pass_within(document, bytes, from, true),
        Mode::Escape => from,
    }
}

/// The same from anywhere: none are passed outside an item's brackets.
#[inline(always)]
fn pass(document: &mut Document, bytes: &[u8], from: usize) -> usize
    requires within { from ≤ length bytes.now }
    ensures within { (from ≤ result) × (result ≤ length bytes.now) }
    ensures passed { steps (scanned document.old) (slice_range bytes.now from result)
        ≡ record { scanned = scanned document.new; put = slice_range bytes.now from result } }
    ensures room { (count : ℕ) → HasRoom document.old count → HasRoom document.new count }
{
    let depth = document.scan.nest.depth;
    if depth == 0 {
        return from;
    }
    if depth > ITEM_DEPTH {
        return from;
    }
    match document.scan.phase {
        Phase::Item => pass_in_mode(document, bytes, from),
        _ => from,
    }
}

/// Up to where lines are written at the front of the bytes, and from where bytes stand that go on with them.
#[derive(Clone, Copy)]
struct Window {
    to: usize,
    kept: usize,
}

/// Takes one byte: writes what is put for it over it, or moves those before it to the front.
#[inline(always)]
fn take_one(document: &mut Document, bytes: &mut [u8], window: Window, from: usize) -> Window
    requires within { from < length bytes.old }
    requires order { (window.to ≤ window.kept) × (window.kept ≤ from) }
    requires room { HasRoom document.old 1 }
    ensures len { length bytes.new ≡ length bytes.old }
    ensures written { (s : Scanned) (first : List ℕ)
        → IsWritten s first bytes.old (scanned document.old) window.to window.kept from
        → IsWritten s first bytes.new (scanned document.new) result.to result.kept (from + 1) }
    ensures room { (count : ℕ) → HasRoom document.old (count + 1) → HasRoom document.new count }
{
    let byte = bytes[from];
    match document.take(byte) {
        Some(put) => {
            bytes[from] = put;
            window
        }
        None => Window {
            to: move_back(bytes, window.kept, from, window.to),
            kept: from + 1,
        },
    }
}

/// Writes the lines of the items over the first bytes, as many as were read of the document; how many bytes these are.
pub(crate) fn rewrite(document: &mut Document, bytes: &mut [u8], count: usize) -> usize
    requires within { count ≤ length bytes.old }
    requires room { HasRoom document.old count }
    ensures len { length bytes.new ≡ length bytes.old }
    ensures few { result ≤ count }
    ensures scanned { scanned document.new ≡ (steps (scanned document.old) (take count bytes.old)).scanned }
    ensures put { take result bytes.new ≡ (steps (scanned document.old) (take count bytes.old)).put }
{
    let mut window = Window { to: 0, kept: 0 };
    let mut from = 0;
    while from < count {
        from = pass(document, &bytes[..count], from);
        if from < count {
            window = take_one(document, bytes, window, from);
            from += 1;
        }
    }
    move_back(bytes, window.kept, count, window.to)
}
