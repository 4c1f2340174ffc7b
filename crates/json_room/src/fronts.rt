//! The first bytes of a word, of which sixteen are compared at once.
ghost use Rattle.std.specs.Prelude.{◌≡◌, ℕ, ◌<◌, ◌≤◌, length, get_or, IsTrue};

use std::simd::prelude::*;

/// The first sixteen bytes of a word, with zeros where it has fewer.
pub fn front_of(word: &[u8]) -> [u8; 16]
    ensures long { length result ≡ 16 }
    ensures first { (k : ℕ) → k < 16 → k < length word.now → get_or result k 0 ≡ get_or word.now k 0 }
    ensures rest { (k : ℕ) → length word.now ≤ k → get_or result k 0 ≡ 0 }
{
    let mut front = [0; 16];
    for k in 0..word.len().min(16) {
        front[k] = word[k];
    }
    front
}

/// All bits of so many bytes, at most sixteen, and none of the others.
pub fn mask_of(count: usize) -> [u8; 16]
    ensures long { length result ≡ 16 }
    ensures first { (k : ℕ) → k < 16 → k < count → get_or result k 0 ≡ 255 }
    ensures rest { (k : ℕ) → count ≤ k → get_or result k 0 ≡ 0 }
{
    let mut mask = [0; 16];
    for k in 0..count.min(16) {
        mask[k] = 0xff;
    }
    mask
}

/// The bytes of a word of at most sixteen, with zeros after them; of a longer one, bytes that none are under its mask.
pub(crate) fn whole_front(word: &[u8]) -> [u8; 16]
    ensures word { length word.now ≤ 16 → (k : ℕ) → k < length word.now → get_or result k 0 ≡ get_or word.now k 0 }
    ensures never { 16 < length word.now → get_or result 0 0 ≡ 1 }
{
    if word.len() > 16 {
        return never_front();
    }
    front_of(word)
}

/// The same with a space after the word.
pub(crate) fn spaced_front(word: &[u8]) -> [u8; 16]
    ensures word { length word.now < 16 → (k : ℕ) → k < length word.now → get_or result k 0 ≡ get_or word.now k 0 }
    ensures space { length word.now < 16 → get_or result (length word.now) 0 ≡ 32 }
    ensures never { 16 ≤ length word.now → get_or result 0 0 ≡ 1 }
{
    let end = word.len();
    if end >= 16 {
        return never_front();
    }
    with_space(front_of(word), end)
}

/// The first bytes of a word that ends there, with a space after it.
fn with_space(front: [u8; 16], end: usize) -> [u8; 16]
    ensures word { (k : ℕ) → k < end → get_or result k 0 ≡ get_or front k 0 }
    ensures space { end < 16 → get_or result end 0 ≡ 32 }
{
    let mut spaced = front;
    if end < 16 {
        spaced[end] = b' ';
    }
    spaced
}

/// All bits of so many bytes; none where they are more than sixteen.
pub(crate) fn whole_mask(count: usize) -> [u8; 16]
    ensures word { count ≤ 16 → (k : ℕ) → k < count → get_or result k 0 ≡ 255 }
    ensures never { 16 < count → get_or result 0 0 ≡ 0 }
{
    if count > 16 {
        return [0; 16];
    }
    mask_of(count)
}

/// Sixteen bytes that none are under a mask without bits.
fn never_front() -> [u8; 16]
    ensures { get_or result 0 0 ≡ 1 }
{
    let mut front = [0; 16];
    front[0] = 1;
    front
}

/// Whether sixteen bytes are these, where the mask has all bits. Its clauses say nothing of false.
#[inline(always)]
pub fn are_front(lanes: u8x16, mask: u8x16, front: u8x16) -> bool
    ensures same { IsTrue result → (k : ℕ) → k < 16 → get_or mask k 0 ≡ 255 → get_or lanes k 0 ≡ get_or front k 0 }
    ensures never { IsTrue result → get_or mask 0 0 ≡ 0 → get_or front 0 0 ≡ 0 }
{
    are_equal_16(lanes & mask, front)
}

#[inline(always)]
fn are_equal_16(lanes: u8x16, others: u8x16) -> bool
    ensures { IsTrue result → lanes ≡ others }
{
    lanes.simd_eq(others).to_bitmask() == 0xffff
}
