//! A member's name as it is spelled in a line (RFC 8259, sections 4 and 7).
ghost use Rattle.std.specs.Prelude.{◌≡◌, ℕ, ◌+◌, ◌<◌, ◌≤◌, ◌^◌, length, IfSome, IsTrue};
ghost use Rattle.json_room.specs.Keys.{name_with_colon, spaced_name};
ghost use Rattle.json_room.specs.LexemesAt.{BeginsKey};
ghost use Rattle.json_room.specs.private.SpelledKey.{StandsByte};

use super::blanks::past_blanks;
use super::fronts::{are_front, spaced_front, whole_front, whole_mask};
use super::key::Key;
use super::roomy_line::RoomyLine;
use std::alloc::Global;
use std::marker::Model;
use std::simd::prelude::*;

/// A name with its quotes and its colon. Sixteen bytes are compared at once, with a mask.
#[derive(Drop)]
pub struct SpelledKey {
    key: Key,
    /// All its bytes if they are at most sixteen; else bytes that none are under the mask.
    front: [u8; 16],
    mask: [u8; 16],
    length: usize,
    /// The same with a space after the colon.
    spaced_front: [u8; 16],
    spaced_mask: [u8; 16],
    spaced_length: usize,
}

impl Model for SpelledKey {
    ghost use Rattle.std.specs.Prelude.{ℕ, List, string_bytes};
    ghost use Rattle.std.specs.Coded.{coded_list, coded_ℕ};
    ghost use Rattle.json_room.specs.SpelledKey.{IsSpelled};

    ghost Value = { List ℕ };

    ghost coded = { coded_list coded_ℕ };

    ghost view = { λ k. k.key };

    ghost invariant = { IsSpelled };
}

impl SpelledKey {
    /// Creates the key of a name. It is `None` where the name has quotes, backslashes or control characters, or out of
    /// memory. Its clause says nothing of `None`.
    pub fn new(alloc: Global, name: &str) -> Option<SpelledKey>
        ensures { IfSome result (λ key. key ≡ name.now) }
    {
        let Some(key) = Key::new(alloc, name) else {
            return None;
        };
        let spelled = key.with_colon();
        let length = spelled.len();
        let front = whole_front(spelled);
        let mask = whole_mask(length);
        let spaced = spaced_front(spelled);
        let spaced_length = length + 1;
        let spaced_mask = whole_mask(spaced_length);
        Some(SpelledKey {
            key,
            front,
            mask,
            length,
            spaced_front: spaced,
            spaced_mask,
            spaced_length,
        })
    }

    /// The offset after the name, its quotes and its colon, if these begin there. Its clauses say nothing of `None`.
    #[inline(always)]
    pub fn end(&self, line: &RoomyLine<'_>, place: usize) -> Option<usize>
        requires { place ≤ length line.now }
        ensures name { IfSome result (BeginsKey line.now place self.now) }
        ensures further { IfSome result (λ to. place < to) }
    {
        if self.front_stands(line, place) {
            return Some(place + self.length);
        }
        if self.length <= 16 {
            return None;
        }
        self.long_end(line, place)
    }

    /// The same of a name with more than sixteen bytes.
    #[inline(never)]
    fn long_end(&self, line: &RoomyLine<'_>, place: usize) -> Option<usize>
        requires { place ≤ length line.now }
        ensures name { IfSome result (BeginsKey line.now place self.now) }
        ensures further { IfSome result (λ to. place < to) }
    {
        if !self.first_stand(line, place) || !self.back_stands(line, place) {
            return None;
        }
        Some(place + self.length)
    }

    /// The offset after the name, its quotes, its colon and a space, if these begin there. Its clauses say nothing of
    /// `None`.
    #[inline(always)]
    pub fn spaced_end(&self, line: &RoomyLine<'_>, place: usize) -> Option<usize>
        requires { place ≤ length line.now }
        ensures name { IfSome result (BeginsKey line.now place self.now) }
        ensures further { IfSome result (λ to. place < to) }
    {
        if self.spaced_front_stands(line, place) {
            return Some(place + self.spaced_length);
        }
        if self.length < 16 {
            return None;
        }
        self.long_spaced_end(line, place)
    }

    /// The same of a long name, which is compared again.
    #[inline(never)]
    fn long_spaced_end(&self, line: &RoomyLine<'_>, place: usize) -> Option<usize>
        requires { place ≤ length line.now }
        ensures name { IfSome result (BeginsKey line.now place self.now) }
        ensures further { IfSome result (λ to. place < to) }
    {
        let Some(end) = self.end(line, place) else {
            return None;
        };
        if line.byte(end) != b' ' {
            return None;
        }
        Some(end + 1)
    }

    /// The offset after the name, its quotes and its colon, where white space may come before the colon. Its clauses
    /// say nothing of `None`.
    #[inline(never)]
    pub fn end_before_blanks(&self, line: &RoomyLine<'_>, place: usize) -> Option<usize>
        requires { place ≤ length line.now }
        ensures name { IfSome result (BeginsKey line.now place self.now) }
        ensures further { IfSome result (λ to. place < to) }
    {
        let quoted = self.key.quoted();
        if !word_stands(line, place, quoted, 0) {
            return None;
        }
        let colon = past_blanks(line, place + quoted.len());
        if line.byte(colon) != b':' {
            return None;
        }
        Some(colon + 1)
    }

    /// Whether the bytes after the first sixteen are there, if there are any.
    #[inline(always)]
    fn back_stands(&self, line: &RoomyLine<'_>, place: usize) -> bool
        requires { place ≤ length line.now }
        ensures { IsTrue result → (k : ℕ) → 16 ≤ k → StandsByte line.now place (name_with_colon self.now) k }
    {
        if self.length <= 16 {
            return true;
        }
        let spelled = self.key.with_colon();
        word_stands(line, place, spelled, 16)
    }

    /// Whether the first sixteen bytes are there.
    #[inline(always)]
    fn first_stand(&self, line: &RoomyLine<'_>, place: usize) -> bool
        requires { place ≤ length line.now }
        ensures stands { IsTrue result → (k : ℕ) → k < 16 → StandsByte line.now place (name_with_colon self.now) k }
        ensures short { length line.now + 64 < 2 ^ 63 }
    {
        let bytes = line.bytes();
        let spelled = self.key.with_colon();
        if spelled.len() < 16 {
            return false;
        }
        are_front(
            u8x16::from_slice(&bytes[place..]),
            u8x16::splat(0xff),
            u8x16::from_slice(spelled),
        )
    }

    /// Whether all bytes are there, where they are at most sixteen.
    #[inline(always)]
    fn front_stands(&self, line: &RoomyLine<'_>, place: usize) -> bool
        requires { place ≤ length line.now }
        ensures stands { IsTrue result → (k : ℕ) → StandsByte line.now place (name_with_colon self.now) k }
        ensures short { length line.now + 64 < 2 ^ 63 }
    {
        let bytes = line.bytes();
        let lanes = u8x16::from_slice(&bytes[place..]);
        are_front(
            lanes,
            u8x16::from_array(self.mask),
            u8x16::from_array(self.front),
        )
    }

    /// The same with a space after the colon.
    #[inline(always)]
    fn spaced_front_stands(&self, line: &RoomyLine<'_>, place: usize) -> bool
        requires { place ≤ length line.now }
        ensures stands { IsTrue result → (k : ℕ) → StandsByte line.now place (spaced_name self.now) k }
        ensures short { length line.now + 64 < 2 ^ 63 }
    {
        let bytes = line.bytes();
        let lanes = u8x16::from_slice(&bytes[place..]);
        are_front(
            lanes,
            u8x16::from_array(self.spaced_mask),
            u8x16::from_array(self.spaced_front),
        )
    }
}

/// Whether the bytes of a word from that index on are there, where the word begins at an offset.
#[inline(never)]
fn word_stands(line: &RoomyLine<'_>, place: usize, word: &[u8], from: usize) -> bool
    requires { place ≤ length line.now }
    ensures stands { IsTrue result → (k : ℕ) → from ≤ k → StandsByte line.now place word.now k }
    ensures short { length line.now < 2 ^ 63 }
{
    let length = line.text().len();
    for k in from..word.len() {
        if k > length - place || line.byte(place + k) != word[k] {
            return false;
        }
    }
    true
}
