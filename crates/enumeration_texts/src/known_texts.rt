//! Short texts that were found to be some of an enumeration.
ghost use Rattle.std.specs.Prelude.{◌≡◌, ℕ, ◌<◌, ◌≤◌, length, get_or, IfSome, IsTrue};
ghost use Rattle.csdl_schema.specs.SchemaModel.{SchemaModel};
ghost use Rattle.json.specs.Written.{PlainBetween};
ghost use Rattle.enumeration_texts.specs.EnumerationTexts.{AreOfEnumerations, IsMemberTextAt};
ghost use Rattle.enumeration_texts.specs.private.KnownTexts.{IsOfItsOwn, IsSpelled};

use csdl_schema::{EnumId, Schema};
use json_room::{RoomyLine, are_front, front_of, mask_of, text_at};
use std::alloc::Global;
use std::marker::Model;
use std::simd::prelude::*;

/// How many texts are stored.
const KNOWN: usize = 32;

/// A text of so many bytes or more is not stored.
const TOO_LONG: usize = 16;

/// A short text that was looked up in an enumeration, and how long it is.
#[derive(Clone, Copy, Drop)]
pub struct NotedText {
    pub id: EnumId,
    pub length: usize,
    pub text: [u8; 16],
}

impl NotedText {
    /// Returns the text without escapes whose quote stands there, with the id of its enumeration. It has no clause:
    /// which texts are noted makes no difference. It is `None` for texts of 16 bytes and more.
    pub fn of(id: EnumId, line: &RoomyLine<'_>, offset: usize) -> Option<NotedText>
        requires { offset ≤ length line.now }
    {
        let Some((text, _)) = text_at(line, offset) else {
            return None;
        };
        if text.len() >= TOO_LONG {
            return None;
        }
        Some(NotedText {
            id,
            length: text.len(),
            text: u8x16::from_slice(&line.bytes()[offset + 1..]).to_array(),
        })
    }
}

/// A short text that was found to be one of an enumeration, with the quote after it.
#[derive(Clone, Copy, Drop)]
struct KnownText {
    id: Option<EnumId>,
    /// How many bytes it has without its quote; `TOO_LONG` where none is stored.
    length: usize,
    front: [u8; 16],
    /// All bits of each byte of the text and of its quote.
    mask: [u8; 16],
}

/// Short texts, each of which is one of its enumeration.
#[derive(Drop)]
pub struct KnownTexts {
    /// Without entries until the first is stored.
    stored: Vec<KnownText>,
}

impl Model for KnownTexts {
    ghost use Rattle.std.specs.Prelude.{ℕ, List};
    ghost use Rattle.std.specs.Coded.{coded×, coded_list, coded_ℕ};
    ghost use Rattle.enumeration_texts.specs.private.KnownTexts.{AreSpelled, stored_texts};

    ghost Value = { List (ℕ × List ℕ) };

    ghost coded = { coded_list (coded× coded_ℕ (coded_list coded_ℕ)) };

    ghost view = { λ s. stored_texts s.stored.items };

    ghost invariant = { λ s. AreSpelled s.stored.items };
}

impl KnownTexts {
    /// Creates a list of no texts.
    #[inline(always)]
    pub fn new(alloc: Global) -> KnownTexts
        ensures { (schema : SchemaModel) → AreOfEnumerations schema result }
    {
        KnownTexts {
            stored: Vec::new(alloc),
        }
    }

    /// Returns the offset after the text that stands there, if it was put here for that enumeration. Its clause says
    /// nothing of `None`.
    #[inline(always)]
    pub fn text_end(&self, id: Option<EnumId>, line: &RoomyLine<'_>, offset: usize) -> Option<usize>
        requires { offset ≤ length line.now }
        ensures { (schema : SchemaModel) → AreOfEnumerations schema self.now
            → IfSome result (IsMemberTextAt schema id line.now offset) }
    {
        let bytes = line.bytes();
        if bytes[offset] != b'"' {
            return None;
        }
        let lanes = u8x16::from_slice(&bytes[offset + 1..]);
        let stored = self.stored.as_slice();
        let index = index_of(bytes[offset + 1], before_quote(lanes));
        if index >= stored.len() {
            return None;
        }
        let known = &stored[index];
        if known.length < TOO_LONG
            && known.id == id
            && are_front(
                lanes,
                u8x16::from_array(known.mask),
                u8x16::from_array(known.front),
            )
        {
            Some(offset + known.length + 2)
        } else {
            None
        }
    }

    /// Puts a text that was noted here, if it is one of its enumeration. Nothing is put out of memory.
    #[inline(never)]
    pub fn put(&mut self, schema: &Schema, noted: &NotedText)
        requires { AreOfEnumerations schema.now self.old }
        ensures { AreOfEnumerations schema.now self.new }
    {
        let none = KnownText {
            id: None,
            length: TOO_LONG,
            front: [0; 16],
            mask: [0; 16],
        };
        if let Some(known) = known_text(schema, noted) {
            if self.stored.resize(KNOWN, none).is_ok() {
                self.stored[index_of(known.front[0], known.length)] = known;
            }
        }
    }
}

/// The index of a text that begins with that byte and has so many.
#[inline(always)]
fn index_of(first: u8, length: usize) -> usize
    requires { length ≤ 64 }
    ensures { result < 32 }
{
    (first as usize + length * 7) % KNOWN
}

/// How many of sixteen bytes stand before the first quote; 64 where none is one.
#[inline(always)]
fn before_quote(lanes: u8x16) -> usize
    ensures { result ≤ 64 }
{
    lanes
        .simd_eq(u8x16::splat(b'"'))
        .to_bitmask()
        .trailing_zeros() as usize
}

/// What is stored of a text that was noted; none where it is no text of its enumeration.
fn known_text(schema: &Schema, noted: &NotedText) -> Option<KnownText>
    ensures known { IfSome result (IsOfItsOwn schema.now) }
    ensures spelled { IfSome result IsSpelled }
    ensures short { IfSome result (λ known. known.length < 16) }
{
    if noted.length >= TOO_LONG || !is_plain_text(&noted.text, noted.length) {
        return None;
    }
    let Ok(text) = str::from_utf8(&noted.text[..noted.length]) else {
        return None;
    };
    if schema.enum_value(noted.id, text).is_none() {
        return None;
    }
    Some(KnownText {
        id: Some(noted.id),
        length: noted.length,
        front: front_of(&noted.text[..noted.length + 1]),
        mask: mask_of(noted.length + 1),
    })
}

/// Whether so many bytes have no quote, backslash or control character, and a quote follows them.
fn is_plain_text(bytes: &[u8; 16], count: usize) -> bool
    requires { count < 16 }
    ensures plain { IsTrue result → PlainBetween bytes.now 0 count }
    ensures quote { IsTrue result → get_or bytes.now count 0 ≡ 34 }
{
    for k in 0..count {
        if bytes[k] == b'"' || bytes[k] == b'\\' || bytes[k] < 0x20 {
            return false;
        }
    }
    bytes[count] == b'"'
}
