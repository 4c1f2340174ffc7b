//! Names of members that were found to be of no property of a type.
ghost use Rattle.std.specs.Prelude.{◌≡◌, ◌<◌, ◌≤◌, length, IfSome};
ghost use Rattle.csdl_schema.specs.SchemaModel.{SchemaModel, properties_at};
ghost use Rattle.expected_members.specs.Undeclared.{AreUndeclared, HasNoProperty, NamesNoProperty};
ghost use Rattle.expected_members.specs.private.StoredNames.{type_and_name};

use csdl_schema::{Schema, TypeId};
use json_room::{RoomyLine, SpelledKey, text_at};
use std::alloc::Global;
use std::marker::Model;
use std::simd::prelude::*;

/// How many names are stored at most.
const MOST_NAMES: usize = 64;

/// A name of so many bytes or more is not stored.
const TOO_LONG: usize = 32;

/// What stands for no index of a name.
const NO_NAME: u8 = u8::MAX;

/// A short name that was looked up in a type, and how long it is.
#[derive(Clone, Copy, Drop)]
pub struct NotedName {
    pub type_id: TypeId,
    pub length: usize,
    pub text: [u8; 32],
}

impl NotedName {
    /// Returns the name without escapes whose quote stands there. It has no clause: which names are noted makes no
    /// difference. It is `None` for names of 32 bytes and more.
    pub fn of(type_id: TypeId, line: &RoomyLine<'_>, offset: usize) -> Option<NotedName>
        requires { offset ≤ length line.now }
    {
        let Some((name, _)) = text_at(line, offset) else {
            return None;
        };
        if name.len() >= TOO_LONG {
            return None;
        }
        Some(NotedName {
            type_id,
            length: name.len(),
            text: u8x32::from_slice(&line.bytes()[offset + 1..]).to_array(),
        })
    }

    /// Its entry in the table of indexes.
    fn entry(&self) -> usize
        ensures { result < 64 }
    {
        if self.length == 0 || self.length >= TOO_LONG {
            return entry_of(b'"', b'"', 0);
        }
        entry_of(self.text[0], self.text[self.length - 1], self.length)
    }
}

/// The entry of names with these ends and so many bytes.
#[inline(always)]
fn entry_of(first: u8, last: u8, length: usize) -> usize
    requires { length < 32 }
    ensures { result < 64 }
{
    (first as usize + last as usize * 3 + length * 7) % MOST_NAMES
}

/// How many of 32 bytes stand before the first quote; 64 where none is one.
#[inline(always)]
fn before_quote(lanes: u8x32) -> usize
    ensures { result ≤ 64 }
{
    lanes
        .simd_eq(u8x32::splat(b'"'))
        .to_bitmask()
        .trailing_zeros() as usize
}

/// A name that no property of a type has.
#[derive(Drop)]
struct UndeclaredName {
    type_id: TypeId,
    key: SpelledKey,
}

/// Short names, each of which no property of its type has.
#[derive(Drop)]
pub struct UndeclaredNames {
    alloc: Global,
    names: Vec<UndeclaredName>,
    /// The index of the name that has the entry; `NO_NAME` where there is none.
    indexes: [u8; MOST_NAMES],
}

impl Model for UndeclaredNames {
    ghost use Rattle.std.specs.Prelude.{ℕ, List, map};
    ghost use Rattle.std.specs.Coded.{coded×, coded_list, coded_ℕ};

    ghost Value = { List (ℕ × List ℕ) };

    ghost coded = { coded_list (coded× coded_ℕ (coded_list coded_ℕ)) };

    ghost use Rattle.expected_members.specs.private.StoredNames.{type_and_name};

    ghost view = { λ n. map type_and_name n.names.items };
}

impl UndeclaredNames {
    /// Creates a list of no names.
    #[inline(always)]
    pub fn new(alloc: Global) -> UndeclaredNames
        ensures { (schema : SchemaModel) → AreUndeclared schema result }
    {
        UndeclaredNames {
            alloc,
            names: Vec::new(alloc),
            indexes: [NO_NAME; MOST_NAMES],
        }
    }

    /// Returns the offset after the name and its colon, where a stored name of that type begins there. Its clause says
    /// nothing of `None`.
    #[inline(always)]
    pub fn name_end(&self, type_id: TypeId, line: &RoomyLine<'_>, offset: usize) -> Option<usize>
        requires { offset ≤ length line.now }
        ensures { (schema : SchemaModel) → AreUndeclared schema self.now
            → IfSome result (NamesNoProperty line.now (properties_at schema type_id) offset) }
    {
        if self.names.len() == 0 {
            return None;
        }
        let bytes = line.bytes();
        let length = before_quote(u8x32::from_slice(&bytes[offset + 1..]));
        if length >= TOO_LONG {
            return None;
        }
        let entry = entry_of(bytes[offset + 1], bytes[offset + length], length);
        let index = self.indexes[entry] as usize;
        if index >= self.names.len() {
            return None;
        }
        let name = &self.names[index];
        if name.type_id == type_id {
            name.key.end(line, offset)
        } else {
            None
        }
    }

    /// Stores a name that was noted, if no property of its type has it. Nothing is stored where another name has its
    /// entry, so that rows of the same members take no memory, and out of memory.
    #[inline(never)]
    pub fn put(&mut self, schema: &Schema, noted: &NotedName)
        requires { AreUndeclared schema.now self.old }
        ensures { AreUndeclared schema.now self.new }
    {
        let entry = noted.entry();
        let count = self.names.len();
        if (self.indexes[entry] as usize) < count {
            return;
        }
        let Ok(index) = u8::try_from(count) else {
            return;
        };
        let Some(name) = undeclared_name(self.alloc, schema, noted) else {
            return;
        };
        let Ok(()) = self.names.push(name) else {
            return;
        };
        self.indexes[entry] = index;
    }
}

/// What is stored of a name that was noted; none where a property of its type has it.
fn undeclared_name(alloc: Global, schema: &Schema, noted: &NotedName) -> Option<UndeclaredName>
    ensures { IfSome result (λ name. HasNoProperty schema.now (type_and_name name)) }
{
    if noted.length >= TOO_LONG {
        return None;
    }
    let Ok(name) = str::from_utf8(&noted.text[..noted.length]) else {
        return None;
    };
    match schema.slot(noted.type_id, name) {
        Some(_) => None,
        None => key_of(alloc, noted.type_id, name),
    }
}

/// A name of a type, spelled as a key.
fn key_of(alloc: Global, type_id: TypeId, name: &str) -> Option<UndeclaredName>
    ensures type_id { IfSome result (λ found. found.type_id ≡ type_id) }
    ensures key { IfSome result (λ found. found.key ≡ name.now) }
{
    match SpelledKey::new(alloc, name) {
        Some(key) => Some(UndeclaredName { type_id, key }),
        None => None,
    }
}
