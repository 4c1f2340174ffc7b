//! What is kept from row to row.
ghost use Rattle.std.specs.Prelude.{◌≤◌, length};
ghost use Rattle.csdl_schema.specs.SchemaModel.{SchemaModel};
ghost use Rattle.edm_rows.specs.private.LookedUp.{AreKnown};

use csdl_schema::{EnumId, Schema};
use enumeration_texts::{KnownTexts, NotedText};
use expected_members::{NextSlots, NotedName, UndeclaredNames};
use json_room::{DecodeBuffer, RoomyLine};
use spare_values::Spares;
use std::alloc::Global;

/// What is kept from row to row and says nothing of one: in which order members came, and which text of an enumeration
/// or name was looked up last.
#[derive(Drop)]
pub(crate) struct Cache {
    pub(crate) alloc: Global,
    pub(crate) decoded: DecodeBuffer,
    /// After each member, the slot that came next the last time.
    pub(crate) next: NextSlots,
    pub(crate) noted: Option<Noted>,
    /// What values with parts are filled again from.
    pub(crate) spares: Spares,
    /// The slot of the member that was found last.
    pub(crate) slot: usize,
    /// How deep objects and arrays may nest from here on.
    pub(crate) depth: usize,
}

/// What was looked up.
#[derive(Clone, Copy, Drop)]
pub(crate) enum Noted {
    /// A text of an enumeration.
    Text(NotedText),
    /// A name that no property has.
    Name(NotedName),
}

/// What was found when it was looked up: texts that are some of an enumeration, and names that no property has.
#[derive(Drop)]
pub(crate) struct LookedUp {
    pub(crate) texts: KnownTexts,
    pub(crate) names: UndeclaredNames,
}

impl Noted {
    /// The text of an enumeration without escapes whose quote stands there, if it is that short.
    pub(crate) fn of_text(id: EnumId, line: &RoomyLine<'_>, place: usize) -> Option<Noted>
        requires { place ≤ length line.now }
    {
        match NotedText::of(id, line, place) {
            Some(text) => Some(Noted::Text(text)),
            None => None,
        }
    }
}

impl Cache {
    #[inline(always)]
    pub(crate) fn new(alloc: Global) -> Cache {
        Cache {
            alloc,
            decoded: DecodeBuffer::new(alloc),
            next: NextSlots::new(),
            noted: None,
            spares: Spares::new(alloc),
            slot: 0,
            depth: 0,
        }
    }
}

impl LookedUp {
    /// Nothing was looked up yet.
    #[inline(always)]
    pub(crate) fn new(alloc: Global) -> LookedUp
        ensures { (schema : SchemaModel) → AreKnown schema result }
    {
        LookedUp {
            texts: KnownTexts::new(alloc),
            names: UndeclaredNames::new(alloc),
        }
    }

    /// Keeps what was noted, if it is a text of its enumeration or a name of no property, unless out of memory.
    #[inline(never)]
    pub(crate) fn keep(&mut self, schema: &Schema, noted: &Noted)
        requires { AreKnown schema.now self.old }
        ensures { AreKnown schema.now self.new }
    {
        match noted {
            Noted::Text(text) => self.texts.put(schema, text),
            Noted::Name(name) => self.names.put(schema, name),
        }
    }
}
