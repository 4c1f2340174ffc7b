//! The reader of rows of one type.
ghost use Rattle.std.specs.Prelude.{◌≡◌, ◌≢◌, ◌↔◌, ◌≤◌, ◌+◌, ℕ, List, get_or, length, take, true, false, All, IfSome, IsTrue};
ghost use Rattle.std.specs.Str.{IsAscii};
ghost use Rattle.edm_rows.specs.RowReading.{IsLineBut};
ghost use Rattle.edm_row_plans.specs.Plans.{IsPlanOf};
ghost use Rattle.edm_rows.specs.private.Passed.{IsRowValue};
ghost use Rattle.json_room.specs.LexemesAt.{PassesSpaces};
ghost use Rattle.edm_rows.specs.private.HeldRows.{HasFirstType, IsTakenWhole, IsTakenWithin};
ghost use Rattle.edm_rows.specs.private.HeldRows.{ReadsRowAt, TakesMembers, TakesObject};
ghost use Rattle.edm_rows.specs.RowItems.{ReadsItem};
ghost use Rattle.edm_rows.specs.private.LookedUp.{AreKnown};
ghost use Rattle.edm_rows.specs.private.KeptRows.{RowConforms, root_properties, root_slots};
ghost use Rattle.edm_rows.specs.private.Contexts.{IsContext};
ghost use Rattle.edm_rows.specs.HeldSchema.{schema_in};
ghost use Rattle.edm_rows.specs.RowsOfType.{IsLeftOut, IsSameButKept, IsSameReader, names_unkept, row_held, sifted};

use super::first_row::copy_without_items;
use super::held_schema::HeldSchema;
use super::kept_leaf::Taken;
use super::kept_value::take_members;
use super::layout_reader::fill_row;
use super::passed_value::ReadContext;
use super::row_cache::{Cache, LookedUp};
use super::row_layout::types_of;
use super::row_types::{DEPTH, RowType};
use super::slot_marks::{keep_name_in, keep_types, sift_slot};
use csdl_schema::Schema;
use edm_entities::Entity;
use edm_row_plans::RowPlan;
use edm_values::{Sieve, Value};
use json_room::{RoomyLine, copy_with_room, front_text, has_room, past_blanks};
use seen_slots::{FewSlots, ManySlots};
use std::alloc::Global;
use std::marker::Model;

/// What became of a line.
#[derive(Clone, Copy, Drop)]
pub enum Reading {
    /// It was not read as a row, which it may yet be.
    Unread,
    /// It is a row, which is kept.
    Row,
    /// It is a row, of which a value is rejected by its slot's sieve.
    LeftOut,
}

/// What became of an item of a document.
#[derive(Clone, Copy, Drop)]
pub enum ItemReading {
    /// It was not read as a row, which it may yet be.
    Unread,
    /// It is a row, which is kept; the offset after it.
    Row(usize),
    /// It is a row, of which a value is rejected by its slot's sieve; the offset after it.
    LeftOut(usize),
}

/// Reads lines as rows of a plan's type. It is kept from line to line.
#[derive(Drop)]
pub struct TypeRows<'s> {
    schema: HeldSchema<'s>,
    plan: RowPlan,
    /// Those of the plan; none where rows are not read so.
    types: Vec<RowType>,
    cache: Cache,
    known: LookedUp,
    /// Whether the row is one of the type.
    is_ready: bool,
    row: Value,
}

impl<'s> Model for TypeRows<'s> {
    ghost use Rattle.std.specs.Coded.{codes};
    ghost use Rattle.edm_values.specs.contracts.value.Value as value;
    ghost use Rattle.edm_rows.specs.RowsOfType.{RowsOfType};
    ghost use Rattle.edm_rows.specs.private.HeldRows.{IsRowsOfType, rows_seen};

    ghost Value = { RowsOfType };

    ghost coded = { Prim.hlevel (codes, value.the_row.coded) };

    ghost view = { rows_seen };

    ghost invariant = { IsRowsOfType };
}

impl<'s> TypeRows<'s> {
    /// The reader of rows by that plan, which keeps no slot; it has no row to fill yet. It is made in place: a copy
    /// would take as much stack again.
    #[inline(always)]
    pub fn new(alloc: Global, schema: HeldSchema<'s>, plan: RowPlan) -> TypeRows<'s>
        requires { IsPlanOf (schema_in schema) plan }
        ensures schema { result.schema ≡ schema_in schema.entry }
        ensures type_id { result.type_id ≡ plan.type_id }
        ensures expansion { result.expansion ≡ plan.expansion }
        ensures whole { result.is_whole ≡ plan.is_whole }
        ensures none_kept { All (λ marks. All (λ kept. kept ≡ false) marks.kept) result.kept }
        ensures all_pass { All (λ sieve. sieve ≡ Sieve.All) result.sieves }
        ensures no_row { result.is_ready ≡ false }
    {
        let types = types_of(alloc, schema.schema(), &plan);
        TypeRows {
            schema,
            types,
            plan,
            cache: Cache::new(alloc),
            known: LookedUp::new(alloc),
            is_ready: false,
            row: Value::Null,
        }
    }

    /// From here on the values of properties of that name are kept, in nested records too.
    pub fn keep_named(&mut self, name: &str)
        ensures same { IsSameButKept self.old self.new }
        ensures named { ¬ names_unkept self.new name.now }
        ensures others { (other : List ℕ) → other ≢ name.now
            → names_unkept self.new other ↔ names_unkept self.old other }
    {
        keep_name_in(&mut self.types, self.schema.schema(), name);
    }

    /// From here on the values of all properties are kept.
    pub fn keep_all(&mut self)
        ensures same { IsSameButKept self.old self.new }
        ensures kept { (name : List ℕ) → ¬ names_unkept self.new name }
    {
        keep_types(&mut self.types);
    }

    /// From here on rows are left out of which that slot's value is rejected, unless the slot has a sieve.
    pub fn sift(&mut self, slot: usize, sieve: Sieve)
        ensures { self.new ≡ record self.old { sieves = sifted self.old.sieves slot sieve } }
    {
        if self.types.len() > 0 {
            sift_slot(&mut self.types[0], slot, sieve);
        }
    }

    /// Whether it has a row to fill.
    #[inline(always)]
    pub fn has_row(&self) -> bool
        ensures { result ≡ self.now.is_ready }
    {
        self.is_ready
    }

    /// Fills the row of that line from here on, if it is read as one. Its collections are empty until a line is read.
    /// Where rows are not read so, it stays without one. Its clause says nothing of whether a row is held then.
    #[inline(never)]
    pub fn begin(&mut self, line: &[u8])
        ensures { IsSameReader self.old self.new }
    {
        if self.types.len() == 0 {
            return;
        }
        let mut copy = Vec::new(self.cache.alloc);
        if !copy_without_items(line, &mut copy) {
            return;
        }
        let short = copy.as_slice();
        let mut room = Vec::new(self.cache.alloc);
        if !copy_with_room(short, &mut room) {
            return;
        }
        let bytes = room.as_slice();
        let Some(text) = front_text(bytes, short.len(), false) else {
            return;
        };
        let context = ReadContext {
            schema: self.schema.schema(),
            plan: &self.plan,
            types: self.types.as_slice(),
            known: &self.known,
            line: RoomyLine::new(text, bytes),
            depth: DEPTH - 1,
        };
        self.is_ready = fill_row(&mut self.cache, &context, &mut self.row);
        keep_if(self.is_ready, &mut self.row);
    }

    /// Reads the line of that length at the front of the bytes into the row. Its clauses say nothing of `Unread`.
    #[inline(always)]
    pub fn read(&mut self, bytes: &[u8], count: usize, is_ascii: bool) -> Reading
        requires within { count ≤ length bytes.now }
        requires ascii { IsTrue is_ascii → IsAscii (take count bytes.now) }
        ensures same { IsSameReader self.old self.new }
        ensures whole { result ≢ Reading.Unread → self.new.is_whole ≡ true }
        ensures ready { result ≡ Reading.Row → self.new.is_ready ≡ true }
        ensures row { result ≡ Reading.Row
            → IsLineBut (take count bytes.now) (names_unkept self.new) (row_held self.new) }
        ensures left_out { result ≡ Reading.LeftOut → IsLeftOut (take count bytes.now) self.new }
    {
        if !self.is_ready {
            return Reading::Unread;
        }
        if !has_room(bytes, count) {
            return Reading::Unread;
        }
        match front_text(bytes, count, is_ascii) {
            Some(text) => self.read_text(text, bytes),
            None => Reading::Unread,
        }
    }

    /// Reads the line that is this text, at the front of the bytes, into the row.
    #[inline(always)]
    fn read_text<'t>(&mut self, text: &'t str, bytes: &'t [u8]) -> Reading
        requires ready { self.old.is_ready ≡ true }
        requires front { take (length text.now) bytes.now ≡ text.now }
        requires line_feed { get_or bytes.now (length text.now) 0 ≡ 10 }
        requires room { length text.now + 64 ≤ length bytes.now }
        ensures same { IsSameReader self.old self.new }
        ensures whole { result ≢ Reading.Unread → self.new.is_whole ≡ true }
        ensures ready { result ≡ Reading.Row → self.new.is_ready ≡ true }
        ensures row { result ≡ Reading.Row → IsLineBut text.now (names_unkept self.new) (row_held self.new) }
        ensures left_out { result ≡ Reading.LeftOut → IsLeftOut text.now self.new }
    {
        let line = RoomyLine::new(text, bytes);
        let begin = past_blanks(&line, 0);
        let taken = self.read_object(text, bytes, begin, DEPTH - 1);
        if ends_taken(&line, taken) {
            reading_of(taken)
        } else {
            Reading::Unread
        }
    }

    /// Reads the object at an offset of a document into the row, as an item of an array in an object.
    ///
    /// The document is at the front of the bytes; an LF follows it, and at least 63 bytes follow that.
    /// Its clauses say nothing of `Unread`.
    pub fn read_item<'t>(&mut self, text: &'t str, bytes: &'t [u8], place: usize) -> ItemReading
        requires front { take (length text.now) bytes.now ≡ text.now }
        requires line_feed { get_or bytes.now (length text.now) 0 ≡ 10 }
        requires room { length text.now + 64 ≤ length bytes.now }
        requires within { place ≤ length text.now }
        ensures same { IsSameReader self.old self.new }
        ensures whole { result ≢ ItemReading.Unread → self.new.is_whole ≡ true }
        ensures ready { (to : ℕ) → result ≡ ItemReading.Row to → self.new.is_ready ≡ true }
        ensures item { ReadsItem text.now place self.new result }
    {
        if !self.is_ready {
            return ItemReading::Unread;
        }
        let taken = self.read_object(text, bytes, place, DEPTH - 3);
        match taken {
            Taken::Put(end) => ItemReading::Row(end),
            Taken::Rejected(end) => ItemReading::LeftOut(end),
            Taken::Nothing | Taken::Broken => ItemReading::Unread,
        }
    }

    /// Reads the object at an offset of a text into the row; its members may nest that deep. Lines and items share it.
    #[inline(never)]
    fn read_object<'t>(
        &mut self,
        text: &'t str,
        bytes: &'t [u8],
        place: usize,
        depth: usize,
    ) -> Taken
        requires ready { self.old.is_ready ≡ true }
        requires front { take (length text.now) bytes.now ≡ text.now }
        requires line_feed { get_or bytes.now (length text.now) 0 ≡ 10 }
        requires room { length text.now + 64 ≤ length bytes.now }
        requires within { place ≤ length text.now }
        ensures same { IsSameReader self.old self.new }
        ensures whole { self.new.is_whole ≡ true }
        ensures ready { result ≢ Taken.Broken → self.new.is_ready ≡ true }
        ensures object { ReadsRowAt depth text.now place self.new result }
    {
        let context = ReadContext {
            schema: self.schema.schema(),
            plan: &self.plan,
            types: self.types.as_slice(),
            known: &self.known,
            line: RoomyLine::new(text, bytes),
            depth,
        };
        let taken = take_row(&mut self.cache, &context, place, &mut self.row);
        keep_noted(&mut self.cache, &mut self.known, self.schema.schema());
        self.is_ready = is_whole_row(taken);
        keep_if(self.is_ready, &mut self.row);
        taken
    }

    /// The row that was read last.
    #[inline(always)]
    pub fn entity(&self) -> Entity<'_>
        requires { self.now.is_ready ≡ true }
        ensures { result ≡ row_held self.now }
    {
        Entity::borrowed(
            self.schema.schema(),
            self.plan.type_id,
            &self.plan.expansion,
            &self.row,
        )
    }
}

/// Takes the row that begins at an offset, unless it is rejected.
#[inline(always)]
fn take_row(cache: &mut Cache, context: &ReadContext<'_>, place: usize, row: &mut Value) -> Taken
    requires context { IsContext context.now }
    requires plan { IsPlanOf context.now.schema.now context.now.plan.now }
    requires first { HasFirstType context.now.plan.now context.now.types.now }
    requires within { place ≤ length context.now.line }
    requires row { IsRowValue (root_slots context.now) (root_properties context.now) row.old }
    ensures row { TakesObject context.now row.new place result }
    ensures conforms { result ≢ Taken.Broken
        → IsRowValue (root_slots context.now) (root_properties context.now) row.new }
{
    if context.line.byte(place) != b'{' {
        return Taken::Nothing;
    }
    match row {
        Value::Record(values) => take_object(cache, context, place + 1, values),
        _ => Taken::Nothing,
    }
}

/// Takes the members of a row after its brace, unless one of them is rejected.
#[inline(always)]
fn take_object(
    cache: &mut Cache,
    context: &ReadContext<'_>,
    from: usize,
    values: &mut Vec<Value>,
) -> Taken
    requires context { IsContext context.now }
    requires plan { IsPlanOf context.now.schema.now context.now.plan.now }
    requires first { HasFirstType context.now.plan.now context.now.types.now }
    requires within { from ≤ length context.now.line }
    requires conforms { RowConforms (root_slots context.now) (root_properties context.now) values.old.items }
    ensures read { TakesMembers context.now values.new.items from result }
    ensures conforms { result ≢ Taken.Broken
        → RowConforms (root_slots context.now) (root_properties context.now) values.new.items }
{
    let plan = &context.types[0];
    cache.depth = context.depth;
    if plan.all_few {
        take_members::<FewSlots>(cache, context, plan, from, values.as_mut_slice())
    } else {
        take_members::<ManySlots>(cache, context, plan, from, values.as_mut_slice())
    }
}

/// Whether nothing but white space stands after what was taken of a line.
#[inline(always)]
fn ends_taken(line: &RoomyLine<'_>, taken: Taken) -> bool
    requires { IsTakenWithin line.now taken }
    ensures whole { IsTrue result → IsTakenWhole line.now taken }
    ensures broken { result ≡ false → taken ≢ Taken.Broken }
{
    match taken {
        Taken::Put(end) => ends_line(line, end),
        Taken::Rejected(end) => ends_line(line, end),
        Taken::Nothing => true,
        Taken::Broken => true,
    }
}

/// Whether the row still has a value of its type in each slot.
#[inline(always)]
fn is_whole_row(taken: Taken) -> bool
    ensures whole { IsTrue result → taken ≢ Taken.Broken }
    ensures broken { result ≡ false → taken ≡ Taken.Broken }
{
    match taken {
        Taken::Put(_) | Taken::Rejected(_) | Taken::Nothing => true,
        Taken::Broken => false,
    }
}

/// Drops what was filled of a row that is none, since it is read in another way, which takes memory too.
#[inline(always)]
fn keep_if(is_row: bool, row: &mut Value)
    ensures { IsTrue is_row → row.new ≡ row.old }
{
    if !is_row {
        *row = Value::Null;
    }
}

/// What became of a line, by what became of its members.
#[inline(always)]
fn reading_of(taken: Taken) -> Reading
    ensures row { result ≡ Reading.Row → (to : ℕ) × (taken ≡ Taken.Put to) }
    ensures left_out { result ≡ Reading.LeftOut → (to : ℕ) × (taken ≡ Taken.Rejected to) }
{
    match taken {
        Taken::Put(_) => Reading::Row,
        Taken::Rejected(_) => Reading::LeftOut,
        Taken::Nothing => Reading::Unread,
        Taken::Broken => Reading::Unread,
    }
}

/// Whether nothing but white space stands after an offset.
#[inline(always)]
pub(crate) fn ends_line(line: &RoomyLine<'_>, end: usize) -> bool
    requires { end ≤ length line.now }
    ensures { IsTrue result → PassesSpaces line.now end (length line.now) }
{
    let count = line.text().len();
    if end == count {
        return true;
    }
    past_blanks(line, end) == count
}

/// What was noted is kept, if it is a text of its enumeration or a name of no property.
#[inline(always)]
fn keep_noted(cache: &mut Cache, known: &mut LookedUp, schema: &Schema)
    requires { AreKnown schema.now known.old }
    ensures { AreKnown schema.now known.new }
{
    if let Some(noted) = cache.noted {
        cache.noted = None;
        known.keep(schema, &noted);
    }
}
