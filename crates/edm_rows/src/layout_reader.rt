//! The reader of rows by any layout.
ghost use Rattle.std.specs.Prelude.{◌≡◌, IfSome, IsTrue, true};
ghost use Rattle.edm_row_plans.specs.Plans.{IsPlanOf};
ghost use Rattle.edm_entities.specs.Row.{IsEntity};
ghost use Rattle.edm_rows.specs.RowLayout.{IsRowOfLine};
ghost use Rattle.edm_rows.specs.private.Contexts.{IsContext};
ghost use Rattle.edm_rows.specs.private.HeldRows.{HasFirstType};
ghost use Rattle.edm_rows.specs.private.LayoutRows.{FillsRow, row_by};

use super::kept_tree::fill_members;
use super::passed_value::ReadContext;
use super::row_cache::{Cache, LookedUp};
use super::row_layout::RowLayout;
use super::row_types::DEPTH;
use super::type_rows::ends_line;
use edm_entities::Entity;
use edm_values::Value;
use json_room::{RoomyLine, copy_with_room, front_text, past_blanks};
use seen_slots::{FewSlots, ManySlots};
use spare_values::{Spare, record_in};
use std::alloc::Global;
use std::marker::Model;

/// Reads lines as rows, each by its layout. It is reused from line to line, whatever their layouts and schemas are.
#[derive(Drop)]
pub struct LayoutReader {
    cache: Cache,
    /// The last line, in a copy that has room after it.
    room: Vec<u8>,
    /// The value of the last row, which is filled again.
    row: Value,
}

// What is stored says nothing of a line, so clauses see nothing of it.
impl Model for LayoutReader {
    ghost Value = { Unit {0} };

    ghost view = { λ _. tt };
}

impl LayoutReader {
    /// Creates a reader that has read nothing yet. It has no clause: no answer depends on what a reader has stored.
    pub fn new(alloc: Global) -> LayoutReader {
        LayoutReader {
            cache: Cache::new(alloc),
            room: Vec::new(alloc),
            row: Value::Null,
        }
    }

    /// Returns the allocator from which it takes memory. It has no clause: any allocator serves.
    pub fn allocator(&self) -> Global {
        self.cache.alloc
    }

    /// Reads a line as a row. The line is copied once, so that bytes can be read past its end. If this returns `None`,
    /// the line may still be a row: `Entity::expanded_from_text` says what is wrong with it, if anything is. The entity
    /// is borrowed: the next row is read into the same memory. Its clauses say nothing of `None`.
    pub fn read<'r>(&'r mut self, layout: &'r RowLayout<'_>, line: &[u8]) -> Option<Entity<'r>>
        ensures of_type { IfSome result
            (λ e. (e.schema ≡ layout.now.schema) × (e.type_id ≡ layout.now.type_id)) }
        ensures expansion { IfSome result (λ e. e.expansion ≡ layout.now.expansion) }
        ensures whole { IfSome result (λ e. layout.now.is_whole ≡ true) }
        ensures row { IfSome result (IsRowOfLine line.now) }
    {
        if !fill_line(&mut self.cache, &mut self.room, layout, line, &mut self.row) {
            self.row = Value::Null;
            return None;
        }
        Some(Entity::borrowed(
            layout.schema.schema(),
            layout.plan.type_id,
            &layout.plan.expansion,
            &self.row,
        ))
    }
}

/// Fills a row by its layout with a line, in a copy that has room after it.
fn fill_line(
    cache: &mut Cache,
    room: &mut Vec<u8>,
    layout: &RowLayout<'_>,
    line: &[u8],
    row: &mut Value,
) -> bool
    ensures whole { IsTrue result → layout.now.is_whole ≡ true }
    ensures entity { IsTrue result → IsEntity (row_by layout.now row.new) }
    ensures row { IsTrue result → IsRowOfLine line.now (row_by layout.now row.new) }
{
    if layout.types.len() == 0 {
        return false;
    }
    if !copy_with_room(line, room) {
        return false;
    }
    let bytes = room.as_slice();
    let Some(text) = front_text(bytes, line.len(), false) else {
        return false;
    };
    let line = RoomyLine::new(text, bytes);
    // A text is UTF-8.
    let _text = line.text();
    let known = LookedUp::new(cache.alloc);
    let context = ReadContext {
        schema: layout.schema.schema(),
        plan: &layout.plan,
        types: layout.types.as_slice(),
        known: &known,
        line,
        depth: DEPTH - 1,
    };
    fill_row(cache, &context, row)
}

/// Fills a row with the object that is the whole line.
pub(crate) fn fill_row(cache: &mut Cache, context: &ReadContext<'_>, row: &mut Value) -> bool
    requires context { IsContext context.now }
    requires plan { IsPlanOf context.now.schema.now context.now.plan.now }
    requires first { HasFirstType context.now.plan.now context.now.types.now }
    requires depth { context.now.depth ≡ 126 }
    ensures { IsTrue result → FillsRow context.now row.new }
{
    let line = &context.line;
    let begin = past_blanks(line, 0);
    if line.byte(begin) != b'{' {
        return false;
    }
    cache.spares.begin_record(Spare::Other, row);
    let Some(values) = record_in(row) else {
        return false;
    };
    let plan = &context.types[0];
    cache.depth = context.depth;
    let filled = if plan.all_few {
        fill_members::<FewSlots>(cache, context, plan, begin + 1, values)
    } else {
        fill_members::<ManySlots>(cache, context, plan, begin + 1, values)
    };
    match filled {
        Some(end) => ends_line(line, end),
        None => false,
    }
}
