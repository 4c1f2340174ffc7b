//! Values without parts that are put into a row's slots.
ghost use Rattle.std.specs.Prelude.{◌≡◌, ◌≤◌, ℕ, length, IfSome, IsTrue};
ghost use Rattle.std.specs.Str.{IsUtf8};
ghost use Rattle.edm_values.specs.SieveMeaning.{Rejects};
ghost use Rattle.edm_values.specs.Val.{text as val_text};
ghost use Rattle.csdl_schema.specs.ExprType.{primitive};
ghost use Rattle.csdl_schema.specs.SchemaModel.{Slots, slots_of};
ghost use Rattle.edm_rows.specs.private.KeptLeaves.{IsLeafRejected, PutsLeaf, PutsMember, TakesLeaf};
ghost use Rattle.edm_rows.specs.private.RowSlots.{HasPrimitive, name_at};
ghost use Rattle.json_room.specs.ValueStands.{ValueStands};

use super::literals::{literal_at, member_at};
use super::passed_value::{ReadContext, typed_number_at};
use super::row_cache::Cache;
use super::row_types::{RowSlot, Task};
use edm_values::{Prim, Sieve, Value};
use json_room::{RoomyLine, any_text_at, text_at, truth_end, whole_at};
use spare_values::{is_filled_again, overwrite_text, put_number, put_truth, write_text};

/// What became of a value of a row.
#[derive(Clone, Copy, Drop)]
pub(crate) enum Taken {
    /// It was not read.
    Nothing,
    /// It stands up to that offset, and was put into its slot.
    Put(usize),
    /// It stands up to that offset, and its slot's sieve rejects it.
    Rejected(usize),
    /// It was not read, and what stands in its slot is half written.
    Broken,
}

/// Takes a number of few digits, unless the slot's sieve rejects it.
#[inline(always)]
pub(crate) fn take_digits(
    line: &RoomyLine<'_>,
    slot: &RowSlot,
    place: usize,
    value: &mut Value,
) -> Taken
    requires of_number { HasPrimitive slot.now.prim slot.now.sure Task.Number }
    requires within { place ≤ length line.now }
    ensures { TakesLeaf line.now (primitive slot.now.prim) slot.now.sieve value.old value.new place result }
{
    let Some((whole, end)) = whole_at(line, place) else {
        return Taken::Nothing;
    };
    if end - place > slot.sure {
        return Taken::Nothing;
    }
    let number = whole as i64;
    if slot.sieve.rejects_number(number) {
        return Taken::Rejected(end);
    }
    put_number(number, value);
    Taken::Put(end)
}

/// Takes a truth value, unless the slot's sieve rejects it.
#[inline(always)]
pub(crate) fn take_truth(
    line: &RoomyLine<'_>,
    slot: &RowSlot,
    place: usize,
    value: &mut Value,
) -> Taken
    requires { place ≤ length line.now }
    ensures { TakesLeaf line.now (primitive Prim.Bool) slot.now.sieve value.old value.new place result }
{
    let Some((truth, end)) = truth_end(line, place) else {
        return Taken::Nothing;
    };
    if slot.sieve.rejects_truth(truth) {
        return Taken::Rejected(end);
    }
    put_truth(truth, value);
    Taken::Put(end)
}

/// Takes a text without escapes, unless the slot's sieve rejects it.
#[inline(always)]
pub(crate) fn take_text(
    line: &RoomyLine<'_>,
    slot: &RowSlot,
    place: usize,
    value: &mut Value,
) -> Taken
    requires { place ≤ length line.now }
    ensures { TakesLeaf line.now (primitive Prim.String) slot.now.sieve value.old value.new place result }
{
    let Some((text, end)) = text_at(line, place) else {
        return Taken::Nothing;
    };
    if is_text_rejected(slot, text) {
        return Taken::Rejected(end);
    }
    if !is_filled_again(value) {
        return Taken::Nothing;
    }
    if overwrite_text(text, value) {
        Taken::Put(end)
    } else {
        Taken::Broken
    }
}

/// Whether the slot's sieve rejects a text.
#[inline(always)]
fn is_text_rejected(slot: &RowSlot, text: &str) -> bool
    ensures rejected { IsTrue result → Rejects slot.now.sieve (val_text text.now) }
    ensures utf8 { IsUtf8 text.now }
{
    slot.sieve.rejects_text(text)
}

/// Where a text ends, however it is written, that the slot's sieve rejects. It is not decoded where all texts pass.
pub(crate) fn rejected_text_end(
    cache: &mut Cache,
    line: &RoomyLine<'_>,
    slot: &RowSlot,
    place: usize,
) -> Option<usize>
    requires { place ≤ length line.now }
    ensures rejected { IfSome result (λ end. (slots : Slots) (depth : ℕ)
        → ValueStands depth line.now place end (IsLeafRejected slots (primitive Prim.String) slot.now.sieve)) }
    ensures depth { cache.new.depth ≡ cache.old.depth }
{
    if let Sieve::All = slot.sieve {
        return None;
    }
    let Some((text, end)) = any_text_at(line, place, &mut cache.decoded) else {
        return None;
    };
    if is_text_rejected(slot, text) {
        Some(end)
    } else {
        None
    }
}

/// Takes any number of the slot's type.
pub(crate) fn take_number(
    line: &RoomyLine<'_>,
    slot: &RowSlot,
    place: usize,
    value: &mut Value,
) -> Option<usize>
    requires { place ≤ length line.now }
    ensures { IfSome result (PutsLeaf line.now (primitive slot.now.prim) value.new place) }
{
    match typed_number_at(line, slot, place) {
        Some((number, end)) => {
            put_number(number, value);
            Some(end)
        }
        None => None,
    }
}

/// Takes any text.
pub(crate) fn take_any_text(
    cache: &mut Cache,
    line: &RoomyLine<'_>,
    place: usize,
    value: &mut Value,
) -> Option<usize>
    requires { place ≤ length line.now }
    ensures taken { IfSome result (PutsLeaf line.now (primitive Prim.String) value.new place) }
    ensures depth { cache.new.depth ≡ cache.old.depth }
{
    let alloc = cache.alloc;
    let Some((text, end)) = any_text_at(line, place, &mut cache.decoded) else {
        return None;
    };
    if write_text(alloc, text, value) {
        Some(end)
    } else {
        None
    }
}

/// Takes any literal of the slot's type.
pub(crate) fn take_literal(
    cache: &mut Cache,
    line: &RoomyLine<'_>,
    slot: &RowSlot,
    place: usize,
    value: &mut Value,
) -> Option<usize>
    requires { place ≤ length line.now }
    ensures taken { IfSome result (PutsLeaf line.now (primitive slot.now.prim) value.new place) }
    ensures depth { cache.new.depth ≡ cache.old.depth }
{
    match literal_at(&mut cache.decoded, line, slot.prim, place) {
        Some((read, end)) => {
            *value = read;
            Some(end)
        }
        None => None,
    }
}

/// Takes any text of the slot's enumeration.
pub(crate) fn take_member(
    cache: &mut Cache,
    context: &ReadContext<'_>,
    slot: &RowSlot,
    place: usize,
    value: &mut Value,
) -> Option<usize>
    requires { place ≤ length context.now.line }
    ensures taken { IfSome result (PutsMember context.now.line (slots_of context.now.schema.now)
        (name_at context.now.schema.now slot.now.member_of) value.new place) }
    ensures depth { cache.new.depth ≡ cache.old.depth }
{
    let Some(id) = slot.member_of else {
        return None;
    };
    match member_at(&mut cache.decoded, context.schema, &context.line, id, place) {
        Some((number, end)) => {
            *value = Value::Enum(number);
            Some(end)
        }
        None => None,
    }
}
