//! Values with parts that are kept: they are filled again where they are, with all that they hold.
ghost use Rattle.std.specs.Prelude.{◌≡◌, ◌<◌, ◌≤◌, ℕ, length, true, IfSome, IsTrue};
ghost use Rattle.json.specs.Token.{null};
ghost use Rattle.json_room.specs.Lexemes.{StandsTo};
ghost use Rattle.edm_rows.specs.private.Filled.{FillsItems, FillsMembers, FillsSlot, FillsValue, IsAmongTypes};
ghost use Rattle.edm_rows.specs.private.Filled.{FilledRead, FilledUpTo, TakesFiller};
ghost use Rattle.json_room.specs.ValueStands.{ValueStands};
ghost use Rattle.edm_rows.specs.private.Held.{IsSingle};
ghost use Rattle.edm_rows.specs.private.RowSlots.{IsSlotOf, IsTaskOf, IsTypeOf};
ghost use Rattle.edm_rows.specs.private.Contexts.{FindsMember, IsContext};
ghost use Rattle.edm_rows.specs.private.SeenSlots.{HaveRoom};

use super::absent_slots::ends_object;
use super::kept_leaf::{
    Taken, take_any_text, take_digits, take_literal, take_member, take_number, take_text,
    take_truth,
};
use super::kept_value::Progress;
use super::members::{After, Found, after_member, next_member};
use super::passed_value::{ReadContext, value_end};
use super::row_cache::Cache;
use super::row_types::{RowSlot, RowType, Task};
use edm_values::{Value, take_few};
use json_room::{RoomyLine, any_value_end, null_end, past_blanks};
use seen_slots::SeenSlots;
use spare_values::{Filler, fit_count, list_in, record_in};

/// Fills the value of a slot, or an item of it, that stands there; the offset after it.
#[inline(always)]
#[cycle(fill)]
pub(crate) fn fill_value<M: SeenSlots>(
    cache: &mut Cache,
    context: &ReadContext<'_>,
    slot: &RowSlot,
    task: Task,
    place: usize,
    value: &mut Value,
) -> Option<usize>
    requires context { IsContext context.now }
    requires rooms { HaveRoom M.most context.now }
    requires slot { IsSlotOf context.now.plan.now.plans.items slot.now }
    requires task { IsTaskOf slot.now task }
    requires within { place ≤ length context.now.line }
    ensures filled { IfSome result (FillsValue context.now slot.now task cache.old.depth value.new place) }
    ensures depth { cache.new.depth ≡ cache.old.depth }
{
    match fill_sure::<M>(cache, context, slot, task, place, value) {
        Some(end) => Some(end),
        None => fill_other::<M>(cache, context, slot, task, place, value),
    }
}

/// The same of what most values are.
#[inline(always)]
#[cycle(fill)]
fn fill_sure<M: SeenSlots>(
    cache: &mut Cache,
    context: &ReadContext<'_>,
    slot: &RowSlot,
    task: Task,
    place: usize,
    value: &mut Value,
) -> Option<usize>
    requires context { IsContext context.now }
    requires rooms { HaveRoom M.most context.now }
    requires slot { IsSlotOf context.now.plan.now.plans.items slot.now }
    requires task { IsTaskOf slot.now task }
    requires within { place ≤ length context.now.line }
    ensures filled { IfSome result (FillsValue context.now slot.now task cache.old.depth value.new place) }
    ensures depth { cache.new.depth ≡ cache.old.depth }
{
    let line = &context.line;
    match task {
        Task::Number => put_end(take_digits(line, slot, place, value)),
        Task::Truth => put_end(take_truth(line, slot, place, value)),
        Task::Text => put_end(take_text(line, slot, place, value)),
        Task::Record => fill_record::<M>(cache, context, slot, place, value),
        Task::Items => fill_list::<M>(cache, context, slot, place, value),
        _ => None,
    }
}

/// The offset after a value that was put.
#[inline(always)]
fn put_end(taken: Taken) -> Option<usize>
    ensures { IfSome result (λ to. taken ≡ Taken.Put to) }
{
    match taken {
        Taken::Put(end) => Some(end),
        _ => None,
    }
}

/// The same of a value after white space, and of what is seldom.
#[inline(never)]
#[cycle(fill)]
fn fill_other<M: SeenSlots>(
    cache: &mut Cache,
    context: &ReadContext<'_>,
    slot: &RowSlot,
    task: Task,
    from: usize,
    value: &mut Value,
) -> Option<usize>
    requires context { IsContext context.now }
    requires rooms { HaveRoom M.most context.now }
    requires slot { IsSlotOf context.now.plan.now.plans.items slot.now }
    requires task { IsTaskOf slot.now task }
    requires within { from ≤ length context.now.line }
    ensures filled { IfSome result (FillsValue context.now slot.now task cache.old.depth value.new from) }
    ensures depth { cache.new.depth ≡ cache.old.depth }
{
    let place = past_blanks(&context.line, from);
    if place == from {
        return fill_seldom(cache, context, slot, task, place, value);
    }
    match fill_sure::<M>(cache, context, slot, task, place, value) {
        Some(end) => Some(end),
        None => fill_seldom(cache, context, slot, task, place, value),
    }
}

/// The same of null, of a value that is not looked at, and of one that is written as few are.
#[inline(never)]
fn fill_seldom(
    cache: &mut Cache,
    context: &ReadContext<'_>,
    slot: &RowSlot,
    task: Task,
    place: usize,
    value: &mut Value,
) -> Option<usize>
    requires slot { IsSlotOf context.now.plan.now.plans.items slot.now }
    requires task { IsTaskOf slot.now task }
    requires within { place ≤ length context.now.line }
    ensures filled { IfSome result (FillsValue context.now slot.now task cache.old.depth value.new place) }
    ensures depth { cache.new.depth ≡ cache.old.depth }
{
    match task {
        Task::Any => fill_unseen(cache, &context.line, slot, place, value),
        Task::Items => None,
        _ => if context.line.byte(place) == b'n' {
            fill_null(cache, &context.line, slot, place, value)
        } else {
            fill_leaf(cache, context, slot, task, place, value)
        },
    }
}

/// Passes a value that is not looked at, instead of which null is put.
fn fill_unseen(
    cache: &mut Cache,
    line: &RoomyLine<'_>,
    slot: &RowSlot,
    place: usize,
    value: &mut Value,
) -> Option<usize>
    requires { place ≤ length line.now }
    ensures passed { IfSome result (λ to. ValueStands cache.old.depth line.now place to (λ json. Unit {0})) }
    ensures null { value.new ≡ Value.Null }
    ensures depth { cache.new.depth ≡ cache.old.depth }
{
    cache.spares.put_null(slot.spare, value);
    any_value_end(line, place, cache.depth, &mut cache.decoded)
}

/// Puts null for a single value, where it stands in the line and may be.
fn fill_null(
    cache: &mut Cache,
    line: &RoomyLine<'_>,
    slot: &RowSlot,
    place: usize,
    value: &mut Value,
) -> Option<usize>
    requires { place ≤ length line.now }
    ensures taken { IfSome result (StandsTo line.now place null) }
    ensures may_be { IfSome result (λ to. (slot.now.is_nullable ≡ true) × (value.new ≡ Value.Null)) }
    ensures depth { cache.new.depth ≡ cache.old.depth }
{
    if !slot.is_nullable {
        return None;
    }
    cache.spares.put_null(slot.spare, value);
    null_end(line, place)
}

/// Fills a value without parts, however it is written.
fn fill_leaf(
    cache: &mut Cache,
    context: &ReadContext<'_>,
    slot: &RowSlot,
    task: Task,
    place: usize,
    value: &mut Value,
) -> Option<usize>
    requires slot { IsSlotOf context.now.plan.now.plans.items slot.now }
    requires task { IsTaskOf slot.now task }
    requires within { place ≤ length context.now.line }
    ensures filled { IfSome result (FillsValue context.now slot.now task cache.old.depth value.new place) }
    ensures depth { cache.new.depth ≡ cache.old.depth }
{
    let line = &context.line;
    match task {
        Task::Number => take_number(line, slot, place, value),
        Task::Text => take_any_text(cache, line, place, value),
        Task::Date => take_literal(cache, line, slot, place, value),
        Task::Moment => take_literal(cache, line, slot, place, value),
        Task::Guid => take_literal(cache, line, slot, place, value),
        Task::Member => take_member(cache, context, slot, place, value),
        _ => None,
    }
}

/// Fills a record with the object that begins there; the offset after it.
#[inline(always)]
#[cycle(fill)]
fn fill_record<M: SeenSlots>(
    cache: &mut Cache,
    context: &ReadContext<'_>,
    slot: &RowSlot,
    place: usize,
    value: &mut Value,
) -> Option<usize>
    requires context { IsContext context.now }
    requires rooms { HaveRoom M.most context.now }
    requires slot { IsSlotOf context.now.plan.now.plans.items slot.now }
    requires item { slot.now.item ≡ Task.Record }
    requires within { place ≤ length context.now.line }
    ensures filled { IfSome result (FillsValue context.now slot.now Task.Record cache.old.depth value.new place) }
    ensures depth { cache.new.depth ≡ cache.old.depth }
{
    if context.line.byte(place) != b'{' || cache.depth == 0 {
        return None;
    }
    cache.spares.begin_record(slot.spare, value);
    let Some(values) = record_in(value) else {
        return None;
    };
    cache.depth -= 1;
    let end = fill_members::<M>(
        cache,
        context,
        &context.types[slot.record],
        place + 1,
        values,
    );
    cache.depth += 1;
    match take_few(cache.alloc, values) {
        Ok(Some(held)) => {
            cache.spares.put_few(slot.spare, held, value);
            end
        }
        Ok(None) => end,
        Err(_) => None,
    }
}

/// Fills a list with the array that begins there; the offset after it.
#[inline(always)]
#[cycle(fill)]
fn fill_list<M: SeenSlots>(
    cache: &mut Cache,
    context: &ReadContext<'_>,
    slot: &RowSlot,
    place: usize,
    value: &mut Value,
) -> Option<usize>
    requires context { IsContext context.now }
    requires rooms { HaveRoom M.most context.now }
    requires slot { IsSlotOf context.now.plan.now.plans.items slot.now }
    requires single { IsSingle slot.now.item }
    requires within { place ≤ length context.now.line }
    ensures filled { IfSome result (FillsValue context.now slot.now Task.Items cache.old.depth value.new place) }
    ensures depth { cache.new.depth ≡ cache.old.depth }
{
    if context.line.byte(place) != b'[' || cache.depth == 0 {
        return None;
    }
    cache.spares.begin_list(value);
    let Some(items) = list_in(value) else {
        return None;
    };
    cache.depth -= 1;
    let end = fill_items::<M>(cache, context, slot, place + 1, items);
    cache.depth += 1;
    end
}

/// Fills a list with an array's items, up to its bracket; the offset after that.
#[inline(never)]
#[cycle(fill)]
fn fill_items<M: SeenSlots>(
    cache: &mut Cache,
    context: &ReadContext<'_>,
    slot: &RowSlot,
    from: usize,
    items: &mut Vec<Value>,
) -> Option<usize>
    requires context { IsContext context.now }
    requires rooms { HaveRoom M.most context.now }
    requires slot { IsSlotOf context.now.plan.now.plans.items slot.now }
    requires single { IsSingle slot.now.item }
    requires within { from ≤ length context.now.line }
    ensures filled { IfSome result (FillsItems context.now slot.now cache.old.depth items.new.items from) }
    ensures depth { cache.new.depth ≡ cache.old.depth }
{
    let line = &context.line;
    let mut place = past_blanks(line, from);
    if line.byte(place) == b']' {
        cache.spares.cut(slot.spare, items, 0);
        return Some(place + 1);
    }
    let mut count = 0;
    'items: loop {
        if !cache.spares.has_item(slot.spare, items, count) {
            return None;
        }
        let Some(end) = fill_value::<M>(cache, context, slot, slot.item, place, &mut items[count])
        else {
            return None;
        };
        count += 1;
        place = past_blanks(line, end);
        match line.byte(place) {
            b',' => place = past_blanks(line, place + 1),
            b']' => {
                cache.spares.cut(slot.spare, items, count);
                return Some(place + 1);
            }
            _ => return None,
        }
    }
}

/// Fills a record's values with the members of an object, up to its brace; the offset after that.
#[inline(never)]
#[cycle(fill)]
pub(crate) fn fill_members<M: SeenSlots>(
    cache: &mut Cache,
    context: &ReadContext<'_>,
    plan: &RowType,
    from: usize,
    values: &mut Vec<Value>,
) -> Option<usize>
    requires context { IsContext context.now }
    requires rooms { HaveRoom M.most context.now }
    requires plan { IsTypeOf context.now.schema.now context.now.plan.now.expansion context.now.plan.now.plans.items
        plan.now }
    requires among { IsAmongTypes context.now plan.now }
    requires room { length plan.now.slots.items ≤ M.most }
    requires within { from ≤ length context.now.line }
    ensures filled { IfSome result (FillsMembers context.now plan.now cache.old.depth values.new.items from) }
    ensures depth { cache.new.depth ≡ cache.old.depth }
{
    if !fit_count(values, plan.slots.len()) {
        return None;
    }
    let line = &context.line;
    let first = past_blanks(line, from);
    let mut so_far = Progress {
        place: first,
        seen: M::none(),
        order: plan.order,
    };
    if line.byte(first) == b'}' {
        return if ends_object(plan, so_far.seen, values.as_mut_slice()) {
            Some(first + 1)
        } else {
            None
        };
    }
    'members: loop {
        let Some(found) = next_member(cache, context, plan, so_far.order, so_far.place) else {
            return None;
        };
        if !fill_found(cache, context, plan, found, &mut so_far, values) {
            return None;
        }
        match after_member(line, so_far.place) {
            Some(After::Comma(next)) => so_far.place = next,
            Some(After::Brace(next)) => {
                return if ends_object(plan, so_far.seen, values.as_mut_slice()) {
                    Some(next)
                } else {
                    None
                };
            }
            None => return None,
        }
    }
}

/// Fills the slot of the member that was found, if it has one; false where its value was not read.
#[inline(always)]
#[cycle(fill)]
fn fill_found<M: SeenSlots>(
    cache: &mut Cache,
    context: &ReadContext<'_>,
    plan: &RowType,
    found: Found<'_>,
    so_far: &mut Progress<M>,
    values: &mut Vec<Value>,
) -> bool
    requires context { IsContext context.now }
    requires rooms { HaveRoom M.most context.now }
    requires plan { IsTypeOf context.now.schema.now context.now.plan.now.expansion context.now.plan.now.plans.items
        plan.now }
    requires among { IsAmongTypes context.now plan.now }
    requires room { length plan.now.slots.items ≤ M.most }
    requires found { FindsMember context.now plan.now cache.old.depth so_far.old.place found }
    requires order { so_far.old.order < 1024 }
    requires long { length values.old.items ≡ length plan.now.slots.items }
    ensures filled { (from : ℕ)
        → FilledUpTo context.now plan.now cache.old.depth from so_far.old.place (M.bits so_far.old.seen)
        values.old.items → IsTrue result
        → FilledRead context.now plan.now cache.old.depth from so_far.new.place (M.bits so_far.new.seen)
        values.new.items }
    ensures further { IsTrue result → (so_far.old.place < so_far.new.place) × (so_far.new.order < 1024) }
    ensures long { length values.new.items ≡ length values.old.items }
    ensures depth { cache.new.depth ≡ cache.old.depth }
{
    let Some(slot) = found.slot else {
        so_far.place = found.place;
        return true;
    };
    match fill_slot::<M>(cache, context, slot, found.place, &mut values[slot.index]) {
        Some(end) => {
            so_far.read_slot(slot, end);
            true
        }
        None => false,
    }
}

/// Fills the value of a slot. Where it is not kept, and another one without heap may stand there, its value is passed.
#[inline(always)]
#[cycle(fill)]
fn fill_slot<M: SeenSlots>(
    cache: &mut Cache,
    context: &ReadContext<'_>,
    slot: &RowSlot,
    place: usize,
    value: &mut Value,
) -> Option<usize>
    requires context { IsContext context.now }
    requires rooms { HaveRoom M.most context.now }
    requires slot { IsSlotOf context.now.plan.now.plans.items slot.now }
    requires task { IsTaskOf slot.now slot.now.task }
    requires within { place ≤ length context.now.line }
    ensures filled { IfSome result (FillsSlot context.now slot.now cache.old.depth value.new place) }
    ensures depth { cache.new.depth ≡ cache.old.depth }
{
    match filler_of(slot) {
        Some(filler) => {
            cache.spares.put_filler(filler, slot.spare, value);
            value_end::<M>(cache, context, slot, slot.task, place)
        }
        None => fill_value::<M>(cache, context, slot, slot.task, place, value),
    }
}

/// What stands in a slot that is not kept, if a value without heap may.
#[inline(always)]
fn filler_of(slot: &RowSlot) -> Option<Filler>
    ensures { IfSome result (TakesFiller slot.now) }
{
    if slot.is_kept {
        return None;
    }
    match slot.task {
        Task::Any => None,
        Task::Items => Some(Filler::NoItems),
        Task::Text => if slot.is_nullable {
            Some(Filler::Null)
        } else {
            Some(Filler::EmptyText)
        },
        _ => if slot.is_nullable {
            Some(Filler::Null)
        } else {
            None
        },
    }
}
