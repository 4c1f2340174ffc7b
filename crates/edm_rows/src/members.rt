//! The members of an object, and the slots that their names have.
ghost use Rattle.std.specs.Prelude.{◌≡◌, ◌<◌, ◌≤◌, ℕ, length, IfSome};
ghost use Rattle.csdl_schema.specs.SchemaModel.{properties_at};
ghost use Rattle.json_room.specs.LexemesAt.{PassesSpaces};
ghost use Rattle.edm_rows.specs.private.Members.{EndsMember, FindsName, NextMember};
ghost use Rattle.edm_rows.specs.private.RowSlots.{IsTypeOf};
ghost use Rattle.edm_rows.specs.private.Contexts.{FindsMember, IsContext, PassesMembers};
ghost use Rattle.edm_rows.specs.private.SeenSlots.{HaveRoom};

use super::passed_value::{ReadContext, value_end};
use super::row_cache::{Cache, Noted};
use super::row_types::{FEW_SLOTS, RowSlot, RowType};
use csdl_schema::Schema;
use expected_members::NotedName;
use json_room::{DecodeBuffer, RoomyLine, any_text_at, any_value_end, past_blanks};
use seen_slots::SeenSlots;

/// A member: its slot and the offset of its value; or one without a slot, and the offset after its value.
#[derive(Clone, Copy, Drop)]
pub(crate) struct Found<'w> {
    pub(crate) slot: Option<&'w RowSlot>,
    pub(crate) place: usize,
}

/// What stands after a member, and the offset after that.
#[derive(Clone, Copy, Drop)]
pub(crate) enum After {
    Comma(usize),
    Brace(usize),
}

/// The comma or the brace after a member that ends there.
#[inline(always)]
pub(crate) fn after_member(line: &RoomyLine<'_>, end: usize) -> Option<After>
    requires { end ≤ length line.now }
    ensures { IfSome result (EndsMember line.now end) }
{
    match line.byte(end) {
        b',' => Some(After::Comma(end + 1)),
        b'}' => Some(After::Brace(end + 1)),
        _ => after_blanks(line, end),
    }
}

/// The same where white space comes before it.
#[inline(always)]
fn after_blanks(line: &RoomyLine<'_>, end: usize) -> Option<After>
    requires { end ≤ length line.now }
    ensures { IfSome result (EndsMember line.now end) }
{
    let place = past_blanks(line, end);
    match line.byte(place) {
        b',' => Some(After::Comma(place + 1)),
        b'}' => Some(After::Brace(place + 1)),
        _ => None,
    }
}

/// The next member. Mostly it is the one that came next the last time.
#[inline(always)]
pub(crate) fn next_member<'w>(
    cache: &mut Cache,
    context: &ReadContext<'_>,
    plan: &'w RowType,
    order: usize,
    place: usize,
) -> Option<Found<'w>>
    requires context { IsContext context.now }
    requires plan { IsTypeOf context.now.schema.now context.now.plan.now.expansion context.now.plan.now.plans.items
        plan.now }
    requires order { order < 1024 }
    requires within { place ≤ length context.now.line }
    ensures found { IfSome result (FindsMember context.now plan.now cache.old.depth place) }
    ensures depth { cache.new.depth ≡ cache.old.depth }
{
    let likely = cache.next.compact_slot(order);
    if likely < plan.slots.len() {
        let slot = &plan.slots[likely];
        if let Some(end) = slot.key.end(&context.line, place) {
            return Some(Found {
                slot: Some(slot),
                place: end,
            });
        }
    } else if let Some(found) = spaced_member(cache, context, plan, order, place) {
        return Some(found);
    }
    let Some(end) = other_member(cache, context, plan, order, place) else {
        return None;
    };
    if cache.slot < plan.slots.len() {
        return Some(Found {
            slot: Some(&plan.slots[cache.slot]),
            place: end,
        });
    }
    Some(Found {
        slot: None,
        place: end,
    })
}

/// The next member where it is the one that last came next with a space before its value, and has one now. A space may
/// stand before its name too.
#[inline(always)]
fn spaced_member<'w>(
    cache: &Cache,
    context: &ReadContext<'_>,
    plan: &'w RowType,
    order: usize,
    place: usize,
) -> Option<Found<'w>>
    requires plan { IsTypeOf context.now.schema.now context.now.plan.now.expansion context.now.plan.now.plans.items
        plan.now }
    requires order { order < 1024 }
    requires within { place ≤ length context.now.line }
    ensures { (depth : ℕ) → IfSome result (FindsMember context.now plan.now depth place) }
{
    let likely = cache.next.spaced_slot(order);
    if likely >= plan.slots.len() {
        return None;
    }
    let line = &context.line;
    let name = past_space(line, place);
    let slot = &plan.slots[likely];
    match slot.key.spaced_end(line, name) {
        Some(end) => Some(Found {
            slot: Some(slot),
            place: end,
        }),
        None => None,
    }
}

/// The offset after a space, if one stands there.
#[inline(always)]
fn past_space(line: &RoomyLine<'_>, place: usize) -> usize
    requires { place ≤ length line.now }
    ensures { PassesSpaces line.now place result }
{
    if line.byte(place) == b' ' {
        return place + 1;
    }
    place
}

/// The next member where it was not expected: the cache reports its slot, and one without a slot is passed.
#[inline(never)]
fn other_member(
    cache: &mut Cache,
    context: &ReadContext<'_>,
    plan: &RowType,
    order: usize,
    from: usize,
) -> Option<usize>
    requires context { IsContext context.now }
    requires plan { IsTypeOf context.now.schema.now context.now.plan.now.expansion context.now.plan.now.plans.items
        plan.now }
    requires order { order < 1024 }
    requires within { from ≤ length context.now.line }
    ensures found { IfSome result (NextMember cache.old.depth context.now.line
        (properties_at context.now.schema.now plan.now.type_id) cache.new.slot from) }
    ensures depth { cache.new.depth ≡ cache.old.depth }
{
    let line = &context.line;
    let place = past_blanks(line, from);
    let Some(value) = next_name(cache, context, plan, order, place) else {
        return None;
    };
    if cache.slot < plan.slots.len() {
        let is_spaced = line.byte(value) == b' ';
        cache.next.put(order, cache.slot, is_spaced);
        return Some(value);
    }
    any_value_end(
        line,
        past_blanks(line, value),
        cache.depth,
        &mut cache.decoded,
    )
}

/// The name that stands there and its colon, which white space may come before. The cache reports its slot: mostly
/// none, or that of the member that came next the last time.
#[inline(always)]
fn next_name(
    cache: &mut Cache,
    context: &ReadContext<'_>,
    plan: &RowType,
    order: usize,
    place: usize,
) -> Option<usize>
    requires context { IsContext context.now }
    requires plan { IsTypeOf context.now.schema.now context.now.plan.now.expansion context.now.plan.now.plans.items
        plan.now }
    requires order { order < 1024 }
    requires within { place ≤ length context.now.line }
    ensures name { IfSome result (FindsName context.now.line (properties_at context.now.schema.now plan.now.type_id)
        cache.new.slot place) }
    ensures depth { cache.new.depth ≡ cache.old.depth }
{
    let line = &context.line;
    if let Some(end) = context.known.names.name_end(plan.type_id, line, place) {
        cache.slot = plan.slots.len();
        return Some(end);
    }
    let likely = cache.next.last_slot(order);
    if likely < plan.slots.len() {
        if let Some(end) = plan.slots[likely].key.end_before_blanks(line, place) {
            cache.slot = likely;
            return Some(end);
        }
    }
    named_member(cache, context, plan, place)
}

/// The member whose name stands there; without a slot where its name is no slot's.
fn named_member(
    cache: &mut Cache,
    context: &ReadContext<'_>,
    plan: &RowType,
    place: usize,
) -> Option<usize>
    requires plan { IsTypeOf context.now.schema.now context.now.plan.now.expansion context.now.plan.now.plans.items
        plan.now }
    requires within { place ≤ length context.now.line }
    ensures name { IfSome result (FindsName context.now.line (properties_at context.now.schema.now plan.now.type_id)
        cache.new.slot place) }
    ensures depth { cache.new.depth ≡ cache.old.depth }
{
    let line = &context.line;
    if plan.slots.len() <= FEW_SLOTS {
        for slot in 0..plan.slots.len() {
            if let Some(end) = plan.slots[slot].key.end(line, place) {
                cache.slot = slot;
                return Some(end);
            }
        }
    }
    let Some((slot, end)) = slot_at(&mut cache.decoded, context.schema, plan, line, place) else {
        return None;
    };
    cache.slot = slot;
    note_name(cache, plan, line, place);
    Some(end)
}

/// Notes the name that stands there, where the member that was found has no slot.
fn note_name(cache: &mut Cache, plan: &RowType, line: &RoomyLine<'_>, place: usize)
    requires { place ≤ length line.now }
    ensures depth { cache.new.depth ≡ cache.old.depth }
    ensures slot { cache.new.slot ≡ cache.old.slot }
{
    if cache.slot < plan.slots.len() {
        return;
    }
    if let Some(name) = NotedName::of(plan.type_id, line, place) {
        cache.noted = Some(Noted::Name(name));
    }
}

/// The slot of the name that stands there, and the offset after its colon.
fn slot_at(
    buffer: &mut DecodeBuffer,
    schema: &Schema,
    plan: &RowType,
    line: &RoomyLine<'_>,
    place: usize,
) -> Option<(usize, usize)>
    requires count { length plan.now.slots.items ≡ length (properties_at schema.now plan.now.type_id) }
    requires within { place ≤ length line.now }
    ensures { IfSome result (λ found.
        FindsName line.now (properties_at schema.now plan.now.type_id) found.0 place found.1) }
{
    let Some((name, end)) = any_text_at(line, place, buffer) else {
        return None;
    };
    let colon = past_blanks(line, end);
    if line.byte(colon) != b':' {
        return None;
    }
    match schema.slot(plan.type_id, name) {
        Some(slot) => Some((slot, colon + 1)),
        None => Some((plan.slots.len(), colon + 1)),
    }
}

/// The offset after the members of an object and its brace.
#[inline(never)]
#[cycle(pass)]
pub(crate) fn pass_members<M: SeenSlots>(
    cache: &mut Cache,
    context: &ReadContext<'_>,
    plan: &RowType,
    from: usize,
) -> Option<usize>
    requires context { IsContext context.now }
    requires rooms { HaveRoom M.most context.now }
    requires plan { IsTypeOf context.now.schema.now context.now.plan.now.expansion context.now.plan.now.plans.items
        plan.now }
    requires room { length plan.now.slots.items ≤ M.most }
    requires within { from ≤ length context.now.line }
    ensures passed { IfSome result (PassesMembers context.now plan.now cache.old.depth from) }
    ensures depth { cache.new.depth ≡ cache.old.depth }
{
    let line = &context.line;
    let mut place = past_blanks(line, from);
    let mut seen = M::none();
    if line.byte(place) == b'}' {
        return if seen.are_all_but(&plan.optional, &plan.all) {
            Some(place + 1)
        } else {
            None
        };
    }
    let mut order = plan.order;
    'members: loop {
        let Some(found) = next_member(cache, context, plan, order, place) else {
            return None;
        };
        match found.slot {
            Some(slot) => {
                let Some(end) = value_end::<M>(cache, context, slot, slot.task, found.place) else {
                    return None;
                };
                seen.mark(slot.index, slot.bit);
                order = slot.order;
                place = end;
            }
            None => place = found.place,
        }
        match after_member(line, place) {
            Some(After::Comma(next)) => place = next,
            Some(After::Brace(next)) => {
                return if seen.are_all_but(&plan.optional, &plan.all) {
                    Some(next)
                } else {
                    None
                };
            }
            None => return None,
        }
    }
}
