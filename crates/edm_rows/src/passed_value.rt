//! Values that are held to their types where they stand, and do not become values.
ghost use Rattle.std.specs.Prelude.{◌≡◌, ◌<◌, ◌≤◌, ℕ, List, length, IfSome};
ghost use Rattle.json.specs.Token.{number};
ghost use Rattle.csdl_schema.specs.ExprType.{SingleType, enumeration, primitive, single};
ghost use Rattle.csdl_schema.specs.SchemaModel.{Slots, slots_of};
ghost use Rattle.json_room.specs.Lexemes.{StandsTo};
ghost use Rattle.edm_rows.specs.private.Passed.{FitsSome, FitsSomeHowever};
ghost use Rattle.json_room.specs.ValueStands.{ValueStands};
ghost use Rattle.edm_rows.specs.private.Held.{IsIntegerText, IsSingle};
ghost use Rattle.edm_rows.specs.private.RowSlots.{IsSlotOf, IsTaskOf, name_at};
ghost use Rattle.edm_rows.specs.private.Contexts.{IsContext, PassesItems, PassesValue};
ghost use Rattle.edm_rows.specs.private.SeenSlots.{HaveRoom};

use super::literals::{literal_at, member_at};
use super::members::pass_members;
use super::row_cache::{Cache, LookedUp, Noted};
use super::row_types::{RowSlot, RowType, Task};
use csdl_schema::Schema;
use edm_row_plans::RowPlan;
use json_room::{
    DecodeBuffer, RoomyLine, any_number_end, any_value_end, digits_up_to, escaped_text_end,
    null_end, number_at, number_of_text, past_blanks, text_end, truth_end,
};
use room_literals::{day_end, guid_end, moment_end};
use seen_slots::SeenSlots;

/// What a walk over a line looks at.
#[derive(Drop)]
pub(crate) struct ReadContext<'w> {
    pub(crate) schema: &'w Schema,
    pub(crate) plan: &'w RowPlan,
    pub(crate) types: &'w [RowType],
    pub(crate) known: &'w LookedUp,
    pub(crate) line: RoomyLine<'w>,
    /// How deep the members of a row may nest.
    pub(crate) depth: usize,
}

/// The offset after the value of a slot, or an item of it, that stands there.
#[inline(always)]
#[cycle(pass)]
pub(crate) fn value_end<M: SeenSlots>(
    cache: &mut Cache,
    context: &ReadContext<'_>,
    slot: &RowSlot,
    task: Task,
    place: usize,
) -> Option<usize>
    requires context { IsContext context.now }
    requires rooms { HaveRoom M.most context.now }
    requires slot { IsSlotOf context.now.plan.now.plans.items slot.now }
    requires task { IsTaskOf slot.now task }
    requires within { place ≤ length context.now.line }
    ensures passed { IfSome result (PassesValue context.now slot.now task cache.old.depth place) }
    ensures depth { cache.new.depth ≡ cache.old.depth }
{
    match sure_end::<M>(cache, context, slot, task, place) {
        Some(end) => Some(end),
        None => other_end::<M>(cache, context, slot, task, place),
    }
}

/// The same of what most values are.
#[inline(always)]
#[cycle(pass)]
fn sure_end<M: SeenSlots>(
    cache: &mut Cache,
    context: &ReadContext<'_>,
    slot: &RowSlot,
    task: Task,
    place: usize,
) -> Option<usize>
    requires context { IsContext context.now }
    requires rooms { HaveRoom M.most context.now }
    requires slot { IsSlotOf context.now.plan.now.plans.items slot.now }
    requires task { IsTaskOf slot.now task }
    requires within { place ≤ length context.now.line }
    ensures passed { IfSome result (PassesValue context.now slot.now task cache.old.depth place) }
    ensures depth { cache.new.depth ≡ cache.old.depth }
{
    let line = &context.line;
    match task {
        Task::Text => text_end(line, place),
        Task::Number => digits_up_to(line, place, slot.sure),
        Task::Truth => match truth_end(line, place) {
            Some((_, end)) => Some(end),
            None => None,
        },
        Task::Date => day_end(line, place),
        Task::Moment => moment_end(line, place),
        Task::Guid => guid_end(line, place),
        Task::Member => context.known.texts.text_end(slot.member_of, line, place),
        Task::Record => record_end::<M>(cache, context, slot, place),
        Task::Items => array_end::<M>(cache, context, slot, place),
        Task::Any => any_number_end(line, place),
    }
}

/// The offset after the object that begins there.
#[inline(always)]
#[cycle(pass)]
fn record_end<M: SeenSlots>(
    cache: &mut Cache,
    context: &ReadContext<'_>,
    slot: &RowSlot,
    place: usize,
) -> Option<usize>
    requires context { IsContext context.now }
    requires rooms { HaveRoom M.most context.now }
    requires slot { IsSlotOf context.now.plan.now.plans.items slot.now }
    requires item { slot.now.item ≡ Task.Record }
    requires within { place ≤ length context.now.line }
    ensures passed { IfSome result (PassesValue context.now slot.now Task.Record cache.old.depth place) }
    ensures depth { cache.new.depth ≡ cache.old.depth }
{
    if context.line.byte(place) != b'{' || cache.depth == 0 {
        return None;
    }
    cache.depth -= 1;
    let end = pass_members::<M>(cache, context, &context.types[slot.record], place + 1);
    cache.depth += 1;
    end
}

/// The offset after the array that begins there.
#[inline(always)]
#[cycle(pass)]
fn array_end<M: SeenSlots>(
    cache: &mut Cache,
    context: &ReadContext<'_>,
    slot: &RowSlot,
    place: usize,
) -> Option<usize>
    requires context { IsContext context.now }
    requires rooms { HaveRoom M.most context.now }
    requires slot { IsSlotOf context.now.plan.now.plans.items slot.now }
    requires single { IsSingle slot.now.item }
    requires within { place ≤ length context.now.line }
    ensures passed { IfSome result (PassesValue context.now slot.now Task.Items cache.old.depth place) }
    ensures depth { cache.new.depth ≡ cache.old.depth }
{
    let line = &context.line;
    if line.byte(place) != b'[' || cache.depth == 0 {
        return None;
    }
    if line.byte(place + 1) == b']' {
        return Some(place + 2);
    }
    cache.depth -= 1;
    let end = items_end::<M>(cache, context, slot, place + 1);
    cache.depth += 1;
    end
}

/// The same of a value after white space, and of what is seldom.
#[inline(never)]
#[cycle(pass)]
fn other_end<M: SeenSlots>(
    cache: &mut Cache,
    context: &ReadContext<'_>,
    slot: &RowSlot,
    task: Task,
    from: usize,
) -> Option<usize>
    requires context { IsContext context.now }
    requires rooms { HaveRoom M.most context.now }
    requires slot { IsSlotOf context.now.plan.now.plans.items slot.now }
    requires task { IsTaskOf slot.now task }
    requires within { from ≤ length context.now.line }
    ensures passed { IfSome result (PassesValue context.now slot.now task cache.old.depth from) }
    ensures depth { cache.new.depth ≡ cache.old.depth }
{
    let place = past_blanks(&context.line, from);
    if place != from {
        if let Some(end) = sure_end::<M>(cache, context, slot, task, place) {
            return Some(end);
        }
    }
    seldom_end(cache, context, slot, task, place)
}

/// The offset after null, and after a value that is written as few are.
fn seldom_end(
    cache: &mut Cache,
    context: &ReadContext<'_>,
    slot: &RowSlot,
    task: Task,
    place: usize,
) -> Option<usize>
    requires slot { IsSlotOf context.now.plan.now.plans.items slot.now }
    requires task { IsTaskOf slot.now task }
    requires within { place ≤ length context.now.line }
    ensures passed { IfSome result (PassesValue context.now slot.now task cache.old.depth place) }
    ensures depth { cache.new.depth ≡ cache.old.depth }
{
    let line = &context.line;
    match task {
        Task::Any => any_value_end(line, place, cache.depth, &mut cache.decoded),
        Task::Items => None,
        _ => if line.byte(place) == b'n' {
            nullable_end(line, slot.is_nullable, place)
        } else {
            written_end(cache, context, slot, task, place)
        },
    }
}

/// The offset after a null that may be.
fn nullable_end(line: &RoomyLine<'_>, is_nullable: bool, place: usize) -> Option<usize>
    requires { place ≤ length line.now }
    ensures { (slots : Slots) (type : SingleType) (depth : ℕ) → IfSome result (λ to. ValueStands depth line.now place to
        (FitsSome slots is_nullable is_nullable (single type))) }
{
    if is_nullable {
        null_end(line, place)
    } else {
        None
    }
}

/// The offset after a text with escapes, a number with a sign or of many digits, or a literal or a member's text that
/// was not seen at once to be one.
fn written_end(
    cache: &mut Cache,
    context: &ReadContext<'_>,
    slot: &RowSlot,
    task: Task,
    place: usize,
) -> Option<usize>
    requires slot { IsSlotOf context.now.plan.now.plans.items slot.now }
    requires task { IsTaskOf slot.now task }
    requires within { place ≤ length context.now.line }
    ensures passed { IfSome result (PassesValue context.now slot.now task cache.old.depth place) }
    ensures depth { cache.new.depth ≡ cache.old.depth }
{
    let line = &context.line;
    match task {
        Task::Text => escaped_text_end(line, place, &mut cache.decoded),
        Task::Number => number_end(line, slot, place),
        Task::Date => literal_end(&mut cache.decoded, line, slot, place),
        Task::Moment => literal_end(&mut cache.decoded, line, slot, place),
        Task::Guid => literal_end(&mut cache.decoded, line, slot, place),
        Task::Member => member_text_end(cache, context, slot, place),
        _ => None,
    }
}

/// The number of the slot's type that stands there, and the offset after it.
pub(crate) fn typed_number_at(
    line: &RoomyLine<'_>,
    slot: &RowSlot,
    place: usize,
) -> Option<(i64, usize)>
    requires { place ≤ length line.now }
    ensures { IfSome result (λ found. (s : List ℕ) × StandsTo line.now place (number s) found.1
        × IsIntegerText slot.now.prim s found.0) }
{
    let Some((text, end)) = number_at(line, place) else {
        return None;
    };
    let Some(written) = number_of_text(text) else {
        return None;
    };
    match written.as_i64() {
        Some(number) => if slot.prim.holds_number(number) {
            Some((number, end))
        } else {
            None
        },
        None => None,
    }
}

/// The offset after a number of the slot's type.
fn number_end(line: &RoomyLine<'_>, slot: &RowSlot, place: usize) -> Option<usize>
    requires { place ≤ length line.now }
    ensures { (slots : Slots) (depth : ℕ) → IfSome result (λ to. ValueStands depth line.now place to
        (FitsSomeHowever slots (single (primitive slot.now.prim)))) }
{
    match typed_number_at(line, slot, place) {
        Some((_, end)) => Some(end),
        None => None,
    }
}

/// The offset after a text that is a literal of the slot's type.
#[inline(never)]
fn literal_end(
    buffer: &mut DecodeBuffer,
    line: &RoomyLine<'_>,
    slot: &RowSlot,
    place: usize,
) -> Option<usize>
    requires { place ≤ length line.now }
    ensures { (slots : Slots) (depth : ℕ) → IfSome result (λ to. ValueStands depth line.now place to
        (FitsSomeHowever slots (single (primitive slot.now.prim)))) }
{
    match literal_at(buffer, line, slot.prim, place) {
        Some((_value, end)) => Some(end),
        None => None,
    }
}

/// The offset after a text of the slot's enumeration, which is noted.
#[inline(never)]
fn member_text_end(
    cache: &mut Cache,
    context: &ReadContext<'_>,
    slot: &RowSlot,
    place: usize,
) -> Option<usize>
    requires { place ≤ length context.now.line }
    ensures read { (depth : ℕ) → IfSome result (λ to. ValueStands depth context.now.line place to (FitsSomeHowever
        (slots_of context.now.schema.now) (single (enumeration (name_at context.now.schema.now slot.now.member_of))))) }
    ensures depth { cache.new.depth ≡ cache.old.depth }
{
    let Some(id) = slot.member_of else {
        return None;
    };
    match member_at(&mut cache.decoded, context.schema, &context.line, id, place) {
        Some((_, end)) => {
            cache.noted = Noted::of_text(id, &context.line, place);
            Some(end)
        }
        None => None,
    }
}

/// The offset after an array's items and its bracket.
#[inline(never)]
#[cycle(pass)]
fn items_end<M: SeenSlots>(
    cache: &mut Cache,
    context: &ReadContext<'_>,
    slot: &RowSlot,
    from: usize,
) -> Option<usize>
    requires context { IsContext context.now }
    requires rooms { HaveRoom M.most context.now }
    requires slot { IsSlotOf context.now.plan.now.plans.items slot.now }
    requires single { IsSingle slot.now.item }
    requires within { from ≤ length context.now.line }
    ensures passed { IfSome result (PassesItems context.now slot.now cache.old.depth from) }
    ensures depth { cache.new.depth ≡ cache.old.depth }
{
    let line = &context.line;
    let mut place = past_blanks(line, from);
    if line.byte(place) == b']' {
        return Some(place + 1);
    }
    'items: loop {
        let Some(end) = value_end::<M>(cache, context, slot, slot.item, place) else {
            return None;
        };
        place = past_blanks(line, end);
        match line.byte(place) {
            b',' => place = past_blanks(line, place + 1),
            b']' => return Some(place + 1),
            _ => return None,
        }
    }
}
