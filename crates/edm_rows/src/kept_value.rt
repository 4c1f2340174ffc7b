//! The members of a row itself, of which those that are kept become values.
ghost use Rattle.std.specs.Prelude.{◌≡◌, ◌≢◌, ◌<◌, ◌≤◌, ◌^◌, ℕ, length, bit_or, true, false, List, IsTrue};
ghost use Rattle.edm_rows.specs.private.KeptRows.{GoesOn, IsRootSlot, IsRootType, RowConforms};
ghost use Rattle.edm_rows.specs.private.KeptRows.{TakesRow, TakesValue, root_properties, root_slots};
ghost use Rattle.edm_rows.specs.private.KeptSoFar.{KeptRead, KeptUpTo, StepsFrom, StepsTo};
ghost use Rattle.edm_rows.specs.private.RowSlots.{HasPrimitive};
ghost use Rattle.edm_rows.specs.private.SeenSlots.{HasMark, HaveRoom};
ghost use Rattle.edm_rows.specs.private.Contexts.{FindsMember, IsContext, PassesValue};

use super::absent_slots::ends_object;
use super::kept_leaf::{Taken, rejected_text_end, take_digits, take_text, take_truth};
use super::kept_tree::fill_value;
use super::members::{After, Found, after_member, next_member};
use super::passed_value::{ReadContext, value_end};
use super::row_cache::Cache;
use super::row_types::{RowSlot, RowType, Task};
use edm_values::Value;
use json_room::{RoomyLine, past_blanks};
use seen_slots::SeenSlots;

/// Takes the value of a slot that stands there, unless it is rejected.
#[inline(always)]
fn take_value<M: SeenSlots>(
    cache: &mut Cache,
    context: &ReadContext<'_>,
    slot: &RowSlot,
    place: usize,
    value: &mut Value,
) -> Taken
    requires context { IsContext context.now }
    requires rooms { HaveRoom M.most context.now }
    requires slot { IsRootSlot context.now slot.now }
    requires within { place ≤ length context.now.line }
    requires depth { cache.old.depth ≡ context.now.depth }
    ensures taken { TakesValue context.now slot.now context.now.depth value.old value.new place result }
    ensures goes_on { result ≢ Taken.Broken → GoesOn context.now slot.now value.old value.new }
    ensures depth { cache.new.depth ≡ context.now.depth }
{
    let sure = take_sure(&context.line, slot, place, value);
    if let Taken::Nothing = sure {
        return take_other::<M>(cache, context, slot, place, value);
    }
    sure
}

/// The same of what most values are.
#[inline(always)]
fn take_sure(line: &RoomyLine<'_>, slot: &RowSlot, place: usize, value: &mut Value) -> Taken
    requires within { place ≤ length line.now }
    requires primitive { HasPrimitive slot.now.prim slot.now.sure slot.now.task }
    ensures taken { (context : ReadContext) (depth : ℕ) → context.line ≡ line.now → IsRootSlot context slot.now
        → TakesValue context slot.now depth value.old value.new place result }
    ensures goes_on { (context : ReadContext) → IsRootSlot context slot.now → result ≢ Taken.Broken
        → GoesOn context slot.now value.old value.new }
    ensures none { result ≡ Taken.Nothing → value.new ≡ value.old }
{
    if let Task::Number = slot.task {
        return take_digits(line, slot, place, value);
    }
    if let Task::Text = slot.task {
        return take_text(line, slot, place, value);
    }
    if let Task::Truth = slot.task {
        return take_truth(line, slot, place, value);
    }
    Taken::Nothing
}

/// The same of a value after white space, and of what is seldom.
#[inline(never)]
fn take_other<M: SeenSlots>(
    cache: &mut Cache,
    context: &ReadContext<'_>,
    slot: &RowSlot,
    from: usize,
    value: &mut Value,
) -> Taken
    requires context { IsContext context.now }
    requires rooms { HaveRoom M.most context.now }
    requires slot { IsRootSlot context.now slot.now }
    requires within { from ≤ length context.now.line }
    requires depth { cache.old.depth ≡ context.now.depth }
    ensures taken { TakesValue context.now slot.now context.now.depth value.old value.new from result }
    ensures goes_on { result ≢ Taken.Broken → GoesOn context.now slot.now value.old value.new }
    ensures depth { cache.new.depth ≡ context.now.depth }
{
    let place = past_blanks(&context.line, from);
    if place == from {
        return take_seldom::<M>(cache, context, slot, place, value);
    }
    let sure = take_sure(&context.line, slot, place, value);
    if let Taken::Nothing = sure {
        return take_seldom::<M>(cache, context, slot, place, value);
    }
    sure
}

/// The same of null, of a value with parts, and of one that is written as few are. A text with escapes is rejected too.
#[inline(never)]
fn take_seldom<M: SeenSlots>(
    cache: &mut Cache,
    context: &ReadContext<'_>,
    slot: &RowSlot,
    place: usize,
    value: &mut Value,
) -> Taken
    requires context { IsContext context.now }
    requires rooms { HaveRoom M.most context.now }
    requires slot { IsRootSlot context.now slot.now }
    requires within { place ≤ length context.now.line }
    requires depth { cache.old.depth ≡ context.now.depth }
    ensures taken { TakesValue context.now slot.now context.now.depth value.old value.new place result }
    ensures goes_on { result ≢ Taken.Broken → GoesOn context.now slot.now value.old value.new }
    ensures depth { cache.new.depth ≡ context.now.depth }
{
    if let Task::Text = slot.task {
        if let Some(end) = rejected_text_end(cache, &context.line, slot, place) {
            return Taken::Rejected(end);
        }
    }
    match fill_value::<M>(cache, context, slot, slot.task, place, value) {
        Some(end) => Taken::Put(end),
        None => Taken::Broken,
    }
}

/// How far the members of an object were read.
#[derive(Drop)]
pub(crate) struct Progress<M: SeenSlots> {
    pub(crate) place: usize,
    pub(crate) seen: M,
    pub(crate) order: usize,
}

impl<M: SeenSlots> Progress<M> {
    /// The member of a slot was read, up to where its value ends.
    #[inline(always)]
    pub(crate) fn read_slot(&mut self, slot: &RowSlot, end: usize)
        requires { HasMark M.most slot.now }
        ensures place { self.new.place ≡ end }
        ensures seen { M.bits self.new.seen ≡ bit_or (M.bits self.old.seen) (2 ^ slot.now.index) }
        ensures order { self.new.order ≡ slot.now.order }
    {
        self.place = end;
        self.seen.mark(slot.index, slot.bit);
        self.order = slot.order;
    }
}

/// What became of a member of a row.
#[derive(Clone, Copy, Drop)]
pub(crate) enum Step {
    /// It was read.
    Read,
    /// It was read, and its slot's sieve rejects its value.
    Rejected,
    /// It was not read.
    Nothing,
    /// It was not read, and what stands in its slot is half written.
    Broken,
}

/// Takes the members of a row and its brace, unless one of them is rejected.
#[inline(always)]
pub(crate) fn take_members<M: SeenSlots>(
    cache: &mut Cache,
    context: &ReadContext<'_>,
    plan: &RowType,
    from: usize,
    values: &mut [Value],
) -> Taken
    requires context { IsContext context.now }
    requires rooms { HaveRoom M.most context.now }
    requires plan { IsRootType context.now plan.now }
    requires room { length plan.now.slots.items ≤ M.most }
    requires within { from ≤ length context.now.line }
    requires depth { cache.old.depth ≡ context.now.depth }
    requires conforms { RowConforms (root_slots context.now) (root_properties context.now) values.old }
    ensures read { TakesRow context.now plan.now values.new from result }
    ensures conforms { result ≢ Taken.Broken
        → RowConforms (root_slots context.now) (root_properties context.now) values.new }
{
    let mut so_far = Progress {
        place: from,
        seen: M::none(),
        order: plan.order,
    };
    'members: loop {
        let Some(found) = next_member(cache, context, plan, so_far.order, so_far.place) else {
            return take_empty::<M>(context, plan, from, values);
        };
        match take_found(cache, context, plan, found, &mut so_far, values) {
            Step::Read => {}
            Step::Rejected => return pass_rest(cache, context, plan, so_far, values),
            Step::Nothing => return Taken::Nothing,
            Step::Broken => return Taken::Broken,
        }
        match after_member(&context.line, so_far.place) {
            Some(After::Comma(next)) => so_far.place = next,
            Some(After::Brace(next)) => {
                if !ends_object(plan, so_far.seen, values) {
                    return Taken::Nothing;
                }
                return Taken::Put(next);
            }
            None => return Taken::Nothing,
        }
    }
}

/// Takes the brace of a row without members.
#[inline(never)]
fn take_empty<M: SeenSlots>(
    context: &ReadContext<'_>,
    plan: &RowType,
    from: usize,
    values: &mut [Value],
) -> Taken
    requires plan { IsRootType context.now plan.now }
    requires rooms { HaveRoom M.most context.now }
    requires room { length plan.now.slots.items ≤ M.most }
    requires within { from ≤ length context.now.line }
    requires conforms { RowConforms (root_slots context.now) (root_properties context.now) values.old }
    ensures read { TakesRow context.now plan.now values.new from result }
    ensures conforms { RowConforms (root_slots context.now) (root_properties context.now) values.new }
{
    let line = &context.line;
    let brace = past_blanks(line, from);
    if line.byte(brace) != b'}' {
        return Taken::Nothing;
    }
    if !ends_object(plan, M::none(), values) {
        return Taken::Nothing;
    }
    Taken::Put(brace + 1)
}

/// Takes the value of the member that was found.
#[inline(always)]
fn take_found<M: SeenSlots>(
    cache: &mut Cache,
    context: &ReadContext<'_>,
    plan: &RowType,
    found: Found<'_>,
    so_far: &mut Progress<M>,
    values: &mut [Value],
) -> Step
    requires context { IsContext context.now }
    requires rooms { HaveRoom M.most context.now }
    requires plan { IsRootType context.now plan.now }
    requires room { length plan.now.slots.items ≤ M.most }
    requires found { FindsMember context.now plan.now context.now.depth so_far.old.place found }
    requires order { so_far.old.order < 1024 }
    requires depth { cache.old.depth ≡ context.now.depth }
    requires long { length values.old ≡ length (root_properties context.now) }
    ensures read { (from : ℕ)
        → KeptUpTo context.now plan.now.slots.items from so_far.old.place (M.bits so_far.old.seen) false
        values.old
        → StepsTo context.now plan.now from so_far.new.place (M.bits so_far.new.seen) values.new result }
    ensures further { StepsFrom so_far.old.place so_far.new.place so_far.new.order result }
    ensures conforms { RowConforms (root_slots context.now) (root_properties context.now) values.old
        → result ≢ Step.Broken → RowConforms (root_slots context.now) (root_properties context.now) values.new }
    ensures depth { cache.new.depth ≡ context.now.depth }
{
    let Some(slot) = found.slot else {
        so_far.place = found.place;
        return Step::Read;
    };
    if !slot.is_kept {
        return if pass_found(cache, context, slot, found.place, so_far) {
            Step::Read
        } else {
            Step::Nothing
        };
    }
    match take_value::<M>(cache, context, slot, found.place, &mut values[slot.index]) {
        Taken::Put(end) => {
            so_far.read_slot(slot, end);
            Step::Read
        }
        Taken::Rejected(end) => {
            so_far.read_slot(slot, end);
            Step::Rejected
        }
        Taken::Nothing => Step::Nothing,
        Taken::Broken => Step::Broken,
    }
}

/// Passes the members of a row after one that is rejected, and the row's brace.
#[inline(always)]
fn pass_rest<M: SeenSlots>(
    cache: &mut Cache,
    context: &ReadContext<'_>,
    plan: &RowType,
    rejected: Progress<M>,
    values: &mut [Value],
) -> Taken
    requires context { IsContext context.now }
    requires rooms { HaveRoom M.most context.now }
    requires plan { IsRootType context.now plan.now }
    requires room { length plan.now.slots.items ≤ M.most }
    requires within { rejected.place ≤ length context.now.line }
    requires order { rejected.order < 1024 }
    requires depth { cache.old.depth ≡ context.now.depth }
    requires conforms { RowConforms (root_slots context.now) (root_properties context.now) values.old }
    ensures read { (from : ℕ)
        → KeptRead context.now plan.now.slots.items from rejected.place
        (M.bits rejected.seen) true values.old
        → TakesRow context.now plan.now values.new from result }
    ensures conforms { RowConforms (root_slots context.now) (root_properties context.now) values.new }
{
    let mut so_far = rejected;
    'members: loop {
        match after_member(&context.line, so_far.place) {
            Some(After::Comma(next)) => so_far.place = next,
            Some(After::Brace(next)) => {
                if !ends_object(plan, so_far.seen, values) {
                    return Taken::Nothing;
                }
                return Taken::Rejected(next);
            }
            None => return Taken::Nothing,
        }
        let Some(found) = next_member(cache, context, plan, so_far.order, so_far.place) else {
            return Taken::Nothing;
        };
        if !pass_next(cache, context, plan, found, &mut so_far) {
            return Taken::Nothing;
        }
    }
}

/// Passes the value of the member that was found; false where it was not read, or its slot was seen before.
#[inline(always)]
fn pass_next<M: SeenSlots>(
    cache: &mut Cache,
    context: &ReadContext<'_>,
    plan: &RowType,
    found: Found<'_>,
    so_far: &mut Progress<M>,
) -> bool
    requires context { IsContext context.now }
    requires rooms { HaveRoom M.most context.now }
    requires plan { IsRootType context.now plan.now }
    requires room { length plan.now.slots.items ≤ M.most }
    requires found { FindsMember context.now plan.now context.now.depth so_far.old.place found }
    requires order { so_far.old.order < 1024 }
    requires depth { cache.old.depth ≡ context.now.depth }
    ensures read { (from : ℕ) (values : List Value) → length values ≡ length (root_properties context.now)
        → KeptUpTo context.now plan.now.slots.items from so_far.old.place (M.bits so_far.old.seen) true values
        → IsTrue result
        → KeptRead context.now plan.now.slots.items from so_far.new.place (M.bits so_far.new.seen) true values }
    ensures further { IsTrue result → (so_far.old.place < so_far.new.place)
        × (so_far.new.place ≤ length context.now.line) × (so_far.new.order < 1024) }
    ensures depth { cache.new.depth ≡ context.now.depth }
{
    let Some(slot) = found.slot else {
        so_far.place = found.place;
        return true;
    };
    if so_far.seen.has(slot.index, slot.bit) {
        return false;
    }
    pass_found(cache, context, slot, found.place, so_far)
}

/// Passes the value of a slot, which is held to its type; false where it was not read.
#[inline(always)]
fn pass_found<M: SeenSlots>(
    cache: &mut Cache,
    context: &ReadContext<'_>,
    slot: &RowSlot,
    place: usize,
    so_far: &mut Progress<M>,
) -> bool
    requires context { IsContext context.now }
    requires rooms { HaveRoom M.most context.now }
    requires slot { IsRootSlot context.now slot.now }
    requires mark { HasMark M.most slot.now }
    requires within { place ≤ length context.now.line }
    requires depth { cache.old.depth ≡ context.now.depth }
    ensures passed { IsTrue result
        → PassesValue context.now slot.now slot.now.task context.now.depth place so_far.new.place }
    ensures further { IsTrue result → place < so_far.new.place }
    ensures seen { IsTrue result
        → M.bits so_far.new.seen ≡ bit_or (M.bits so_far.old.seen) (2 ^ slot.now.index) }
    ensures order { IsTrue result → so_far.new.order < 1024 }
    ensures depth { cache.new.depth ≡ context.now.depth }
{
    match value_end::<M>(cache, context, slot, slot.task, place) {
        Some(end) => {
            so_far.read_slot(slot, end);
            true
        }
        None => false,
    }
}
