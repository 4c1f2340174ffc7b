//! Slots without a member: an object may end where each of them may be absent.
ghost use Rattle.std.specs.Prelude.{◌≡◌, ◌==◌, length, true, false, IsTrue};
ghost use Rattle.std.specs.Int.{bit_at};
ghost use Rattle.edm_rows.specs.private.Filled.{FillsSlots};
ghost use Rattle.edm_rows.specs.private.KeptRows.{IsRootType, RowConforms, root_properties, root_slots};
ghost use Rattle.edm_rows.specs.private.SeenSlots.{HasMark, HasMarks};

use super::passed_value::ReadContext;
use super::row_types::{RowSlot, RowType};
use edm_values::Value;
use seen_slots::SeenSlots;

/// Whether an object may end with these slots; the others become null.
#[inline(always)]
pub(crate) fn ends_object<M: SeenSlots>(plan: &RowType, seen: M, values: &mut [Value]) -> bool
    requires as_many { length values.old ≡ length plan.now.slots.items }
    requires marks { HasMarks M.most plan.now }
    ensures fills { IsTrue result → FillsSlots plan.now (M.bits seen) values.old values.new }
    ensures conforms { (context : ReadContext) → IsRootType context plan.now
        → RowConforms (root_slots context) (root_properties context) values.old
        → RowConforms (root_slots context) (root_properties context) values.new }
{
    if seen.are_all(&plan.all) {
        return true;
    }
    null_absent(plan, seen, values)
}

/// The same of slots that were not all seen.
#[inline(never)]
fn null_absent<M: SeenSlots>(plan: &RowType, seen: M, values: &mut [Value]) -> bool
    requires as_many { length values.old ≡ length plan.now.slots.items }
    requires marks { HasMarks M.most plan.now }
    ensures fills { IsTrue result → FillsSlots plan.now (M.bits seen) values.old values.new }
    ensures stays { result ≡ false → values.new ≡ values.old }
{
    if !seen.are_all_but(&plan.optional, &plan.all) {
        return false;
    }
    for slot in 0..plan.slots.len() {
        null_unseen(&plan.slots[slot], &seen, &mut values[slot]);
    }
    true
}

/// The value of a slot that was not seen becomes null.
fn null_unseen<M: SeenSlots>(slot: &RowSlot, seen: &M, value: &mut Value)
    requires { HasMark M.most slot.now }
    ensures null { (bit_at (M.bits seen.now) slot.now.index == 1) ≡ false → value.new ≡ Value.Null }
    ensures stays { (bit_at (M.bits seen.now) slot.now.index == 1) ≡ true → value.new ≡ value.old }
{
    if !seen.has(slot.index, slot.bit) {
        *value = Value::Null;
    }
}
