//! Which slots of a type are kept, and their sieves.
ghost use Rattle.std.specs.Prelude.{◌≡◌, ◌≢◌, ◌↔◌, ℕ, List, Some, true, false, IfSome, length, map, slice_get, slice_set};
ghost use Rattle.csdl_schema.specs.SchemaModel.{HasDistinctNames, properties_at};
ghost use Rattle.edm_rows.specs.RowsOfType.{sieve_put, sifted};
ghost use Rattle.edm_rows.specs.private.HeldRows.{AreKept, AreSameTypes, IsSameType, keeps_of, sieves_of};
ghost use Rattle.edm_rows.specs.private.KeptRows.{names_unkept_in, names_unkept_of};

use super::row_types::{RowSlot, RowType};
use csdl_schema::Schema;
use edm_values::Sieve;

/// Keeps the values of the property of that name, if the type has one.
fn keep_name(of: &mut RowType, schema: &Schema, name: &str)
    requires { HasDistinctNames (properties_at schema.now of.old.type_id) }
    ensures same { IsSameType of.old of.new }
    ensures slots { length (keeps_of of.new) ≡ length (keeps_of of.old) }
    ensures sieves { sieves_of of.new ≡ sieves_of of.old }
    ensures named { ¬ names_unkept_in (properties_at schema.now of.old.type_id) of.new.slots.items name.now }
    ensures others { (other : List ℕ) → other ≢ name.now
        → names_unkept_in (properties_at schema.now of.old.type_id) of.new.slots.items other
        ↔ names_unkept_in (properties_at schema.now of.old.type_id) of.old.slots.items other }
{
    match schema.slot(of.type_id, name) {
        Some(slot) => keep_slot(of, slot),
        None => {}
    }
}

/// Keeps the values of a slot.
fn keep_slot(of: &mut RowType, slot: usize)
    ensures same { IsSameType of.old of.new }
    ensures kept { keeps_of of.new ≡ slice_set (keeps_of of.old) slot true }
    ensures sieves { sieves_of of.new ≡ sieves_of of.old }
{
    if slot < of.slots.len() {
        of.slots[slot].is_kept = true;
    }
}

/// Keeps the values of all slots.
fn keep_slots(of: &mut RowType)
    ensures same { IsSameType of.old of.new }
    ensures slots { length (keeps_of of.new) ≡ length (keeps_of of.old) }
    ensures sieves { sieves_of of.new ≡ sieves_of of.old }
    ensures kept { (slot : ℕ) → slice_get (keeps_of of.new) slot ≢ Some false }
{
    for slot in 0..of.slots.len() {
        keep_slot(of, slot);
    }
}

/// Keeps the values of the properties of that name, in each of these types.
pub(crate) fn keep_name_in(types: &mut Vec<RowType>, schema: &Schema, name: &str)
    requires { (place : ℕ) → IfSome (slice_get types.old.items place)
        (λ t. HasDistinctNames (properties_at schema.now t.type_id)) }
    ensures same { AreSameTypes types.old.items types.new.items }
    ensures sieves { map sieves_of types.new.items ≡ map sieves_of types.old.items }
    ensures named { ¬ names_unkept_of schema.now types.new.items name.now }
    ensures others { (other : List ℕ) → other ≢ name.now
        → names_unkept_of schema.now types.new.items other ↔ names_unkept_of schema.now types.old.items other }
{
    for place in 0..types.len() {
        keep_name(&mut types[place], schema, name);
    }
}

/// Keeps the values of all slots of these types.
pub(crate) fn keep_types(types: &mut Vec<RowType>)
    ensures same { AreSameTypes types.old.items types.new.items }
    ensures sieves { map sieves_of types.new.items ≡ map sieves_of types.old.items }
    ensures kept { AreKept types.new.items }
{
    for place in 0..types.len() {
        keep_slots(&mut types[place]);
    }
}

/// Puts a sieve at a slot, where all values pass.
pub(crate) fn sift_slot(of: &mut RowType, slot: usize, sieve: Sieve)
    ensures same { IsSameType of.old of.new }
    ensures kept { keeps_of of.new ≡ keeps_of of.old }
    ensures sieves { sieves_of of.new ≡ sifted (sieves_of of.old) slot sieve }
{
    if slot < of.slots.len() {
        put_sieve(&mut of.slots[slot], sieve);
    }
}

/// Puts a sieve at a slot, where all values pass.
fn put_sieve(slot: &mut RowSlot, sieve: Sieve)
    ensures { slot.new ≡ record slot.old { sieve = sieve_put slot.old.sieve sieve } }
{
    if let Sieve::All = slot.sieve {
        slot.sieve = sieve;
    }
}
