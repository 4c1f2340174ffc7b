//! The slots of types: those of the base first, then the own ones.
ghost use Rattle.std.specs.Prelude.{◌≡◌, ◌<◌, ◌≤◌, drop, length, map, option_map, slice_get, Some, string_bytes};
ghost use Rattle.csdl_schema.specs.PropertyView.{AreFirstOf};
ghost use Rattle.csdl_schema.specs.SchemaModel.{name_in, properties_at, slot_named};
ghost use Rattle.csdl_schema.specs.private.Placed.{entry_view, own_at};
ghost use Rattle.csdl_schema.specs.private.PlacedView.{placed_of, structured_view};
ghost use Rattle.csdl_schema.specs.private.SchemaView.{chain_in, model_of, names_of, property_model, AreChained, IsThere};
ghost use Rattle.csdl_schema.specs.private.Slots.{own_slot_in, structured_in, BeginsWith};

use super::chain::{Chain, base_at};
use super::named_type::{NamedBody, NamedType, StructuredType};
use super::property::Property;
use indexmap::map::Slice;

fn structured_at(types: &[NamedType], index: usize) -> Option<&StructuredType>
    ensures { option_map (λ s. structured_view s.now) result ≡ structured_in (placed_of types.now) index }
{
    match types.get(index) {
        Some(found) => match &found.body {
            NamedBody::Structured(structured) => Some(structured),
            NamedBody::Enumeration(_) => None,
            NamedBody::Definition(_) => None,
        },
        None => None,
    }
}

/// The properties that the type at an index has itself, each with its name.
fn own_entries(types: &[NamedType], index: usize) -> Slice<'_, String, Property>
    ensures { map entry_view result ≡ own_at (placed_of types.now) index }
{
    let Some(found) = types.get(index) else {
        return Slice::new();
    };
    found.own_entries()
}

fn inherited_at(chains: &[Chain], index: usize) -> usize
    ensures { result ≡ (chain_in chains.now index).inherited }
{
    match chains.get(index) {
        Some(chain) => chain.inherited,
        None => 0,
    }
}

/// How many slots the type at an index has.
pub(crate) fn count_slots(types: &[NamedType], chains: &[Chain], index: usize) -> usize
    requires { AreChained (placed_of types.now) chains.now }
    ensures { result ≡ length (properties_at (model_of (placed_of types.now)) index) }
{
    match structured_at(types, index) {
        Some(structured) => inherited_at(chains, index) + structured.properties.len(),
        None => 0,
    }
}

/// The slot of a type's own property of that name.
fn own_slot(types: &[NamedType], chains: &[Chain], index: usize, name: &str) -> Option<usize>
    requires { AreChained (placed_of types.now) chains.now }
    ensures { result ≡ own_slot_in (placed_of types.now) chains.now index name.now }
{
    match structured_at(types, index) {
        Some(structured) => match structured.properties.get_index_of(name) {
            Some(own) => Some(inherited_at(chains, index) + own),
            None => None,
        },
        None => None,
    }
}

/// The slot of the property of that name, along the chain of bases: no two types of a chain have one name.
pub(crate) fn find_slot(
    types: &[NamedType],
    chains: &[Chain],
    index: usize,
    name: &str,
) -> Option<usize>
    requires { AreChained (placed_of types.now) chains.now }
    ensures { result ≡ slot_named (properties_at (model_of (placed_of types.now)) index) name.now }
{
    let mut next = Some(index);
    while let Some(below) = next {
        match own_slot(types, chains, below, name) {
            Some(slot) => return Some(slot),
            None => next = base_at(types, below),
        }
    }
    None
}

/// The index of the type in a chain of bases that has the property at a slot itself.
fn owner_of(types: &[NamedType], chains: &[Chain], index: usize, slot: usize) -> usize
    requires chained { AreChained (placed_of types.now) chains.now }
    requires within { slot < length (properties_at (model_of (placed_of types.now)) index) }
    ensures front { BeginsWith (properties_at (model_of (placed_of types.now)) index)
        (properties_at (model_of (placed_of types.now)) result) }
    ensures own { (chain_in chains.now result).inherited ≤ slot }
    ensures within { slot < length (properties_at (model_of (placed_of types.now)) result) }
{
    let mut owner = index;
    while slot < inherited_at(chains, owner) {
        match base_at(types, owner) {
            Some(base) => owner = base,
            None => return owner,
        }
    }
    owner
}

/// The name and the property at a slot of a type.
pub(crate) fn entry_at<'t>(
    types: &'t [NamedType],
    chains: &[Chain],
    index: usize,
    slot: usize,
) -> (&'t String, &'t Property)
    requires chained { AreChained (placed_of types.now) chains.now }
    requires within { slot < length (properties_at (model_of (placed_of types.now)) index) }
    ensures entry { slice_get (properties_at (model_of (placed_of types.now)) index) slot
        ≡ Some (property_model (name_in (names_of (placed_of types.now))) (string_bytes result.0.now, result.1.now)) }
    ensures there { IsThere (model_of (placed_of types.now)) result.1.now }
{
    let owner = owner_of(types, chains, index, slot);
    let own = slot - inherited_at(chains, owner);
    let entries = own_entries(types, owner);
    let names = entries.keys().as_slice();
    let properties = entries.values().as_slice();
    (&names[own], &properties[own])
}

/// The properties at the slots from one on, as far as one type of the chain has them itself.
pub(crate) fn entries_from<'t>(
    types: &'t [NamedType],
    chains: &[Chain],
    index: usize,
    slot: usize,
) -> Slice<'t, String, Property>
    requires chained { AreChained (placed_of types.now) chains.now }
    ensures first { AreFirstOf (model_of (placed_of types.now))
        (drop slot (properties_at (model_of (placed_of types.now)) index)) (map entry_view result) }
    ensures some { slot < length (properties_at (model_of (placed_of types.now)) index)
        → 0 < length (map entry_view result) }
{
    if slot >= count_slots(types, chains, index) {
        return Slice::new();
    }
    let owner = owner_of(types, chains, index, slot);
    let own = slot - inherited_at(chains, owner);
    own_entries(types, owner).split_at(own).1
}
