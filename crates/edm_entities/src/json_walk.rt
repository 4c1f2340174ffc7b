//! The walk over a JSON value along the slots of a type. The first fault in the order of the slots ends it.
ghost use Rattle.std.specs.Prelude.{◌≡◌, [], Bool, false, Some, IsSome, option_map, IfOk, IfErr};
ghost use Rattle.serde_json.specs.Data.{array};
ghost use Rattle.serde_json.specs.Find.{as_object};
ghost use Rattle.csdl_schema.specs.ExprType.{single, collection, structured};
ghost use Rattle.csdl_schema.specs.PropertyView.{property_type, target_of};
ghost use Rattle.csdl_schema.specs.SchemaModel.{HasDistinctNames, properties_at, type_name_at};
ghost use Rattle.edm_entities.specs.Fits.{FitsFound, FitsProperty, FitsType};
ghost use Rattle.edm_entities.specs.HoldsEachSlot.{HoldsEachSlot};
ghost use Rattle.edm_entities.specs.Row.{field_of, val_of};
ghost use Rattle.edm_entities.specs.RowFaults.{IsFoundFault, IsValueFault};
ghost use Rattle.edm_entities.specs.private.Walk.{IsPropertyFault};
ghost use Rattle.edm_entities.specs.private.Faults.{IsFaultOf};
ghost use Rattle.edm_row_plans.specs.Expanded.{node_behind, target_if};
ghost use Rattle.edm_entities.specs.private.Walk.{slots_in};
ghost use Rattle.edm_entities.specs.private.JsonNodes.{data_of, items_left};
ghost use Rattle.edm_entities.specs.private.Walk.{FitSlots, FitList, HoldsInSlot, HoldInItems, wanted_single};

use super::flaw::{ReadFault, ReadFlaw, fault_below, fault_here, fault_in_item};
use super::json_node::{JsonNode, NodeItems};
use super::leaf::{absent_value, leaf_read, null_value, read_member, read_primitive, record_of};
use super::property_cursor::first_piece;
use csdl_schema::{Property, TypeId};
use edm_row_plans::{
    WalkContext, Wanted, expanded_target, may_hold_null, navigates, node_behind, wanted_with,
};
use edm_values::Value;

/// The values of the properties of a type in slot order, from a JSON object.
#[cycle(walk)]
pub(crate) fn read_slots(
    context: &WalkContext<'_>,
    type_id: TypeId,
    node: Option<usize>,
    json: &JsonNode<'_, '_>,
) -> Result<Vec<Value>, ReadFault>
    ensures object { IfOk result (λ _. IsSome (as_object (data_of json.now))) }
    ensures distinct { IfOk result (λ _. HasDistinctNames (properties_at context.now.schema.now type_id)) }
    ensures fits { IfOk result (λ values. FitSlots (slots_in context.now node) (data_of json.now)
        (properties_at context.now.schema.now type_id) values.items) }
    ensures fault { IfErr result (IsFaultOf (λ path flaw. IsValueFault (slots_in context.now node) false path
        (single (structured (type_name_at context.now.schema.now type_id))) (data_of json.now) flaw)) }
{
    let Ok(found) = json.members(context.alloc, context.schema, type_id) else {
        return Err(fault_here(ReadFlaw::Memory));
    };
    let Some(mut members) = found else {
        return Err(fault_here(ReadFlaw::WrongKind));
    };
    let count = context.schema.slots(type_id);
    let Ok(mut values) = Vec::with_capacity(context.alloc, count) else {
        return Err(fault_here(ReadFlaw::Memory));
    };
    let mut cursor = first_piece(context.schema, type_id);
    for slot in 0..count {
        let (name, property) = cursor.at(context.schema, type_id, slot);
        let inner = node_behind(context, node, name);
        match read_property(context, property, inner, members.find(slot, name)) {
            Ok(value) => {
                if values.push(value).is_err() {
                    return Err(fault_here(ReadFlaw::Memory));
                }
            }
            Err(fault) => return Err(fault_below(context.alloc, name, fault)),
        }
    }
    Ok(values)
}

/// The value of a property, from the member of its name, if there is one. A property that is not looked at is held
/// as null.
#[cycle(walk)]
fn read_property(
    context: &WalkContext<'_>,
    property: &Property,
    node: Option<usize>,
    found: Option<JsonNode<'_, '_>>,
) -> Result<Value, ReadFault>
    ensures fits { IfOk result (λ v. FitsProperty (slots_in context.now node) property.now.nullable
        (property_type context.now.schema.now property.now) (option_map data_of found.entry)
        (field_of (slots_in context.now node).properties (property_type context.now.schema.now property.now)
        (val_of v))) }
    ensures holds { IfOk result (HoldsInSlot (slots_in context.now node)
        (property_type context.now.schema.now property.now)) }
    ensures fault { IfErr result (IsFaultOf (IsPropertyFault (slots_in context.now node) property.now.nullable
        (property_type context.now.schema.now property.now) (option_map data_of found.entry))) }
{
    let target = expanded_target(context, property, node);
    let Some(wanted) = wanted_with(property, target) else {
        return Ok(Value::Null);
    };
    match found {
        Some(json) => if property.many {
            read_items(context, &wanted, node, may_hold_null(property), &json)
        } else {
            read_single(context, &wanted, node, property.nullable, &json)
        },
        None => if navigates(property) {
            Err(fault_here(ReadFlaw::NotExpanded))
        } else {
            absent_value(*property)
        },
    }
}

/// A single value, or an item; null, if it may be.
#[cycle(walk)]
fn read_single(
    context: &WalkContext<'_>,
    wanted: &Wanted,
    node: Option<usize>,
    nullable: bool,
    json: &JsonNode<'_, '_>,
) -> Result<Value, ReadFault>
    ensures fits { (items : Bool) → IfOk result (λ v. FitsFound (Some (data_of json.now)) nullable
        (val_of v (slots_in context.now node).properties (single (wanted_single context.now.schema.now wanted.now)))
        (λ found. FitsType (slots_in context.now node) items
        (single (wanted_single context.now.schema.now wanted.now)) found
        (val_of v (slots_in context.now node).properties (single (wanted_single context.now.schema.now wanted.now))))) }
    ensures holds { IfOk result
        (λ v. HoldsEachSlot v (slots_in context.now node) (single (wanted_single context.now.schema.now wanted.now))) }
    ensures fault { (items : Bool) → IfErr result (IsFaultOf (λ path flaw. IsFoundFault (Some (data_of json.now)) nullable
        path flaw (λ found. IsValueFault (slots_in context.now node) items path
        (single (wanted_single context.now.schema.now wanted.now)) found flaw))) }
{
    if json.is_null() {
        return null_value(nullable);
    }
    read_value(context, wanted, node, json)
}

/// A value that is not null.
#[cycle(walk)]
fn read_value(
    context: &WalkContext<'_>,
    wanted: &Wanted,
    node: Option<usize>,
    json: &JsonNode<'_, '_>,
) -> Result<Value, ReadFault>
    ensures fits { (nullable : Bool) → IfOk result (λ v. FitsType (slots_in context.now node) nullable
        (single (wanted_single context.now.schema.now wanted.now)) (data_of json.now)
        (val_of v (slots_in context.now node).properties (single (wanted_single context.now.schema.now wanted.now)))) }
    ensures holds { IfOk result
        (λ v. HoldsEachSlot v (slots_in context.now node) (single (wanted_single context.now.schema.now wanted.now))) }
    ensures fault { (nullable : Bool) → IfErr result (IsFaultOf (λ path flaw. IsValueFault (slots_in context.now node)
        nullable path (single (wanted_single context.now.schema.now wanted.now)) (data_of json.now) flaw)) }
{
    match *wanted {
        Wanted::Prim(prim) => leaf_read(read_primitive(context.alloc, prim, json.scalar())),
        Wanted::Enum(id) => leaf_read(read_member(context.schema, id, json.scalar())),
        Wanted::Complex(id) => {
            let values = read_slots(context, id, node, json)?;
            record_of(context.alloc, values)
        }
    }
}

/// The value of an array.
#[cycle(walk)]
fn read_items(
    context: &WalkContext<'_>,
    wanted: &Wanted,
    node: Option<usize>,
    nullable: bool,
    json: &JsonNode<'_, '_>,
) -> Result<Value, ReadFault>
    ensures fits { IfOk result (λ v. FitsFound (Some (data_of json.now)) false
        (val_of v (slots_in context.now node).properties (collection (wanted_single context.now.schema.now wanted.now)))
        (λ found. FitsType (slots_in context.now node) nullable
        (collection (wanted_single context.now.schema.now wanted.now)) found
        (val_of v (slots_in context.now node).properties
        (collection (wanted_single context.now.schema.now wanted.now))))) }
    ensures holds { IfOk result
        (λ v. HoldsEachSlot v (slots_in context.now node)
        (collection (wanted_single context.now.schema.now wanted.now))) }
    ensures fault { IfErr result (IsFaultOf (λ path flaw. IsFoundFault (Some (data_of json.now)) false path flaw
        (λ found. IsValueFault (slots_in context.now node) nullable path
        (collection (wanted_single context.now.schema.now wanted.now)) found flaw))) }
{
    if json.is_null() {
        return Err(fault_here(ReadFlaw::NullNotAllowed));
    }
    let Some(items) = json.items() else {
        return Err(fault_here(ReadFlaw::WrongKind));
    };
    let values = read_list(context, wanted, node, nullable, items)?;
    Ok(Value::List(values))
}

/// The values of an array's items, in order.
#[cycle(walk)]
fn read_list(
    context: &WalkContext<'_>,
    wanted: &Wanted,
    node: Option<usize>,
    nullable: bool,
    items: NodeItems<'_, '_>,
) -> Result<Vec<Value>, ReadFault>
    ensures fits { IfOk result (λ values. FitList (slots_in context.now node) nullable
        (wanted_single context.now.schema.now wanted.now) (items_left items.entry) values.items) }
    ensures holds { IfOk result
        (λ values. HoldInItems (slots_in context.now node)
        (wanted_single context.now.schema.now wanted.now) values.items) }
    ensures fault { IfErr result (IsFaultOf (λ path flaw. IsValueFault (slots_in context.now node) nullable path
        (collection (wanted_single context.now.schema.now wanted.now)) (array (items_left items.entry)) flaw)) }
{
    let mut left = items;
    let Ok(mut values) = Vec::with_capacity(context.alloc, left.count()) else {
        return Err(fault_here(ReadFlaw::Memory));
    };
    'items: while let Some(item) = left.next() {
        match read_single(context, wanted, node, nullable, &item) {
            Ok(value) => {
                if values.push(value).is_err() {
                    return Err(fault_here(ReadFlaw::Memory));
                }
            }
            Err(fault) => return Err(fault_in_item(context.alloc, values.len(), fault)),
        }
    }
    Ok(values)
}
