//! What the look-ups of a schema find.
use crate::nodes::{enumeration_name, push_property, structured_name};
use crate::question::{Question, number_of};
use csdl_schema::{Schema, TypeId};
use std::alloc::AllocError;

/// Appends what goes by a name: the whole names of the entity or complex type and of the enumeration, and whether it is
/// an entity type.
pub(crate) fn push_named(out: &mut String, schema: &Schema, name: &str) -> Result<(), AllocError> {
    let (found, is_entity) = match schema.type_named(name) {
        Some(id) => (
            structured_name(schema, id),
            schema.holds(id) && schema.is_entity(id),
        ),
        None => ("none", false),
    };
    let enumeration = match schema.enum_named(name) {
        Some(id) => enumeration_name(schema, id),
        None => "none",
    };
    write!(out, "{found} {enumeration} {is_entity}")
}

/// Appends the number of a text in an enumeration.
pub(crate) fn push_number(
    out: &mut String,
    schema: &Schema,
    question: &Question<'_>,
) -> Result<(), AllocError> {
    let Some(id) = schema.enum_named(question.text) else {
        return out.push_str("no enumeration");
    };
    match schema.enum_value(id, question.second) {
        Some(number) => write!(out, "{number}"),
        None => out.push_str("null"),
    }
}

/// Appends the slot of a name in a type.
pub(crate) fn push_slot_of(
    out: &mut String,
    schema: &Schema,
    id: TypeId,
    name: &str,
) -> Result<(), AllocError> {
    match schema.slot(id, name) {
        Some(slot) => write!(out, "{slot}"),
        None => out.push_str("null"),
    }
}

/// Appends the property at a slot, as `Name Edm.String`.
fn push_slot(out: &mut String, schema: &Schema, id: TypeId, slot: usize) -> Result<(), AllocError> {
    if slot >= schema.slots(id) {
        return Ok(());
    }
    let name = schema.slot_name(id, slot);
    if schema.slot(id, name) != Some(slot) {
        out.push_str("another slot of ")?;
    }
    write!(out, "{name} ")?;
    push_property(out, schema, schema.property(id, slot))
}

/// Appends the slots of a type, as `Name Edm.String, Qty Edm.Int32?`.
pub(crate) fn push_slots(out: &mut String, schema: &Schema, id: TypeId) -> Result<(), AllocError> {
    for slot in 0..schema.slots(id) {
        if slot > 0 {
            out.push_str(", ")?;
        }
        push_slot(out, schema, id, slot)?;
    }
    Ok(())
}

/// Appends how many properties the piece from a slot has, and of its first, if it has one, the name and whether it is
/// the property at that slot.
pub(crate) fn push_piece(
    out: &mut String,
    schema: &Schema,
    id: TypeId,
    slot: &str,
) -> Result<(), AllocError> {
    let slot = number_of(slot);
    let piece = schema.properties_from(id, slot);
    write!(out, "{}", piece.len())?;
    if slot < schema.slots(id) && 0 < piece.len() {
        let (name, property) = piece.entry(0);
        let is_it = *property == *schema.property(id, slot);
        write!(out, " {name} {is_it}")?;
    }
    Ok(())
}
