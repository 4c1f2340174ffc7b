//! What a line is as a row of a type: its values, or its first fault.
ghost use Rattle.csdl_schema.specs.SchemaModel.{HoldsType};

use crate::values::push_slots;
use csdl_schema::{Expansion, Schema, TypeId};
use edm_entities::Entity;
use edm_row_plans::RowPlan;
use edm_rows::{HeldSchema, LayoutReader, RowLayout};
use serde_json::Value;
use std::alloc::{AllocError, Global};

/// Appends the entity's values after `fits`.
fn push_entity(out: &mut String, entity: &Entity<'_>) -> Result<(), AllocError> {
    out.push_str("fits ")?;
    push_slots(out, entity.value())
}

/// Appends what a JSON value is: `fits` with its values, or its fault.
fn push_by_json(
    out: &mut String,
    alloc: Global,
    schema: &Schema,
    id: TypeId,
    json: &Value,
) -> Result<(), AllocError>
    requires { HoldsType schema.now id }
{
    match &Entity::from_json(alloc, schema, id, json) {
        Ok(entity) => push_entity(out, entity),
        Err(fault) => write!(out, "{fault}"),
    }
}

/// Appends what a line is through a JSON value.
fn push_by_tree(
    out: &mut String,
    alloc: Global,
    schema: &Schema,
    id: TypeId,
    line: &[u8],
) -> Result<(), AllocError>
    requires { HoldsType schema.now id }
{
    match &Value::from_slice(alloc, line) {
        Ok(json) => push_by_json(out, alloc, schema, id, json),
        Err(error) => out.push_str(if error.is_memory() { "memory" } else { "Json" }),
    }
}

/// Appends what a line is by its text: `fits` with its values, or its fault.
fn push_by_text(
    out: &mut String,
    alloc: Global,
    schema: &Schema,
    id: TypeId,
    line: &[u8],
) -> Result<(), AllocError>
    requires { HoldsType schema.now id }
{
    match &Entity::expanded_from_text(alloc, schema, id, &Expansion::none(alloc), line) {
        Ok(entity) => push_entity(out, entity),
        Err(fault) => write!(out, "{fault}"),
    }
}

/// Appends what a line is straight from its bytes, or by its text where these are not seen to be a row that fits; and
/// whether they were.
fn push_by_bytes(
    out: &mut String,
    alloc: Global,
    schema: &Schema,
    id: TypeId,
    line: &[u8],
) -> Result<bool, AllocError>
    requires { HoldsType schema.now id }
{
    let plan = RowPlan::new(alloc, schema, id, &Expansion::none(alloc));
    let layout = RowLayout::new(alloc, HeldSchema::Borrowed(schema), plan);
    let mut reader = LayoutReader::new(alloc);
    match reader.read(&layout, line) {
        Some(entity) => {
            push_entity(out, &entity)?;
            Ok(true)
        }
        None => {
            push_by_text(out, alloc, schema, id, line)?;
            Ok(false)
        }
    }
}

/// Appends what a line is as a row of a type, through a JSON value; and on a last line whether it is read straight from
/// its bytes, and whether it is the same without a JSON value.
pub(crate) fn push_row(
    out: &mut String,
    alloc: Global,
    schema: &Schema,
    id: TypeId,
    line: &[u8],
) -> Result<(), AllocError>
    requires { HoldsType schema.now id }
{
    let mut bytes = String::new(alloc);
    let is_read = push_by_bytes(&mut bytes, alloc, schema, id, line)?;
    push_by_tree(out, alloc, schema, id, line)?;
    let is_other = bytes.as_str() != out.as_str() && bytes.as_str() != "memory";
    out.push_str(if is_other {
        "\nread otherwise"
    } else if is_read {
        "\nread"
    } else {
        "\nunread"
    })
}
