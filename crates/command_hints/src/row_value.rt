//! The value of a row at a path, and the type that is wanted there.
use csdl_schema::{Property, PropertyKind, Schema, TypeId};
use serde_json::Value;
use std::alloc::{AllocError, Global};
use type_listing::property_type_name;

/// At most so many bytes of a value are shown.
const SHOWN_BYTES: usize = 60;

/// One step of a path: to a member, or to an item by its index.
fn step<'v>(value: &'v Value, name: &str) -> Option<&'v Value> {
    match value.as_array() {
        Some(items) => items.get(name.parse::<usize>().ok()?),
        None => value.get(name),
    }
}

/// The value at a path.
fn value_at<'v>(row: &'v Value, path: &str) -> Option<&'v Value> {
    let mut value = row;
    for name in path.split('/') {
        value = step(value, name)?;
    }
    Some(value)
}

/// The value of a row at a path, as JSON, cut if it is long; `None` if the row has none.
pub fn shown_value(alloc: Global, row: &[u8], path: &str) -> Result<Option<String>, AllocError> {
    let Ok(row) = Value::from_slice(alloc, row) else {
        return Ok(None);
    };
    let Some(value) = value_at(&row, path) else {
        return Ok(None);
    };
    let text = value.to_string(alloc)?;
    if text.len() <= SHOWN_BYTES {
        return Ok(Some(text));
    }
    let shown = text
        .get(..text.floor_char_boundary(SHOWN_BYTES))
        .unwrap_or("");
    Ok(Some(format!(in alloc; "{shown}..")?))
}

/// The type that a property leads to.
fn structured(property: &Property) -> Option<TypeId> {
    match property.kind {
        PropertyKind::Complex(id) => Some(id),
        PropertyKind::Navigation => property.target(),
        _ => None,
    }
}

/// The property of a type at the end of a path, and whether an item of it is meant.
fn property_at<'s>(schema: &'s Schema, id: TypeId, path: &str) -> Option<(&'s Property, bool)> {
    let mut owner = Some(id);
    let mut found = None;
    for name in path.split('/') {
        let is_index = name.bytes().all(|byte| byte.is_ascii_digit());
        if is_index {
            let (property, _) = found?;
            found = Some((property, true));
        } else {
            let slot = schema.slot(owner?, name)?;
            let property = schema.property(owner?, slot);
            owner = structured(property);
            found = Some((property, false));
        }
    }
    found
}

/// The type that is wanted at a path, in words; `None` if the path leads to none.
pub fn wanted_type(
    alloc: Global,
    schema: &Schema,
    id: TypeId,
    path: &str,
) -> Result<Option<String>, AllocError> {
    let Some((property, is_item)) = property_at(schema, id, path) else {
        return Ok(None);
    };
    let Some(name) = property_type_name(schema, property) else {
        return Ok(None);
    };
    if property.many && !is_item {
        Ok(Some(format!(in alloc; "Collection({name})")?))
    } else {
        Ok(Some(String::from_str(alloc, name)?))
    }
}
