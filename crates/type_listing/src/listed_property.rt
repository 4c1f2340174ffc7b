//! A property as it is listed.
ghost use Rattle.std.specs.Prelude.{◌<◌, length};
ghost use Rattle.csdl_schema.specs.SchemaModel.{properties_at};

use crate::declared_types::{declared_type, declares, names_a_type, unknown_type};
use crate::named_types::property_type_name;
use csdl_schema::{PropertyKind, Schema, TypeId};
use serde::Serialize;
use serde_json::Value;
use std::alloc::{AllocError, Global};

/// A property of a type: its name, the type of its value or of an item of it, and what is said of it.
#[derive(Drop, Serialize)]
pub struct ListedProperty<'d> {
    pub name: &'d str,
    #[serde(rename = "type")]
    pub type_name: &'d str,
    pub collection: bool,
    pub nullable: bool,
    pub navigation: bool,
    /// Whether filters and rows can have it.
    pub read: bool,
    /// That its `$Type` names no type.
    #[serde(skip_serializing_if = "Option::is_none")]
    pub warning: Option<String>,
}

/// That the `$Type` of a property names no type, if the type itself declares the property.
fn warning(
    alloc: Global,
    document: &Value,
    owner: &str,
    name: &str,
    type_name: &str,
) -> Result<Option<String>, AllocError> {
    if declares(document, owner, name) {
        Ok(Some(unknown_type(alloc, document, type_name)?))
    } else {
        Ok(None)
    }
}

/// The property at a slot of a type, as it is listed. What the schema has no name for stands as its `$Type` has it.
pub fn listed_property<'d>(
    alloc: Global,
    schema: &'d Schema,
    document: &'d Value,
    id: TypeId,
    slot: usize,
) -> Result<ListedProperty<'d>, AllocError>
    requires { slot < length (properties_at schema.now id) }
{
    let name = schema.slot_name(id, slot);
    let property = schema.property(id, slot);
    let known = property_type_name(schema, property);
    let type_name = match known {
        Some(known) => known,
        None => declared_type(schema, document, id, name).unwrap_or("Edm.String"),
    };
    let owner = schema.type_name(id).unwrap_or("");
    Ok(ListedProperty {
        name,
        type_name,
        collection: property.many,
        nullable: property.nullable,
        navigation: matches!(property.kind, PropertyKind::Navigation),
        read: known.is_some(),
        warning: match known {
            None if !names_a_type(schema, type_name) => {
                warning(alloc, document, owner, name, type_name)?
            }
            _ => None,
        },
    })
}

/// The property as a line: `  Name Edm.String nullable`.
pub fn property_line(alloc: Global, property: &ListedProperty<'_>) -> Result<String, AllocError> {
    let (before, after) = if property.collection {
        ("Collection(", ")")
    } else {
        ("", "")
    };
    let nullable = if property.nullable { " nullable" } else { "" };
    let navigation = if property.navigation {
        " navigation"
    } else {
        ""
    };
    let read = if property.read { "" } else { " not read" };
    Ok(format!(in alloc;
        "  {} {before}{}{after}{nullable}{navigation}{read}",
        property.name, property.type_name
    )?)
}
