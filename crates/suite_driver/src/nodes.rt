//! The nodes of a checked filter: where they stand, their types and slots.
use csdl_schema::{EnumId, Property, PropertyKind, Schema, TypeId};
use odata_typing::{Checked, EdmType, ValueType};
use std::alloc::AllocError;
use type_listing::primitive_name;

/// The name of an enumeration, with its namespace.
pub(crate) fn enumeration_name(schema: &Schema, id: EnumId) -> &str {
    schema.enum_name(id).unwrap_or("no enumeration")
}

/// The name of an entity or complex type, with its namespace.
pub(crate) fn structured_name(schema: &Schema, id: TypeId) -> &str {
    schema.type_name(id).unwrap_or("no type")
}

fn value_type_name(schema: &Schema, value_type: ValueType) -> &str {
    match value_type {
        ValueType::Prim(prim) => primitive_name(prim),
        ValueType::Enum(id) => enumeration_name(schema, id),
        ValueType::Structured(id) => structured_name(schema, id),
    }
}

/// Appends the name of a type, as `Edm.Int32` or `Collection(Shop.Part)`.
fn push_type(text: &mut String, schema: &Schema, found: Option<EdmType>) -> Result<(), AllocError> {
    match found {
        Some(EdmType::Null) => text.push_str("Null"),
        Some(EdmType::Single(one)) => text.push_str(value_type_name(schema, one)),
        Some(EdmType::Collection(one)) => {
            write!(text, "Collection({})", value_type_name(schema, one))
        }
        None => text.push_str("no type"),
    }
}

/// Appends a word and a number, if there is one.
fn push_number(text: &mut String, word: &str, number: Option<usize>) -> Result<(), AllocError> {
    match number {
        Some(number) => write!(text, " {word} {number}"),
        None => Ok(()),
    }
}

fn push_node(text: &mut String, checked: &Checked<'_>, node: usize) -> Result<(), AllocError> {
    match checked.span_of(node) {
        Some(span) => write!(text, "{span} ")?,
        None => text.push_str("no node ")?,
    }
    push_type(text, checked.schema(), checked.type_of(node))?;
    push_number(text, "slot", checked.slot_of(node))?;
    push_number(text, "level", checked.level_of(node))
}

/// Whether the look-ups find nothing of a node past the last one.
fn has_none_past(checked: &Checked<'_>, node: usize) -> bool {
    checked.span_of(node).is_none()
        && checked.type_of(node).is_none()
        && checked.slot_of(node).is_none()
        && checked.level_of(node).is_none()
        && checked.slot_of(usize::MAX).is_none()
        && checked.level_of(usize::MAX).is_none()
}

/// Appends the nodes in pre-order, as `0..7 Edm.Boolean, 0..2 Edm.Int32 slot 1, 6..7 Edm.Int32`.
pub(crate) fn push_nodes(out: &mut String, checked: &Checked<'_>) -> Result<(), AllocError> {
    for node in 0..checked.node_count() {
        if node > 0 {
            out.push_str(", ")?;
        }
        push_node(out, checked, node)?;
    }
    if has_none_past(checked, checked.node_count()) {
        Ok(())
    } else {
        out.push_str(", and more past the last one")
    }
}

fn kind_name(schema: &Schema, kind: PropertyKind) -> &str {
    match kind {
        PropertyKind::Prim(prim) => primitive_name(prim),
        PropertyKind::Enum(id) => enumeration_name(schema, id),
        PropertyKind::Complex(id) => structured_name(schema, id),
        PropertyKind::Opaque => "opaque",
        PropertyKind::Navigation => "navigation",
    }
}

/// Appends a property's kind, and of a navigation property its target, if it has one. `?` follows if it is nullable,
/// and `*` if there are many.
pub(crate) fn push_property(
    text: &mut String,
    schema: &Schema,
    property: &Property,
) -> Result<(), AllocError> {
    let kind = kind_name(schema, property.kind);
    let nullable = if property.nullable { "?" } else { "" };
    let many = if property.many { "*" } else { "" };
    match property.target() {
        Some(target) => {
            write!(
                text,
                "{kind} {}{nullable}{many}",
                structured_name(schema, target)
            )
        }
        None => write!(text, "{kind}{nullable}{many}"),
    }
}
