//! The names of types: of the primitive ones, of those of properties, and of those that a document declares.
use csdl_schema::{Property, PropertyKind, Schema};
use edm_values::Prim;
use serde_json::Value;
use std::alloc::{AllocError, Global};

/// Returns the name of a primitive type, as the standard writes it. It has no clause: sentences are tested.
pub fn primitive_name(prim: Prim) -> &'static str {
    match prim {
        Prim::Bool => "Edm.Boolean",
        Prim::Byte => "Edm.Byte",
        Prim::SByte => "Edm.SByte",
        Prim::Int16 => "Edm.Int16",
        Prim::Int32 => "Edm.Int32",
        Prim::Int64 => "Edm.Int64",
        Prim::String => "Edm.String",
        Prim::Date => "Edm.Date",
        Prim::DateTimeOffset => "Edm.DateTimeOffset",
        Prim::Guid => "Edm.Guid",
    }
}

/// Returns the name of the type of a property's value, or of one of its items. `None` of one that is not read, and of a
/// navigation property that leads to no entity type. It has no clause: listings are tested.
pub fn property_type_name<'s>(schema: &'s Schema, property: &Property) -> Option<&'s str> {
    match property.kind {
        PropertyKind::Prim(prim) => Some(primitive_name(prim)),
        PropertyKind::Enum(id) => schema.enum_name(id),
        PropertyKind::Complex(id) => schema.type_name(id),
        PropertyKind::Navigation => schema.type_name(property.target()?),
        PropertyKind::Opaque => None,
    }
}

/// An entity or complex type that a document declares.
#[derive(Drop)]
pub struct TypeName {
    /// With its namespace.
    pub name: String,
    pub is_entity: bool,
}

/// Whether a member of a namespace declares an entity type, or else a complex one. `None` of another member.
fn declares_entity(member: &Value) -> Option<bool> {
    let kind = member.get("$Kind")?.as_str()?;
    if kind == "EntityType" {
        Some(true)
    } else if kind == "ComplexType" {
        Some(false)
    } else {
        None
    }
}

/// Puts the types of a namespace into the list.
fn put_names(
    names: &mut Vec<TypeName>,
    alloc: Global,
    namespace: &str,
    content: &Value,
) -> Result<(), AllocError> {
    let Some(members) = content.as_object() else {
        return Ok(());
    };
    for (name, member) in members {
        match declares_entity(member) {
            Some(is_entity) => names.push(TypeName {
                name: format!(in alloc; "{namespace}.{name}")?,
                is_entity,
            })?,
            None => {}
        }
    }
    Ok(())
}

/// Returns the entity and complex types that a document declares, in its order. It has no clause: listings are tested.
pub fn type_names(alloc: Global, document: &Value) -> Result<Vec<TypeName>, AllocError> {
    let mut names = Vec::new(alloc);
    let Some(namespaces) = document.as_object() else {
        return Ok(names);
    };
    for (namespace, members) in namespaces {
        put_names(&mut names, alloc, namespace, members)?;
    }
    Ok(names)
}
