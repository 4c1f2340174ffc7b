//! The types that a document names: of properties, whether there are these types, and which ones were meant.
use crate::standard_types::{is_standard_type, standard_type_like};
use csdl_schema::{Schema, TypeId};
use serde_json::Value;
use std::alloc::{AllocError, Global};

/// A type and its bases are at most so many.
const MOST_TYPES: usize = 65;

/// The declaration of a type in a document, by its whole name.
fn declaration_of<'v>(document: &'v Value, name: &str) -> Option<&'v Value> {
    let (namespace, last) = name.rsplit_once('.')?;
    document.get(namespace)?.get(last)
}

/// Returns whether a name is that of a type of the schema or of the standard. It has no clause: listings are tested.
pub fn names_a_type(schema: &Schema, name: &str) -> bool {
    is_standard_type(name) || schema.declares(name)
}

/// Whether the type itself declares the property, and not one of its bases.
pub fn declares(document: &Value, type_name: &str, property: &str) -> bool {
    match declaration_of(document, type_name) {
        Some(owner) => owner.get(property).is_some(),
        None => false,
    }
}

/// The text of `$Type` of a property that a type or one of its bases declares. The document finds it by its name, where a
/// schema goes over all names: a listing asks for many.
pub fn declared_type<'v>(
    schema: &Schema,
    document: &'v Value,
    id: TypeId,
    property: &str,
) -> Option<&'v str> {
    let mut owner = declaration_of(document, schema.type_name(id)?)?;
    for _ in 0..MOST_TYPES {
        if let Some(declared) = owner.get(property) {
            return declared.get("$Type").and_then(Value::as_str);
        }
        let base = schema.type_named(owner.get("$BaseType").and_then(Value::as_str)?)?;
        owner = declaration_of(document, schema.type_name(base)?)?;
    }
    None
}

/// The kinds of members that declare types (CSDL JSON 4.01, sections 6, 9, 10 and 11).
const KINDS: &[&str] = &["EntityType", "ComplexType", "EnumType", "TypeDefinition"];

/// Whether a member of a namespace declares a type.
fn declares_type(member: &Value) -> bool {
    match member.get("$Kind").and_then(Value::as_str) {
        Some(kind) => KINDS.iter().any(|other| *other == kind),
        None => false,
    }
}

/// The type of a namespace that has the same name, case apart.
fn member_like<'v>(content: &'v Value, last: &str) -> Option<&'v str> {
    for (name, member) in content.as_object()? {
        if declares_type(member) && name.eq_ignore_ascii_case(last) {
            return Some(name.as_str());
        }
    }
    None
}

/// The whole name of the type that was meant by one of no type: the same last name, case apart.
fn meant(alloc: Global, document: &Value, name: &str) -> Result<Option<String>, AllocError> {
    let last = match name.rsplit_once('.') {
        Some((_, last)) => last,
        None => name,
    };
    if let Some(found) = standard_type_like(last) {
        return Ok(Some(format!(in alloc; "Edm.{found}")?));
    }
    let Some(namespaces) = document.as_object() else {
        return Ok(None);
    };
    for (namespace, content) in namespaces {
        if let Some(found) = member_like(content, last) {
            return Ok(Some(format!(in alloc; "{namespace}.{found}")?));
        }
    }
    Ok(None)
}

/// What is said of a `$Type` that names no type.
pub fn unknown_type(alloc: Global, document: &Value, name: &str) -> Result<String, AllocError> {
    match meant(alloc, document, name)? {
        Some(other) => Ok(format!(in alloc;
            "'{name}' names no type of the document or of the standard. Did you mean '{}'?",
            other.as_str()
        )?),
        None => Ok(format!(in alloc;
            "'{name}' names no type of the document or of the standard."
        )?),
    }
}
