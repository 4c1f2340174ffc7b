//! The JSON object of a type.
use crate::listed_property::ListedProperty;
use serde::Serialize;
use serde_json::to_string;
use std::alloc::{AllocError, Global};

/// What is said of a type.
#[derive(Drop, Serialize)]
struct TypeObject<'t> {
    name: &'t str,
    kind: &'t str,
    properties: &'t [ListedProperty<'t>],
}

/// The object of a type of that kind with these properties.
pub fn type_object(
    alloc: Global,
    name: &str,
    kind: &str,
    properties: &[ListedProperty<'_>],
) -> Result<String, AllocError> {
    let object = TypeObject {
        name,
        kind,
        properties,
    };
    match to_string(alloc, &object) {
        Ok(text) => Ok(text),
        Err(_) => Err(AllocError),
    }
}
