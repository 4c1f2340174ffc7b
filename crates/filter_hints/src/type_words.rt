//! The names of types.
use csdl_schema::Schema;
use odata_typing::{EdmType, ValueType};
use std::alloc::{AllocError, Global};
use type_listing::primitive_name;

fn value_type_name<'s>(schema: &'s Schema, value_type: ValueType) -> &'s str {
    match value_type {
        ValueType::Prim(prim) => primitive_name(prim),
        ValueType::Enum(id) => schema.enum_name(id).unwrap_or("an enumeration"),
        ValueType::Structured(id) => schema.type_name(id).unwrap_or("a structured type"),
    }
}

/// The name of a type, as the standard writes it.
pub fn type_name(alloc: Global, schema: &Schema, edm_type: EdmType) -> Result<String, AllocError> {
    match edm_type {
        EdmType::Null => String::from_str(alloc, "null"),
        EdmType::Single(single) => String::from_str(alloc, value_type_name(schema, single)),
        EdmType::Collection(item) => {
            Ok(format!(in alloc; "Collection({})", value_type_name(schema, item))?)
        }
    }
}
