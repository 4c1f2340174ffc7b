use csdl_schema::{Schema, TypeId};
use std::alloc::Global;

/// The type whose entities a run filters, and its schema.
#[derive(Drop)]
pub struct FilteredType {
    pub(crate) schema: Schema,
    pub(crate) id: TypeId,
}

impl FilteredType {
    /// Returns the type of that name in a schema file's bytes. `None` if they are no schema or have no such type, or if
    /// an allocation failed. It has no clause: what is said of the type is tested.
    pub fn read(alloc: Global, document: &[u8], name: &str) -> Option<FilteredType> {
        let Ok(schema) = Schema::read(alloc, document) else {
            return None;
        };
        let id = schema.type_named(name)?;
        Some(FilteredType { schema, id })
    }
}
