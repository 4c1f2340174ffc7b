use crate::listed_property::{ListedProperty, listed_property, property_line};
use crate::named_types::{TypeName, type_names};
use crate::type_object::type_object;
use csdl_schema::{Schema, SchemaFault};
use serde_json::Value;
use std::alloc::{AllocError, Global};

/// The types of a document, in its order, each by its index.
#[derive(Drop)]
pub struct TypeListing {
    schema: Schema,
    document: Value,
    types: Vec<TypeName>,
}

/// The word of a kind of type.
fn kind_word(is_entity: bool) -> &'static str {
    if is_entity { "entity" } else { "complex" }
}

impl TypeListing {
    /// Reads a document in CSDL JSON. It has no clause: listings are tested.
    pub fn read(alloc: Global, bytes: &[u8]) -> Result<TypeListing, SchemaFault> {
        let schema = match Schema::read(alloc, bytes) {
            Ok(schema) => schema,
            Err(fault) => return Err(fault),
        };
        let Ok(document) = Value::from_slice(alloc, bytes) else {
            return Err(SchemaFault::Memory);
        };
        match type_names(alloc, &document) {
            Ok(types) => Ok(TypeListing {
                schema,
                document,
                types,
            }),
            Err(_) => Err(SchemaFault::Memory),
        }
    }

    /// Returns how many types there are. It has no clause: listings are tested.
    pub fn len(&self) -> usize {
        self.types.len()
    }

    /// The properties of a type, its base's first.
    fn properties(&self, alloc: Global, name: &str) -> Result<Vec<ListedProperty<'_>>, AllocError> {
        let mut properties = Vec::new(alloc);
        let Some(id) = self.schema.type_named(name) else {
            return Ok(properties);
        };
        for slot in 0..self.schema.slots(id) {
            properties.push(listed_property(alloc, &self.schema, &self.document, id, slot)?)?;
        }
        Ok(properties)
    }

    /// Returns a type in lines, without a last line feed. They are its kind and name, then each property with its type;
    /// nothing after the last type. It has no clause: listings are tested.
    pub fn text(&self, alloc: Global, index: usize) -> Result<String, AllocError> {
        let mut text = String::new(alloc);
        let Some(it) = self.types.get(index) else {
            return Ok(text);
        };
        text.push_str(kind_word(it.is_entity))?;
        text.push(' ')?;
        text.push_str(&it.name)?;
        for property in self.properties(alloc, &it.name)?.as_slice() {
            text.push('\n')?;
            text.push_str(&property_line(alloc, property)?)?;
        }
        Ok(text)
    }

    /// Returns a type as a JSON object, without a line feed; nothing after the last one. It has no clause: listings are
    /// tested.
    pub fn json(&self, alloc: Global, index: usize) -> Result<String, AllocError> {
        let Some(it) = self.types.get(index) else {
            return Ok(String::new(alloc));
        };
        let properties = self.properties(alloc, &it.name)?;
        type_object(
            alloc,
            &it.name,
            kind_word(it.is_entity),
            properties.as_slice(),
        )
    }

    /// Returns a line for each property of a type whose `$Type` names no type, without a last line feed. It has no clause:
    /// listings are tested.
    pub fn warnings(&self, alloc: Global, index: usize) -> Result<String, AllocError> {
        let mut lines = String::new(alloc);
        let Some(it) = self.types.get(index) else {
            return Ok(lines);
        };
        for property in self.properties(alloc, &it.name)?.as_slice() {
            if let Some(warning) = &property.warning {
                let before = if lines.is_empty() { "" } else { "\n" };
                lines.push_str(&format!(in alloc;
                    "{before}warning {}/{}: {}",
                    it.name.as_str(),
                    property.name,
                    warning.as_str()
                )?)?;
            }
        }
        Ok(lines)
    }
}
