//! Properties whose type is none.
use crate::filtered_type::FilteredType;
use command_plan::command_line::Plan;
use csdl_schema::{Schema, TypeId};
use std::alloc::{AllocError, Global};
use type_listing::names_a_type;

/// The `$Type` of a property, if it names no type.
fn unknown_type<'s>(schema: &'s Schema, id: TypeId, property: &str) -> Option<&'s str> {
    let found = schema.declared_type(id, property)?;
    if names_a_type(schema, found) {
        None
    } else {
        Some(found)
    }
}

/// A line for each property of a type whose `$Type` names no type.
fn warnings(alloc: Global, schema: &Schema, id: TypeId) -> Result<String, AllocError> {
    let owner = schema.type_name(id).unwrap_or("");
    let mut lines = String::new(alloc);
    for slot in 0..schema.slots(id) {
        let name = schema.slot_name(id, slot);
        if let Some(found) = unknown_type(schema, id, name) {
            let before = if lines.is_empty() { "" } else { "\n" };
            lines.push_str(&format!(in alloc;
                "{before}warning {owner}/{name}: '{found}' names no type of the document or of the standard."
            )?)?;
        }
    }
    Ok(lines)
}

/// Returns a line for each property of the plan's type whose `$Type` names no type.
///
/// The last line has no line feed. `None` if there is no such property, or no such type. It has no clause: warnings are
/// tested.
pub fn type_warnings(
    alloc: Global,
    plan: &Plan<'_>,
    document: &[u8],
) -> Result<Option<String>, AllocError> {
    let Some(known) = FilteredType::read(alloc, document, plan.named) else {
        return Ok(None);
    };
    let lines = warnings(alloc, &known.schema, known.id)?;
    if lines.is_empty() {
        Ok(None)
    } else {
        Ok(Some(lines))
    }
}
