//! What to say of a property whose type is not read.
use crate::edit::part;
use crate::filter_of::FilterOf;
use crate::operand_type::operand_type;
use crate::syntax_tree::last_child;
use csdl_schema::{PropertyKind, Schema, TypeId};
use odata_syntax::{SyntaxKind, SyntaxNode};
use std::alloc::{AllocError, Global};
use type_listing::names_a_type;

/// The type that has the property of a node: the filtered one, or that of what is before the slash.
fn owner_of(
    alloc: Global,
    filter: &FilterOf<'_>,
    nodes: &[SyntaxNode],
    index: usize,
) -> Result<Option<TypeId>, AllocError> {
    match nodes.get(index).map(|node| node.kind) {
        Some(SyntaxKind::Name) => Ok(Some(filter.id)),
        Some(SyntaxKind::Member) => match last_child(index) {
            Some(base) => match operand_type(alloc, filter, nodes, base)? {
                Some(found) => Ok(filter.schema.type_named(&found.name)),
                None => Ok(None),
            },
            None => Ok(None),
        },
        _ => Ok(None),
    }
}

/// What is said of the type of a property, as the document names it.
fn type_in_words(alloc: Global, schema: &Schema, name: &str) -> Result<String, AllocError> {
    if names_a_type(schema, name) {
        format!(in alloc;
            "Its type is {name}, which cannot be used in a filter. Filter by another property."
        )
    } else {
        format!(in alloc; "Its $Type is '{name}', and there is no such type. Correct the schema.")
    }
}

/// Whether the property of that name navigates.
fn navigates(schema: &Schema, id: TypeId, name: &str) -> bool {
    match schema.slot(id, name) {
        Some(slot) => matches!(schema.property(id, slot).kind, PropertyKind::Navigation),
        None => false,
    }
}

/// What is said of the type of a property of a type. `None` where the document has no name for it.
pub fn unread_in_words(
    alloc: Global,
    schema: &Schema,
    owner: TypeId,
    name: &str,
) -> Result<Option<String>, AllocError> {
    let Some(found) = schema.declared_type(owner, name) else {
        return Ok(None);
    };
    let words = if navigates(schema, owner, name) {
        format!(in alloc;
            "It navigates to '{found}', and there is no such entity type. Correct the schema."
        )?
    } else {
        type_in_words(alloc, schema, found)?
    };
    Ok(Some(words))
}

/// What to say of a node that is a property whose type is not read.
pub fn unread_advice(
    alloc: Global,
    filter: &FilterOf<'_>,
    nodes: &[SyntaxNode],
    index: usize,
) -> Result<String, AllocError> {
    if let (Some(owner), Some(node)) = (owner_of(alloc, filter, nodes, index)?, nodes.get(index)) {
        let name = part(filter.report.text, node.text);
        if let Some(words) = unread_in_words(alloc, filter.schema, owner, name)? {
            return Ok(words);
        }
    }
    String::from_str(
        alloc,
        "Edm.Decimal, Edm.Double, Edm.Duration and others cannot be used in a filter.",
    )
}
