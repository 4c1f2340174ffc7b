//! What to say of a name of no entity type.
use near_names::NearNames;
use serde_json::Value;
use std::alloc::{AllocError, Global};
use type_listing::type_names;

/// At most so many types are listed.
const LISTED: usize = 8;

/// The entity types of a document.
fn entity_types(alloc: Global, document: &[u8]) -> Result<Vec<String>, AllocError> {
    let mut names = Vec::new(alloc);
    let Ok(document) = Value::from_slice(alloc, document) else {
        return Ok(names);
    };
    for it in type_names(alloc, &document)?.as_slice() {
        if it.is_entity {
            names.push(String::from_str(alloc, it.name.as_str())?)?;
        }
    }
    Ok(names)
}

/// The name after its namespace.
fn last_part(name: &str) -> &str {
    match name.rsplit_once('.') {
        Some((_, last)) => last,
        None => name,
    }
}

/// The first type of that name in a namespace, case apart.
fn type_called<'n>(names: &'n [String], last: &str) -> Option<&'n str> {
    let found = names.iter().find(|other| last_part(other.as_str()).eq_ignore_ascii_case(last))?;
    Some(found.as_str())
}

/// The names after their namespaces that are near to the one of the asked name.
fn near_parts<'n>(names: &'n [String], name: &'n str) -> NearNames<'n> {
    let mut near = NearNames::new(last_part(name));
    for other in names {
        near.offer(last_part(other.as_str()));
    }
    near
}

/// The type whose name has so many nearer ones.
fn near_type<'n>(names: &'n [String], near: &NearNames<'n>, index: usize) -> Option<&'n str> {
    type_called(names, near.at(index)?)
}

/// A question whether one of the types was meant whose names are near. Where one has the same name in another
/// namespace, case apart, it is that one.
fn near_in_words(
    alloc: Global,
    names: &[String],
    name: &str,
) -> Result<Option<String>, AllocError> {
    if let Some(same) = type_called(names, last_part(name)) {
        return Ok(Some(format!(in alloc; "Did you mean '{same}'?")?));
    }
    let near = near_parts(names, name);
    match (
        near_type(names, &near, 0),
        near_type(names, &near, 1),
        near_type(names, &near, 2),
    ) {
        (Some(one), Some(two), Some(three)) => Ok(Some(format!(in alloc;
            "Did you mean '{one}', '{two}' or '{three}'?"
        )?)),
        (Some(one), Some(two), None) => Ok(Some(format!(in alloc;
            "Did you mean '{one}' or '{two}'?"
        )?)),
        (Some(one), None, _) => Ok(Some(format!(in alloc; "Did you mean '{one}'?")?)),
        (None, _, _) => Ok(None),
    }
}

/// The first names, with commas between them.
fn names_in_words(alloc: Global, names: &[String]) -> Result<String, AllocError> {
    let mut words = String::new(alloc);
    for name in names.iter().take(LISTED) {
        if !words.is_empty() {
            words.push_str(", ")?;
        }
        words.push_str(name)?;
    }
    if LISTED < names.len() {
        words.push_str(", ..")?;
    }
    Ok(words)
}

/// What to say after the sentence about a name of no entity type: the type that was meant, or those that there are.
pub fn type_advice(
    alloc: Global,
    document: &[u8],
    name: &str,
) -> Result<Option<String>, AllocError> {
    let names = entity_types(alloc, document)?;
    if names.is_empty() {
        return Ok(None);
    }
    if let Some(question) = near_in_words(alloc, names.as_slice(), name)? {
        return Ok(Some(question));
    }
    let list = names_in_words(alloc, names.as_slice())?;
    let verb = if names.len() == 1 { "is only" } else { "are" };
    Ok(Some(format!(in alloc; "There {verb} {}.", list.as_str())?))
}
