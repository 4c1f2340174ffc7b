//! What a type at an index is.
ghost use Rattle.std.specs.Prelude.{◌≡◌, option_map, option_and_then, slice_get};
ghost use Rattle.csdl_schema.specs.private.Placed.{is_placed_entity, is_placed_enumeration, is_placed_structured, placed_name_if, placed_passes, enumeration_in_body};
ghost use Rattle.csdl_schema.specs.private.PlacedView.{placed_of};

use super::named_type::{NamedBody, NamedType};
use edm_enumerations::Enumeration;

pub(crate) fn is_structured_at(types: &[NamedType], index: usize) -> bool
    ensures { result ≡ placed_passes is_placed_structured (slice_get (placed_of types.now) index) }
{
    match types.get(index) {
        Some(found) => found.is_structured(),
        None => false,
    }
}

pub(crate) fn is_entity_at(types: &[NamedType], index: usize) -> bool
    ensures { result ≡ placed_passes is_placed_entity (slice_get (placed_of types.now) index) }
{
    match types.get(index) {
        Some(found) => found.is_entity(),
        None => false,
    }
}

pub(crate) fn is_enumeration_at(types: &[NamedType], index: usize) -> bool
    ensures { result ≡ placed_passes is_placed_enumeration (slice_get (placed_of types.now) index) }
{
    match types.get(index) {
        Some(found) => found.is_enumeration(),
        None => false,
    }
}

/// The whole name of an entity or complex type.
pub(crate) fn structured_name(types: &[NamedType], index: usize) -> Option<&str>
    ensures { option_map (λ name. name.now) result
        ≡ option_and_then (placed_name_if is_placed_structured) (slice_get (placed_of types.now) index) }
{
    match types.get(index) {
        Some(found) => {
            if found.is_structured() {
                Some(found.name.as_str())
            } else {
                None
            }
        }
        None => None,
    }
}

/// The whole name of an enumeration.
pub(crate) fn enumeration_name(types: &[NamedType], index: usize) -> Option<&str>
    ensures { option_map (λ name. name.now) result
        ≡ option_and_then (placed_name_if is_placed_enumeration) (slice_get (placed_of types.now) index) }
{
    match types.get(index) {
        Some(found) => {
            if found.is_enumeration() {
                Some(found.name.as_str())
            } else {
                None
            }
        }
        None => None,
    }
}

pub(crate) fn enumeration_at(types: &[NamedType], index: usize) -> Option<&Enumeration>
    ensures { option_map (λ e. e.now) result
        ≡ option_and_then (λ t. enumeration_in_body t.body) (slice_get (placed_of types.now) index) }
{
    match types.get(index) {
        Some(found) => match &found.body {
            NamedBody::Structured(_) => None,
            NamedBody::Enumeration(enumeration) => Some(enumeration),
            NamedBody::Definition(_) => None,
        },
        None => None,
    }
}
