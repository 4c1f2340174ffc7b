//! Properties with the types that their names stand for (CSDL JSON 4.01, section 7.1).
ghost use Rattle.std.specs.Prelude.{◌≡◌, IfOk, IfErr, map, slice_get};
ghost use Rattle.std.specs.Ordering.{nat_cmp};
ghost use Rattle.std.specs.List.Sorted.{IsStrictlySortedBy};
ghost use Rattle.std.specs.Cmp.Lexicographic.{slice_cmp};
ghost use Rattle.indexmap.specs.IndexMap.{get_by_text};
ghost use Rattle.csdl_declarations.specs.DeclaredTypeView.{body_view, property_view, types_view};
ghost use Rattle.csdl_schema.specs.Resolution.{primitive_named};
ghost use Rattle.csdl_schema.specs.private.Placed.{entry_view, if_entity_place, kind_of_definition, kind_of_value, kinds_from, place_kind, placed_property, property_kind_named, target_place};

use super::ids::{EnumId, TypeId};
use super::primitive_name::primitive_named;
use super::property::{Property, PropertyKind};
use csdl_declarations::{DeclaredType, PropertyDeclaration, SchemaFault, TypeBody};
use indexmap::IndexMap;
use std::alloc::Global;

fn kind_of_definition(underlying: &str) -> PropertyKind
    ensures { result ≡ kind_of_definition (primitive_named underlying.now) }
{
    match primitive_named(underlying) {
        Some(primitive) => PropertyKind::Prim(primitive),
        None => PropertyKind::Opaque,
    }
}

/// The kind of a property whose type is the one at that index. To an entity type navigation properties alone lead.
fn place_kind(index: usize, body: &TypeBody<'_>) -> PropertyKind
    ensures { result ≡ place_kind index (body_view body.now) }
{
    match body {
        TypeBody::Structured { is_entity, .. } => {
            if *is_entity {
                PropertyKind::Navigation
            } else {
                PropertyKind::Complex(TypeId::from_index(index))
            }
        }
        TypeBody::Enumeration(_) => PropertyKind::Enum(EnumId::from_index(index)),
        TypeBody::Definition { underlying } => kind_of_definition(underlying),
    }
}

/// The kinds of properties of each of the types.
pub(crate) fn place_kinds(
    alloc: Global,
    types: &[DeclaredType<'_>],
) -> Result<Vec<PropertyKind>, SchemaFault>
    ensures refused { IfErr result (λ e. e ≡ SchemaFault.Memory) }
    ensures kinds { IfOk result (λ ks. ks.items ≡ kinds_from 0 (types_view types.now)) }
{
    let mut kinds = Vec::with_capacity(alloc, types.len())?;
    for index in 0..types.len() {
        kinds.push(place_kind(index, &types[index].body))?;
    }
    Ok(kinds)
}

/// The kind of a property by the name of its type.
fn kind_named(
    kinds: &[PropertyKind],
    index_by_name: &IndexMap<String, usize>,
    name: &str,
) -> PropertyKind
    ensures { result ≡ property_kind_named kinds.now (get_by_text index_by_name.now) name.now }
{
    match primitive_named(name) {
        Some(primitive) => PropertyKind::Prim(primitive),
        None => match index_by_name.get(name) {
            Some(index) => match kinds.get(*index) {
                Some(kind) => *kind,
                None => PropertyKind::Opaque,
            },
            None => PropertyKind::Opaque,
        },
    }
}

/// The kind of a property that does not navigate, by that of its type.
fn kind_of_value(kind: PropertyKind) -> PropertyKind
    ensures { result ≡ kind_of_value kind }
{
    match kind {
        PropertyKind::Prim(prim) => PropertyKind::Prim(prim),
        PropertyKind::Enum(id) => PropertyKind::Enum(id),
        PropertyKind::Complex(id) => PropertyKind::Complex(id),
        PropertyKind::Opaque => PropertyKind::Opaque,
        PropertyKind::Navigation => PropertyKind::Opaque,
    }
}

/// The type at an index, if it is an entity type.
fn entity_at(kinds: &[PropertyKind], index: usize) -> Option<TypeId>
    ensures { result ≡ if_entity_place index (slice_get kinds.now index) }
{
    match kinds.get(index) {
        Some(PropertyKind::Navigation) => Some(TypeId::from_index(index)),
        _ => None,
    }
}

/// The entity type of a name.
fn target_named(
    kinds: &[PropertyKind],
    index_by_name: &IndexMap<String, usize>,
    name: &str,
) -> Option<TypeId>
    ensures { result ≡ target_place kinds.now (get_by_text index_by_name.now) name.now }
{
    match primitive_named(name) {
        Some(_) => None,
        None => match index_by_name.get(name) {
            Some(index) => entity_at(kinds, *index),
            None => None,
        },
    }
}

fn property_of(
    kinds: &[PropertyKind],
    index_by_name: &IndexMap<String, usize>,
    declared: &PropertyDeclaration<'_>,
) -> Property
    ensures { (declared.now.name.now, result)
        ≡ placed_property kinds.now (get_by_text index_by_name.now) (property_view declared.now) }
{
    if declared.navigates {
        return Property {
            kind: PropertyKind::Navigation,
            many: declared.many,
            nullable: declared.nullable,
            target: target_named(kinds, index_by_name, declared.type_name),
        };
    }
    Property {
        kind: kind_of_value(kind_named(kinds, index_by_name, declared.type_name)),
        many: declared.many,
        nullable: declared.nullable,
        target: None,
    }
}

/// The properties by name, in the order in which they are declared.
pub(crate) fn resolve_properties(
    alloc: Global,
    kinds: &[PropertyKind],
    index_by_name: &IndexMap<String, usize>,
    declared: &[PropertyDeclaration<'_>],
) -> Result<IndexMap<String, Property>, SchemaFault>
    requires { IsStrictlySortedBy (slice_cmp nat_cmp) (map (λ p. p.name) (map property_view declared.now)) }
    ensures refused { IfErr result (λ e. e ≡ SchemaFault.Memory) }
    ensures resolved { IfOk result (λ m. map entry_view m.entries
        ≡ map (placed_property kinds.now (get_by_text index_by_name.now)) (map property_view declared.now)) }
{
    let mut properties = IndexMap::with_capacity(alloc, declared.len())?;
    for property in declared {
        let name = property.name.to_owned(alloc)?;
        properties.insert(name, property_of(kinds, index_by_name, property))?;
    }
    Ok(properties)
}
