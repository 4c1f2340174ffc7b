//! Declared types with indexes instead of names.
ghost use Rattle.std.specs.Prelude.{◌≡◌, ◌≤◌, IfOk, IfErr, length, map};
ghost use Rattle.std.specs.List.{AllByRecursion};
ghost use Rattle.indexmap.specs.IndexMap.{get_by_text};
ghost use Rattle.csdl_declarations.specs.DeclaredType.{IsBodyInOrder};
ghost use Rattle.csdl_declarations.specs.DeclaredTypeView as declaration;
ghost use Rattle.csdl_schema.specs.private.Placed.{body_with, type_with, types_with};
ghost use Rattle.csdl_schema.specs.private.PlacedView.{placed_body_view, placed_of, placed_view};

use super::named_type::{NamedBody, NamedType, StructuredType};
use super::primitive_name::primitive_named;
use super::property::PropertyKind;
use super::read_bases::FoundBase;
use super::resolve::resolve_properties;
use csdl_declarations::{DeclaredType, SchemaFault, TypeBody};
use indexmap::IndexMap;
use std::alloc::Global;

fn place_body(
    alloc: Global,
    kinds: &[PropertyKind],
    index_by_name: &IndexMap<String, usize>,
    base: Option<usize>,
    body: TypeBody<'_>,
) -> Result<NamedBody, SchemaFault>
    requires { IsBodyInOrder (declaration.body_view body) }
    ensures refused { IfErr result (λ e. e ≡ SchemaFault.Memory) }
    ensures placed { IfOk result (λ b. placed_body_view b
        ≡ body_with kinds.now (get_by_text index_by_name.now) base (declaration.body_view body.entry)) }
{
    match body {
        TypeBody::Structured {
            is_entity,
            properties,
            ..
        } => Ok(NamedBody::Structured(StructuredType {
            is_entity,
            base,
            properties: resolve_properties(alloc, kinds, index_by_name, &properties)?,
        })),
        TypeBody::Enumeration(enumeration) => Ok(NamedBody::Enumeration(enumeration)),
        TypeBody::Definition { underlying } => Ok(NamedBody::Definition(primitive_named(
            underlying,
        ))),
    }
}

fn place_type(
    alloc: Global,
    kinds: &[PropertyKind],
    index_by_name: &IndexMap<String, usize>,
    base: Option<usize>,
    declared: DeclaredType<'_>,
) -> Result<NamedType, SchemaFault>
    requires { IsBodyInOrder (declaration.type_view declared).body }
    ensures refused { IfErr result (λ e. e ≡ SchemaFault.Memory) }
    ensures placed { IfOk result (λ t. placed_view t
        ≡ type_with kinds.now (get_by_text index_by_name.now) base (declaration.type_view declared.entry)) }
{
    let body = place_body(alloc, kinds, index_by_name, base, declared.body)?;
    Ok(NamedType {
        name: declared.name,
        alias_name: declared.alias_name,
        body,
    })
}

/// The types with the bases found for them, one for each.
pub(crate) fn place_types(
    alloc: Global,
    kinds: &[PropertyKind],
    index_by_name: &IndexMap<String, usize>,
    bases: &[FoundBase],
    types: Vec<DeclaredType<'_>>,
) -> Result<Vec<NamedType>, SchemaFault>
    requires based { length types.items ≤ length bases.now }
    requires ordered { AllByRecursion (λ t. IsBodyInOrder t.body) (declaration.types_view types.items) }
    ensures refused { IfErr result (λ e. e ≡ SchemaFault.Memory) }
    ensures placed { IfOk result (λ ts. placed_of ts.items
        ≡ types_with kinds.now (get_by_text index_by_name.now) bases.now (declaration.types_view types.entry.items)) }
{
    let mut placed = Vec::with_capacity(alloc, types.len())?;
    let mut index = 0;
    for declared in types {
        let base = bases[index].index;
        placed.push(place_type(alloc, kinds, index_by_name, base, declared)?)?;
        index += 1;
    }
    Ok(placed)
}
