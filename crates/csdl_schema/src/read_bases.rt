//! The bases of types (CSDL JSON 4.01, sections 6.1 and 9.1).
ghost use Rattle.std.specs.Prelude.{◌≡◌, IfOk, IfErr, map, option_map, slice_get};
ghost use Rattle.indexmap.specs.IndexMap.{get_by_text};
ghost use Rattle.csdl_declarations.specs.DeclaredTypeView.{body_view, type_view, types_view};
ghost use Rattle.csdl_schema.specs.Resolution.{is_structured_as};
ghost use Rattle.csdl_schema.specs.private.Placed.{base_place, base_place_named, if_structured_at, found_base};

use csdl_declarations::{DeclaredType, SchemaFault, TypeBody};
use indexmap::IndexMap;
use std::alloc::Global;

/// What a type's base is: whether one is named, and its index, where it is there and of the same kind.
#[derive(Clone, Copy)]
pub(crate) struct FoundBase {
    pub(crate) is_named: bool,
    pub(crate) index: Option<usize>,
}

fn is_structured_as(wanted: bool, body: &TypeBody<'_>) -> bool
    ensures { result ≡ is_structured_as wanted (body_view body.now) }
{
    match body {
        TypeBody::Structured { is_entity, .. } => { if wanted { *is_entity } else { !*is_entity } }
        TypeBody::Enumeration(_) => false,
        TypeBody::Definition { .. } => false,
    }
}

/// The index of the type of that name, if it is an entity type or complex type as expected.
fn base_named(
    types: &[DeclaredType<'_>],
    index_by_name: &IndexMap<String, usize>,
    is_entity: bool,
    name: &str,
) -> Option<usize>
    ensures { result ≡ base_place_named (types_view types.now) (get_by_text index_by_name.now) is_entity name.now }
{
    match index_by_name.get(name) {
        Some(index) => match types.get(*index) {
            Some(found) => {
                if is_structured_as(is_entity, &found.body) {
                    Some(*index)
                } else {
                    None
                }
            }
            None => None,
        },
        None => None,
    }
}

fn base_of(
    types: &[DeclaredType<'_>],
    index_by_name: &IndexMap<String, usize>,
    body: &TypeBody<'_>,
) -> FoundBase
    ensures { result ≡ found_base (types_view types.now) (get_by_text index_by_name.now) (body_view body.now) }
{
    match body {
        TypeBody::Structured {
            is_entity,
            base,
            ..
        } => match base {
            Some(name) => FoundBase {
                is_named: true,
                index: base_named(types, index_by_name, *is_entity, name),
            },
            None => FoundBase {
                is_named: false,
                index: None,
            },
        },
        TypeBody::Enumeration(_) => FoundBase {
            is_named: false,
            index: None,
        },
        TypeBody::Definition { .. } => FoundBase {
            is_named: false,
            index: None,
        },
    }
}

/// The base of each type.
pub(crate) fn find_bases(
    alloc: Global,
    types: &[DeclaredType<'_>],
    index_by_name: &IndexMap<String, usize>,
) -> Result<Vec<FoundBase>, SchemaFault>
    ensures refused { IfErr result (λ e. e ≡ SchemaFault.Memory) }
    ensures bases { IfOk result (λ bs. bs.items
        ≡ map (λ t. found_base (types_view types.now) (get_by_text index_by_name.now) t.body) (types_view types.now)) }
{
    let mut bases = Vec::with_capacity(alloc, types.len())?;
    for declared in types {
        bases.push(base_of(types, index_by_name, &declared.body))?;
    }
    Ok(bases)
}
