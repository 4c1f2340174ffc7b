//! The declared types by their names.
ghost use Rattle.std.specs.Prelude.{◌≡◌, ℕ, List, IfOk, IfErr, OnOk, Some, if◌then◌else◌, string_bytes, option_map, position};
ghost use Rattle.indexmap.specs.IndexMap.{get_by_text};
ghost use Rattle.csdl_declarations.specs.DeclaredTypeView.{type_view, types_view};
ghost use Rattle.csdl_schema.specs.Resolution.{goes_by};
ghost use Rattle.csdl_schema.specs.SchemaModel.{is_text_of};
ghost use Rattle.csdl_schema.specs.private.Placed.{IsIndexOf};

use csdl_declarations::{DeclaredType, SchemaFault};
use indexmap::IndexMap;
use std::alloc::Global;

/// The index of each type by its names; of equal names the lowest.
pub(crate) fn index_types(
    alloc: Global,
    types: &[DeclaredType<'_>],
) -> Result<IndexMap<String, usize>, SchemaFault>
    ensures refused { IfErr result (λ e. e ≡ SchemaFault.Memory) }
    ensures indexed { IfOk result (λ m. IsIndexOf (types_view types.now) (get_by_text m)) }
{
    let mut index_by_name = IndexMap::with_capacity(alloc, types.len())?;
    let mut index = types.len();
    while index > 0 {
        index -= 1;
        add_names(alloc, &types[index], index, &mut index_by_name)?;
    }
    Ok(index_by_name)
}

/// Gives both names of a type its index.
fn add_names(
    alloc: Global,
    declared: &DeclaredType<'_>,
    index: usize,
    index_by_name: &mut IndexMap<String, usize>,
) -> Result<(), SchemaFault>
    ensures refused { IfErr result (λ e. e ≡ SchemaFault.Memory) }
    ensures added { OnOk result ((asked : List ℕ) → get_by_text index_by_name.new asked
        ≡ (if goes_by (type_view declared.now) asked then Some index else get_by_text index_by_name.old asked)) }
{
    add_alias_name(alloc, declared, index, index_by_name)?;
    let name = declared.name.as_str().to_owned(alloc)?;
    index_by_name.insert(name, index)?;
    Ok(())
}

fn add_alias_name(
    alloc: Global,
    declared: &DeclaredType<'_>,
    index: usize,
    index_by_name: &mut IndexMap<String, usize>,
) -> Result<(), SchemaFault>
    ensures refused { IfErr result (λ e. e ≡ SchemaFault.Memory) }
    ensures added { OnOk result ((asked : List ℕ) → get_by_text index_by_name.new asked
        ≡ (if is_text_of (type_view declared.now).alias_name asked then Some index
        else get_by_text index_by_name.old asked)) }
{
    match &declared.alias_name {
        Some(alias_name) => {
            let name = alias_name.as_str().to_owned(alloc)?;
            index_by_name.insert(name, index)?;
            Ok(())
        }
        None => Ok(()),
    }
}

/// The index that a name has.
pub(crate) fn place_named(index_by_name: &IndexMap<String, usize>, name: &str) -> Option<usize>
    ensures { result ≡ get_by_text index_by_name.now name.now }
{
    match index_by_name.get(name) {
        Some(index) => Some(*index),
        None => None,
    }
}
