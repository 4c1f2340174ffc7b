//! Chains of bases, by the indexes of types.
ghost use Rattle.std.specs.Prelude.{◌≡◌, ◌≤◌, ◌<◌, IfOk, IfErr, MatchOption, length};
ghost use Rattle.std.specs.List.{list_any};
ghost use Rattle.csdl_schema.specs.private.Placed.{base_at, count_at, own_at, owns_at, places_within};
ghost use Rattle.csdl_schema.specs.private.PlacedView.{placed_of};

use super::named_type::NamedType;
use csdl_declarations::SchemaFault;
use std::alloc::Global;

pub(crate) const MAX_PROPERTIES: usize = 1024;

/// How many bases a type has, and how many properties it inherits.
#[derive(Clone, Copy)]
pub(crate) struct Chain {
    pub(crate) bases: usize,
    pub(crate) inherited: usize,
}

pub(crate) fn base_at(types: &[NamedType], index: usize) -> Option<usize>
    ensures { result ≡ base_at (placed_of types.now) index }
{
    match types.get(index) {
        Some(found) => found.base(),
        None => None,
    }
}

/// The indexes of the bases above a type, the nearest first, at most `limit` of them.
pub(crate) fn bases_of(
    alloc: Global,
    types: &[NamedType],
    index: usize,
    limit: usize,
) -> Result<Vec<usize>, SchemaFault>
    ensures refused { IfErr result (λ e. e ≡ SchemaFault.Memory) }
    ensures places { IfOk result (λ ps. ps.items ≡ places_within limit (placed_of types.now) index) }
{
    let mut places = Vec::new(alloc);
    let mut below = index;
    let mut left = limit;
    while left > 0 {
        match base_at(types, below) {
            Some(base) => {
                places.push(base)?;
                below = base;
                left -= 1;
            }
            None => return Ok(places),
        }
    }
    Ok(places)
}

fn owns_at(types: &[NamedType], name: &str, index: usize) -> bool
    ensures { result ≡ owns_at (placed_of types.now) name.now index }
{
    match types.get(index) {
        Some(found) => found.owns(name),
        None => false,
    }
}

/// Whether one of the types at the indexes has a property of that name itself.
pub(crate) fn is_owned(types: &[NamedType], places: &[usize], name: &str) -> bool
    ensures { result ≡ list_any (owns_at (placed_of types.now) name.now) places.now }
{
    for place in places {
        if owns_at(types, name, *place) {
            return true;
        }
    }
    false
}

fn own_count_at(types: &[NamedType], index: usize) -> usize
    ensures { result ≡ length (own_at (placed_of types.now) index) }
{
    match types.get(index) {
        Some(found) => found.own_count(),
        None => 0,
    }
}

/// How many properties the types at the indexes have themselves; `None` for more than 1,024.
pub(crate) fn count_properties(types: &[NamedType], places: &[usize]) -> Option<usize>
    ensures { MatchOption result (MAX_PROPERTIES < count_at (placed_of types.now) places.now)
        (λ n. (n ≡ count_at (placed_of types.now) places.now) × (n ≤ MAX_PROPERTIES)) }
{
    let mut count = 0;
    for place in places {
        let own = own_count_at(types, *place);
        if own > MAX_PROPERTIES - count {
            return None;
        }
        count += own;
    }
    Some(count)
}
