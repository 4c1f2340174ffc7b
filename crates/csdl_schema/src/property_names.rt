//! Names of properties that two types of a chain of bases have.
ghost use Rattle.std.specs.Prelude.{◌≡◌, ◌∷◌, IfOk, IfErr, map, option_map};
ghost use Rattle.std.specs.List.{flat_map};
ghost use Rattle.csdl_schema.specs.BaseFaults.{first_name, lesser_name};
ghost use Rattle.csdl_schema.specs.private.Placed.{entry_view, first_reported, firsts_from, lesser_of, names_again_at, names_owned, reported_at};
ghost use Rattle.csdl_schema.specs.private.PlacedView.{placed_of};

use super::chain::{bases_of, is_owned};
use super::named_type::{NamedBody, NamedType};
use super::property::Property;
use csdl_declarations::SchemaFault;
use indexmap::IndexMap;
use std::alloc::Global;
use std::cmp::Ordering;

pub(crate) const MAX_BASES: usize = 64;

/// The one of two names that goes first in byte order.
fn lesser_name<'t>(name: &'t str, other: Option<&'t str>) -> Option<&'t str>
    ensures { option_map (λ s. s.now) result ≡ lesser_name name.now (option_map (λ s. s.now) other.entry) }
{
    match other {
        Some(other) => match name.cmp(other) {
            Ordering::Less => Some(name),
            Ordering::Equal => Some(name),
            Ordering::Greater => Some(other),
        },
        None => Some(name),
    }
}

/// The first in byte order of the properties' names that one of the types at the indexes has too.
fn first_owned<'t>(
    types: &[NamedType],
    places: &[usize],
    properties: &'t IndexMap<String, Property>,
) -> Option<&'t str>
    ensures { option_map (λ s. s.now) result ≡ first_name
        (names_owned (placed_of types.now) places.now (map (λ e. e.0) (map entry_view properties.now.entries))) }
{
    let names = properties.as_slice().keys().as_slice();
    let mut first = None;
    let mut slot = names.len();
    while slot > 0 {
        slot -= 1;
        let name = names[slot].as_str();
        if is_owned(types, places, name) {
            first = lesser_name(name, first);
        }
    }
    first
}

/// The first in byte order of a type's own names that one of its bases has too.
fn first_again(
    alloc: Global,
    types: &[NamedType],
    index: usize,
) -> Result<Option<&str>, SchemaFault>
    ensures refused { IfErr result (λ e. e ≡ SchemaFault.Memory) }
    ensures first { IfOk result (λ o. option_map (λ s. s.now) o
        ≡ first_name (names_again_at (placed_of types.now) index)) }
{
    match types.get(index) {
        Some(found) => match &found.body {
            NamedBody::Structured(structured) => {
                let places = bases_of(alloc, types, index, MAX_BASES)?;
                Ok(first_owned(types, &places, &structured.properties))
            }
            NamedBody::Enumeration(_) => Ok(None),
            NamedBody::Definition(_) => Ok(None),
        },
        None => Ok(None),
    }
}

/// That of each type.
pub(crate) fn first_names_again(
    alloc: Global,
    types: &[NamedType],
) -> Result<Vec<Option<&str>>, SchemaFault>
    ensures refused { IfErr result (λ e. e ≡ SchemaFault.Memory) }
    ensures firsts { IfOk result (λ os. map (option_map (λ s. s.now)) os.items
        ≡ firsts_from (placed_of types.now) 0 (placed_of types.now)) }
{
    let mut firsts = Vec::with_capacity(alloc, types.len())?;
    for index in 0..types.len() {
        firsts.push(first_again(alloc, types, index)?)?;
    }
    Ok(firsts)
}

/// The first in byte order of some names, where there are any.
fn lesser_of<'t>(name: Option<&'t str>, other: Option<&'t str>) -> Option<&'t str>
    ensures { option_map (λ s. s.now) result
        ≡ lesser_of (option_map (λ s. s.now) name.entry) (option_map (λ s. s.now) other.entry) }
{
    match name {
        Some(name) => lesser_name(name, other),
        None => other,
    }
}

fn reported_at<'t>(firsts: &[Option<&'t str>], index: usize) -> Option<&'t str>
    ensures { option_map (λ s. s.now) result
        ≡ reported_at (map (option_map (λ s. s.now)) firsts.now) index }
{
    match firsts.get(index) {
        Some(reported) => *reported,
        None => None,
    }
}

/// The first of the names that are reported for the types at the indexes.
fn first_reported<'t>(firsts: &[Option<&'t str>], places: &[usize]) -> Option<&'t str>
    ensures { option_map (λ s. s.now) result
        ≡ first_reported (map (option_map (λ s. s.now)) firsts.now) places.now }
{
    let mut first = None;
    for place in places {
        first = lesser_of(first, reported_at(firsts, *place));
    }
    first
}

/// The first in byte order of the names that two types of a chain have, from what is reported about each.
pub(crate) fn first_twice<'t>(
    firsts: &[Option<&'t str>],
    index: usize,
    bases: &[usize],
) -> Option<&'t str>
    ensures { option_map (λ s. s.now) result
        ≡ first_reported (map (option_map (λ s. s.now)) firsts.now) (index ∷ bases.now) }
{
    lesser_of(reported_at(firsts, index), first_reported(firsts, bases))
}
