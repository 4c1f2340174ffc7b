//! The faults in the bases of types and in the properties along their chains (CSDL JSON 4.01, sections 6.1 and 9.1).
ghost use Rattle.std.specs.Prelude.{◌≡◌, ◌≤◌, ◌<◌, ◌||◌, ⊤, IfErr, not, is_some, length, map, option_map, slice_get, Some, string_bytes};
ghost use Rattle.csdl_declarations.specs.FaultView.{Reads};
ghost use Rattle.csdl_schema.specs.private.Placed.{all_places, base_faults_at, chain_at, chain_faults_at, chains_from, count_at, faults_from, firsts_from, inherited_faults_at, length_faults};
ghost use Rattle.csdl_schema.specs.private.PlacedView.{placed_of};

use super::base_refusals::{base_cycle, property_twice, unknown_base};
use super::chain::{Chain, MAX_PROPERTIES, bases_of, count_properties};
use super::named_type::NamedType;
use super::property_names::{MAX_BASES, first_names_again, first_twice};
use super::read_bases::FoundBase;
use csdl_declarations::SchemaFault;
use std::alloc::Global;

/// Whether a base that is named is there.
fn is_known(base: FoundBase) -> bool
    ensures { result ≡ (not base.is_named || is_some base.index) }
{
    !base.is_named || base.index.is_some()
}

/// The indexes of the bases of a type; the base must be there, and the chain must end soon enough.
fn check_chain(
    alloc: Global,
    types: &[NamedType],
    base: FoundBase,
    name: &str,
    index: usize,
) -> Result<Vec<usize>, SchemaFault>
    ensures { Reads result (chain_faults_at (placed_of types.now) base name.now index)
        (λ places. places.items ≡ all_places (placed_of types.now) index) }
{
    if !is_known(base) {
        return Err(unknown_base(alloc, name));
    }
    let places = bases_of(alloc, types, index, types.len())?;
    check_length(alloc, name, &places, types.len())?;
    Ok(places)
}

/// A chain of bases ends before it has as many as there are types, and has no more than it may.
fn check_length(
    alloc: Global,
    name: &str,
    places: &[usize],
    types: usize,
) -> Result<(), SchemaFault>
    ensures reported { Reads result (length_faults name.now (length places.now) types) (λ _. ⊤) }
    ensures no_memory { length places.now < types → IfErr result (λ fault. fault ≡ SchemaFault.TooLarge) }
{
    if places.len() >= types {
        return Err(base_cycle(alloc, name));
    }
    if places.len() > MAX_BASES {
        return Err(SchemaFault::TooLarge);
    }
    Ok(())
}

/// How many properties a type inherits; none of its chain may stand twice, nor may it have too many.
fn check_inherited(
    alloc: Global,
    types: &[NamedType],
    firsts: &[Option<&str>],
    found: &NamedType,
    index: usize,
    bases: &[usize],
) -> Result<usize, SchemaFault>
    requires firsts { map (option_map (λ s. s.now)) firsts.now
        ≡ firsts_from (placed_of types.now) 0 (placed_of types.now) }
    requires found { slice_get types.now index ≡ Some found.now }
    ensures { Reads result (inherited_faults_at (placed_of types.now) (string_bytes found.now.name) index bases.now)
        (λ n. n ≡ count_at (placed_of types.now) bases.now) }
{
    match first_twice(firsts, index, bases) {
        Some(twice) => return Err(property_twice(alloc, found.name.as_str(), twice)),
        None => {}
    }
    match count_properties(types, bases) {
        Some(inherited) => {
            if found.own_count() > MAX_PROPERTIES - inherited {
                Err(SchemaFault::TooLarge)
            } else {
                Ok(inherited)
            }
        }
        None => Err(SchemaFault::TooLarge),
    }
}

fn check_type(
    alloc: Global,
    types: &[NamedType],
    firsts: &[Option<&str>],
    base: FoundBase,
    found: &NamedType,
    index: usize,
) -> Result<Chain, SchemaFault>
    requires firsts { map (option_map (λ s. s.now)) firsts.now
        ≡ firsts_from (placed_of types.now) 0 (placed_of types.now) }
    requires found { slice_get types.now index ≡ Some found.now }
    ensures { Reads result (base_faults_at (placed_of types.now) base (string_bytes found.now.name) index)
        (λ chain. chain ≡ chain_at (placed_of types.now) index) }
{
    let bases = check_chain(alloc, types, base, found.name.as_str(), index)?;
    let inherited = check_inherited(alloc, types, firsts, found, index, &bases)?;
    Ok(Chain {
        bases: bases.len(),
        inherited,
    })
}

/// The chain of each type, or the first fault in one, in the order of the types.
pub(crate) fn check_types(
    alloc: Global,
    types: &[NamedType],
    bases: &[FoundBase],
) -> Result<Vec<Chain>, SchemaFault>
    requires { length types.now ≤ length bases.now }
    ensures { Reads result (faults_from (placed_of types.now) 0 bases.now (placed_of types.now))
        (λ chains. chains.items ≡ chains_from (placed_of types.now) 0 (placed_of types.now)) }
{
    let firsts = first_names_again(alloc, types)?;
    let mut chains = Vec::with_capacity(alloc, types.len())?;
    for index in 0..types.len() {
        chains.push(check_type(alloc, types, &firsts, bases[index], &types[index], index)?)?;
    }
    Ok(chains)
}
