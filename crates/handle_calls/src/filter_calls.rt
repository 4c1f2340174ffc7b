//! Filters, and what is asked of them.
ghost use Rattle.std.specs.Prelude.{◌≡◌, MatchResult, string_bytes};
ghost use Rattle.odata_checked_filter.specs.Filter.{IsFilter, filter_in};
ghost use Rattle.handle_calls.specs.FilterCalls.{IsCanonicalOf, IsExplanationOf, IsFilterIn};
ghost use Rattle.handle_calls.specs.FilterCalls.{IsFilterMade, IsFilterOfQuery};
ghost use Rattle.row_judges.specs.RowAnswer.{IsLayoutOfFilter};
ghost use Rattle.handle_calls.specs.FilterCalls.{IsNoFilter, IsNoQueryFilter, IsNoText, IsNotMade};

use call_handles::{Fault, FilterHandle, Handle, TypeHandle};
use edm_rows::{HeldSchema, RowLayout};
use odata_queries::{QueryFault, filter_of_query};
use odata_typing::{Checked, StoredFilter, check_to_store};
use row_judges::row_layout_of;
use std::alloc::Global;
use std::sync::Arc;

/// What rows of a filter are read by: the layout of its type where neither has anything expanded, else one of its own.
fn layout_for(
    alloc: Global,
    held: &TypeHandle,
    checked: &Checked<'_>,
) -> Result<Arc<RowLayout<'static>>, Fault>
    requires schema { checked.now.schema ≡ held.now.schema }
    requires filtered { checked.now.filtered ≡ held.now.id }
    ensures { MatchResult result (λ layout. IsLayoutOfFilter checked.now layout.value)
        (λ fault. fault ≡ Fault.Memory) }
{
    if held.layout.expansion().is_empty() && checked.expansion().is_empty() {
        return match Arc::try_clone(&held.layout) {
            Ok(layout) => Ok(layout),
            Err(_) => Err(Fault::Memory),
        };
    }
    let Ok(schema) = Arc::try_clone(&held.schema) else {
        return Err(Fault::Memory);
    };
    let layout = row_layout_of(alloc, checked, HeldSchema::Shared(schema));
    match Arc::new(alloc, layout) {
        Ok(layout) => Ok(layout),
        Err(_) => Err(Fault::Memory),
    }
}

/// A filter of a type with its schema, and what its rows are read by.
fn held_filter(alloc: Global, held: &TypeHandle, filter: StoredFilter) -> Result<Handle, Fault>
    requires right { IsFilter (filter_in held.now.schema filter) }
    requires filtered { filter.filtered ≡ held.now.id }
    ensures { MatchResult result (λ made. made ≡ Handle.Filter (filter_in held.now.schema filter))
        (λ fault. fault ≡ Fault.Memory) }
{
    let layout = layout_for(alloc, held, &filter.with_schema(&held.schema))?;
    let Ok(filter) = Arc::new(alloc, filter) else {
        return Err(Fault::Memory);
    };
    match Arc::try_clone(&held.schema) {
        Ok(schema) => Ok(Handle::Filter(FilterHandle {
            schema,
            filter,
            layout,
        })),
        Err(_) => Err(Fault::Memory),
    }
}

/// The filter of a text, for entities of a type.
fn filter_of_text(alloc: Global, held: &TypeHandle, text: &str) -> Result<Handle, Fault>
    ensures { MatchResult result (IsFilterMade held.now text.now) (IsNotMade held.now text.now) }
{
    match check_to_store(alloc, &held.schema, held.id, text) {
        Ok(filter) => held_filter(alloc, held, filter),
        Err(refusal) => Err(Fault::Refused(refusal)),
    }
}

/// The filter that the bytes of a text spell.
pub(crate) fn filter_of(alloc: Global, handle: &Handle, text: &[u8]) -> Result<Handle, Fault>
    ensures { MatchResult result (IsFilterIn handle.now text.now) (IsNoFilter handle.now text.now) }
{
    match handle {
        Handle::Type(held) => match str::from_utf8(text) {
            Ok(text) => filter_of_text(alloc, held, text),
            Err(_) => Err(Fault::NotUtf8),
        },
        _ => Err(Fault::OtherKind),
    }
}

/// The filter of a text, for entities of the type that a handle is.
pub(crate) fn filter_for(alloc: Global, handle: &Handle, text: &str) -> Result<Handle, Fault>
    ensures { MatchResult result (IsFilterIn handle.now text.now) (IsNoFilter handle.now text.now) }
{
    match handle {
        Handle::Type(held) => filter_of_text(alloc, held, text),
        _ => Err(Fault::OtherKind),
    }
}

/// The filter of a query string.
pub(crate) fn filter_in_query(alloc: Global, handle: &Handle, query: &[u8]) -> Result<Handle, Fault>
    ensures { MatchResult result (IsFilterOfQuery handle.now query.now) (IsNoQueryFilter handle.now query.now) }
{
    match handle {
        Handle::Type(held) => match filter_of_query(alloc, query) {
            Ok(Some(text)) => filter_of_text(alloc, held, &text),
            Ok(None) => Err(Fault::NoFilter),
            Err(QueryFault::Memory) => Err(Fault::Memory),
            Err(fault) => Err(Fault::Query(fault)),
        },
        _ => Err(Fault::OtherKind),
    }
}

/// The filter's canonical text.
pub(crate) fn canonical_of(alloc: Global, handle: &Handle) -> Result<String, Fault>
    ensures { MatchResult result (λ text. IsCanonicalOf handle.now (string_bytes text)) (IsNoText handle.now) }
{
    match handle {
        Handle::Filter(held) => match held.checked().canonical(alloc) {
            Ok(text) => Ok(text),
            Err(_) => Err(Fault::Memory),
        },
        _ => Err(Fault::OtherKind),
    }
}

/// What each node of the filter is.
pub(crate) fn explanation_of(alloc: Global, handle: &Handle) -> Result<String, Fault>
    ensures { MatchResult result (λ text. IsExplanationOf handle.now (string_bytes text)) (IsNoText handle.now) }
{
    match handle {
        Handle::Filter(held) => match held.checked().explain(alloc) {
            Ok(text) => Ok(text),
            Err(_) => Err(Fault::Memory),
        },
        _ => Err(Fault::OtherKind),
    }
}
