ghost use Rattle.std.specs.Prelude.{◌≡◌, ◌≢◌, ℕ, ◌+◌, ◌<◌, ◌≤◌, ◌==◌, ◌^◌, IfErr, IfOk, List, Option, length, nat_lt, option_map, string_bytes};
ghost use Rattle.std.specs.Cow.{cow_str_bytes};
ghost use Rattle.std.specs.List.{position_or_len};
ghost use Rattle.odata_queries.specs.Query.{IsFilterOf, IsOptionFault, IsQueryFault, IsReadable, name_of, value_of};
ghost use Rattle.odata_queries.specs.private.QueryParts.{AreTwoFilters, KeepsFilter, GivesFilter};

use super::query_fault::QueryFault;
use super::query_name::{is_filter_name, is_refused_name};
use super::query_part::decoded_part;
use std::alloc::Global;
use std::borrow::CowStr;

/// How many bytes stand before the first such byte.
pub fn length_before(bytes: &[u8], mark: u8) -> usize
    ensures value { result ≡ position_or_len (λ b. b == mark) bytes.now }
    ensures within { result ≤ length bytes.now }
{
    bytes.iter().take_while(|byte| **byte != mark).count()
}

/// Whether such a byte stands anywhere.
pub fn has_byte(bytes: &[u8], mark: u8) -> bool
    ensures { result ≡ nat_lt (position_or_len (λ b. b == mark) bytes.now) (length bytes.now) }
{
    length_before(bytes, mark) < bytes.len()
}

/// What stands before and after the first `=` of an option.
#[tactic(auto, unfolding(crate::specs::Query::name_of, crate::specs::Query::value_of))]
pub fn name_and_value(option: &[u8]) -> (&[u8], &[u8])
    ensures name { result.0.now ≡ name_of option.now }
    ensures value { result.1.now ≡ value_of option.now }
{
    let end = length_before(option, b'=');
    if end < option.len() {
        (&option[..end], &option[end + 1..])
    } else {
        (option, &[])
    }
}

/// The text as a string of its own.
fn owned_text(alloc: Global, text: CowStr<'_, Global>) -> Result<String, QueryFault>
    ensures text { IfOk result (λ owned. string_bytes owned ≡ cow_str_bytes text.entry) }
    ensures fault { IfErr result (λ fault. fault ≡ QueryFault.Memory) }
{
    match text.into_owned(alloc) {
        Ok(owned) => Ok(owned),
        Err(_) => Err(QueryFault::Memory),
    }
}

/// The text of an option that is the filter, or nothing if it is a custom one.
fn filter_of_option(
    alloc: Global,
    option: &[u8],
    number: usize,
    start: usize,
) -> Result<Option<String>, QueryFault>
    requires { start + length option.now < 2 ^ 63 }
    ensures readable { IfOk result (λ filter. IsReadable option.now) }
    ensures gives { IfOk result (λ filter. GivesFilter option.now (option_map string_bytes filter)) }
    ensures fault { IfErr result (λ fault. fault ≢ QueryFault.Memory
        → (filters : ℕ) → IsOptionFault option.now number start filters fault) }
{
    let (name, value) = name_and_value(option);
    let name_text = decoded_part(alloc, name, number, start)?;
    let value_text = decoded_part(alloc, value, number, start + name.len() + 1)?;
    if is_refused_name(name_text.as_str()) {
        return Err(QueryFault::OtherOption { option: number });
    }
    if !is_filter_name(name_text.as_str()) {
        return Ok(None);
    }
    let text = owned_text(alloc, value_text)?;
    Ok(Some(text))
}

/// The filter after one more option, which may be the filter too.
fn with_found(
    filter: Option<String>,
    found: Option<String>,
    number: usize,
) -> Result<Option<String>, QueryFault>
    ensures ok { IfOk result (λ kept. KeepsFilter (option_map string_bytes filter)
        (option_map string_bytes found) (option_map string_bytes kept)) }
    ensures fault { IfErr result (λ fault. (fault ≡ QueryFault.Repeated number)
        × AreTwoFilters (option_map string_bytes filter) (option_map string_bytes found)) }
{
    match (filter, found) {
        (Some(_), Some(_)) => Err(QueryFault::Repeated { option: number }),
        (Some(text), None) => Ok(Some(text)),
        (None, Some(text)) => Ok(Some(text)),
        (None, None) => Ok(None),
    }
}

/// Returns the text of the filter that a query string asks for, decoded; `None` if there is none.
///
/// Options are separated by `&`; the filter is the one named `filter` or `$filter` in any ASCII case. Custom options
/// are skipped, but they too are decoded. A `+` stays a `+`, as RFC 3986 has it. A refusal other than `Memory` is the
/// first fault from the left. Each option is checked in this order: the escapes and the UTF-8 of its name, those of its
/// value, and what the decoded name is.
pub fn filter_of_query(alloc: Global, query: &[u8]) -> Result<Option<String>, QueryFault>
    ensures filter { IfOk result (λ filter. IsFilterOf query.now (option_map string_bytes filter)) }
    ensures only { IfOk result (λ filter. (other : Option (List ℕ))
        → IsFilterOf query.now other → other ≡ option_map string_bytes filter) }
    ensures fault { IfErr result (λ fault. fault ≢ QueryFault.Memory → IsQueryFault query.now fault) }
    ensures none { IfErr result (λ fault. fault ≢ QueryFault.Memory → (filter : Option (List ℕ))
        → IsFilterOf query.now filter → ⊥) }
{
    let mut filter = None;
    let mut number = 0;
    let mut start = 0;
    for option in query.split(|byte| *byte == b'&') {
        let found = filter_of_option(alloc, option, number, start)?;
        filter = with_found(filter, found, number)?;
        number += 1;
        start += option.len() + 1;
    }
    Ok(filter)
}
