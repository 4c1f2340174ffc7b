ghost use Rattle.std.specs.Prelude.{◌≡◌, ◌≢◌, ℕ, ◌+◌, ◌<◌, ◌^◌, true, false, IfErr, IfOk, Option, length, option_map};
ghost use Rattle.std.specs.Cow.{cow_str_bytes};
ghost use Rattle.percent_encoding.specs.Percent.{percent_decode};
ghost use Rattle.odata_queries.specs.Disguise.{is_disguised};
ghost use Rattle.odata_queries.specs.Find.{FoundModel, IsClear, IsFindFault, IsFoundIn, IsPieceFault, IsTextFault, found_in, found_model};
ghost use Rattle.odata_queries.specs.Query.{IsDecodable, is_filter, value_of};
ghost use Rattle.odata_queries.specs.private.Find.{AreTwoFound, IsFilterAmong, IsReadablePiece, KeepsFound, found_of};

use super::disguise::is_disguised;
use super::find_fault::FindFault;
use super::found_filter::FoundFilter;
use super::query::name_and_value;
use super::query_fault::QueryFault;
use super::query_name::is_filter_name;
use super::query_part::decoded_part;
use odata_text::Span;
use std::alloc::Global;
use std::borrow::CowStr;

/// The text of a name or a value, which begins at `start` and belongs to the option with this number.
fn decoded_text(
    alloc: Global,
    part: &[u8],
    number: usize,
    start: usize,
) -> Result<CowStr<'_, Global>, FindFault>
    requires { start + length part.now < 2 ^ 64 }
    ensures decodable { IfOk result (λ text. IsDecodable part.now) }
    ensures text { IfOk result (λ text. cow_str_bytes text ≡ percent_decode part.now) }
    ensures fault { IfErr result (λ fault. fault ≢ FindFault.Memory
        → IsTextFault part.now number start fault) }
{
    match decoded_part(alloc, part, number, start) {
        Ok(text) => Ok(text),
        Err(QueryFault::BadEscape { place }) => Err(FindFault::BadEscape { place }),
        Err(QueryFault::NotUtf8 { option }) => Err(FindFault::NotUtf8 { option }),
        Err(_) => Err(FindFault::Memory),
    }
}

/// The filter of a piece that begins at `start`, whose decoded value this is.
fn found_filter(
    alloc: Global,
    piece: &[u8],
    start: usize,
    text: CowStr<'_, Global>,
) -> Result<FoundFilter, FindFault>
    requires room { start + length piece.now < 2 ^ 63 }
    requires text { cow_str_bytes text ≡ percent_decode (value_of piece.now) }
    ensures found { IfOk result (λ found. found_model found ≡ found_in piece.now start) }
    ensures fault { IfErr result (λ fault. fault ≡ FindFault.Memory) }
{
    let stop = start + piece.len();
    let value_start = stop - name_and_value(piece).1.len();
    match text.into_owned(alloc) {
        Ok(text) => Ok(FoundFilter {
            text,
            piece: Span { start, stop },
            value: Span {
                start: value_start,
                stop,
            },
        }),
        Err(_) => Err(FindFault::Memory),
    }
}

/// What a piece that begins at `start` gives: its filter, or nothing if it is another option.
fn filter_of_piece(
    alloc: Global,
    piece: &[u8],
    number: usize,
    start: usize,
) -> Result<Option<FoundFilter>, FindFault>
    requires { start + length piece.now < 2 ^ 63 }
    ensures readable { IfOk result (λ found. IsReadablePiece piece.now) }
    ensures gives { IfOk result (λ found. option_map found_model found ≡ found_of piece.now start) }
    ensures fault { IfErr result (λ fault. fault ≢ FindFault.Memory
        → (filters : ℕ) → IsPieceFault piece.now number start filters fault) }
{
    let (name, value) = name_and_value(piece);
    let name_text = decoded_text(alloc, name, number, start)?;
    if !is_filter_name(name_text.as_str()) {
        return Ok(None);
    }
    let text = decoded_text(alloc, value, number, start + name.len() + 1)?;
    let found = found_filter(alloc, piece, start, text)?;
    Ok(Some(found))
}

/// The filter after one more piece, which may be the filter's too.
fn with_found(
    filter: Option<FoundFilter>,
    found: Option<FoundFilter>,
    number: usize,
) -> Result<Option<FoundFilter>, FindFault>
    ensures ok { IfOk result (λ kept. KeepsFound (option_map found_model filter)
        (option_map found_model found) (option_map found_model kept)) }
    ensures fault { IfErr result (λ fault. (fault ≡ FindFault.Repeated number)
        × AreTwoFound (option_map found_model filter) (option_map found_model found)) }
{
    match (filter, found) {
        (Some(_), Some(_)) => Err(FindFault::Repeated { option: number }),
        (Some(first), None) => Ok(Some(first)),
        (None, Some(found)) => Ok(Some(found)),
        (None, None) => Ok(None),
    }
}

/// Nothing, where the piece is not disguised.
fn undisguised(
    alloc: Global,
    piece: &[u8],
    has_filter: bool,
    number: usize,
) -> Result<(), FindFault>
    requires { has_filter ≡ is_filter piece.now }
    ensures ok { IfOk result (λ _. is_disguised piece.now ≡ false) }
    ensures fault { IfErr result (λ fault. fault ≢ FindFault.Memory
        → (fault ≡ FindFault.Disguised number) × (is_disguised piece.now ≡ true)) }
{
    match is_disguised(alloc, piece, has_filter) {
        Ok(true) => Err(FindFault::Disguised { option: number }),
        Ok(false) => Ok(()),
        Err(_) => Err(FindFault::Memory),
    }
}

/// The filter after one more piece, which begins at `start`.
fn after_piece(
    alloc: Global,
    filter: Option<FoundFilter>,
    piece: &[u8],
    number: usize,
    start: usize,
) -> Result<Option<FoundFilter>, FindFault>
    requires { start + length piece.now < 2 ^ 63 }
    ensures clear { IfOk result (λ kept. IsClear piece.now) }
    ensures keeps { IfOk result (λ kept. KeepsFound (option_map found_model filter)
        (found_of piece.now start) (option_map found_model kept)) }
    ensures fault { IfErr result (λ fault. fault ≢ FindFault.Memory → (filters : ℕ)
        → IsFilterAmong (option_map found_model filter) filters
        → IsPieceFault piece.now number start filters fault) }
{
    let found = filter_of_piece(alloc, piece, number, start)?;
    let has_filter = found.is_some();
    let kept = with_found(filter, found, number)?;
    undisguised(alloc, piece, has_filter, number)?;
    Ok(kept)
}

/// Finds the filter of a query string among any other options, decoded, and where it stands. Returns `None` if there is
/// none.
///
/// Options are separated by `&`; the filter is the one named `filter` or `$filter` in any ASCII case. Of any other
/// option only the name is decoded. A `+` stays a `+`, as RFC 3986 has it. A fault other than `Memory` is the first
/// from the left. Each option is checked in this order: the escapes and the UTF-8 of its name; of the filter, those of
/// its value, and whether it is a second filter; then whether some reader takes a name in it for a filter's that is
/// not.
pub fn find_filter(alloc: Global, query: &[u8]) -> Result<Option<FoundFilter>, FindFault>
    ensures found { IfOk result (λ found. IsFoundIn query.now (option_map found_model found)) }
    ensures only { IfOk result (λ found. (other : Option FoundModel)
        → IsFoundIn query.now other → other ≡ option_map found_model found) }
    ensures fault { IfErr result (λ fault. fault ≢ FindFault.Memory → IsFindFault query.now fault) }
    ensures none { IfErr result (λ fault. fault ≢ FindFault.Memory → (found : Option FoundModel)
        → IsFoundIn query.now found → ⊥) }
{
    let mut filter = None;
    let mut number = 0;
    let mut start = 0;
    for piece in query.split(|byte| *byte == b'&') {
        filter = after_piece(alloc, filter, piece, number, start)?;
        number += 1;
        start += piece.len() + 1;
    }
    Ok(filter)
}
