ghost use Rattle.std.specs.Prelude.{◌≡◌, ◌≢◌, ℕ, ◌+◌, ◌<◌, ◌^◌, false, IfErr, IfOk, MatchOption, length, slice_index};
ghost use Rattle.std.specs.Char.{is_digit};
ghost use Rattle.std.specs.Cow.{cow_str_bytes};
ghost use Rattle.percent_encoding.specs.Percent.{percent_decode};
ghost use Rattle.odata_queries.specs.Query.{IsPartFault, IsDecodable, is_bad_escape};
ghost use Rattle.odata_queries.specs.private.QueryParts.{IsFirstBad};

use super::query_fault::QueryFault;
use percent_encoding::{DecodeError, percent_decode};
use std::alloc::Global;
use std::borrow::CowStr;

/// Whether a hexadecimal digit stands at the offset.
pub fn is_digit_at(part: &[u8], place: usize) -> bool
    ensures { result ≡ is_digit (slice_index part.now place) 16 }
{
    match part.get(place) {
        Some(byte) => char::from(*byte).is_digit(16),
        None => false,
    }
}

/// Whether a `%` without two hexadecimal digits after it stands at the offset.
fn is_bad_escape(part: &[u8], place: usize) -> bool
    requires { place < length part.now }
    ensures { result ≡ is_bad_escape part.now place }
{
    part[place] == b'%' && !(is_digit_at(part, place + 1) && is_digit_at(part, place + 2))
}

/// The first `%` without two hexadecimal digits after it.
fn bad_escape(part: &[u8]) -> Option<usize>
    ensures { MatchOption result ((place : ℕ) → is_bad_escape part.now place ≡ false) (IsFirstBad part.now) }
{
    for place in 0..part.len() {
        if is_bad_escape(part, place) {
            return Some(place);
        }
    }
    None
}

/// The text of a name or a value, which begins at `start` and belongs to the option with this number.
pub fn decoded_part(
    alloc: Global,
    part: &[u8],
    number: usize,
    start: usize,
) -> Result<CowStr<'_, Global>, QueryFault>
    requires { start + length part.now < 2 ^ 64 }
    ensures decodable { IfOk result (λ text. IsDecodable part.now) }
    ensures text { IfOk result (λ text. cow_str_bytes text ≡ percent_decode part.now) }
    ensures fault { IfErr result (λ fault. fault ≢ QueryFault.Memory
        → IsPartFault part.now number start fault) }
{
    if let Some(place) = bad_escape(part) {
        return Err(QueryFault::BadEscape {
            place: start + place,
        });
    }
    match percent_decode(part).decode_utf8(alloc) {
        Ok(text) => Ok(text),
        Err(DecodeError::Utf8(_)) => Err(QueryFault::NotUtf8 { option: number }),
        Err(DecodeError::OutOfMemory) => Err(QueryFault::Memory),
    }
}
