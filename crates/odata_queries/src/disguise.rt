ghost use Rattle.std.specs.Prelude.{◌≡◌, ◌==◌, ◌&&◌, ◌||◌, false, if◌then◌else◌, true, IfOk};
ghost use Rattle.std.specs.List.{after_first};
ghost use Rattle.odata_queries.specs.Disguise.{hides_filter, holds_options, is_disguised, is_nesting_name, part_hides};
ghost use Rattle.odata_queries.specs.Disguise.{shows_decoded};
ghost use Rattle.odata_queries.specs.Query.{decoded_name, is_filter, is_refused_name};

use super::escapes::{decoded, decoded_once};
use super::filter_word::shows_filter;
use super::parentheses::{depth_after, has_misplaced, outside_parentheses};
use super::query::{has_byte, length_before, name_and_value};
use super::query_name::is_refused_in_bytes;
use std::alloc::{AllocError, Global};

/// Whether a name shows the filter once it is decoded, or decoded twice; escapes with `%u00` too if they are `long`.
#[tactic(auto, unfolding(crate::specs::Disguise::shows_decoded))]
fn shows_decoded(alloc: Global, name: &[u8], long: bool) -> Result<bool, AllocError>
    ensures { IfOk result (λ shows. shows ≡ shows_decoded long name.now) }
{
    let once = decoded_once(alloc, name, long)?;
    let twice = decoded_once(alloc, once.as_slice(), long)?;
    let shown_once = shows_filter(alloc, once.as_slice())?;
    let shown_twice = shows_filter(alloc, twice.as_slice())?;
    Ok(shown_once || shown_twice)
}

/// Whether the name of a part shows the filter, as it stands or decoded.
fn hides_filter(alloc: Global, part: &[u8]) -> Result<bool, AllocError>
    ensures { IfOk result (λ hides. hides ≡ hides_filter part.now) }
{
    let (name, _) = name_and_value(part);
    if shows_filter(alloc, name)? {
        return Ok(true);
    }
    if !has_byte(name, b'%') {
        return Ok(false);
    }
    let short = shows_decoded(alloc, name, false)?;
    let long = shows_decoded(alloc, name, true)?;
    Ok(short || long)
}

/// What follows the first `;`.
fn after_semicolon(text: &[u8]) -> &[u8]
    ensures { result.now ≡ after_first (λ b. b == 59) text.now }
{
    let end = length_before(text, b';');
    if end < text.len() {
        &text[end + 1..]
    } else {
        &[]
    }
}

/// Whether one of the parts of a text hides the filter; it is split at `;` and at `?` where these are asked for.
fn part_hides(alloc: Global, text: &[u8], semicolons: bool, urls: bool) -> Result<bool, AllocError>
    ensures { IfOk result (λ hides. hides ≡ part_hides semicolons urls text.now) }
{
    for part in text.split(|byte| semicolons && *byte == b';' || urls && *byte == b'?') {
        if hides_filter(alloc, part)? {
            return Ok(true);
        }
    }
    Ok(false)
}

/// Whether the name of the piece is that of an option whose value has options of its own.
#[tactic(auto, unfolding(crate::specs::Disguise::is_nesting_name))]
fn is_nesting(name: &[u8]) -> bool
    ensures { result ≡ is_nesting_name name.now }
{
    name.eq_ignore_ascii_case(b"expand")
        || name.eq_ignore_ascii_case(b"$expand")
        || name.eq_ignore_ascii_case(b"select")
        || name.eq_ignore_ascii_case(b"$select")
}

/// Whether the piece, whose decoded name this is, has options of its own in parentheses that close and follow names.
fn holds_options(piece: &[u8], name: &[u8]) -> bool
    requires { name.now ≡ decoded_name piece.now }
    ensures { result ≡ holds_options piece.now }
{
    is_nesting(name) && depth_after(piece) == 0 && !has_misplaced(piece)
}

/// Whether some reader finds a filter in a text of an option.
fn is_text_disguised(
    alloc: Global,
    text: &[u8],
    has_filter: bool,
    is_system: bool,
) -> Result<bool, AllocError>
    ensures { IfOk result (λ disguised. disguised ≡ (if has_filter
        then part_hides true false (after_first (λ b. b == 59) text.now)
        else part_hides false false text.now || part_hides true false text.now
        || (is_system && (part_hides false true text.now || part_hides true true text.now)))) }
{
    if has_filter {
        return part_hides(alloc, after_semicolon(text), true, false);
    }
    let whole = part_hides(alloc, text, false, false)?;
    let split = part_hides(alloc, text, true, false)?;
    if !is_system {
        return Ok(whole || split);
    }
    let begun = part_hides(alloc, text, false, true)?;
    let both = part_hides(alloc, text, true, true)?;
    Ok(whole || split || (begun || both))
}

/// Whether some reader finds a filter in a piece. One that is plainly there, as `has_filter` says, does not count.
pub fn is_disguised(alloc: Global, piece: &[u8], has_filter: bool) -> Result<bool, AllocError>
    requires { has_filter ≡ is_filter piece.now }
    ensures { IfOk result (λ disguised. disguised ≡ is_disguised piece.now) }
{
    let name = decoded(alloc, name_and_value(piece).0)?;
    let is_system = is_refused_in_bytes(name.as_slice());
    if holds_options(piece, name.as_slice()) {
        let outside = outside_parentheses(alloc, piece)?;
        return is_text_disguised(alloc, outside.as_slice(), has_filter, is_system);
    }
    is_text_disguised(alloc, piece, has_filter, is_system)
}
