//! Texts that may have escapes (RFC 8259, section 7).
ghost use Rattle.std.specs.Prelude.{ℕ, ◌<◌, ◌≤◌, List, length, IfSome};
ghost use Rattle.std.specs.Str.{IsUtf8};
ghost use Rattle.json_room.specs.LexemesAt.{IsTextAt};

use super::decode_buffer::DecodeBuffer;
use super::decoded_texts::escaped_at;
use super::escapes::escape_end;
use super::roomy_line::RoomyLine;
use super::texts::{plain_end, text_at, text_end};

/// The offset after the text that begins there.
#[inline(always)]
pub(crate) fn any_text_end(
    line: &RoomyLine<'_>,
    place: usize,
    buffer: &mut DecodeBuffer,
) -> Option<usize>
    requires { place ≤ length line.now }
    ensures further { IfSome result (λ to. place < to) }
    ensures text { IfSome result (λ to. (s : List ℕ) × IsTextAt line.now place s to × IsUtf8 s) }
{
    match text_end(line, place) {
        Some(end) => Some(end),
        None => escaped_text_end(line, place, buffer),
    }
}

/// The offset after the text that begins there, which mostly has escapes. Its clauses say nothing of `None`.
#[inline(never)]
pub fn escaped_text_end(
    line: &RoomyLine<'_>,
    place: usize,
    buffer: &mut DecodeBuffer,
) -> Option<usize>
    requires { place ≤ length line.now }
    ensures further { IfSome result (λ to. place < to) }
    ensures text { IfSome result (λ to. (s : List ℕ) × IsTextAt line.now place s to × IsUtf8 s) }
{
    if let Some(end) = passed_text_end(line, place) {
        return Some(end);
    }
    match escaped_text_at(line, place, buffer) {
        Some((_, end)) => Some(end),
        None => None,
    }
}

/// The same, but nothing is decoded; none where a surrogate stands.
#[inline(always)]
fn passed_text_end(line: &RoomyLine<'_>, place: usize) -> Option<usize>
    requires { place ≤ length line.now }
    ensures further { IfSome result (λ to. place < to) }
    ensures text { IfSome result (λ to. (s : List ℕ) × IsTextAt line.now place s to × IsUtf8 s) }
{
    if line.byte(place) != b'"' {
        return None;
    }
    // The line is UTF-8.
    let _text = line.text();
    let mut at = plain_end(line, place + 1);
    'escapes: while line.byte(at) == b'\\' {
        let Some(next) = escape_end(line, at + 1) else {
            return None;
        };
        at = plain_end(line, next);
    }
    if line.byte(at) == b'"' {
        Some(at + 1)
    } else {
        None
    }
}

/// The text that begins there, and the offset after it. Its clauses say nothing of `None`.
pub fn any_text_at<'t>(
    line: &'t RoomyLine<'_>,
    place: usize,
    buffer: &'t mut DecodeBuffer,
) -> Option<(&'t str, usize)>
    requires { place ≤ length line.now }
    ensures further { IfSome result (λ found. place < found.1) }
    ensures text { IfSome result (λ found. IsTextAt line.now place found.0.now found.1) }
{
    if let Some(found) = text_at(line, place) {
        return Some(found);
    }
    escaped_text_at(line, place, buffer)
}

/// The same of a text that mostly has escapes.
fn escaped_text_at<'t>(
    line: &'t RoomyLine<'_>,
    place: usize,
    buffer: &'t mut DecodeBuffer,
) -> Option<(&'t str, usize)>
    requires { place ≤ length line.now }
    ensures further { IfSome result (λ found. place < found.1) }
    ensures text { IfSome result (λ found. IsTextAt line.now place found.0.now found.1) }
{
    if line.byte(place) != b'"' {
        return None;
    }
    match escaped_at(line.text(), place, buffer) {
        Some((text, end)) => if end > place { Some((text, end)) } else { None },
        None => None,
    }
}
