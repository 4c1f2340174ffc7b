//! Texts with escapes, one by one: their closing quote is looked for, and what stands between is decoded into a text
//! kept for it. A text with surrogates is read by `json`'s reader.
ghost use Rattle.std.specs.Prelude.{◌≡◌, ◌≢◌, ◌⊎◌, ℕ, suc, ◌<◌, ◌≤◌, length, get_or, drop, false, Some, string_bytes, IfSome, IsTrue};
ghost use Rattle.std.specs.Str.{IsCharBoundary};
ghost use Rattle.json.specs.Lex.{in_string, lex};
ghost use Rattle.json.specs.Text.{content, plain};
ghost use Rattle.json_room.specs.private.Escapes.{ReportsTo};
ghost use Rattle.json_room.specs.LexemesAt.{IsTextAt};
ghost use Rattle.json_room.specs.private.Lexemes.{ClosesText};

use super::decode_buffer::DecodeBuffer;
use super::decoded_escapes::escape_at;
use super::plain_bytes::{byte_at, plain_end};
use json::{Reader, Token};
use memchr::memchr;

/// The offset after a byte of a text, or after a backslash and what it escapes.
#[inline(always)]
fn past_byte(bytes: &[u8], place: usize) -> usize
    requires within { place < length bytes.now }
    requires no_quote { get_or bytes.now place 32 ≢ 34 }
    ensures further { place < result }
    ensures passed { lex in_string (drop result bytes.now) ≡ lex in_string (drop place bytes.now) }
{
    if bytes[place] == b'\\' {
        place + 2
    } else {
        place + 1
    }
}

/// Whether a backslash stands before an offset.
#[inline(always)]
fn is_behind_backslash(bytes: &[u8], place: usize) -> bool
    requires { place ≤ length bytes.now }
    ensures { result ≡ false → (k : ℕ) → suc k ≡ place → get_or bytes.now k 0 ≢ 92 }
{
    if place == 0 {
        return false;
    }
    bytes[place - 1] == b'\\'
}

/// The first quote of what is left of a text, where no backslash stands before it: then that is no escape.
fn first_quote(bytes: &[u8], from: usize) -> Option<usize>
    requires { from ≤ length bytes.now }
    ensures { IfSome result (ClosesText bytes.now from) }
{
    let rest = &bytes[from..];
    let Some(place) = memchr(b'"', rest) else {
        return None;
    };
    if is_behind_backslash(rest, place) {
        return None;
    }
    Some(from + place)
}

/// The quote that closes a text, from an offset within it on.
fn quote_after(bytes: &[u8], from: usize) -> Option<usize>
    requires { from ≤ length bytes.now }
    ensures { IfSome result (ClosesText bytes.now from) }
{
    match first_quote(bytes, from) {
        Some(quote) => Some(quote),
        None => quote_by_bytes(bytes, from),
    }
}

/// The same, from byte to byte.
fn quote_by_bytes(bytes: &[u8], from: usize) -> Option<usize>
    requires { from ≤ length bytes.now }
    ensures { IfSome result (ClosesText bytes.now from) }
{
    let mut place = from;
    while place < bytes.len() {
        if bytes[place] == b'"' {
            return Some(place);
        }
        place = past_byte(bytes, place);
    }
    None
}

/// Decodes the escape at an offset, after what was decoded before; the offset after it.
#[inline(always)]
fn report_escape(quoted: &str, place: usize, reported: &mut String) -> Option<usize>
    requires within { place < length quoted.now }
    requires backslash { get_or quoted.now place 0 ≡ 92 }
    ensures { IfSome result (ReportsTo quoted.now (string_bytes reported.old) place (string_bytes reported.new)) }
{
    let Some((character, next)) = escape_at(quoted.as_bytes(), place + 1) else {
        return None;
    };
    match reported.push(character) {
        Ok(()) => Some(next),
        Err(_) => None,
    }
}

/// Whether a byte ends what stands for itself, and is not a control character.
#[inline(always)]
fn ends_plain(byte: u8) -> bool
    ensures { IsTrue result → (byte ≡ 34) ⊎ (byte ≡ 92) }
{
    byte == b'"' || byte == b'\\'
}

/// Decodes what stands at an offset up to the next escape, or to the closing quote.
#[inline(always)]
fn report_plain(quoted: &str, place: usize, reported: &mut String) -> Option<usize>
    requires { IsCharBoundary quoted.now place }
    ensures { IfSome result (ReportsTo quoted.now (string_bytes reported.old) place (string_bytes reported.new)) }
{
    let bytes = quoted.as_bytes();
    let end = plain_end(bytes, place);
    if end == place || !ends_plain(byte_at(bytes, end)) {
        return None;
    }
    match reported.push_str(&quoted[place..end]) {
        Ok(()) => Some(end),
        Err(_) => None,
    }
}

/// Decodes what stands at an offset, which is not a quote.
#[inline(always)]
fn report_piece(quoted: &str, place: usize, reported: &mut String) -> Option<usize>
    requires within { place < length quoted.now }
    requires boundary { IsCharBoundary quoted.now place }
    ensures { IfSome result (ReportsTo quoted.now (string_bytes reported.old) place (string_bytes reported.new)) }
{
    if quoted.as_bytes()[place] == b'\\' {
        report_escape(quoted, place, reported)
    } else {
        report_plain(quoted, place, reported)
    }
}

/// Decodes a text in its quotes; false where it has surrogates or wrong escapes, or an allocation fails.
#[inline(always)]
fn report(quoted: &str, reported: &mut String) -> bool
    requires { get_or quoted.now 0 32 ≡ 34 }
    ensures { IsTrue result → content plain (drop 1 quoted.now) ≡ Some (string_bytes reported.new) }
{
    reported.clear();
    let bytes = quoted.as_bytes();
    let mut place = 1;
    while place < bytes.len() {
        if bytes[place] == b'"' {
            return true;
        }
        let Some(next) = report_piece(quoted, place, reported) else {
            return false;
        };
        place = next;
    }
    false
}

/// The same by `json`'s reader.
#[inline(never)]
fn reported_by_json<'t>(quoted: &'t str, scratch: &'t mut json::Scratch) -> Option<&'t str>
    requires { get_or quoted.now 0 32 ≡ 34 }
    ensures { IfSome result (λ reported. content plain (drop 1 quoted.now) ≡ Some reported.now) }
{
    let Ok(mut reader) = Reader::new(quoted, scratch) else {
        return None;
    };
    match reader.next() {
        Some(Token::String(reported)) => Some(reported),
        _ => None,
    }
}

/// What a text in its quotes stands for; none where its escapes are none, or an allocation fails.
fn unescaped<'t>(quoted: &'t str, buffer: &'t mut DecodeBuffer) -> Option<&'t str>
    requires { get_or quoted.now 0 32 ≡ 34 }
    ensures { IfSome result (λ reported. content plain (drop 1 quoted.now) ≡ Some reported.now) }
{
    if report(quoted, &mut buffer.reported) {
        return Some(buffer.reported.as_str());
    }
    match buffer.of_json() {
        Some(of_json) => reported_by_json(quoted, of_json),
        None => None,
    }
}

/// The text that begins with the quote at an offset, and the offset after its closing quote.
#[inline(never)]
pub(crate) fn escaped_at<'t>(
    text: &'t str,
    place: usize,
    buffer: &'t mut DecodeBuffer,
) -> Option<(&'t str, usize)>
    requires { get_or text.now place 32 ≡ 34 }
    ensures { IfSome result (λ found. IsTextAt text.now place found.0.now found.1) }
{
    let Some(quote) = quote_after(text.as_bytes(), place + 1) else {
        return None;
    };
    match unescaped(&text[place..quote + 1], buffer) {
        Some(reported) => Some((reported, quote + 1)),
        None => None,
    }
}
