//! Plain tokens: most words and numbers, texts without doubled quotes, and single marks. A few bytes show where each
//! stops, since no longer piece begins with it.
ghost use Rattle.std.specs.Prelude.{◌≡◌, ◌<◌, ◌≤◌, ◌==◌, ◌∷◌, ℕ, List, IfSome, length, not, slice_index, true};
ghost use Rattle.std.specs.Char.{is_ascii_digit};
ghost use Rattle.odata_text.specs.private.PlainTokens.{IsRun, IsTokenBetween, is_first_byte, is_name_byte};
ghost use Rattle.odata_text.specs.private.PlainTokens.{number_goes_on, word_goes_on};

use super::token::TokenKind;

const LETTER: u8 = 1;

const DIGIT: u8 = 2;

const GOES_ON: u8 = 4;

const COLON: u8 = 8;

// For each byte a digit, whose low four bits are the flags above.
static FLAGS: [u8; 256] = *b"\
    00000000000000000000000000000000\
    00000004000004402222222222800000\
    01111111111111111111111111100001\
    01111111111111111111111111100000\
    44444444444444444444444444444444\
    44444444444444444444444444444444\
    44444444444444444444444444444444\
    44444444444444444444444444444444";

/// Whether the byte is an ASCII letter or `_`.
#[inline(always)]
fn is_first_byte(byte: u8) -> bool
    ensures { result ≡ is_first_byte byte }
{
    FLAGS[byte as usize] & LETTER != 0
}

/// Whether the byte is an ASCII letter, a digit or `_`.
#[inline(always)]
fn is_name_byte(byte: u8) -> bool
    ensures { result ≡ is_name_byte byte }
{
    FLAGS[byte as usize] & (LETTER | DIGIT) != 0
}

/// Whether a longer piece may go on with the byte after a word.
#[inline(always)]
fn word_goes_on(byte: u8) -> bool
    ensures { result ≡ word_goes_on byte }
{
    FLAGS[byte as usize] & GOES_ON != 0
}

/// Whether a longer piece may go on with the byte after digits, or the digits run on into it.
#[inline(always)]
fn number_goes_on(byte: u8) -> bool
    ensures { result ≡ number_goes_on byte }
{
    FLAGS[byte as usize] & (LETTER | DIGIT | GOES_ON | COLON) != 0
}

/// Where the run of ASCII letters, digits and `_` ends.
#[inline(always)]
fn name_end(bytes: &[u8], from: usize) -> usize
    requires { from ≤ length bytes.now }
    ensures { IsRun is_name_byte bytes.now from result }
{
    let mut end = from;
    while end < bytes.len() && is_name_byte(bytes[end]) {
        end += 1;
    }
    end
}

/// Where the run of digits ends.
#[inline(always)]
fn digits_end(bytes: &[u8], from: usize) -> usize
    requires { from ≤ length bytes.now }
    ensures { IsRun is_ascii_digit bytes.now from result }
{
    let mut end = from;
    while end < bytes.len() && bytes[end].is_ascii_digit() {
        end += 1;
    }
    end
}

/// Where the next `'` stands, or the end.
#[inline(always)]
fn next_quote(bytes: &[u8], from: usize) -> usize
    requires { from ≤ length bytes.now }
    ensures { IsRun (λ b. not (b == 39)) bytes.now from result }
{
    let mut end = from;
    while end < bytes.len() && bytes[end] != b'\'' {
        end += 1;
    }
    end
}

/// Where the word that begins at `start` stops, unless a longer piece may begin with it.
#[inline(always)]
fn word_stop(bytes: &[u8], start: usize) -> Option<usize>
    requires inside { start < length bytes.now }
    requires letter { is_first_byte (slice_index bytes.now start) ≡ true }
    ensures { IfSome result (λ stop. IsTokenBetween bytes.now TokenKind.Word start stop) }
{
    let stop = name_end(bytes, start + 1);
    if stop < bytes.len() && word_goes_on(bytes[stop]) {
        return None;
    }
    Some(stop)
}

/// Where the number that begins at `start` stops, unless a longer piece may begin with it or it runs on.
#[inline(always)]
fn number_stop(bytes: &[u8], start: usize) -> Option<usize>
    requires inside { start < length bytes.now }
    requires digit { is_ascii_digit (slice_index bytes.now start) ≡ true }
    ensures { IfSome result (λ stop. IsTokenBetween bytes.now TokenKind.Int start stop) }
{
    let stop = digits_end(bytes, start + 1);
    if stop < bytes.len() && number_goes_on(bytes[stop]) {
        return None;
    }
    Some(stop)
}

/// Where the text in quotes that begins at `start` stops, unless it is open or its next quote is doubled.
#[inline(always)]
fn text_stop(bytes: &[u8], start: usize) -> Option<usize>
    requires inside { start < length bytes.now }
    requires quote { slice_index bytes.now start ≡ 39 }
    ensures { IfSome result (λ stop. IsTokenBetween bytes.now TokenKind.Str start stop) }
{
    let last = next_quote(bytes, start + 1);
    if last == bytes.len() {
        return None;
    }
    let stop = last + 1;
    if stop < bytes.len() && bytes[stop] == b'\'' {
        return None;
    }
    Some(stop)
}

/// The kind of the token that is this one byte, whatever follows it.
#[inline(always)]
fn mark_kind(byte: u8) -> Option<TokenKind>
    ensures { IfSome result (λ kind. (rest : List ℕ) → IsTokenBetween (byte ∷ rest) kind 0 1) }
{
    match byte {
        b'(' => Some(TokenKind::Open),
        b')' => Some(TokenKind::Close),
        b',' => Some(TokenKind::Comma),
        b'/' => Some(TokenKind::Slash),
        b':' => Some(TokenKind::Colon),
        _ => None,
    }
}

/// The kind of the token at an offset and where it stops, if it is a plain one.
#[inline(always)]
pub fn plain_token(bytes: &[u8], start: usize) -> Option<(TokenKind, usize)>
    requires { start < length bytes.now }
    ensures { IfSome result (λ found. IsTokenBetween bytes.now found.0 start found.1) }
{
    let first = bytes[start];
    if is_first_byte(first) {
        let stop = word_stop(bytes, start)?;
        return Some((TokenKind::Word, stop));
    }
    if first.is_ascii_digit() {
        let stop = number_stop(bytes, start)?;
        return Some((TokenKind::Int, stop));
    }
    if first == b'\'' {
        let stop = text_stop(bytes, start)?;
        return Some((TokenKind::Str, stop));
    }
    match mark_kind(first) {
        Some(kind) => Some((kind, start + 1)),
        None => None,
    }
}
