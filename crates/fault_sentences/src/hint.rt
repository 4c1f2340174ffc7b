ghost use Rattle.std.specs.Prelude.{◌≡◌, ◌-◌, ◌<◌, ◌==◌, ◌||◌, drop, length, slice_index, take};
ghost use Rattle.fault_sentences.specs.Hint.{begins_date_time, begins_number, character_hint, hint_of, is_option_name};
ghost use Rattle.fault_sentences.specs.Hint.{is_escape, is_suffixed, is_suffix_letter, is_symbol, is_typed_literal};
ghost use Rattle.fault_sentences.specs.Hint.{number_hint, percent_hint, plus_hint, syntax_hint, text_hint, typing_hint};

use super::fault_class::FaultClass;
use super::report::Report;

/// A hint at what was meant, where a filter's text shows it.
#[derive(Clone, Copy, Debug, PartialEq, Eq)]
pub enum Hint {
    /// A `+` for a space.
    Plus,
    /// A `+` with a space beside it, for `add`.
    Sum,
    /// A `*` for `mul`.
    Product,
    /// A `%` for `mod`.
    Remainder,
    /// An `@`: a parameter alias.
    Alias,
    /// `$filter=` before the filter.
    OptionName,
    /// `&&`, `||`, `==` and the like for words.
    Symbol,
    /// A `"` around a text.
    DoubleQuote,
    /// A `%`: the text has escapes.
    EscapedTwice,
    /// An apostrophe or an unescaped `&` in a text.
    Apostrophe,
    /// A number with a fraction or an exponent.
    Fraction,
    /// A date and time without `Z` or an offset.
    Offset,
    /// A number with a letter after it, as `5L`.
    Suffix,
    /// `datetime'..'`, `guid'..'` and the like.
    TypedLiteral,
    /// `substringof` of OData 2.
    Substring,
    /// A cast to another type.
    Cast,
}

/// Whether this byte, which is not 0, stands at the offset.
fn is_byte_at(bytes: &[u8], place: usize, byte: u8) -> bool
    requires { 0 < byte }
    ensures { result ≡ (slice_index bytes.now place == byte) }
{
    match bytes.get(place) {
        Some(found) => *found == byte,
        None => false,
    }
}

fn begins_date_time(at: &[u8]) -> bool
    ensures { result ≡ begins_date_time at.now }
{
    is_byte_at(at, 4, b'-')
        && is_byte_at(at, 7, b'-')
        && (is_byte_at(at, 10, b'T') || is_byte_at(at, 10, b't'))
}

fn is_symbol(byte: u8) -> bool
    ensures { result ≡ is_symbol byte }
{
    byte == b'!' || byte == b'&' || byte == b'<' || byte == b'=' || byte == b'>' || byte == b'|'
}

/// The byte at the offset, or 0 if there is none.
fn byte_at(bytes: &[u8], offset: usize) -> u8
    ensures { result ≡ slice_index bytes.now offset }
{
    match bytes.get(offset) {
        Some(byte) => *byte,
        None => 0,
    }
}

/// The first byte, or 0 if there is none.
fn first_byte(bytes: &[u8]) -> u8
    ensures { result ≡ slice_index bytes.now 0 }
{
    match bytes.first() {
        Some(byte) => *byte,
        None => 0,
    }
}

/// The last byte, or 0 if there is none.
fn last_byte(bytes: &[u8]) -> u8
    ensures { result ≡ slice_index bytes.now (length bytes.now - 1) }
{
    match bytes.last() {
        Some(byte) => *byte,
        None => 0,
    }
}

fn begins_number(at: &[u8]) -> bool
    ensures { result ≡ begins_number at.now }
{
    first_byte(at).is_ascii_digit() && !is_byte_at(at, 2, b':')
}

fn is_typed_literal(before: &[u8], at: &[u8]) -> bool
    ensures { result ≡ is_typed_literal before.now at.now }
{
    is_byte_at(at, 0, b'\'') && last_byte(before).is_ascii_alphabetic()
}

/// Whether two hexadecimal digits follow the first byte.
fn is_escape(at: &[u8]) -> bool
    ensures { result ≡ is_escape at.now }
{
    byte_at(at, 1).is_ascii_hexdigit() && byte_at(at, 2).is_ascii_hexdigit()
}

/// Of a `+`: between spaces it adds.
fn plus_hint(before: &[u8], at: &[u8]) -> Hint
    ensures { result ≡ plus_hint before.now at.now }
{
    if last_byte(before) == b' ' || byte_at(at, 1) == b' ' {
        Hint::Sum
    } else {
        Hint::Plus
    }
}

/// Of a `%`: before two digits it is an escape.
fn percent_hint(at: &[u8]) -> Hint
    ensures { result ≡ percent_hint at.now }
{
    if is_escape(at) {
        Hint::EscapedTwice
    } else {
        Hint::Remainder
    }
}

/// Whether these bytes are the name of the filter's query option.
fn is_option_name(name: &[u8]) -> bool
    ensures { result ≡ is_option_name name.now }
{
    name.eq_ignore_ascii_case(b"$filter") || name.eq_ignore_ascii_case(b"filter")
}

fn character_hint(before: &[u8], at: &[u8]) -> Option<Hint>
    ensures { result ≡ character_hint before.now at.now }
{
    let byte = first_byte(at);
    if byte == b'+' {
        Some(plus_hint(before, at))
    } else if byte == b'"' {
        Some(Hint::DoubleQuote)
    } else if byte == b'%' {
        Some(percent_hint(at))
    } else if byte == b'*' {
        Some(Hint::Product)
    } else if byte == b'@' {
        Some(Hint::Alias)
    } else if byte == b'=' && is_option_name(before) {
        Some(Hint::OptionName)
    } else if is_symbol(byte) {
        Some(Hint::Symbol)
    } else {
        None
    }
}

fn is_suffix_letter(byte: u8) -> bool
    ensures { result ≡ is_suffix_letter byte }
{
    let lower = byte.to_ascii_lowercase();
    lower == b'd' || lower == b'f' || lower == b'l' || lower == b'm'
}

/// Whether these bytes are digits with such a letter after them, and have no hyphen.
fn is_suffixed(run: &[u8]) -> bool
    ensures { result ≡ is_suffixed run.now }
{
    first_byte(run).is_ascii_digit() && is_suffix_letter(last_byte(run)) && !run.contains(&b'-')
}

/// Of a number, date, moment or Guid that runs on.
fn number_hint(at: &[u8], size: usize) -> Option<Hint>
    ensures { result ≡ number_hint at.now size }
{
    if begins_date_time(at) {
        Some(Hint::Offset)
    } else if is_suffixed(front(at, size)) {
        Some(Hint::Suffix)
    } else {
        None
    }
}

fn text_hint(number: u8, before: &[u8], at: &[u8], size: usize) -> Option<Hint>
    ensures { result ≡ text_hint number before.now at.now size }
{
    if number == 1 {
        character_hint(before, at)
    } else if number == 2 {
        Some(Hint::Apostrophe)
    } else if number == 3 && begins_number(at) {
        Some(Hint::Fraction)
    } else if number == 4 {
        number_hint(at, size)
    } else {
        None
    }
}

fn syntax_hint(number: u8, before: &[u8], at: &[u8]) -> Option<Hint>
    ensures { result ≡ syntax_hint number before.now at.now }
{
    if number == 1 && is_typed_literal(before, at) {
        Some(Hint::TypedLiteral)
    } else {
        None
    }
}

/// The first bytes of that number, or all if there are fewer.
fn front(bytes: &[u8], size: usize) -> &[u8]
    ensures { result.now ≡ take size bytes.now }
{
    if size < bytes.len() {
        &bytes[..size]
    } else {
        bytes
    }
}

/// What follows the first bytes of that number.
fn rest(bytes: &[u8], size: usize) -> &[u8]
    ensures { result.now ≡ drop size bytes.now }
{
    if size < bytes.len() {
        &bytes[size..]
    } else {
        &[]
    }
}

fn typing_hint(number: u8, at: &[u8], size: usize) -> Option<Hint>
    ensures { result ≡ typing_hint number at.now size }
{
    if number == 1 && front(at, size).contains(&b'.') {
        Some(Hint::Cast)
    } else if number == 2 && front(at, 12).eq_ignore_ascii_case(b"substringof(") {
        Some(Hint::Substring)
    } else {
        None
    }
}

/// Returns what was meant, where the text of a faulty filter shows it by one of the patterns.
pub fn hint_about(report: &Report<'_>) -> Option<Hint>
    ensures { result ≡ hint_of report.now.class report.now.number (take report.now.span.start report.now.text.now)
        (drop report.now.span.start report.now.text.now) (report.now.span.stop - report.now.span.start) }
{
    let bytes = report.text.as_bytes();
    let before = front(bytes, report.span.start);
    let at = rest(bytes, report.span.start);
    let size = report.span.stop.saturating_sub(report.span.start);
    match report.class {
        FaultClass::Text => text_hint(report.number, before, at, size),
        FaultClass::Syntax => syntax_hint(report.number, before, at),
        FaultClass::Typing => typing_hint(report.number, at, size),
        _ => None,
    }
}
