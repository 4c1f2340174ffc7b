//! Parts of a text, borrowed from it, and where they begin.
ghost use Rattle.std.specs.Prelude.{◌≡◌, MatchOption};
ghost use Rattle.std.specs.Str.{chars};
ghost use Rattle.odata_functions.specs.Texts.{IsTrimmed, from_zero, part_from, rest_from};
ghost use Rattle.odata_functions.specs.private.Cuts.{IsOffset, IsRemaining};

use super::white_space::{without_end, without_start};

/// Returns the text without the white space at both ends (section 5.1.1.7.4).
pub fn trim(text: &str) -> &str
    ensures { IsTrimmed (chars text.now) (chars result.now) }
{
    without_end(without_start(text))
}

/// Returns the text from an index on, or at most so many characters of that (section 5.1.1.5.7).
///
/// An index or a number below zero counts as zero. After the end of the text there is nothing.
pub fn substring(text: &str, start: i64, most: Option<i64>) -> &str
    ensures { MatchOption most (chars result.now ≡ rest_from start (chars text.now))
        (λ most. chars result.now ≡ part_from start most (chars text.now)) }
{
    let rest = &text[offset_of(text, from_zero(start))..];
    match most {
        Some(most) => &rest[..offset_of(rest, from_zero(most))],
        None => rest,
    }
}

pub(crate) fn from_zero(n: i64) -> usize
    ensures { result ≡ from_zero n }
{
    if n < 0 { 0 } else { n as usize }
}

/// The byte after the first characters of the text.
pub(crate) fn offset_of(text: &str, count: usize) -> usize
    ensures { IsOffset text.now count result }
{
    // No text has more characters than bytes, and each of ASCII is a byte.
    if text.len() <= count {
        return text.len();
    }
    if text.as_bytes()[..count].is_ascii() {
        return count;
    }
    text.len() - rest_behind(text, count).len()
}

/// What stands after the first characters of the text.
fn rest_behind(text: &str, count: usize) -> &str
    ensures { IsRemaining text.now result.now count }
{
    let mut rest = text.chars();
    for _ in 0..count {
        if rest.next().is_none() {
            return "";
        }
    }
    rest.as_str()
}
