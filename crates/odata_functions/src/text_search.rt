//! Parts of texts: whether they are there, and where.
ghost use Rattle.std.specs.Prelude.{◌≡◌, ◌↔◌, ℤ, pos, length, IsTrue, MatchOption};
ghost use Rattle.std.specs.Str.{chars};
ghost use Rattle.odata_functions.specs.Texts.{CountComes, HasEnd, HasPart, HasStart, IsPlaceOf};
ghost use Rattle.odata_functions.specs.private.Cuts.{IsFoundAt};

use crate::ArithFault;

/// Returns whether the part stands in the text (section 5.1.1.5.2).
pub fn contains(text: &str, part: &str) -> bool
    ensures { IsTrue result ↔ HasPart (chars text.now) (chars part.now) }
{
    found_at(text, part).is_some()
}

/// Returns whether the text begins with the part (section 5.1.1.5.6).
pub fn starts_with(text: &str, part: &str) -> bool
    ensures { IsTrue result ↔ HasStart (chars text.now) (chars part.now) }
{
    text.starts_with(part)
}

/// Returns whether the text ends with the part (section 5.1.1.5.3).
pub fn ends_with(text: &str, part: &str) -> bool
    ensures { IsTrue result ↔ HasEnd (chars text.now) (chars part.now) }
{
    text.ends_with(part)
}

/// Returns how many characters stand before the part's first occurrence, or -1 (section 5.1.1.5.4).
pub fn index_of(text: &str, part: &str) -> Result<i64, ArithFault>
    ensures { (n : ℤ) × IsPlaceOf (chars text.now) (chars part.now) n × CountComes n result }
{
    match found_at(text, part) {
        Some(place) => as_int32(count_of(&text[..place])),
        None => Ok(-1),
    }
}

/// Returns how many characters the text has (section 5.1.1.5.5).
pub fn text_length(text: &str) -> Result<i64, ArithFault>
    ensures { CountComes (pos (length (chars text.now))) result }
{
    as_int32(count_of(text))
}

/// The byte at which the part is found first.
fn found_at(text: &str, part: &str) -> Option<usize>
    ensures { MatchOption result (¬ HasPart (chars text.now) (chars part.now)) (IsFoundAt text.now part.now) }
{
    text.find(part)
}

/// How many characters a text has. Those of ASCII are as many as its bytes.
#[tactic(auto, using(std::proofs::lemmas::Str::chars_from_encodes))]
fn count_of(text: &str) -> usize
    ensures { result ≡ length (chars text.now) }
{
    if text.is_ascii() {
        text.len()
    } else {
        text.chars().count()
    }
}

/// A count as a number of `Edm.Int32`.
fn as_int32(count: usize) -> Result<i64, ArithFault>
    ensures { CountComes (pos count) result }
{
    match i32::try_from(count) {
        Ok(n) => Ok(n as i64),
        Err(_) => Err(ArithFault::Overflow),
    }
}
