//! Spans in units of UTF-16, in which some languages count their texts.
ghost use Rattle.std.specs.Prelude.{◌≡◌, MatchOption};
ghost use Rattle.std.specs.Str.{IsCharBoundary};
ghost use Rattle.fault_json.specs.private.Utf16.{utf16_length, utf16_offset};

use odata_text::Span;

/// How many units a text has in UTF-16.
fn utf16_length(text: &str) -> usize
    ensures { result ≡ utf16_length text.now }
{
    let mut units = 0;
    for character in text.chars() {
        units += character.len_utf16();
    }
    units
}

/// The span of a text in units of UTF-16; `None` if no characters begin and end there.
pub fn utf16_span(text: &str, span: Span) -> Option<Span>
    ensures { MatchOption result (IsCharBoundary text.now span.start → ¬ IsCharBoundary text.now span.stop)
        (λ units. (units.start ≡ utf16_offset text.now span.start) × (units.stop ≡ utf16_offset text.now span.stop)) }
{
    let start = utf16_length(text.get(..span.start)?);
    let stop = utf16_length(text.get(..span.stop)?);
    Some(Span { start, stop })
}
