//! A literal after the name of its type, as in `datetime'2020-01-01T00:00:00'`.
use crate::edit::{Edit, part};
use crate::filter_of::FilterOf;
use crate::hint::Hint;
use crate::trial::mends;
use crate::words_around::last_word;
use odata_text::Span;
use std::alloc::{AllocError, Global};

/// What such a literal may be meant by: what stands between its quotes, that in UTC, or the text in its quotes.
fn meanings(alloc: Global, quoted: &str) -> Result<[String; 3], AllocError> {
    let value = quoted.trim_matches('\'');
    Ok([
        String::from_str(alloc, value)?,
        format!(in alloc; "{value}Z")?,
        String::from_str(alloc, quoted)?,
    ])
}

/// The span of a name of a type and of the text in quotes directly after it.
fn typed_span(before: &str, quoted: Span) -> Option<Span> {
    let word = last_word(before);
    if word.start < word.stop && word.stop == quoted.start {
        Some(Span {
            start: word.start,
            stop: quoted.stop,
        })
    } else {
        None
    }
}

/// What to write for a text in quotes directly after a name, if that mends the filter.
pub fn typed_literal(
    alloc: Global,
    filter: &FilterOf<'_>,
    before: &str,
) -> Result<Option<Hint>, AllocError> {
    let quoted = filter.report.span;
    let Some(span) = typed_span(before, quoted) else {
        return Ok(None);
    };
    for text in meanings(alloc, part(filter.report.text, quoted))? {
        let edit = Edit { span, text };
        if mends(alloc, filter, &edit)? {
            let words = format!(in alloc; "Write {}.", edit.text.as_str())?;
            return Ok(Some(Hint::with_edit(alloc, words, edit)?));
        }
    }
    Ok(None)
}
