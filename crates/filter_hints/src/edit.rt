//! An edit of a filter's text.
use odata_text::Span;
use std::alloc::{AllocError, Global};

/// A part of a filter's text, and what to write instead.
#[derive(Drop)]
pub struct Edit {
    pub span: Span,
    pub text: String,
}

/// The filter once the edit is made; `None` if the part is none of its text.
pub fn edited(alloc: Global, filter: &str, edit: &Edit) -> Result<Option<String>, AllocError> {
    let (Some(before), Some(after)) = (filter.get(..edit.span.start), filter.get(edit.span.stop..))
    else {
        return Ok(None);
    };
    Ok(Some(format!(in alloc; "{before}{}{after}", edit.text.as_str())?))
}

/// The bytes of a text that a span takes; none if no characters begin and end there.
pub fn part(text: &str, span: Span) -> &str {
    text.get(span.start..span.stop).unwrap_or("")
}
