//! A text with carets under a part of it.
use crate::text_columns::{back_offset, columns_of, front_bytes};
use odata_text::Span;
use std::alloc::{AllocError, Global};

/// At most so many columns of what stands before the part, of the part, and of what follows are shown.
const SHOWN_COLUMNS: usize = 36;

/// Two lines that are put together side by side: a text, and what stands below it.
#[derive(Drop)]
struct Lines {
    text: String,
    below: String,
}

/// Puts a text on, with a mark below each of its columns.
fn put(lines: &mut Lines, text: &str, mark: char) -> Result<(), AllocError> {
    for character in text.chars() {
        lines.text.push(if character.is_control() {
            ' '
        } else {
            character
        })?;
        for _ in 0..columns_of(character) {
            lines.below.push(mark)?;
        }
    }
    Ok(())
}

/// Puts the end of a text on that is shown before the part.
fn put_before(lines: &mut Lines, text: &str) -> Result<(), AllocError> {
    let offset = back_offset(text, SHOWN_COLUMNS);
    if 0 < offset {
        put(lines, "...", ' ')?;
    }
    put(lines, text.get(offset..).unwrap_or(""), ' ')
}

/// Puts the beginning of a text on, with a mark below each column.
fn put_front(lines: &mut Lines, text: &str, mark: char) -> Result<(), AllocError> {
    let size = front_bytes(text, SHOWN_COLUMNS);
    put(lines, text.get(..size).unwrap_or(""), mark)?;
    if size < text.len() {
        put(lines, "...", mark)
    } else {
        Ok(())
    }
}

/// The text, cut around the part if it is long, and below it carets under that part; one where the part is empty.
pub fn marked_text(alloc: Global, text: &str, span: Span) -> Result<String, AllocError> {
    let mut lines = Lines {
        text: String::new(alloc),
        below: String::new(alloc),
    };
    put_before(&mut lines, text.get(..span.start).unwrap_or(""))?;
    let part = text.get(span.start..span.stop).unwrap_or("");
    put_front(&mut lines, part, '^')?;
    if part.is_empty() {
        lines.below.push('^')?;
    }
    put_front(&mut lines, text.get(span.stop..).unwrap_or(""), ' ')?;
    Ok(format!(in alloc; "  {}\n  {}", lines.text.as_str(), lines.below.trim_end())?)
}
