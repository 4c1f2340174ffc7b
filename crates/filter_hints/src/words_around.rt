//! Words, parentheses and quotes around a place in a filter's text.
use odata_text::Span;

fn is_word_byte(byte: &u8) -> bool {
    byte.is_ascii_alphanumeric() || *byte == b'_' || *byte == b'/'
}

/// The span of the last word or path of a text, without the space after it. It may be empty.
pub fn last_word(text: &str) -> Span {
    let stop = text.trim_end().len();
    let bytes = text.as_bytes().get(..stop).unwrap_or(&[]);
    let others = bytes.iter().rposition(|byte| !is_word_byte(byte));
    Span {
        start: others.map_or(0, |index| index.saturating_add(1)),
        stop,
    }
}

/// The offset of the last `(` that no `)` closes, texts apart.
pub fn open_parenthesis(text: &str) -> Option<usize> {
    let mut closed = 0usize;
    let mut quoted = false;
    for (offset, byte) in text.bytes().enumerate().rev() {
        if byte == b'\'' {
            quoted = !quoted;
        } else if !quoted && byte == b')' {
            closed = closed.saturating_add(1);
        } else if !quoted && byte == b'(' {
            match closed.checked_sub(1) {
                Some(fewer) => closed = fewer,
                None => return Some(offset),
            }
        }
    }
    None
}

/// How many bytes the first literal or word of a text has, after the space before it: where it ends.
pub fn first_operand_end(text: &str) -> usize {
    let lead = text.len().saturating_sub(text.trim_start().len());
    let operand = text.trim_start().as_bytes();
    let size = match operand.first() {
        Some(b'\'') => quoted_size(operand),
        _ => operand
            .iter()
            .position(|byte| !is_word_byte(byte))
            .unwrap_or(operand.len()),
    };
    lead.saturating_add(size)
}

/// How many bytes a text literal has, at whose beginning these stand.
fn quoted_size(bytes: &[u8]) -> usize {
    match bytes.iter().skip(1).position(|byte| *byte == b'\'') {
        Some(inner) => inner.saturating_add(2),
        None => bytes.len(),
    }
}
