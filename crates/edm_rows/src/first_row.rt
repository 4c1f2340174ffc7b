//! The line that the first row of a reader is filled with.

/// Copies a line without the items of its arrays; false where an allocation failed. If the line is JSON, the copy is.
pub(crate) fn copy_without_items(line: &[u8], copy: &mut Vec<u8>) -> bool {
    let mut depth = 0usize;
    let mut is_in_text = false;
    let mut is_escaped = false;
    for place in 0..line.len() {
        let byte = line[place];
        if byte == b']' && !is_in_text {
            depth = depth.saturating_sub(1);
        }
        if depth == 0 && copy.push(byte).is_err() {
            return false;
        }
        if byte == b'[' && !is_in_text {
            depth = depth.saturating_add(1);
        }
        if byte == b'"' && !is_escaped {
            is_in_text = !is_in_text;
        }
        is_escaped = byte == b'\\' && !is_escaped;
    }
    true
}
