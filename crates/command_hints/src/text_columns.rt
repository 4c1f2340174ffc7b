//! How much of a text fits into columns of a terminal.
use unicode_width::UnicodeWidthChar;

/// The columns of a character. One that is not printed stands for a space.
pub fn columns_of(character: char) -> usize {
    character.width().unwrap_or(1)
}

/// How many bytes of a text fit into that many columns, from its beginning on.
pub fn front_bytes(text: &str, columns: usize) -> usize {
    let mut taken = 0usize;
    for (offset, character) in text.char_indices() {
        taken = taken.saturating_add(columns_of(character));
        if columns < taken {
            return offset;
        }
    }
    text.len()
}

/// At which byte of a text its end begins that fits into that many columns.
pub fn back_offset(text: &str, columns: usize) -> usize {
    let mut taken = 0usize;
    let mut begin = text.len();
    for (offset, character) in text.char_indices().rev() {
        taken = taken.saturating_add(columns_of(character));
        if columns < taken {
            return begin;
        }
        begin = offset;
    }
    begin
}
