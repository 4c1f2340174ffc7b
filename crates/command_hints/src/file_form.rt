//! What the bytes of a file show that is not in JSON.

/// What to say of a file that is compressed, in UTF-16, or no text; `None` of another.
pub fn form_advice(bytes: &[u8]) -> Option<&'static str> {
    if bytes.starts_with(b"\x1f\x8b") {
        Some("The file is compressed: gzip -dc reads it.")
    } else if bytes.starts_with(b"\xff\xfe") || bytes.starts_with(b"\xfe\xff") {
        Some("The file is in UTF-16: iconv -f UTF-16 -t UTF-8 reads it.")
    } else if bytes.contains(&0) {
        Some("The file is no text.")
    } else {
        None
    }
}
