//! Where a document that is no JSON ceases to be it.
use serde_json::Value;
use std::alloc::Global;

/// What is known of a document that is no JSON.
#[derive(Clone, Copy)]
pub enum JsonPlace {
    /// It begins as XML does.
    Xml,
    /// The first byte that no JSON has there, in that line and column, from 1.
    At { line: u64, column: u64 },
    None,
}

/// Whether a document begins with `<`, after a byte order mark and space.
fn begins_as_xml(document: &[u8]) -> bool {
    let text = document.strip_prefix(b"\xef\xbb\xbf").unwrap_or(document);
    match text.iter().find(|byte| !byte.is_ascii_whitespace()) {
        Some(byte) => *byte == b'<',
        None => false,
    }
}

/// Where JSON ends in a document that is none.
pub fn json_place(alloc: Global, document: &[u8]) -> JsonPlace {
    if begins_as_xml(document) {
        return JsonPlace::Xml;
    }
    match Value::from_slice(alloc, document) {
        Err(error) if !error.is_memory() => JsonPlace::At {
            line: error.line() as u64,
            column: error.column() as u64,
        },
        _ => JsonPlace::None,
    }
}
