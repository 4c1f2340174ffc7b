//! What follows an entity at fault in a document.
use line_filter::LineReader;
use serde_json::Value;
use std::alloc::Global;
use std::io::Read;

/// How the lines end that follow one at fault.
#[derive(Clone, Copy, Debug, PartialEq, Eq)]
pub(crate) enum PageEnd {
    /// Each of them is JSON, as far as they were read.
    Json,
    /// One of them is no JSON, so the document is no collection.
    NoJson,
    /// An allocation failed.
    Memory,
}

/// Reads the lines that are left, up to one that is no JSON. Nothing is judged. A line that is too long ends them, and
/// so does a read that fails.
pub(crate) fn page_end<R: Read>(alloc: Global, lines: &mut LineReader<R>) -> PageEnd {
    for _ in 0..u64::MAX {
        let line = match lines.next_line() {
            Ok(Some(line)) => line,
            Ok(None) => return PageEnd::Json,
            Err(_) => return PageEnd::Json,
        };
        match Value::from_slice(alloc, line) {
            Ok(_) => {}
            Err(error) => {
                return if error.is_memory() {
                    PageEnd::Memory
                } else {
                    PageEnd::NoJson
                };
            }
        }
    }
    PageEnd::Json
}
