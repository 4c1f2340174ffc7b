//! The end of a document.
ghost use Rattle.std.specs.Prelude.{◌≡◌, ◌<◌, ◌≤◌, [], length, take, IfOk, OnErr};
ghost use Rattle.collection_reader.specs.private.EnvelopeTest.{is_envelope};
ghost use Rattle.collection_reader.specs.private.ItemText.{is_collection, scanned, text_left};

use crate::document::Document;
use crate::envelope::is_envelope;
use crate::item_scan::{NO_TEXT, Phase};
use std::alloc::{AllocError, Global};

/// Whether nothing need be put at the end of a document.
fn is_collection(alloc: Global, document: &Document) -> Result<bool, AllocError>
    ensures { IfOk result (λ is. is ≡ is_collection (scanned document.now)) }
{
    match document.scan.phase {
        Phase::Over => Ok(true),
        Phase::Back => is_envelope(alloc, document.front.as_slice(), document.back.as_slice()),
        _ => Ok(false),
    }
}

/// Puts what ends the lines at the end of a document; how many bytes that are.
pub(crate) fn put_end(
    alloc: Global,
    document: &mut Document,
    bytes: &mut [u8],
) -> Result<usize, AllocError>
    requires some { 0 < length bytes.old }
    ensures len { length bytes.new ≡ length bytes.old }
    ensures few { IfOk result (λ count. count ≤ 1) }
    ensures put { IfOk result (λ count. take count bytes.new ≡ text_left (scanned document.old) []) }
    ensures over { IfOk result (λ count. text_left (scanned document.new) [] ≡ []) }
    ensures same { OnErr result (scanned document.new ≡ scanned document.old) }
{
    let is_over = is_collection(alloc, document)?;
    if is_over {
        return Ok(0);
    }
    document.scan.phase = Phase::Over;
    bytes[0] = NO_TEXT;
    Ok(1)
}
