//! What stands around the items of a document.
ghost use Rattle.std.specs.Prelude.{◌≡◌, IfOk, option_map};
ghost use Rattle.serde_json.specs.View.{items_view, view};
ghost use Rattle.collection_items.specs.JudgedItems.{array_of};
ghost use Rattle.collection_reader.specs.private.EnvelopeTest.{array_in, has_array, is_envelope, is_only_null};

use serde_json::Value;
use std::alloc::{AllocError, Global};

/// The text `null`.
const NULL: &[u8] = b"null";

/// The array that is the member `value` of a JSON object.
fn array_of(json: &Value) -> Option<&Vec<Value>>
    ensures { option_map (λ items. items_view items.now.items) result ≡ array_of (view json.now) }
{
    json.get("value").and_then(Value::as_array)
}

/// Whether items are the one `null`.
fn is_only_null(items: &[Value]) -> bool
    ensures { result ≡ is_only_null (Some (items_view items.now)) }
{
    if items.len() != 1 {
        return false;
    }
    items[0].is_null()
}

/// Whether there are no items, or the one `null`.
fn are_items(items: &[Value], has_null: bool) -> bool
    ensures { result ≡ has_array (Some (items_view items.now)) has_null }
{
    if has_null {
        return is_only_null(items);
    }
    items.is_empty()
}

/// Whether the array that is the member `value` of a JSON object is empty, or has the one item `null`.
fn json_has_array(json: &Value, has_null: bool) -> bool
    ensures { result ≡ has_array (array_of (view json.now)) has_null }
{
    match array_of(json) {
        Some(items) => are_items(items, has_null),
        None => false,
    }
}

/// The same of a text of JSON.
fn has_array(alloc: Global, text: &[u8], has_null: bool) -> Result<bool, AllocError>
    ensures { IfOk result (λ has. has ≡ has_array (array_in text.now) has_null) }
{
    match Value::from_slice(alloc, text) {
        Ok(json) => Ok(json_has_array(&json, has_null)),
        Err(error) => if error.is_memory() {
            Err(AllocError)
        } else {
            Ok(false)
        },
    }
}

/// Whether a text before the items and one after them are a collection of no items, and of the item `null` where that
/// stands between them.
pub(crate) fn is_envelope(alloc: Global, front: &[u8], back: &[u8]) -> Result<bool, AllocError>
    ensures { IfOk result (λ is. is ≡ is_envelope front.now back.now) }
{
    let mut text = Vec::new(alloc);
    text.extend_from_slice(front)?;
    text.extend_from_slice(back)?;
    if !has_array(alloc, text.as_slice(), false)? {
        return Ok(false);
    }
    text.truncate(front.len());
    text.extend_from_slice(NULL)?;
    text.extend_from_slice(back)?;
    has_array(alloc, text.as_slice(), true)
}
