//! Texts that are written over where they stand.
ghost use Rattle.std.specs.Prelude.{IsTrue};
ghost use Rattle.std.specs.Str.{IsUtf8};
ghost use Rattle.spare_values.specs.StoredTexts.{HoldsText};

use edm_values::Value;
use std::alloc::Global;

/// A text that is written over, or stored, has room for so many bytes at most.
pub(crate) const TEXT_ROOM: usize = 4096;

/// Whether it is a text that may be written over. One that has more room than most texts want is let go.
/// It has no clause: no answer depends on it.
#[inline(always)]
pub fn is_filled_again(value: &Value) -> bool {
    match value {
        Value::Text(text) => text.capacity() <= TEXT_ROOM,
        _ => false,
    }
}

/// Writes a text over another; false where no text stood there, or an allocation failed.
/// Its clauses say nothing of false: the text may be gone.
#[inline(always)]
pub fn overwrite_text(text: &str, value: &mut Value) -> bool
    ensures { IsTrue result → HoldsText value.new text.now }
{
    match value {
        Value::Text(old) => {
            old.clear();
            old.push_str(text).is_ok()
        }
        _ => false,
    }
}

/// Puts a copy of a text where any value stands.
#[inline(never)]
fn replace_text(alloc: Global, text: &str, value: &mut Value) -> bool
    ensures { IsTrue result → HoldsText value.new text.now }
{
    match String::from_str(alloc, text) {
        Ok(copy) => {
            *value = Value::Text(copy);
            true
        }
        Err(_) => false,
    }
}

/// Puts a text where any value stands; false where an allocation failed.
/// Its clauses say nothing of false: the value may be gone.
#[inline(always)]
pub fn write_text(alloc: Global, text: &str, value: &mut Value) -> bool
    ensures utf8 { IsUtf8 text.now }
    ensures put { IsTrue result → HoldsText value.new text.now }
{
    if is_filled_again(value) {
        return overwrite_text(text, value);
    }
    replace_text(alloc, text, value)
}
