//! Texts in the caller's buffer.
ghost use Rattle.std.specs.Prelude.{◌++◌, Ok, MatchBool};
ghost use Rattle.call_handles.specs.Texts.{IsTooSmall, IsWritten, Writes};

use crate::answer::Answer;
use crate::call_answers::report_fault;
use crate::call_fault::{Fault, measured};

/// Writes a text at the front of the buffer, whole or not at all, and returns whether it did.
pub fn write_text(buffer: &mut [u8], text: &[u8]) -> bool
    ensures { MatchBool result (IsWritten text.now buffer.old buffer.new) (IsTooSmall text.now buffer.old buffer.new) }
{
    if buffer.len() < text.len() {
        return false;
    }
    let (front, _) = buffer.split_at_mut(text.len());
    front.copy_from_slice(text);
    true
}

/// Writes two texts, one after the other, both or none.
pub fn write_both(buffer: &mut [u8], first: &[u8], second: &[u8]) -> bool
    ensures { MatchBool result (IsWritten (first.now ++ second.now) buffer.old buffer.new)
        (IsTooSmall (first.now ++ second.now) buffer.old buffer.new) }
{
    if buffer.len() < first.len() + second.len() {
        return false;
    }
    let (front, rest) = buffer.split_at_mut(first.len());
    front.copy_from_slice(first);
    write_text(rest, second)
}

/// Writes a text, and reports how long it is, or would be.
pub fn report_bytes(text: &[u8], buffer: &mut [u8], answer: &mut Answer) -> u32
    ensures { Writes (Ok text.now) buffer.old buffer.new answer.new result }
{
    if write_text(buffer, text) {
        *answer = measured(text.len());
        0
    } else {
        report_fault(&Fault::TooSmall { wanted: text.len() }, answer)
    }
}
