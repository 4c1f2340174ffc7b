//! The items of a collection, each as a line.
ghost use Rattle.std.specs.Prelude.{◌≡◌, ◌++◌, ◌∷◌, ◌+◌, ◌||◌, ◌==◌, ◌≤◌, ℕ, List, [], if◌then◌else◌, get_or, length, map, take};
ghost use Rattle.std.specs.Prelude.{IfOk, IfSome, MatchOption, OnOk, option_map, true};
ghost use Rattle.serde_json.specs.View.{items_view, view};
ghost use Rattle.collection_items.specs.ItemLines.{HasItemLines, in_line};
ghost use Rattle.collection_items.specs.JudgedItems.{IsNoArrayIn, array_of};
ghost use Rattle.collection_items.specs.private.DocumentWalk.{PassesValue, PutsArray, PutsMembers, PutsValue};

use crate::document_walk::{After, DEPTH, MemberName, after_item, after_member, member_name};
use json_room::{
    DecodeBuffer, RoomyLine, any_value_end, copy_with_room, front_text, has_room, past_blanks,
};
use serde_json::Value;
use std::alloc::{AllocError, Global};

/// How deep an item may nest.
const ITEM_DEPTH: usize = 125;

/// A byte in a line.
fn in_line(byte: u8) -> u8
    ensures { result ≡ in_line byte }
{
    if byte == b'\n' || byte == b'\r' {
        b' '
    } else {
        byte
    }
}

/// Puts an item as a line.
fn put_line(item: &[u8], lines: &mut Vec<u8>) -> Result<(), AllocError>
    ensures { OnOk result (lines.new.items ≡ lines.old.items ++ map in_line item.now ++ 10 ∷ []) }
{
    for byte in item {
        lines.push(in_line(*byte))?;
    }
    lines.push(b'\n')?;
    Ok(())
}

/// Puts the items of an array as lines, after its bracket; the offset after the closing one. `None` says nothing of
/// them.
fn put_items(
    document: &RoomyLine<'_>,
    from: usize,
    lines: &mut Vec<u8>,
    buffer: &mut DecodeBuffer,
) -> Result<Option<usize>, AllocError>
    requires within { from ≤ length document.now }
    requires none { lines.old.items ≡ [] }
    ensures { IfOk result (λ end. IfSome end (PutsArray document.now from lines.new.items)) }
{
    let mut place = past_blanks(document, from);
    if document.byte(place) == b']' {
        return Ok(Some(place + 1));
    }
    'items: loop {
        let Some(end) = any_value_end(document, place, ITEM_DEPTH, buffer) else {
            return Ok(None);
        };
        match put_line(&document.text().as_bytes()[place..end], lines) {
            Ok(()) => {}
            Err(_) => return Err(AllocError),
        }
        match after_item(document, end) {
            Some(After::Comma(next)) => place = next,
            Some(After::Close(next)) => return Ok(Some(next)),
            None => return Ok(None),
        }
    }
}

/// The offset after the value of a member, and whether there are lines of an array then.
#[derive(Clone, Copy, Drop)]
struct MemberValue {
    end: usize,
    has_array: bool,
}

/// Passes the value of a member of the name `value`. The lines of an array's items are put in place of others.
fn put_value(
    document: &RoomyLine<'_>,
    place: usize,
    lines: &mut Vec<u8>,
    buffer: &mut DecodeBuffer,
) -> Result<Option<MemberValue>, AllocError>
    requires { place ≤ length document.now }
    ensures { IfOk result (λ value. IfSome value (PutsValue document.now place lines.new.items)) }
{
    if document.byte(place) != b'[' {
        return match any_value_end(document, place, DEPTH, buffer) {
            Some(end) => Ok(Some(MemberValue {
                end,
                has_array: false,
            })),
            None => Ok(None),
        };
    }
    lines.clear();
    match put_items(document, place + 1, lines, buffer) {
        Ok(Some(end)) => Ok(Some(MemberValue {
            end,
            has_array: true,
        })),
        Ok(None) => Ok(None),
        Err(_) => Err(AllocError),
    }
}

/// Passes the value of a member, where there were lines of an array before or not.
fn pass_value(
    document: &RoomyLine<'_>,
    name: MemberName,
    had: bool,
    lines: &mut Vec<u8>,
    buffer: &mut DecodeBuffer,
) -> Result<Option<MemberValue>, AllocError>
    requires { name.place ≤ length document.now }
    ensures { IfOk result (λ value. IfSome value (PassesValue document.now name had lines.old.items lines.new.items)) }
{
    if name.is_value {
        return put_value(document, name.place, lines, buffer);
    }
    match any_value_end(document, name.place, DEPTH, buffer) {
        Some(end) => Ok(Some(MemberValue {
            end,
            has_array: had,
        })),
        None => Ok(None),
    }
}

/// Passes the members of an object, after its brace, and puts the lines of the last one of the name `value`; the offset
/// after the closing brace. `None` says nothing of them.
fn put_members(
    document: &RoomyLine<'_>,
    from: usize,
    lines: &mut Vec<u8>,
    buffer: &mut DecodeBuffer,
) -> Result<Option<usize>, AllocError>
    requires { from ≤ length document.now }
    ensures { IfOk result (λ end. IfSome end (PutsMembers document.now from lines.new.items)) }
{
    let mut place = past_blanks(document, from);
    let mut has_array = false;
    'members: loop {
        let Some(name) = member_name(document, place, buffer) else {
            return Ok(None);
        };
        let value = match pass_value(document, name, has_array, lines, buffer) {
            Ok(Some(value)) => value,
            Ok(None) => return Ok(None),
            Err(_) => return Err(AllocError),
        };
        has_array = value.has_array;
        match after_member(document, value.end) {
            Some(After::Comma(next)) => place = next,
            Some(After::Close(next)) => {
                return if has_array { Ok(Some(next)) } else { Ok(None) };
            }
            None => return Ok(None),
        }
    }
}

/// The items of a document with room after it, as lines.
fn roomy_lines(alloc: Global, document: &RoomyLine<'_>) -> Result<Option<Vec<u8>>, AllocError>
    ensures { IfOk result (λ found. IfSome found (λ lines. HasItemLines document.now lines.items)) }
{
    let root = past_blanks(document, 0);
    if document.byte(root) != b'{' {
        return Ok(None);
    }
    let mut buffer = DecodeBuffer::new(alloc);
    let mut lines = Vec::new(alloc);
    let last = match put_members(document, root + 1, &mut lines, &mut buffer) {
        Ok(Some(last)) => last,
        Ok(None) => return Ok(None),
        Err(_) => return Err(AllocError),
    };
    if past_blanks(document, last) == document.text().len() {
        Ok(Some(lines))
    } else {
        Ok(None)
    }
}

/// The same of the document that is this text, at the front of the bytes.
fn text_lines<'t>(
    alloc: Global,
    text: &'t str,
    bytes: &'t [u8],
) -> Result<Option<Vec<u8>>, AllocError>
    requires front { take (length text.now) bytes.now ≡ text.now }
    requires line_feed { get_or bytes.now (length text.now) 0 ≡ 10 }
    requires room { length text.now + 64 ≤ length bytes.now }
    ensures { IfOk result (λ found. IfSome found (λ lines. HasItemLines text.now lines.items)) }
{
    roomy_lines(alloc, &RoomyLine::new(text, bytes))
}

/// The same of a document, by a copy that has room after it. `None` says nothing of it.
fn walked_lines(alloc: Global, document: &[u8]) -> Result<Option<Vec<u8>>, AllocError>
    ensures { IfOk result (λ found. IfSome found (λ lines. HasItemLines document.now lines.items)) }
{
    let mut room = Vec::new(alloc);
    if !copy_with_room(document, &mut room) {
        return Err(AllocError);
    }
    let bytes = room.as_slice();
    if !has_room(bytes, document.len()) {
        return Ok(None);
    }
    match front_text(bytes, document.len(), false) {
        Some(text) => text_lines(alloc, text, bytes),
        None => Ok(None),
    }
}

/// The array that is the member `value` of a JSON object.
fn array_of(json: &Value) -> Option<&Vec<Value>>
    ensures { option_map (λ items. items_view items.now.items) result ≡ array_of (view json.now) }
{
    json.get("value").and_then(Value::as_array)
}

/// Whether a document has no such array, by the tree of its JSON.
fn has_no_array(alloc: Global, document: &[u8]) -> Result<bool, AllocError>
    ensures { IfOk result (λ none. none ≡ true → IsNoArrayIn document.now) }
{
    match Value::from_slice(alloc, document) {
        Ok(json) => Ok(array_of(&json).is_none()),
        Err(error) => if error.is_memory() {
            Err(AllocError)
        } else {
            Ok(true)
        },
    }
}

/// Returns the items of the array that is the member `value` of a JSON object, as lines. A line is the bytes of an item,
/// with a space for each line feed and carriage return in it, and a line feed. The last member of that name counts.
///
/// `None` is returned for a document that is no such object. An error says that an allocation failed: where the walk
/// over the document cannot report that, the tree of its JSON has the array that the walk did not pass.
pub fn item_lines(alloc: Global, document: &[u8]) -> Result<Option<Vec<u8>>, AllocError>
    ensures { IfOk result (λ found. MatchOption found (IsNoArrayIn document.now)
        (λ lines. HasItemLines document.now lines.items)) }
{
    match walked_lines(alloc, document) {
        Ok(Some(lines)) => Ok(Some(lines)),
        Ok(None) => match has_no_array(alloc, document) {
            Ok(none) => if none { Ok(None) } else { Err(AllocError) },
            Err(_) => Err(AllocError),
        },
        Err(_) => Err(AllocError),
    }
}
