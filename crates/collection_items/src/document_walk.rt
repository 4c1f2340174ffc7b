//! A walk over a document, around the items of its member `value`.
ghost use Rattle.std.specs.Prelude.{◌≡◌, ◌≢◌, ◌≤◌, ℕ, List, [], codes, false, length, IfSome, IsTrue};
ghost use Rattle.json.specs.Lex.{fresh, after_value};
ghost use Rattle.serde_json.specs.Data.{Data};
ghost use Rattle.json_room.specs.Lexemes.{tokens_at};
ghost use Rattle.json_room.specs.private.ItemTokens.{ReadsMembers};
ghost use Rattle.json_room.specs.private.ValuesStand.{MembersRead};
ghost use Rattle.collection_items.specs.JudgedItems.{AreJudged, HasValue, IsArrayIn};
ghost use Rattle.collection_items.specs.private.DocumentWalk.{EndsItem, EndsPair, FindsArray, JudgesArray, NamesMember};

use crate::item_judge::JudgesItems;
use json_room::{DecodeBuffer, RoomyLine, any_text_at, any_value_end, past_blanks};
use std::alloc::Global;

/// How deep the value of a document's member may nest.
pub(crate) const DEPTH: usize = 126;

/// A member's name, and the offset of its value.
#[derive(Clone, Copy, Drop)]
pub(crate) struct MemberName {
    pub(crate) is_value: bool,
    pub(crate) place: usize,
}

/// What stands after an item or a member, and the offset of what comes next.
#[derive(Clone, Copy, Drop)]
pub(crate) enum After {
    Comma(usize),
    Close(usize),
}

/// Whether each item of the array that is the member `value` of a JSON object is kept, in their order.
///
/// `None` says nothing of the document.
pub fn judged_items<J: JudgesItems>(
    alloc: Global,
    judge: &mut J,
    document: &RoomyLine<'_>,
) -> Option<Vec<bool>>
    ensures { IfSome result (λ flags. (items : List Data) × IsArrayIn document.now items
        × AreJudged (J.says judge.old) items flags.items) }
{
    let root = past_blanks(document, 0);
    if document.byte(root) != b'{' {
        return None;
    }
    let mut buffer = DecodeBuffer::new(alloc);
    let Some(bracket) = array_after(document, root + 1, &mut buffer) else {
        return None;
    };
    let mut flags = Vec::new(alloc);
    let Some(end) = judge_items(judge, document, bracket + 1, &mut flags) else {
        return None;
    };
    let Some(last) = object_end(document, end, &mut buffer) else {
        return None;
    };
    if past_blanks(document, last) == document.text().len() {
        Some(flags)
    } else {
        None
    }
}

/// The offset of the array that is the first member of the name `value`.
pub(crate) fn array_after(
    document: &RoomyLine<'_>,
    from: usize,
    buffer: &mut DecodeBuffer,
) -> Option<usize>
    requires { from ≤ length document.now }
    ensures { IfSome result (FindsArray document.now from) }
{
    let mut place = past_blanks(document, from);
    'members: loop {
        let Some(name) = member_name(document, place, buffer) else {
            return None;
        };
        if name.is_value {
            return if document.byte(name.place) == b'[' {
                Some(name.place)
            } else {
                None
            };
        }
        let Some(end) = any_value_end(document, name.place, DEPTH, buffer) else {
            return None;
        };
        match after_member(document, end) {
            Some(After::Comma(next)) => place = next,
            Some(After::Close(_)) => return None,
            None => return None,
        }
    }
}

/// The name of the member that stands there.
pub(crate) fn member_name(
    document: &RoomyLine<'_>,
    place: usize,
    buffer: &mut DecodeBuffer,
) -> Option<MemberName>
    requires { place ≤ length document.now }
    ensures { IfSome result (NamesMember document.now place) }
{
    let Some((name, end)) = any_text_at(document, place, buffer) else {
        return None;
    };
    let colon = past_blanks(document, end);
    if document.byte(colon) != b':' {
        return None;
    }
    let value = past_blanks(document, colon + 1);
    Some(MemberName {
        is_value: names_value(name),
        place: value,
    })
}

/// Whether that is the name of a collection's array.
fn names_value(name: &str) -> bool
    ensures is { IsTrue result → name.now ≡ codes "value" }
    ensures is_not { result ≡ false → name.now ≢ codes "value" }
{
    name == "value"
}

/// Judges the items of an array, after its bracket; the offset after the closing one.
fn judge_items<J: JudgesItems>(
    judge: &mut J,
    document: &RoomyLine<'_>,
    from: usize,
    flags: &mut Vec<bool>,
) -> Option<usize>
    requires within { from ≤ length document.now }
    requires none { flags.old.items ≡ [] }
    ensures { IfSome result (JudgesArray (J.says judge.old) document.now from flags.new.items) }
{
    let mut place = past_blanks(document, from);
    if document.byte(place) == b']' {
        return Some(place + 1);
    }
    'items: loop {
        let Some((is_kept, end)) = judge.item(document, place) else {
            return None;
        };
        if flags.push(is_kept).is_err() {
            return None;
        }
        match after_item(document, end) {
            Some(After::Comma(next)) => place = next,
            Some(After::Close(next)) => return Some(next),
            None => return None,
        }
    }
}

/// The comma or the bracket after an item that ends there.
pub(crate) fn after_item(document: &RoomyLine<'_>, end: usize) -> Option<After>
    requires { end ≤ length document.now }
    ensures { IfSome result (EndsItem document.now end) }
{
    let place = past_blanks(document, end);
    match document.byte(place) {
        b',' => Some(After::Comma(past_blanks(document, place + 1))),
        b']' => Some(After::Close(place + 1)),
        _ => None,
    }
}

/// The comma or the brace after a member that ends there.
pub(crate) fn after_member(document: &RoomyLine<'_>, end: usize) -> Option<After>
    requires { end ≤ length document.now }
    ensures { IfSome result (EndsPair document.now end) }
{
    let place = past_blanks(document, end);
    match document.byte(place) {
        b',' => Some(After::Comma(past_blanks(document, place + 1))),
        b'}' => Some(After::Close(place + 1)),
        _ => None,
    }
}

/// The offset after an object, of which a member ends there and none that follows has the name `value`.
pub(crate) fn object_end(
    document: &RoomyLine<'_>,
    from: usize,
    buffer: &mut DecodeBuffer,
) -> Option<usize>
    requires { from ≤ length document.now }
    ensures { (begin : ℕ) (json : Data) → MembersRead 126 document.now begin from (HasValue json)
        → IfSome result (λ to. (to ≤ length document.now) × ReadsMembers 126 (tokens_at fresh document.now begin)
        (tokens_at after_value document.now to) (HasValue json)) }
{
    let mut end = from;
    'members: loop {
        let place = match after_member(document, end) {
            Some(After::Comma(next)) => next,
            Some(After::Close(next)) => return Some(next),
            None => return None,
        };
        let Some(other) = member_name(document, place, buffer) else {
            return None;
        };
        if other.is_value {
            return None;
        }
        match any_value_end(document, other.place, DEPTH, buffer) {
            Some(next) => end = next,
            None => return None,
        }
    }
}
