//! The items of a collection, read and judged where they stand.
ghost use Rattle.std.specs.Prelude.{◌≡◌, ◌≤◌, ◌+◌, List, length, get_or, take, IfSome, IsUtf8, Some};
ghost use Rattle.serde_json.specs.Data.{Data};
ghost use Rattle.edm_rows.specs.RowsOfType.{IsSameReader};
ghost use Rattle.collection_items.specs.JudgedItems.{AreJudged, IsArrayIn};
ghost use Rattle.row_judges.specs.RowAnswer.{judgment_reported};
ghost use Rattle.row_judges.specs.RowJudgment.{JudgesValue, judgment_where};
ghost use Rattle.row_judges.specs.private.ValueAnswer.{answer_reported};

use crate::row_judge::RowJudge;
use crate::rows_in_place::{type_rows_of, whole_tests};
use collection_items::{JudgesItems, judged_items};
use edm_rows::{ItemReading, TypeRows};
use edm_values::Moment;
use json_room::{DecodeBuffer, RoomyLine, any_value_end, copy_with_room, front_text, has_room};
use odata_eval::{EvalFault, SlotSieve, Verdict};
use odata_typing::Checked;
use std::alloc::Global;
use std::marker::Model;

/// How deep an item of a collection may nest.
const ITEM_DEPTH: usize = 125;

/// Judges the items of a collection where they stand.
#[derive(Drop)]
pub(crate) struct ItemRows<'c, 's> {
    rows: RowJudge<'c, 's>,
    type_rows: TypeRows<'s>,
    /// Tests that are the whole filter; none where it has other terms.
    tests: Vec<SlotSieve>,
    buffer: DecodeBuffer,
}

impl<'c, 's> Model for ItemRows<'c, 's> {
    ghost use Rattle.odata_checked_filter.specs.contracts.checked_node.CheckedNode as checked_node;
    ghost use Rattle.edm_values.specs.contracts.value.Value as value;
    ghost use Rattle.std.specs.Coded.{codes};
    ghost use Rattle.row_judges.specs.RowLineJudge.{FilterNow};

    ghost Value = { FilterNow };

    ghost coded = { Prim.hlevel (codes, checked_node.the_row.coded, value.the_row.coded) };

    ghost view = { λ j. record { filter = j.rows.checked.now; moment = j.rows.moment.now } };

    ghost use Rattle.odata_eval.specs.TrueWhere.{AreWhole};
    ghost use Rattle.row_judges.specs.private.RowsInPlace.{AreRowsOf};

    ghost invariant = { λ j. AreRowsOf j.rows.checked.now j.type_rows × AreWhole j.rows.checked.now j.tests.items };
}

impl JudgesItems for ItemRows<'_, '_> {
    ghost says = { λ judge json kept. JudgesValue judge.filter judge.moment json (judgment_where kept) };

    fn item(&mut self, document: &RoomyLine<'_>, place: usize) -> Option<(bool, usize)> {
        begin_at(&mut self.type_rows, &mut self.buffer, document, place);
        match self
            .type_rows
            .read_item(document.text(), document.bytes(), place)
        {
            ItemReading::Row(end) => {
                let answer = self
                    .rows
                    .answer_held(self.tests.as_slice(), &self.type_rows);
                match kept_by(answer) {
                    Some(is_kept) => Some((is_kept, end)),
                    None => None,
                }
            }
            ItemReading::LeftOut(end) => {
                self.rows.leaves_out(&self.type_rows);
                Some((false, end))
            }
            ItemReading::Unread => None,
        }
    }
}

/// Whether a row with that answer is kept, where the filter has a value on it.
fn kept_by(answer: Result<Verdict, EvalFault>) -> Option<bool>
    ensures { IfSome result (λ kept. judgment_reported (answer_reported answer) ≡ Some (judgment_where kept)) }
{
    match answer {
        Ok(verdict) => match verdict {
            Verdict::True => Some(true),
            Verdict::False | Verdict::Null => Some(false),
        },
        Err(_) => None,
    }
}

/// Has the rows' reader fill the row of the item that begins at an offset from here on, if it has none yet.
fn begin_at(
    rows: &mut TypeRows<'_>,
    buffer: &mut DecodeBuffer,
    document: &RoomyLine<'_>,
    place: usize,
)
    requires { place ≤ length document.now }
    ensures { IsSameReader rows.old rows.new }
{
    if rows.has_row() {
        return;
    }
    match any_value_end(document, place, ITEM_DEPTH, buffer) {
        Some(end) => rows.begin(&document.bytes()[place..end]),
        None => {}
    }
}

/// Whether the filter keeps each item of a collection, by item in their order. The document is a JSON object whose
/// member `value` is an array of them. `None` says nothing of the document or its items.
pub fn verdicts_in_place(
    alloc: Global,
    checked: &Checked<'_>,
    now: &Moment,
    document: &[u8],
) -> Option<Vec<bool>>
    ensures utf8 { IfSome result (λ kept. IsUtf8 document.now) }
    ensures judged { IfSome result (λ kept. (items : List Data) × IsArrayIn document.now items
        × AreJudged (λ json is_kept. JudgesValue checked.now now.now json (judgment_where is_kept)) items kept.items) }
{
    let mut room = Vec::new(alloc);
    if !copy_with_room(document, &mut room) {
        return None;
    }
    let bytes = room.as_slice();
    if !has_room(bytes, document.len()) {
        return None;
    }
    match front_text(bytes, document.len(), false) {
        Some(text) => text_verdicts(alloc, checked, now, text, bytes),
        None => None,
    }
}

/// The same of the document that is this text, at the front of the bytes.
fn text_verdicts<'t>(
    alloc: Global,
    checked: &Checked<'_>,
    now: &Moment,
    text: &'t str,
    bytes: &'t [u8],
) -> Option<Vec<bool>>
    requires front { take (length text.now) bytes.now ≡ text.now }
    requires line_feed { get_or bytes.now (length text.now) 0 ≡ 10 }
    requires room { length text.now + 64 ≤ length bytes.now }
    ensures utf8 { IfSome result (λ kept. IsUtf8 text.now) }
    ensures judged { IfSome result (λ kept. (items : List Data) × IsArrayIn text.now items
        × AreJudged (λ json is_kept. JudgesValue checked.now now.now json (judgment_where is_kept)) items kept.items) }
{
    let mut judge = ItemRows {
        rows: RowJudge {
            alloc,
            checked,
            moment: now,
        },
        type_rows: type_rows_of(alloc, checked),
        tests: whole_tests(alloc, checked),
        buffer: DecodeBuffer::new(alloc),
    };
    judged_items(alloc, &mut judge, &RoomyLine::new(text, bytes))
}
