//! The reader of a filter's rows where they stand.
ghost use Rattle.std.specs.Prelude.{◌≡◌, ◌<◌, ◌≤◌, ℕ, List, [], length, slice_get, take, false, true, unwrap_or, All, IfSome, IsTrue};
ghost use Rattle.std.specs.Str.{IsAscii};
ghost use Rattle.edm_rows.specs.RowReading.{IsLineBut};
ghost use Rattle.edm_values.specs.declared.sieve.Sieve.{Sieve};
ghost use Rattle.edm_rows.specs.RowItems.{IsJsonBut, IsJsonLeftOut};
ghost use Rattle.edm_rows.specs.RowsOfType.{IsSameButKept, IsSameReader, names_unkept, row_held};
ghost use Rattle.line_filter.specs.Lines.{IsBlank};
ghost use Rattle.edm_rows.specs.HeldSchema.{schema_in};
ghost use Rattle.odata_eval.specs.TrueWhere.{AreWhole};
ghost use Rattle.row_judges.specs.FilterRows.{KeepsNames};
ghost use Rattle.row_judges.specs.RowAnswer.{ReportsRow};
ghost use Rattle.row_judges.specs.RowJudgment.{JudgesRow, JudgesValue};
ghost use Rattle.serde_json.specs.Data.{Data};
ghost use Rattle.row_judges.specs.private.RowsInPlace.{AreRowsOf, IsRead, IsReaderFor, IsSameButSieves, IsTestAt};
ghost use Rattle.row_judges.specs.private.ValueAnswer.{ReportsValue, answer_reported};

use crate::bad_row::BadRow;
use crate::row_judge::{RowJudge, judgment_at_once, reported};
use crate::row_verdict::plan_of;
use edm_entities::what_fits_has_its_type;
use edm_rows::{HeldSchema, Reading, TypeRows};
use json_room::{copy_with_room, has_room};
use line_filter::Judgment;
use odata_eval::{EvalFault, SlotSieve, Verdict, evaluate_with, slot_sieves};
use odata_meaning::typed_trees_end_once;
use odata_typing::Checked;
use std::alloc::Global;

/// The reader of the filter's rows. It keeps the properties that the filter names, and leaves rows out by the tests of
/// single values that the filter makes. It is made in place, as the judge is.
#[inline(always)]
pub(crate) fn type_rows_of<'s>(alloc: Global, checked: &Checked<'s>) -> TypeRows<'s>
    ensures { AreRowsOf checked.now result }
{
    // No two slots of a type have one name.
    let _ = checked.schema().slots(checked.filtered_type());
    let schema = HeldSchema::Borrowed(checked.schema());
    let mut rows = TypeRows::new(alloc, schema, plan_of(alloc, checked));
    keep_filtered(&mut rows, checked);
    sift_by_tests(&mut rows, alloc, checked);
    rows
}

/// Has a reader of the filter's rows keep the properties that the filter names, in place.
pub(crate) fn keep_filtered(rows: &mut TypeRows<'_>, checked: &Checked<'_>)
    requires { IsReaderFor checked.now rows.old }
    ensures names { KeepsNames checked.now rows.new }
    ensures sieves { rows.new.sieves ≡ rows.old.sieves }
{
    rows.keep_named("");
    keep_names(rows, checked);
}

/// Keeps the properties that the filter names.
fn keep_names(rows: &mut TypeRows<'_>, checked: &Checked<'_>)
    ensures same { IsSameButKept rows.old rows.new }
    ensures less { (name : List ℕ) → names_unkept rows.new name → names_unkept rows.old name }
    ensures kept { (place : ℕ) → place < length checked.now.list.nodes
        → ¬ names_unkept rows.new (unwrap_or (slice_get checked.now.list.texts place) []) }
{
    let nodes = checked.nodes();
    for place in 0..nodes.len() {
        rows.keep_named(checked.text(place));
    }
}

/// Has rows left out by the filter's tests of single values.
fn sift_by_tests(rows: &mut TypeRows<'_>, alloc: Global, checked: &Checked<'_>)
    requires { (slot : ℕ) → IfSome (slice_get rows.old.sieves slot) (IsTestAt checked.now slot) }
    ensures same { IsSameButSieves rows.old rows.new }
    ensures tests { (slot : ℕ) → IfSome (slice_get rows.new.sieves slot) (IsTestAt checked.now slot) }
{
    let mut tests = slot_sieves(alloc, checked).sieves;
    while let Some(test) = tests.pop() {
        rows.sift(test.slot, test.sieve);
    }
}

/// The tests of single values that are the whole filter; none where it has other terms.
pub(crate) fn whole_tests(alloc: Global, checked: &Checked<'_>) -> Vec<SlotSieve>
    ensures { AreWhole checked.now result.items }
{
    let tests = slot_sieves(alloc, checked);
    if tests.are_whole {
        tests.sieves
    } else {
        Vec::new(alloc)
    }
}

/// What is read of a row in a copy that has room after it. The rows' reader fills the row of the first one from here
/// on.
#[inline(never)]
fn read_copy(rows: &mut TypeRows<'_>, room: &mut Vec<u8>, row: &[u8]) -> Reading
    ensures same { IsSameReader rows.old rows.new }
    ensures read { IsRead result row.now rows.new }
{
    // A line of spaces and controls is no row: for it no row is begun, and nothing is copied.
    if row.iter().all(|byte| *byte <= b' ') {
        return Reading::Unread;
    }
    begin_first(rows, row);
    if !rows.has_row() || !copy_with_room(row, room) {
        return Reading::Unread;
    }
    rows.read(room.as_slice(), row.len(), false)
}

/// Has the rows' reader fill the row of that line from here on, if it has none yet.
fn begin_first(rows: &mut TypeRows<'_>, row: &[u8])
    ensures { IsSameReader rows.old rows.new }
{
    if !rows.has_row() {
        rows.begin(row);
    }
}

/// What is read of the line of that length at the front of the bytes, in a copy where it has no room after it or is the
/// first.
#[inline(always)]
pub(crate) fn read_at_front(
    rows: &mut TypeRows<'_>,
    room: &mut Vec<u8>,
    bytes: &[u8],
    count: usize,
    is_ascii: bool,
) -> Reading
    requires within { count ≤ length bytes.now }
    requires ascii { IsTrue is_ascii → IsAscii (take count bytes.now) }
    ensures same { IsSameReader rows.old rows.new }
    ensures read { IsRead result (take count bytes.now) rows.new }
{
    let is_first = !rows.has_row();
    match rows.read(bytes, count, is_ascii) {
        Reading::Row => Reading::Row,
        Reading::LeftOut => Reading::LeftOut,
        Reading::Unread => {
            if !is_first && has_room(bytes, count) {
                return Reading::Unread;
            }
            read_copy(rows, room, &bytes[..count])
        }
    }
}

/// Whether a row is held once it was read in a copy that has room after it.
pub(crate) fn reads_copy(rows: &mut TypeRows<'_>, room: &mut Vec<u8>, row: &[u8]) -> bool
    ensures same { IsSameReader rows.old rows.new }
    ensures whole { IsTrue result → rows.new.is_whole ≡ true }
    ensures ready { IsTrue result → rows.new.is_ready ≡ true }
    ensures row { IsTrue result → IsLineBut row.now (names_unkept rows.new) (row_held rows.new) }
{
    match read_copy(rows, room, row) {
        Reading::Row => true,
        Reading::LeftOut | Reading::Unread => false,
    }
}

impl RowJudge<'_, '_> {
    /// Judges the line of which that was read last, where the reader is sure of it.
    #[inline(always)]
    pub(crate) fn judge_reading(
        &self,
        tests: &[SlotSieve],
        rows: &TypeRows<'_>,
        reading: Reading,
    ) -> Option<Judgment<BadRow>>
        requires tests { AreWhole self.now.checked.now tests.now }
        requires rows { AreRowsOf self.now.checked.now rows.now }
        requires read { (line : List ℕ) × IsRead reading line rows.now }
        ensures said { (line : List ℕ) → IsRead reading line rows.now
            → IfSome result (JudgesRow self.now.checked.now self.now.moment.now line) }
        ensures not_blank { (line : List ℕ) → IsRead reading line rows.now → IfSome result (λ _. ¬ IsBlank line) }
    {
        match reading {
            Reading::Row => judgment_at_once(self.answer_held(tests, rows)),
            Reading::LeftOut => {
                self.leaves_out(rows);
                Some(Judgment::LeftOut)
            }
            Reading::Unread => None,
        }
    }

    /// The filter's answer to the row that was read last, by tests that are the whole filter, if there are any.
    #[inline(never)]
    pub(crate) fn answer_held(
        &self,
        tests: &[SlotSieve],
        rows: &TypeRows<'_>,
    ) -> Result<Verdict, EvalFault>
        requires tests { AreWhole self.now.checked.now tests.now }
        requires rows { KeepsNames self.now.checked.now rows.now }
        requires ready { rows.now.is_ready ≡ true }
        requires whole { rows.now.is_whole ≡ true }
        ensures { (json : Data) → IsJsonBut json (names_unkept rows.now) (row_held rows.now)
            → ReportsValue self.now.checked.now self.now.moment.now json (answer_reported result) }
    {
        let entity = rows.entity();
        evaluate_with(tests, self.alloc, self.checked, &entity, self.moment)
    }

    /// Judges the row that was read last.
    #[inline(always)]
    pub(crate) fn judge_held(&self, rows: &TypeRows<'_>) -> Result<Verdict, BadRow>
        requires rows { KeepsNames self.now.checked.now rows.now }
        requires ready { rows.now.is_ready ≡ true }
        requires whole { rows.now.is_whole ≡ true }
        ensures { (line : List ℕ) → IsLineBut line (names_unkept rows.now) (row_held rows.now)
            → ReportsRow self.now.checked.now self.now.moment.now line result }
    {
        reported(self.answer_held(&[], rows))
    }

    /// A law: the filter leaves out what a slot's sieve rejects a value of.
    #[inline(always)]
    pub(crate) fn leaves_out(&self, rows: &TypeRows<'_>)
        requires rows { AreRowsOf self.now.checked.now rows.now }
        requires whole { rows.now.is_whole ≡ true }
        ensures { (json : Data) → IsJsonLeftOut json rows.now
            → JudgesValue self.now.checked.now self.now.moment.now json Judgment.LeftOut }
    {
        typed_trees_end_once();
        what_fits_has_its_type();
        let _nodes = self.checked.nodes();
        // The moment is one that a literal can spell.
        let _civil = self.moment.civil();
        let _offset = self.moment.offset_minutes();
    }
}
