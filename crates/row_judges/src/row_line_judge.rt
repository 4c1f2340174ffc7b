ghost use Rattle.std.specs.Prelude.{◌≡◌};
ghost use Rattle.row_judges.specs.RowJudgment.{JudgesRow};

use crate::bad_row::BadRow;
use crate::row_judge::{RowJudge, judgment_of};
use crate::rows_in_place::{read_at_front, type_rows_of, whole_tests};
use edm_rows::TypeRows;
use edm_values::Moment;
use line_filter::{Judge, Judgment};
use odata_eval::SlotSieve;
use odata_typing::Checked;
use std::alloc::{AllocError, Global};
use std::marker::Model;

/// Judges lines of JSON by a filter, each as a row.
#[derive(Drop)]
pub struct RowLineJudge<'c, 's> {
    rows: RowJudge<'c, 's>,
    type_rows: TypeRows<'s>,
    /// Tests that are the whole filter; none where it has other terms.
    tests: Vec<SlotSieve>,
    /// The last line that had no room after it, in a copy that has.
    room: Vec<u8>,
}

impl<'c, 's> Model for RowLineJudge<'c, 's> {
    ghost use Rattle.odata_checked_filter.specs.contracts.checked_node.CheckedNode as checked_node;
    ghost use Rattle.edm_values.specs.contracts.value.Value as value;
    ghost use Rattle.std.specs.Coded.{codes};
    ghost use Rattle.row_judges.specs.RowLineJudge.{FilterNow};

    ghost Value = { FilterNow };

    ghost coded = { Prim.hlevel (codes, checked_node.the_row.coded, value.the_row.coded) };

    ghost view = { λ j. record { filter = j.rows.checked.now; moment = j.rows.moment.now } };

    ghost use Rattle.odata_eval.specs.TrueWhere.{AreWhole};
    ghost use Rattle.row_judges.specs.private.RowsInPlace.{AreRowsOf};

    ghost invariant = { λ j. AreRowsOf j.rows.checked.now j.type_rows × AreWhole j.rows.checked.now j.tests.items };
}

impl<'c, 's> RowLineJudge<'c, 's> {
    /// A judge of lines by that filter, at that moment. It is made in place: a copy would take as much stack again.
    #[inline(always)]
    pub fn new(alloc: Global, checked: &'c Checked<'s>, moment: &'c Moment) -> RowLineJudge<'c, 's>
        ensures filter { result.filter ≡ checked.now }
        ensures moment { result.moment ≡ moment.now }
    {
        RowLineJudge {
            rows: RowJudge {
                alloc,
                checked,
                moment,
            },
            type_rows: type_rows_of(alloc, checked),
            tests: whole_tests(alloc, checked),
            room: Vec::new(alloc),
        }
    }
}

impl Judge for RowLineJudge<'_, '_> {
    type Fault = BadRow;

    ghost says = { λ judge. JudgesRow judge.filter judge.moment };

    #[inline(always)]
    fn judge_at_front(
        &mut self,
        bytes: &[u8],
        count: usize,
        is_ascii: bool,
        _number: u64,
    ) -> Option<Judgment<BadRow>> {
        let reading = read_at_front(&mut self.type_rows, &mut self.room, bytes, count, is_ascii);
        self.rows
            .judge_reading(self.tests.as_slice(), &self.type_rows, reading)
    }

    #[inline(never)]
    fn judge(&mut self, line: &[u8], _number: u64) -> Result<Judgment<BadRow>, AllocError> {
        judgment_of(self.rows.judge_text(line))
    }
}
