//! Lines judged by a filter, each within a bound on its cost.
ghost use Rattle.std.specs.Prelude.{◌≡◌, ℕ, List, IfErr, IfOk};
ghost use Rattle.edm_values.specs.MomentParts.{MomentParts};
ghost use Rattle.line_filter.specs.Growth.{Grows};
ghost use Rattle.line_filter.specs.Kept.{Filters, IsOfItem, StopsHeld};
ghost use Rattle.odata_checked_filter.specs.Filter.{Filter};
ghost use Rattle.row_judges.specs.RowCosts.{JudgesRowWithin, ReportsRowWithin, rows_within};

use crate::bad_row::BadRow;
use crate::bounded_judge::BoundedJudge;
use crate::filter_rows::FilterRows;
use edm_values::Moment;
use line_filter::{Judge, Judgment, RunStop, Tally, filter_bytes};
use odata_eval::Verdict;
use odata_typing::Checked;
use std::alloc::{AllocError, Global};
use std::marker::Model;

/// What is wrong with a line that is judged within a bound.
#[derive(Debug, Drop)]
pub enum BoundedFault {
    /// What is wrong with the row.
    Row(BadRow),
    /// The filter costs more on the row than the bound allows.
    TooCostly,
}

/// Judges lines of JSON by a filter, each as a row and within a bound on its cost.
#[derive(Drop)]
pub(crate) struct BoundedLineJudge<'c, 's> {
    rows: FilterRows<'s>,
    checked: &'c Checked<'s>,
    moment: &'c Moment,
    most: u64,
}

impl<'c, 's> Model for BoundedLineJudge<'c, 's> {
    ghost use Rattle.odata_checked_filter.specs.contracts.checked_node.CheckedNode as checked_node;
    ghost use Rattle.edm_values.specs.contracts.value.Value as value;
    ghost use Rattle.std.specs.Coded.{codes};
    ghost use Rattle.row_judges.specs.private.BoundedLines.{FilterWithin};

    ghost Value = { FilterWithin };

    ghost coded = { Prim.hlevel (codes, checked_node.the_row.coded, value.the_row.coded) };

    ghost view = { λ j. record { filter = j.checked.now; moment = j.moment.now; most = j.most } };

    ghost use Rattle.row_judges.specs.FilterRows.{AreRowsOfFilter};

    ghost invariant = { λ j. AreRowsOfFilter j.checked.now j.rows };
}

impl<'c, 's> BoundedLineJudge<'c, 's> {
    /// A judge of lines by that filter, at that moment, each within that bound.
    pub(crate) fn new(
        alloc: Global,
        checked: &'c Checked<'s>,
        moment: &'c Moment,
        most: u64,
    ) -> BoundedLineJudge<'c, 's>
        ensures filter { result.filter ≡ checked.now }
        ensures moment { result.moment ≡ moment.now }
        ensures most { result.most ≡ most }
    {
        BoundedLineJudge {
            rows: FilterRows::new(alloc, checked),
            checked,
            moment,
            most,
        }
    }
}

impl Judge for BoundedLineJudge<'_, '_> {
    type Fault = BoundedFault;

    ghost says = { λ judge. JudgesRowWithin judge.filter judge.moment judge.most };

    fn judge_at_front(
        &mut self,
        _bytes: &[u8],
        _count: usize,
        _is_ascii: bool,
        _number: u64,
    ) -> Option<Judgment<BoundedFault>> {
        None
    }

    fn judge(&mut self, line: &[u8], _number: u64) -> Result<Judgment<BoundedFault>, AllocError> {
        judgment_within(
            self.rows
                .judge_within(self.checked, self.moment, self.most, line),
        )
    }
}

impl BoundedJudge<'_, '_> {
    /// Filters rows in memory, one JSON object a line. Kept rows are appended to `out`, unchanged and each followed by
    /// LF.
    ///
    /// Blank lines are skipped. The first line at fault ends the run, and so does the first one that is too costly. No
    /// device is called, so the result is neither `Read` nor `Write`.
    pub fn filter_lines(
        &self,
        alloc: Global,
        rows: &[u8],
        out: &mut Vec<u8>,
    ) -> Result<Tally, RunStop<BoundedFault>>
        ensures filters { IfOk result (λ tally. Grows out.old.items out.new.items
            (λ text. Filters (rows_within self.now.checked.now self.now.moment.now self.now.most rows.now) text
            tally)) }
        ensures stops { IfErr result (λ stop. Grows out.old.items out.new.items
            (λ text. StopsHeld (rows_within self.now.checked.now self.now.moment.now self.now.most rows.now) text
            stop)) }
        ensures of_item { IfErr result IsOfItem }
    {
        let mut judge = BoundedLineJudge::new(alloc, self.checked, self.moment, self.most);
        filter_bytes(&mut judge, rows, out)
    }
}

/// What is said of a line by what is reported about it as a row.
fn judgment_within(
    answer: Result<Option<Verdict>, BadRow>,
) -> Result<Judgment<BoundedFault>, AllocError>
    ensures { (filter : Filter) (now : MomentParts) (line : List ℕ) (most : ℕ)
        → ReportsRowWithin filter now line most answer
        → IfOk result (JudgesRowWithin filter now most line) }
{
    match answer {
        Ok(found) => match found {
            Some(verdict) => match verdict {
                Verdict::True => Ok(Judgment::Kept),
                Verdict::False => Ok(Judgment::LeftOut),
                Verdict::Null => Ok(Judgment::LeftOut),
            },
            None => Ok(Judgment::Fault(BoundedFault::TooCostly)),
        },
        Err(bad) => {
            if bad.is_memory() {
                return Err(AllocError);
            }
            Ok(Judgment::Fault(BoundedFault::Row(bad)))
        }
    }
}
