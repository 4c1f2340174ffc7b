//! Rows judged within a bound on what they cost.
ghost use Rattle.std.specs.Prelude.{◌≡◌, ℕ, List, true, IfSome};
ghost use Rattle.csdl_schema.specs.ExpansionView.{paths_in};
ghost use Rattle.csdl_schema.specs.PathSet.{PropertyPath};
ghost use Rattle.edm_rows.specs.RowReading.{IsLineBut};
ghost use Rattle.edm_rows.specs.RowsOfType.{names_unkept, row_held};
ghost use Rattle.odata_checked_filter.specs.Filter.{tree_of_filter};
ghost use Rattle.odata_eval.specs.CostsOn.{KeepsBound};
ghost use Rattle.odata_meaning.specs.MeansOn.{IsTheOutcome};
ghost use Rattle.odata_eval.specs.VerdictView.{outcome_reported};
ghost use Rattle.row_judges.specs.FilterRows.{KeepsNames};
ghost use Rattle.row_judges.specs.RowAnswer.{IsLayoutOfFilter};
ghost use Rattle.row_judges.specs.RowCosts.{ReportsRowWithin};

use crate::bad_row::{BadRow, bad_text};
use crate::row_judge::reported;
use edm_entities::Entity;
use edm_rows::{LayoutReader, RowLayout, TypeRows};
use edm_values::Moment;
use odata_eval::{EvalFault, Verdict, evaluate_within};
use odata_typing::Checked;
use std::alloc::Global;

/// Judges rows by a filter, each within a bound on its cost. The bound is on the bodies of lambda operators that the
/// filter evaluates on the row, the values that it compares after `in` within them, and the whole KiB of texts: 1 for
/// each that a comparison takes, 8 for each that a function takes, and 16 for each that a function makes.
#[derive(Drop)]
pub struct BoundedJudge<'c, 's> {
    pub checked: &'c Checked<'s>,
    pub moment: &'c Moment,
    pub most: u64,
}

impl BoundedJudge<'_, '_> {
    /// Judges a row, one JSON object, as [`judge_row`](crate::judge_row) does without a bound. `None` if the filter
    /// costs more on the row than the bound allows.
    pub fn judge(
        &self,
        layout: &RowLayout<'_>,
        reader: &mut LayoutReader,
        row: &[u8],
    ) -> Result<Option<Verdict>, BadRow>
        requires { IsLayoutOfFilter self.now.checked.now layout.now }
        ensures { ReportsRowWithin self.now.checked.now self.now.moment.now row.now self.now.most result }
    {
        let alloc = reader.allocator();
        match reader.read(layout, row) {
            Some(entity) => reported(self.judge_entity(alloc, &entity)),
            None => self.judge_text(alloc, row),
        }
    }

    /// Judges the row that was read last where it stood.
    pub(crate) fn judge_held(
        &self,
        alloc: Global,
        rows: &TypeRows<'_>,
    ) -> Result<Option<Verdict>, BadRow>
        requires rows { KeepsNames self.now.checked.now rows.now }
        requires ready { rows.now.is_ready ≡ true }
        requires whole { rows.now.is_whole ≡ true }
        ensures { (line : List ℕ) → IsLineBut line (names_unkept rows.now) (row_held rows.now)
            → ReportsRowWithin self.now.checked.now self.now.moment.now line self.now.most result }
    {
        let entity = rows.entity();
        reported(self.judge_entity(alloc, &entity))
    }

    /// Judges an entity of the filter's type, with what the filter needs.
    fn judge_entity(&self, alloc: Global, entity: &Entity<'_>) -> Result<Option<Verdict>, EvalFault>
        requires schema { entity.now.schema ≡ self.now.checked.now.schema }
        requires type_id { entity.now.type_id ≡ self.now.checked.now.filtered }
        requires expansion { (path : PropertyPath)
            → paths_in entity.now.expansion path ≡ paths_in self.now.checked.now.expansion path }
        ensures outcome { IfSome (outcome_reported result)
            (IsTheOutcome entity.now self.now.moment.now (tree_of_filter self.now.checked.now)) }
        ensures bound { KeepsBound entity.now self.now.moment.now (tree_of_filter self.now.checked.now) self.now.most
            result }
    {
        evaluate_within(alloc, self.checked, entity, self.moment, self.most)
    }

    /// Judges a row by what its whole text stands for.
    pub(crate) fn judge_text(&self, alloc: Global, row: &[u8]) -> Result<Option<Verdict>, BadRow>
        ensures { ReportsRowWithin self.now.checked.now self.now.moment.now row.now self.now.most result }
    {
        let (schema, type_id) = (self.checked.schema(), self.checked.filtered_type());
        match Entity::expanded_from_text(alloc, schema, type_id, self.checked.expansion(), row) {
            Ok(entity) => reported(self.judge_entity(alloc, &entity)),
            Err(fault) => Err(bad_text(fault)),
        }
    }
}
