//! Rows judged by one filter, each by itself.
ghost use Rattle.std.specs.Prelude.{◌≡◌};
ghost use Rattle.edm_rows.specs.HeldSchema.{schema_in};
ghost use Rattle.row_judges.specs.FilterRows.{AreRowsOfFilter};
ghost use Rattle.row_judges.specs.RowAnswer.{ReportsRow};
ghost use Rattle.row_judges.specs.RowCosts.{ReportsRowWithin};

use crate::bad_row::BadRow;
use crate::bounded_judge::BoundedJudge;
use crate::row_judge::RowJudge;
use crate::row_verdict::plan_of;
use crate::rows_in_place::{keep_filtered, reads_copy};
use csdl_schema::Schema;
use edm_rows::{HeldSchema, TypeRows};
use edm_values::Moment;
use odata_eval::Verdict;
use odata_typing::Checked;
use std::alloc::Global;
use std::sync::Arc;

/// What is kept from row to row of one filter: how its rows are read, and memory that is filled again. A row of a kind
/// seen before takes no memory.
#[derive(Drop)]
pub struct FilterRows<'s> {
    alloc: Global,
    type_rows: TypeRows<'s>,
    /// The last row, in a copy that has room after it.
    room: Vec<u8>,
}

impl<'s> FilterRows<'s> {
    /// Returns what is kept of the filter's rows, before the first. It borrows the filter's schema.
    pub fn new(alloc: Global, checked: &Checked<'s>) -> FilterRows<'s>
        ensures { AreRowsOfFilter checked.now result }
    {
        FilterRows::of(alloc, checked, HeldSchema::Borrowed(checked.schema()))
    }

    /// Returns the same with a share in the filter's schema, so that it borrows nothing.
    pub fn shared(alloc: Global, checked: &Checked<'_>, schema: Arc<Schema>) -> FilterRows<'static>
        requires { schema.value ≡ checked.now.schema }
        ensures { AreRowsOfFilter checked.now result }
    {
        FilterRows::of(alloc, checked, HeldSchema::Shared(schema))
    }

    /// The same, wherever the schema is.
    fn of(alloc: Global, checked: &Checked<'_>, schema: HeldSchema<'s>) -> FilterRows<'s>
        requires { schema_in schema ≡ checked.now.schema }
        ensures { AreRowsOfFilter checked.now result }
    {
        let mut type_rows = TypeRows::new(alloc, schema, plan_of(alloc, checked));
        keep_filtered(&mut type_rows, checked);
        FilterRows {
            alloc,
            type_rows,
            room: Vec::new(alloc),
        }
    }

    /// Judges a row, one JSON object, as [`judge_row`](crate::judge_row) does. The filter is that for which this was
    /// made. The row is copied once, so that bytes can be read past its end.
    pub fn judge(
        &mut self,
        checked: &Checked<'_>,
        now: &Moment,
        row: &[u8],
    ) -> Result<Verdict, BadRow>
        requires { AreRowsOfFilter checked.now self.old }
        ensures verdict { ReportsRow checked.now now.now row.now result }
        ensures rows { AreRowsOfFilter checked.now self.new }
    {
        let by = RowJudge {
            alloc: self.alloc,
            checked,
            moment: now,
        };
        if reads_copy(&mut self.type_rows, &mut self.room, row) {
            return by.judge_held(&self.type_rows);
        }
        by.judge_text(row)
    }

    /// Judges a row within a bound on what it costs, as [`BoundedJudge::judge`] does. `None` if that is not enough. The
    /// filter is that for which this was made.
    pub fn judge_within(
        &mut self,
        checked: &Checked<'_>,
        now: &Moment,
        most: u64,
        row: &[u8],
    ) -> Result<Option<Verdict>, BadRow>
        requires { AreRowsOfFilter checked.now self.old }
        ensures verdict { ReportsRowWithin checked.now now.now row.now most result }
        ensures rows { AreRowsOfFilter checked.now self.new }
    {
        let by = BoundedJudge {
            checked,
            moment: now,
            most,
        };
        if reads_copy(&mut self.type_rows, &mut self.room, row) {
            return by.judge_held(self.alloc, &self.type_rows);
        }
        by.judge_text(self.alloc, row)
    }
}
