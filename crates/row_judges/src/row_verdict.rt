ghost use Rattle.std.specs.Prelude.{◌≡◌, ◌⊎◌, [], false, IsTrue};
ghost use Rattle.csdl_schema.specs.ExpansionView.{paths_in};
ghost use Rattle.csdl_schema.specs.PathSet.{PropertyPath};
ghost use Rattle.edm_row_plans.specs.Plans.{IsPlanOf};
ghost use Rattle.edm_rows.specs.HeldSchema.{schema_in};
ghost use Rattle.row_judges.specs.RowAnswer.{IsLayoutOfFilter, ReportsRow};

use crate::bad_row::BadRow;
use crate::row_judge::{RowJudge, reported};
use edm_row_plans::RowPlan;
use edm_rows::{HeldSchema, LayoutReader, RowLayout};
use edm_values::Moment;
use odata_eval::Verdict;
use odata_typing::Checked;
use std::alloc::Global;

/// The plan of the filter's schema and type, with what the filter needs of navigation.
pub(crate) fn plan_of(alloc: Global, checked: &Checked<'_>) -> RowPlan
    ensures schema { IsPlanOf checked.now.schema result }
    ensures type_id { result.type_id ≡ checked.now.filtered }
    ensures expansion { (result.expansion ≡ checked.now.expansion)
        ⊎ ((path : PropertyPath) → paths_in result.expansion path ≡ false) }
    ensures whole { IsTrue result.is_whole → result.expansion ≡ checked.now.expansion }
    ensures unexpanded { checked.now.expansion ≡ [] → IsTrue result.is_whole }
{
    RowPlan::new(
        alloc,
        checked.schema(),
        checked.filtered_type(),
        checked.expansion(),
    )
}

/// Returns the layout by which the filter's rows are read. It has what the filter needs of navigation, and borrows or
/// shares the filter's schema. Where the filter needs something expanded, its clauses say nothing of a layout that is
/// not whole.
pub fn row_layout_of<'s>(
    alloc: Global,
    checked: &Checked<'_>,
    schema: HeldSchema<'s>,
) -> RowLayout<'s>
    requires { schema_in schema ≡ checked.now.schema }
    ensures layout { IsLayoutOfFilter checked.now result }
    ensures expansion { (result.expansion ≡ checked.now.expansion)
        ⊎ ((path : PropertyPath) → paths_in result.expansion path ≡ false) }
    ensures unexpanded { checked.now.expansion ≡ [] → IsTrue result.is_whole }
{
    RowLayout::new(alloc, schema, plan_of(alloc, checked))
}

/// Judges a row, one JSON object as a line of rows is one.
///
/// The row may have any length: it is in memory, so no reader's buffer has to hold it. A blank row is not JSON. Make
/// the layout once for the filter ([`row_layout_of`]). Pass one reader for all rows, of whatever filters: it changes no
/// result, and a row of a kind seen before then takes no memory.
pub fn judge_row(
    checked: &Checked<'_>,
    now: &Moment,
    layout: &RowLayout<'_>,
    reader: &mut LayoutReader,
    row: &[u8],
) -> Result<Verdict, BadRow>
    requires { IsLayoutOfFilter checked.now layout.now }
    ensures { ReportsRow checked.now now.now row.now result }
{
    let judge = RowJudge {
        alloc: reader.allocator(),
        checked,
        moment: now,
    };
    match reader.read(layout, row) {
        Some(entity) => reported(judge.judge_entity(&entity)),
        None => judge.judge_text(row),
    }
}
