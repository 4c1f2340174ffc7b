//! Laws of rows, as contracts of functions that do nothing but cite others.
ghost use Rattle.std.specs.Prelude.{◌≡◌, ℕ, List, Some, Result};
ghost use Rattle.serde_json.specs.Data.{Data};
ghost use Rattle.line_filter.specs.declared.judge.Judgment.{Judgment};
ghost use Rattle.edm_values.specs.MomentParts.{MomentParts};
ghost use Rattle.odata_checked_filter.specs.Filter.{Filter};
ghost use Rattle.odata_eval.specs.declared.verdict.Verdict.{Verdict};
ghost use Rattle.row_judges.specs.RowAnswer.{AreSameAnswer, ReportsRow, judgment_reported};
ghost use Rattle.row_judges.specs.RowJudgment.{JudgesRow, JudgesValue};
ghost use Rattle.row_judges.specs.RowsOnce.{AreSameJudgment};
ghost use Rattle.row_judges.specs.declared.bad_row.BadRow.{BadRow};

use edm_entities::{one_fault_is_first, one_value_fits, what_has_a_fault_fits_nothing};

/// A filter has one judgment of a line at most, and one of a JSON value.
pub fn rows_are_judged_once()
    ensures line { (filter : Filter) (now : MomentParts) (line : List ℕ) (j k : Judgment BadRow)
        → JudgesRow filter now line j → JudgesRow filter now line k → AreSameJudgment j k }
    ensures value { (filter : Filter) (now : MomentParts) (json : Data) (j k : Judgment BadRow)
        → JudgesValue filter now json j → JudgesValue filter now json k → AreSameJudgment j k }
{
    one_value_fits();
    what_has_a_fault_fits_nothing();
    one_fault_is_first();
}

/// One verdict or one fault is reported about a row, and that is what is said of the row as a line.
pub fn rows_are_reported_once()
    ensures one { (filter : Filter) (now : MomentParts) (row : List ℕ) (a b : Result Verdict BadRow)
        → ReportsRow filter now row a → ReportsRow filter now row b → AreSameAnswer a b }
    ensures line { (filter : Filter) (now : MomentParts) (row : List ℕ) (answer : Result Verdict BadRow)
        (said : Judgment BadRow) → ReportsRow filter now row answer → judgment_reported answer ≡ Some said
        → JudgesRow filter now row said }
{
    one_value_fits();
    what_has_a_fault_fits_nothing();
    one_fault_is_first();
}
