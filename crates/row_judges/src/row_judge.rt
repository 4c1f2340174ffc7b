ghost use Rattle.std.specs.Prelude.{◌≡◌, ◌≢◌, ℕ, List, Ok, Err, Some, None, true, IfSome, MatchResult};
ghost use Rattle.serde_json.specs.Data.{Data};
ghost use Rattle.serde_json.specs.View.{view};
ghost use Rattle.csdl_schema.specs.ExpansionView.{paths_in};
ghost use Rattle.csdl_schema.specs.PathSet.{PropertyPath};
ghost use Rattle.csdl_schema.specs.SchemaModel.{type_name_at};
ghost use Rattle.edm_entities.specs.Fits.{Fits};
ghost use Rattle.edm_entities.specs.Row.{slots_for, value_of};
ghost use Rattle.odata_checked_filter.specs.Calls.{TakesMemory};
ghost use Rattle.odata_checked_filter.specs.Filter.{tree_of_filter};
ghost use Rattle.odata_meaning.specs.MeansOn.{IsTheOutcome};
ghost use Rattle.odata_eval.specs.VerdictView.{reported_outcome};
ghost use Rattle.row_judges.specs.RowAnswer.{ReportsRow, judgment_reported};
ghost use Rattle.row_judges.specs.RowJudgment.{JudgesValue};
ghost use Rattle.row_judges.specs.private.ValueAnswer.{ReportsValue, answer_reported};

use crate::bad_row::{BadRow, bad_text};
use edm_entities::Entity;
use edm_values::Moment;
use line_filter::{JudgeItem, Judgment};
use odata_eval::{EvalFault, Verdict, evaluate};
use odata_typing::Checked;
use serde_json::Value;
use std::alloc::{AllocError, Global};

/// Judges rows by a filter.
#[derive(Drop)]
pub struct RowJudge<'c, 's> {
    pub alloc: Global,
    pub checked: &'c Checked<'s>,
    pub moment: &'c Moment,
}

impl RowJudge<'_, '_> {
    /// Judges a JSON value.
    pub(crate) fn judge_value(&self, json: &Value) -> Result<Verdict, BadRow>
        ensures { ReportsValue self.now.checked.now self.now.moment.now (view json.now) result }
    {
        let (schema, type_id) = (self.checked.schema(), self.checked.filtered_type());
        match Entity::expanded_from_json(
            self.alloc,
            schema,
            type_id,
            self.checked.expansion(),
            json,
        ) {
            Ok(entity) => reported(self.judge_entity(&entity)),
            Err(fault) => Err(BadRow::NoEntity(fault)),
        }
    }

    /// Judges an entity of the filter's type, with what the filter needs.
    #[inline(always)]
    pub(crate) fn judge_entity(&self, entity: &Entity<'_>) -> Result<Verdict, EvalFault>
        requires schema { entity.now.schema ≡ self.now.checked.now.schema }
        requires type_id { entity.now.type_id ≡ self.now.checked.now.filtered }
        requires expansion { (path : PropertyPath)
            → paths_in entity.now.expansion path ≡ paths_in self.now.checked.now.expansion path }
        ensures reported { (json : Data) → Fits (slots_for entity.now)
            (type_name_at entity.now.schema entity.now.type_id) json (value_of entity.now)
            → ReportsValue self.now.checked.now self.now.moment.now json (answer_reported result) }
        ensures outcome { IfSome (reported_outcome result)
            (IsTheOutcome entity.now self.now.moment.now (tree_of_filter self.now.checked.now)) }
        ensures no_memory { ¬ TakesMemory (tree_of_filter self.now.checked.now) → result ≢ Err EvalFault.Memory }
    {
        evaluate(self.alloc, self.checked, entity, self.moment)
    }

    /// Judges a row by what its whole text stands for.
    #[inline(never)]
    pub(crate) fn judge_text(&self, row: &[u8]) -> Result<Verdict, BadRow>
        ensures { ReportsRow self.now.checked.now self.now.moment.now row.now result }
    {
        let (schema, type_id) = (self.checked.schema(), self.checked.filtered_type());
        match Entity::expanded_from_text(
            self.alloc,
            schema,
            type_id,
            self.checked.expansion(),
            row,
        ) {
            Ok(entity) => reported(self.judge_entity(&entity)),
            Err(fault) => Err(bad_text(fault)),
        }
    }
}

impl JudgeItem for RowJudge<'_, '_> {
    type Item = Value;

    type Fault = BadRow;

    ghost says = { λ judge item. JudgesValue judge.checked.now judge.moment.now (view item) };

    fn judge_item(&self, item: &Value) -> Result<Judgment<BadRow>, AllocError> {
        judgment_of(self.judge_value(item))
    }
}

/// What a filter's answer to an entity says of its row, within a bound or without one.
pub(crate) fn reported<V>(answer: Result<V, EvalFault>) -> Result<V, BadRow>
    ensures { result ≡ answer_reported answer }
{
    match answer {
        Ok(found) => Ok(found),
        Err(fault) => Err(BadRow::NoValue(fault)),
    }
}

/// What is kept of rows by their verdicts: those on which the filter is true.
#[inline(always)]
fn judged_by(verdict: Verdict) -> Judgment<BadRow>
    ensures { judgment_reported (Ok verdict) ≡ Some result }
{
    match verdict {
        Verdict::True => Judgment::Kept,
        Verdict::False | Verdict::Null => Judgment::LeftOut,
    }
}

/// What is kept of rows by a filter's answers, where these say something of their rows.
#[inline(always)]
pub(crate) fn judgment_at_once(answer: Result<Verdict, EvalFault>) -> Option<Judgment<BadRow>>
    ensures { result ≡ judgment_reported (answer_reported answer) }
{
    match answer {
        Ok(verdict) => Some(judged_by(verdict)),
        Err(fault) => match fault {
            EvalFault::Overflow | EvalFault::DivideByZero => {
                Some(Judgment::Fault(BadRow::NoValue(fault)))
            }
            EvalFault::Memory => None,
        },
    }
}

/// What is kept of rows by what is reported about each.
pub(crate) fn judgment_of(answer: Result<Verdict, BadRow>) -> Result<Judgment<BadRow>, AllocError>
    ensures { MatchResult result (λ said. judgment_reported answer ≡ Some said)
        (λ refused. judgment_reported answer ≡ None) }
{
    match answer {
        Ok(verdict) => Ok(judged_by(verdict)),
        Err(bad) => {
            if bad.is_memory() {
                return Err(AllocError);
            }
            Ok(Judgment::Fault(bad))
        }
    }
}
