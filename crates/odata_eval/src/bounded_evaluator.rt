//! Evaluation within a bound.
ghost use Rattle.std.specs.Prelude.{◌≡◌, ◌≢◌, Err, IfSome};
ghost use Rattle.csdl_schema.specs.ExpansionView.{paths_in};
ghost use Rattle.csdl_schema.specs.PathSet.{Covers};
ghost use Rattle.odata_checked_filter.specs.Calls.{TakesMemory};
ghost use Rattle.odata_checked_filter.specs.Filter.{tree_of_filter};
ghost use Rattle.odata_eval.specs.CostsOn.{KeepsBound};
ghost use Rattle.odata_meaning.specs.MeansOn.{IsTheOutcome};
ghost use Rattle.odata_eval.specs.VerdictView.{outcome_reported};

use super::budget::Budget;
use super::eval_context::EvalContext;
use super::evaluator::verdict_of;
use super::stop::EvalStop;
use super::truth_walk::truth_at;
use super::verdict::Verdict;
use edm_entities::Entity;
use edm_values::{Moment, Value};
use odata_checked_filter::Checked;
use odata_filter_operations::EvalFault;
use std::alloc::Global;

/// Evaluates the filter on the entity, within a bound on its cost. The bound is on the bodies of lambda operators that
/// it evaluates, the values that it compares after `in` within them, and the whole KiB of texts: 1 for each that a
/// comparison takes, 8 for each that a function takes, and 16 for each that a function makes. `None` if the filter
/// costs more than the bound allows.
pub fn evaluate_within(
    alloc: Global,
    checked: &Checked<'_>,
    entity: &Entity<'_>,
    now: &Moment,
    most: u64,
) -> Result<Option<Verdict>, EvalFault>
    requires one_schema { checked.now.schema ≡ entity.now.schema }
    requires one_type { checked.now.filtered ≡ entity.now.type_id }
    requires covers { Covers (paths_in entity.now.expansion) (paths_in checked.now.expansion) }
    ensures outcome { IfSome (outcome_reported result)
        (IsTheOutcome entity.now now.now (tree_of_filter checked.now)) }
    ensures bound { KeepsBound entity.now now.now (tree_of_filter checked.now) most result }
    ensures no_memory { ¬ TakesMemory (tree_of_filter checked.now) → result ≢ Err EvalFault.Memory }
{
    let _nodes = checked.nodes();
    let moment = Value::Moment(*now);
    let context = EvalContext::of(alloc, checked, entity, now, &moment);
    context.ends_once();
    context.costs_once();
    let mut budget = Budget::Left(most);
    match truth_at(&context, 0, &mut budget) {
        Ok(truth) => Ok(Some(verdict_of(truth))),
        Err(EvalStop::Fault(fault)) => Err(fault),
        Err(EvalStop::TooCostly) => Ok(None),
    }
}
