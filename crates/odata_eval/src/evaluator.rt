//! The call that the other modules use.
ghost use Rattle.std.specs.Prelude.{◌≡◌, ◌≢◌, [], Some, Option, Bool, Err, IfSome, IsTrue, true};
ghost use Rattle.odata_meaning.specs.MeansOn.{MeansOn, IsTheOutcome};
ghost use Rattle.edm_values.specs.Val.{boolean};
ghost use Rattle.odata_eval.specs.TrueWhere.{AreWhole};
ghost use Rattle.odata_eval.specs.VerdictView.{reported_outcome, verdict_val};
ghost use Rattle.odata_filter_operations.specs.Outcome.{gives};
ghost use Rattle.odata_filter_operations.specs.TruthGives.{truth_val};
ghost use Rattle.odata_checked_filter.specs.Calls.{TakesMemory};
ghost use Rattle.csdl_schema.specs.ExpansionView.{paths_in};
ghost use Rattle.csdl_schema.specs.PathSet.{Covers};
ghost use Rattle.odata_checked_filter.specs.Filter.{tree_of_filter};
ghost use Rattle.odata_eval.specs.private.RemainingTerms.{IsRemaining, ReportsTerms};
ghost use Rattle.filter_context.specs.private.EvalContext.{EndsOnceHere};
ghost use Rattle.filter_context.specs.private.ContextModel.{context_in};

use super::and_chain::{PlainTerms, RemainingTerms, ask_plain_terms, truth_of_remaining};
use super::eval_context::{EvalContext, fields_of};
use super::passed_tests::pass_all;
use super::value_tests::SlotSieve;
use super::verdict::Verdict;
use edm_entities::Entity;
use edm_values::{Moment, Value};
use odata_checked_filter::Checked;
use odata_filter_operations::EvalFault;
use odata_meaning::typed_trees_end_once_on_entities;
use std::alloc::Global;

/// The verdict of a truth value, None standing for null.
pub(crate) fn verdict_of(truth: Option<bool>) -> Verdict
    ensures { verdict_val result ≡ truth_val truth }
{
    match truth {
        Some(true) => Verdict::True,
        Some(false) => Verdict::False,
        None => Verdict::Null,
    }
}

/// Evaluates the filter on the entity. `now` is the moment that `now()` stands for. `Memory` is returned only where the
/// filter makes texts.
pub fn evaluate(
    alloc: Global,
    checked: &Checked<'_>,
    entity: &Entity<'_>,
    now: &Moment,
) -> Result<Verdict, EvalFault>
    requires one_schema { checked.now.schema ≡ entity.now.schema }
    requires one_type { checked.now.filtered ≡ entity.now.type_id }
    requires covers { Covers (paths_in entity.now.expansion) (paths_in checked.now.expansion) }
    ensures outcome { IfSome (reported_outcome result)
        (IsTheOutcome entity.now now.now (tree_of_filter checked.now)) }
    ensures no_memory { ¬ TakesMemory (tree_of_filter checked.now) → result ≢ Err EvalFault.Memory }
{
    // What is known of every filter is known once its nodes have been asked for.
    let _nodes = checked.nodes();
    match plain_terms_on(alloc, checked, entity, now) {
        PlainTerms::Decide(truth) => Ok(verdict_of(Some(truth))),
        PlainTerms::Leave(remaining) => evaluate_remaining(alloc, checked, entity, now, remaining),
    }
}

/// Evaluates the filter on the entity, asking first tests that are the whole filter.
///
/// [`slot_sieves`](crate::slot_sieves) returns such tests. Where there are none, or a value does not pass one, it does
/// what [`evaluate`] does.
#[inline(always)]
pub fn evaluate_with(
    tests: &[SlotSieve],
    alloc: Global,
    checked: &Checked<'_>,
    entity: &Entity<'_>,
    now: &Moment,
) -> Result<Verdict, EvalFault>
    requires whole { AreWhole checked.now tests.now }
    requires one_schema { checked.now.schema ≡ entity.now.schema }
    requires one_type { checked.now.filtered ≡ entity.now.type_id }
    requires covers { Covers (paths_in entity.now.expansion) (paths_in checked.now.expansion) }
    ensures outcome { IfSome (reported_outcome result)
        (IsTheOutcome entity.now now.now (tree_of_filter checked.now)) }
    ensures no_memory { ¬ TakesMemory (tree_of_filter checked.now) → result ≢ Err EvalFault.Memory }
{
    if is_true_by(tests, checked, entity, now) {
        return Ok(Verdict::True);
    }
    evaluate(alloc, checked, entity, now)
}

/// Whether the entity's values pass tests that are the whole filter.
#[inline(always)]
fn is_true_by(tests: &[SlotSieve], checked: &Checked<'_>, entity: &Entity<'_>, now: &Moment) -> bool
    requires whole { AreWhole checked.now tests.now }
    requires one_schema { checked.now.schema ≡ entity.now.schema }
    requires one_type { checked.now.filtered ≡ entity.now.type_id }
    ensures { IsTrue result
        → IsTheOutcome entity.now now.now (tree_of_filter checked.now) (gives (boolean true)) }
{
    typed_trees_end_once_on_entities();
    let _nodes = checked.nodes();
    // The moment is one that a literal can spell.
    let _civil = now.civil();
    let _offset = now.offset_minutes();
    pass_all(fields_of(entity.value()), tests)
}

/// What comes of the filter's plain terms on the entity. Their context is taken apart by the compiler.
#[inline(always)]
fn plain_terms_on(
    alloc: Global,
    checked: &Checked<'_>,
    entity: &Entity<'_>,
    now: &Moment,
) -> PlainTerms
    requires one_schema { checked.now.schema ≡ entity.now.schema }
    requires one_type { checked.now.filtered ≡ entity.now.type_id }
    ensures reported { ReportsTerms (context_in entity.now now.now checked.now.list []) result }
    ensures ends_once { EndsOnceHere (context_in entity.now now.now checked.now.list []) }
{
    let _nodes = checked.nodes();
    let moment = Value::Moment(*now);
    let context = EvalContext::of(alloc, checked, entity, now, &moment);
    context.ends_once();
    ask_plain_terms(&context)
}

/// What the filter says of the entity by the terms that are left.
#[inline(never)]
fn evaluate_remaining(
    alloc: Global,
    checked: &Checked<'_>,
    entity: &Entity<'_>,
    now: &Moment,
    remaining: RemainingTerms,
) -> Result<Verdict, EvalFault>
    requires one_schema { checked.now.schema ≡ entity.now.schema }
    requires one_type { checked.now.filtered ≡ entity.now.type_id }
    requires remaining { IsRemaining (context_in entity.now now.now checked.now.list []) remaining }
    ensures outcome { IfSome (reported_outcome result)
        (IsTheOutcome entity.now now.now (tree_of_filter checked.now)) }
    ensures no_memory { ¬ TakesMemory (tree_of_filter checked.now) → result ≢ Err EvalFault.Memory }
{
    let _nodes = checked.nodes();
    let moment = Value::Moment(*now);
    let context = EvalContext::of(alloc, checked, entity, now, &moment);
    context.ends_once();
    let truth = truth_of_remaining(&context, remaining)?;
    Ok(verdict_of(truth))
}
