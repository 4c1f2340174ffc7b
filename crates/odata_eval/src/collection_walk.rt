//! The walk of a filter's list where collections, lists and flags are asked: of `in`, and of `has`.
ghost use Rattle.std.specs.Prelude.{◌+◌, None, Ok};
ghost use Rattle.odata_checked_filter.specs.declared.checked_node.NodeKind.{NodeKind as Kind};
ghost use Rattle.filter_context.specs.private.Place.{HasKind, PartStands};
ghost use Rattle.odata_eval.specs.private.Spending.{CountedDatum, SpendsRest, datum_stop};
ghost use Rattle.odata_eval.specs.private.WalkAnswer.{AnswersDatum};

use super::budget::{Counting, take_compared, take_item};
use super::datum_walk::likely_stored_at;
use super::eval_context::EvalContext;
use super::stop::EvalStop;
use super::walk_operand::{right_of, stop_of};
use edm_values::Datum;
use odata_filter_operations::{among, comparison_cost, datum_of_truth, flags_of};
use odata_functions::{compare, comparisons_are_decided};
use odata_signatures::trees_have_one_type;
use odata_syntax::ComparisonOperator;

/// What `has` evaluates to.
#[cycle(evaluate)]
#[inline(never)]
pub(crate) fn flags_at<'e, B: Counting>(
    context: &EvalContext<'e, '_, '_>,
    place: usize,
    left: &Datum<'_>,
    budget: &mut B,
) -> Result<Datum<'e>, EvalStop>
    requires stands { PartStands context.now place }
    requires here { HasKind context.now.list place Kind.Has }
    requires left { AnswersDatum context.now (place + 1) (Ok left.now) }
    ensures answers { CountedDatum context.now place result }
    ensures spent { SpendsRest context.now place (B.left budget.old) None (B.left budget.new) (datum_stop result) }
{
    context.ends_once();
    match likely_stored_at(context, right_of(context, place), budget) {
        Ok(right) => Ok(flags_of(left, &right)),
        Err(stop) => Err(stop),
    }
}

/// What `in` before a path evaluates to. The members are counted that were compared.
#[cycle(evaluate)]
#[inline(never)]
pub(crate) fn among_at<'e, B: Counting>(
    context: &EvalContext<'e, '_, '_>,
    place: usize,
    left: &Datum<'_>,
    budget: &mut B,
) -> Result<Datum<'e>, EvalStop>
    requires stands { PartStands context.now place }
    requires here { HasKind context.now.list place Kind.InPath }
    requires left { AnswersDatum context.now (place + 1) (Ok left.now) }
    ensures answers { CountedDatum context.now place result }
    ensures spent { SpendsRest context.now place (B.left budget.old) None (B.left budget.new) (datum_stop result) }
{
    context.ends_once();
    match likely_stored_at(context, right_of(context, place), budget) {
        Ok(path) => {
            let found = among(left, &path);
            if !take_compared(context, left, &path, found.compared, budget) {
                return Err(EvalStop::TooCostly);
            }
            Ok(datum_of_truth(found.truth))
        }
        Err(stop) => Err(stop),
    }
}

/// What `in` before a list evaluates to. The items are evaluated from the left until one is equal.
#[cycle(evaluate)]
#[inline(never)]
pub(crate) fn listed_at<'e, B: Counting>(
    context: &EvalContext<'e, '_, '_>,
    place: usize,
    left: &Datum<'_>,
    budget: &mut B,
) -> Result<Datum<'e>, EvalStop>
    requires stands { PartStands context.now place }
    requires here { HasKind context.now.list place Kind.InList }
    requires left { AnswersDatum context.now (place + 1) (Ok left.now) }
    ensures answers { CountedDatum context.now place result }
    ensures spent { SpendsRest context.now place (B.left budget.old) None (B.left budget.new) (datum_stop result) }
{
    context.ends_once();
    trees_have_one_type();
    comparisons_are_decided();
    let own_stop = stop_of(context, place);
    let mut at = right_of(context, place);
    while at != own_stop {
        if !take_item(context, budget) {
            return Err(EvalStop::TooCostly);
        }
        match likely_stored_at(context, at, budget) {
            Ok(item) => {
                if !budget.take(comparison_cost(left, &item)) {
                    return Err(EvalStop::TooCostly);
                }
                if compare(ComparisonOperator::Eq, left, &item) {
                    return Ok(Datum::Bool(true));
                }
            }
            Err(stop) => return Err(stop),
        }
        at = stop_of(context, at);
    }
    Ok(Datum::Bool(false))
}
