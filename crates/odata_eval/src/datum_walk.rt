//! The walk of values of any type: stored ones stay where they are, the others are made.
ghost use Rattle.std.specs.Prelude.{◌+◌, None, Ok};
ghost use Rattle.filter_context.specs.private.Place.{HasCall, HasOperator, IsClassAt, OperandStands, PartStands};
ghost use Rattle.odata_eval.specs.private.Spending.{CountedDatum, SpendsAt, SpendsRest, datum_stop};
ghost use Rattle.odata_eval.specs.private.WalkAnswer.{AnswersDatum};

use super::budget::{Counting, as_stop};
use super::collection_walk::{among_at, flags_at, listed_at};
use super::eval_context::EvalContext;
use super::lambda_walk::lambda_at;
use super::number_walk::number_at;
use super::stop::EvalStop;
use super::truth_walk::truth_at;
use super::walk_operand::{WalkOperand, right_of, spine_bottom, stop_of, walk_operand_at};
use edm_values::Datum;
use filter_context::WalkClass;
use odata_checked_filter::NodeKind;
use odata_filter_operations::{
    any_item_of, called_on_one, called_on_three, called_on_two, comparison_cost, cost_of_one,
    cost_of_three, cost_of_two, count_of, datum_of, datum_of_number, datum_of_truth, step,
};
use odata_functions::{compare, comparisons_are_decided, operands_lie_within_promotion};
use odata_signatures::{Function, calls_have_one_type, trees_have_one_type};
use odata_syntax::{BinaryOperator, ComparisonOperator};

/// What a node evaluates to: a stored value, which stays where it is, or one that is made.
#[cycle(evaluate)]
pub(crate) fn counted_at<'e, B: Counting>(
    context: &EvalContext<'e, '_, '_>,
    place: usize,
    budget: &mut B,
) -> Result<Datum<'e>, EvalStop>
    requires stands { OperandStands context.now place }
    ensures answers { CountedDatum context.now place result }
    ensures spent { SpendsAt context.now place (B.left budget.old) (B.left budget.new) (datum_stop result) }
{
    match walk_operand_at(context, place) {
        WalkOperand::Leaf(value) => Ok(datum_of(value)),
        WalkOperand::Logical => match truth_at(context, place, budget) {
            Ok(truth) => Ok(datum_of_truth(truth)),
            Err(stop) => Err(stop),
        },
        WalkOperand::Numeric => match number_at(context, place, budget) {
            Ok(number) => Ok(datum_of_number(number)),
            Err(stop) => Err(stop),
        },
        WalkOperand::Eager => eager_at(context, place, budget),
    }
}

/// The same, where a stored value is likely, which is taken at once.
#[cycle(evaluate)]
#[inline(always)]
pub(crate) fn likely_stored_at<'e, B: Counting>(
    context: &EvalContext<'e, '_, '_>,
    place: usize,
    budget: &mut B,
) -> Result<Datum<'e>, EvalStop>
    requires stands { OperandStands context.now place }
    ensures answers { CountedDatum context.now place result }
    ensures spent { SpendsAt context.now place (B.left budget.old) (B.left budget.new) (datum_stop result) }
{
    if let WalkOperand::Leaf(value) = walk_operand_at(context, place) {
        return Ok(datum_of(value));
    }
    counted_at(context, place, budget)
}

/// What a node evaluates to that takes the values of all its operands.
#[cycle(evaluate)]
pub(crate) fn eager_at<'e, B: Counting>(
    context: &EvalContext<'e, '_, '_>,
    place: usize,
    budget: &mut B,
) -> Result<Datum<'e>, EvalStop>
    requires stands { PartStands context.now place }
    requires eager { IsClassAt context.now.list WalkClass.Eager place }
    ensures answers { CountedDatum context.now place result }
    ensures spent { SpendsAt context.now place (B.left budget.old) (B.left budget.new) (datum_stop result) }
{
    let bottom = spine_bottom(context, place, WalkClass::Eager);
    let mut answer = likely_stored_at(context, bottom, budget);
    let mut at = bottom;
    while place < at {
        at -= 1;
        answer = made_at(context, at, answer, budget);
    }
    answer
}

/// What a node evaluates to that takes the values of all its operands, whose first operand has been answered.
#[cycle(evaluate)]
fn made_at<'e, B: Counting>(
    context: &EvalContext<'e, '_, '_>,
    place: usize,
    first: Result<Datum<'e>, EvalStop>,
    budget: &mut B,
) -> Result<Datum<'e>, EvalStop>
    requires stands { PartStands context.now place }
    requires eager { IsClassAt context.now.list WalkClass.Eager place }
    requires first { CountedDatum context.now (place + 1) first }
    ensures answers { CountedDatum context.now place result }
    ensures spent { SpendsRest context.now place (B.left budget.old) (datum_stop first.entry) (B.left budget.new)
        (datum_stop result) }
{
    context.ends_once();
    trees_have_one_type();
    let first = match first {
        Ok(first) => first,
        Err(before) => return Err(before),
    };
    match context.node(place).kind {
        NodeKind::Member { slot } => Ok(step(first, slot)),
        NodeKind::Call { function } => called_at(context, place, function, first, budget),
        NodeKind::Count => as_stop(count_of(first)),
        NodeKind::AnyItem => Ok(any_item_of(first)),
        NodeKind::Has => flags_at(context, place, &first, budget),
        NodeKind::InPath => among_at(context, place, &first, budget),
        NodeKind::InList => listed_at(context, place, &first, budget),
        NodeKind::Lambda { quantifier } => lambda_at(context, place, quantifier, first, budget),
        NodeKind::Binary {
            operator: BinaryOperator::Comparison(comparison),
        } => compared_at(context, place, comparison, first, budget),
        // The walk takes no other node by the values of its operands.
        _ => unreachable!(),
    }
}

/// What a comparison evaluates to.
#[cycle(evaluate)]
#[inline(never)]
fn compared_at<'e, B: Counting>(
    context: &EvalContext<'e, '_, '_>,
    place: usize,
    comparison: ComparisonOperator,
    left: Datum<'_>,
    budget: &mut B,
) -> Result<Datum<'e>, EvalStop>
    requires stands { PartStands context.now place }
    requires here { HasOperator context.now.list place (BinaryOperator.Comparison comparison) }
    requires left { AnswersDatum context.now (place + 1) (Ok left) }
    ensures answers { CountedDatum context.now place result }
    ensures spent { SpendsRest context.now place (B.left budget.old) None (B.left budget.new) (datum_stop result) }
{
    context.ends_once();
    operands_lie_within_promotion();
    comparisons_are_decided();
    let right_place = right_of(context, place);
    match likely_stored_at(context, right_place, budget) {
        Ok(right) => {
            if !budget.take(comparison_cost(&left, &right)) {
                return Err(EvalStop::TooCostly);
            }
            Ok(Datum::Bool(compare(comparison, &left, &right)))
        }
        Err(behind) => Err(behind),
    }
}

/// What a call evaluates to, whose first argument has been answered.
#[cycle(evaluate)]
#[inline(never)]
fn called_at<'e, B: Counting>(
    context: &EvalContext<'e, '_, '_>,
    place: usize,
    function: Function,
    first: Datum<'e>,
    budget: &mut B,
) -> Result<Datum<'e>, EvalStop>
    requires stands { PartStands context.now place }
    requires here { HasCall context.now.list place function }
    requires first { AnswersDatum context.now (place + 1) (Ok first) }
    ensures answers { CountedDatum context.now place result }
    ensures spent { SpendsRest context.now place (B.left budget.old) None (B.left budget.new) (datum_stop result) }
{
    context.ends_once();
    calls_have_one_type();
    let _nodes = context.nodes();
    let own_stop = stop_of(context, place);
    let second_place = stop_of(context, place + 1);
    if second_place == own_stop {
        if !budget.take(cost_of_one(function, &first)) {
            return Err(EvalStop::TooCostly);
        }
        return as_stop(called_on_one(context.alloc(), function, first));
    }
    let second = match likely_stored_at(context, second_place, budget) {
        Ok(second) => second,
        Err(further) => return Err(further),
    };
    let third_place = stop_of(context, second_place);
    if third_place == own_stop {
        if !budget.take(cost_of_two(function, &first, &second)) {
            return Err(EvalStop::TooCostly);
        }
        return as_stop(called_on_two(context.alloc(), function, first, second));
    }
    match likely_stored_at(context, third_place, budget) {
        Ok(third) => {
            if !budget.take(cost_of_three(&first, &second, &third)) {
                return Err(EvalStop::TooCostly);
            }
            as_stop(called_on_three(function, first, second, third))
        }
        Err(stop) => Err(stop),
    }
}
