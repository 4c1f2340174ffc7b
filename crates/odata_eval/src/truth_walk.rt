//! The walk of a filter's list: each function goes by the index of a node. A chain of nodes, each the first operand of
//! the one before, lies in the list as nodes one after another, so the walk goes down it to its first value and up
//! again by counting, and long chains take no stack. Here it answers truth values, and `datum_walk.rt` values of any
//! type.
//!
//! What is asked at each node is marked to be inlined, so that an answer is not passed on through memory.
ghost use Rattle.std.specs.Prelude.{◌+◌, None, Ok};
ghost use Rattle.filter_context.specs.private.Place.{HasCall, HasOperator, IsClassAt, PartStands, TruthStands};
ghost use Rattle.odata_eval.specs.private.Spending.{CountedTruth, SpendsAt, SpendsRest, stopped_by};
ghost use Rattle.odata_eval.specs.private.WalkAnswer.{AnswersTruth};

use super::budget::{Counting, Unbounded, fault_of};
use super::datum_walk::eager_at;
use super::eval_context::EvalContext;
use super::kept_arithmetic::arithmetic_compared_at;
use super::kept_operands::{kept_compared_at, text_test_at};
use super::kept_terms::kept_truth_at;
use super::logical::{decides, join};
use super::number_walk::number_at;
use super::stop::EvalStop;
use super::walk_operand::{
    WalkOperand, is_class_at, logical_operator, right_of, spine_bottom, stop_of, walk_operand_at,
};
use edm_values::Value;
use filter_context::WalkClass;
use odata_checked_filter::NodeKind;
use odata_filter_operations::{
    EvalFault, called_on_two, compare_kept, compare_numbers, cost_of_two, datum_of,
    datum_of_number, kept_truth, stored_cost, truth_of,
};
use odata_functions::{comparisons_are_decided, not3};
use odata_signatures::{Function, calls_have_one_type};
use odata_syntax::{BinaryOperator, ComparisonOperator, LogicalOperator};

/// What a node of type Boolean or Null evaluates to on an entity of the filtered type.
#[cycle(evaluate)]
pub(crate) fn truth_at<B: Counting>(
    context: &EvalContext<'_, '_, '_>,
    place: usize,
    budget: &mut B,
) -> Result<Option<bool>, EvalStop>
    requires stands { TruthStands context.now place }
    ensures answers { CountedTruth context.now place result }
    ensures spent { SpendsAt context.now place (B.left budget.old) (B.left budget.new) (stopped_by result) }
{
    let bottom = spine_bottom(context, place, WalkClass::Logical);
    let mut answer = plain_truth_at(context, bottom, budget);
    let mut at = bottom;
    while place < at {
        at -= 1;
        answer = logical_at(context, at, answer, budget);
    }
    answer
}

/// The same, of a node that is none of truth values.
#[cycle(evaluate)]
#[inline(always)]
fn plain_truth_at<B: Counting>(
    context: &EvalContext<'_, '_, '_>,
    place: usize,
    budget: &mut B,
) -> Result<Option<bool>, EvalStop>
    requires stands { TruthStands context.now place }
    requires plain { ¬ IsClassAt context.now.list WalkClass.Logical place }
    ensures answers { CountedTruth context.now place result }
    ensures spent { SpendsAt context.now place (B.left budget.old) (B.left budget.new) (stopped_by result) }
{
    context.ends_once();
    if let NodeKind::Binary { operator } = context.node(place).kind {
        if let BinaryOperator::Comparison(comparison) = operator {
            return compared_truth_at(context, place, comparison, budget);
        }
    }
    if let NodeKind::Call { function } = context.node(place).kind {
        if !B::is_counting() {
            if let Some(truth) = text_test_at(context, place, function) {
                return Ok(Some(truth));
            }
        }
        return called_truth_at(context, place, function, budget);
    }
    match walk_operand_at(context, place) {
        WalkOperand::Leaf(value) => Ok(kept_truth(value)),
        WalkOperand::Numeric => numeric_truth_at(context, place, budget),
        // It takes the values of its operands, since it is none of truth values.
        _ => made_truth_at(context, place, budget),
    }
}

/// The same, of a comparison.
#[cycle(evaluate)]
#[inline(always)]
fn compared_truth_at<B: Counting>(
    context: &EvalContext<'_, '_, '_>,
    place: usize,
    comparison: ComparisonOperator,
    budget: &mut B,
) -> Result<Option<bool>, EvalStop>
    requires stands { TruthStands context.now place }
    requires here { HasOperator context.now.list place (BinaryOperator.Comparison comparison) }
    ensures answers { CountedTruth context.now place result }
    ensures spent { SpendsAt context.now place (B.left budget.old) (B.left budget.new) (stopped_by result) }
{
    context.ends_once();
    comparisons_are_decided();
    let right_place = right_of(context, place);
    match walk_operand_at(context, place + 1) {
        WalkOperand::Leaf(left) => match walk_operand_at(context, right_place) {
            WalkOperand::Leaf(right) => {
                if !budget.take(stored_cost(left, right)) {
                    return Err(EvalStop::TooCostly);
                }
                Ok(Some(compare_kept(comparison, left, right)))
            }
            _ => made_truth_at(context, place, budget),
        },
        WalkOperand::Numeric => {
            if !B::is_counting() {
                if let Some(truth) = arithmetic_compared_at(context, place, comparison) {
                    return Ok(Some(truth));
                }
            }
            numbers_truth_at(context, place, comparison, budget)
        }
        _ => {
            if !B::is_counting() {
                if let Some(truth) = kept_compared_at(context, place, comparison) {
                    return Ok(Some(truth));
                }
            }
            made_truth_at(context, place, budget)
        }
    }
}

/// The same, of a comparison whose left side is a node of numbers.
#[cycle(evaluate)]
#[inline(never)]
fn numbers_truth_at<B: Counting>(
    context: &EvalContext<'_, '_, '_>,
    place: usize,
    comparison: ComparisonOperator,
    budget: &mut B,
) -> Result<Option<bool>, EvalStop>
    requires stands { TruthStands context.now place }
    requires here { HasOperator context.now.list place (BinaryOperator.Comparison comparison) }
    requires numeric { IsClassAt context.now.list WalkClass.Numeric (place + 1) }
    ensures answers { CountedTruth context.now place result }
    ensures spent { SpendsAt context.now place (B.left budget.old) (B.left budget.new) (stopped_by result) }
{
    context.ends_once();
    let right_place = right_of(context, place);
    match walk_operand_at(context, right_place) {
        WalkOperand::Leaf(value) => match value {
            Value::Int(right) => match number_at(context, place + 1, budget) {
                Ok(left) => Ok(Some(compare_numbers(comparison, left, Some(*right)))),
                Err(stop) => Err(stop),
            },
            _ => made_truth_at(context, place, budget),
        },
        WalkOperand::Numeric => {
            let left = match number_at(context, place + 1, budget) {
                Ok(left) => left,
                Err(stop) => return Err(stop),
            };
            match number_at(context, right_place, budget) {
                Ok(right) => Ok(Some(compare_numbers(comparison, left, right))),
                Err(stop) => Err(stop),
            }
        }
        _ => made_truth_at(context, place, budget),
    }
}

/// The same, of a call. Two stored values are taken where they are.
#[cycle(evaluate)]
#[inline(never)]
fn called_truth_at<B: Counting>(
    context: &EvalContext<'_, '_, '_>,
    place: usize,
    function: Function,
    budget: &mut B,
) -> Result<Option<bool>, EvalStop>
    requires stands { TruthStands context.now place }
    requires here { HasCall context.now.list place function }
    ensures answers { CountedTruth context.now place result }
    ensures spent { SpendsAt context.now place (B.left budget.old) (B.left budget.new) (stopped_by result) }
{
    context.ends_once();
    calls_have_one_type();
    let _nodes = context.nodes();
    let own_stop = stop_of(context, place);
    let first = match walk_operand_at(context, place + 1) {
        WalkOperand::Leaf(value) => datum_of(value),
        _ => return made_truth_at(context, place, budget),
    };
    let second_place = stop_of(context, place + 1);
    if second_place == own_stop {
        return made_truth_at(context, place, budget);
    }
    if stop_of(context, second_place) != own_stop {
        return made_truth_at(context, place, budget);
    }
    let second = match walk_operand_at(context, second_place) {
        WalkOperand::Leaf(value) => datum_of(value),
        _ => return made_truth_at(context, place, budget),
    };
    if !budget.take(cost_of_two(function, &first, &second)) {
        return Err(EvalStop::TooCostly);
    }
    match called_on_two(context.alloc(), function, first, second) {
        Ok(value) => Ok(truth_of(&value)),
        Err(fault) => Err(EvalStop::Fault(fault)),
    }
}

/// The same, of a node of numbers.
#[cycle(evaluate)]
fn numeric_truth_at<B: Counting>(
    context: &EvalContext<'_, '_, '_>,
    place: usize,
    budget: &mut B,
) -> Result<Option<bool>, EvalStop>
    requires stands { TruthStands context.now place }
    requires numeric { IsClassAt context.now.list WalkClass.Numeric place }
    ensures answers { CountedTruth context.now place result }
    ensures spent { SpendsAt context.now place (B.left budget.old) (B.left budget.new) (stopped_by result) }
{
    context.ends_once();
    match number_at(context, place, budget) {
        Ok(number) => Ok(truth_of(&datum_of_number(number))),
        Err(stop) => Err(stop),
    }
}

/// The same, of a node that takes the values of all its operands.
#[cycle(evaluate)]
pub(crate) fn made_truth_at<B: Counting>(
    context: &EvalContext<'_, '_, '_>,
    place: usize,
    budget: &mut B,
) -> Result<Option<bool>, EvalStop>
    requires stands { TruthStands context.now place }
    requires eager { IsClassAt context.now.list WalkClass.Eager place }
    ensures answers { CountedTruth context.now place result }
    ensures spent { SpendsAt context.now place (B.left budget.old) (B.left budget.new) (stopped_by result) }
{
    context.ends_once();
    match eager_at(context, place, budget) {
        Ok(value) => Ok(truth_of(&value)),
        Err(stop) => Err(stop),
    }
}

/// What a node of truth values evaluates to, whose first operand has been answered.
#[cycle(evaluate)]
fn logical_at<B: Counting>(
    context: &EvalContext<'_, '_, '_>,
    place: usize,
    first: Result<Option<bool>, EvalStop>,
    budget: &mut B,
) -> Result<Option<bool>, EvalStop>
    requires stands { PartStands context.now place }
    requires logical { IsClassAt context.now.list WalkClass.Logical place }
    requires first { CountedTruth context.now (place + 1) first }
    ensures answers { CountedTruth context.now place result }
    ensures spent { SpendsRest context.now place (B.left budget.old) (stopped_by first) (B.left budget.new)
        (stopped_by result) }
{
    context.ends_once();
    let first = match first {
        Ok(first) => first,
        Err(stop) => return Err(stop),
    };
    match logical_operator(context.node(place).kind) {
        Some(operator) => connected_at(context, place, operator, first, budget),
        None => Ok(not3(first)),
    }
}

/// The same as `truth_at`, where no chain is likely: a node that is none of truth values is taken at once.
#[cycle(evaluate)]
#[inline(always)]
pub(crate) fn side_at<B: Counting>(
    context: &EvalContext<'_, '_, '_>,
    place: usize,
    budget: &mut B,
) -> Result<Option<bool>, EvalStop>
    requires stands { TruthStands context.now place }
    ensures answers { CountedTruth context.now place result }
    ensures spent { SpendsAt context.now place (B.left budget.old) (B.left budget.new) (stopped_by result) }
{
    if is_class_at(context, place, WalkClass::Logical) {
        truth_at(context, place, budget)
    } else {
        plain_truth_at(context, place, budget)
    }
}

/// The same, where nothing is counted: a term of a chain, of a filter that is evaluated without a bound.
#[tactic(auto, using(crate::proofs::spending::Stops::unbounded_truth, crate::proofs::spending::Stops::unbounded_datum))]
#[inline(always)]
pub(crate) fn term_at(
    context: &EvalContext<'_, '_, '_>,
    place: usize,
) -> Result<Option<bool>, EvalFault>
    requires stands { TruthStands context.now place }
    ensures { AnswersTruth context.now place result }
{
    context.costs_once();
    let mut unbounded = Unbounded;
    match side_at(context, place, &mut unbounded) {
        Ok(truth) => Ok(truth),
        Err(stop) => Err(fault_of(stop)),
    }
}

/// What a logical operator evaluates to. The right side of a decided one is left out.
#[cycle(evaluate)]
fn connected_at<B: Counting>(
    context: &EvalContext<'_, '_, '_>,
    place: usize,
    operator: LogicalOperator,
    left: Option<bool>,
    budget: &mut B,
) -> Result<Option<bool>, EvalStop>
    requires stands { PartStands context.now place }
    requires here { HasOperator context.now.list place (BinaryOperator.Logical operator) }
    requires left { AnswersTruth context.now (place + 1) (Ok left) }
    ensures answers { CountedTruth context.now place result }
    ensures spent { SpendsRest context.now place (B.left budget.old) None (B.left budget.new) (stopped_by result) }
{
    context.ends_once();
    if decides(operator, left) {
        return Ok(left);
    }
    let right_place = right_of(context, place);
    if !B::is_counting() {
        if let Some(right) = kept_truth_at(context, right_place) {
            return Ok(join(operator, left, Some(right)));
        }
    }
    match side_at(context, right_place, budget) {
        Ok(right) => Ok(join(operator, left, right)),
        Err(stop) => Err(stop),
    }
}
