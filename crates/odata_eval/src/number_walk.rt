//! The walk of a filter's list where numbers are taken: of arithmetic, and of `-`.
ghost use Rattle.std.specs.Prelude.{◌≡◌, ◌+◌, None, Ok};
ghost use Rattle.filter_context.specs.private.Place.{HasOperator, IsClassAt, NumberStands, PartStands};
ghost use Rattle.odata_eval.specs.private.Spending.{CountedNumber, SpendsAt, SpendsRest, stopped_by};
ghost use Rattle.odata_eval.specs.private.WalkAnswer.{AnswersNumber};

use super::budget::{Counting, number_stop};
use super::datum_walk::counted_at;
use super::eval_context::EvalContext;
use super::stop::EvalStop;
use super::walk_operand::{
    WalkOperand, arithmetic_operator, is_class_at, right_of, spine_bottom, walk_operand_at,
};
use filter_context::WalkClass;
use odata_filter_operations::{calculated, kept_number, negated, number_of};
use odata_functions::operands_lie_within_promotion;
use odata_signatures::trees_have_one_type;
use odata_syntax::{ArithmeticOperator, BinaryOperator};

/// What a node of numbers evaluates to.
#[cycle(evaluate)]
pub(crate) fn number_at<B: Counting>(
    context: &EvalContext<'_, '_, '_>,
    place: usize,
    budget: &mut B,
) -> Result<Option<i64>, EvalStop>
    requires stands { PartStands context.now place }
    requires numeric { IsClassAt context.now.list WalkClass.Numeric place }
    ensures answers { CountedNumber context.now place result }
    ensures spent { SpendsAt context.now place (B.left budget.old) (B.left budget.new) (stopped_by result) }
{
    let bottom = spine_bottom(context, place, WalkClass::Numeric);
    let mut answer = number_operand_at(context, bottom, budget);
    let mut at = bottom;
    while place < at {
        at -= 1;
        answer = numeric_at(context, at, answer, budget);
    }
    answer
}

/// What a node of a number type or Null evaluates to, where a stored value is likely.
#[cycle(evaluate)]
#[inline(always)]
fn number_operand_at<B: Counting>(
    context: &EvalContext<'_, '_, '_>,
    place: usize,
    budget: &mut B,
) -> Result<Option<i64>, EvalStop>
    requires stands { NumberStands context.now place }
    ensures answers { CountedNumber context.now place result }
    ensures spent { SpendsAt context.now place (B.left budget.old) (B.left budget.new) (stopped_by result) }
{
    context.ends_once();
    match walk_operand_at(context, place) {
        WalkOperand::Leaf(value) => Ok(kept_number(value)),
        _ => made_number_at(context, place, budget),
    }
}

/// The same, of a node whose value is made.
#[cycle(evaluate)]
fn made_number_at<B: Counting>(
    context: &EvalContext<'_, '_, '_>,
    place: usize,
    budget: &mut B,
) -> Result<Option<i64>, EvalStop>
    requires stands { NumberStands context.now place }
    ensures answers { CountedNumber context.now place result }
    ensures spent { SpendsAt context.now place (B.left budget.old) (B.left budget.new) (stopped_by result) }
{
    context.ends_once();
    if is_class_at(context, place, WalkClass::Numeric) {
        return number_at(context, place, budget);
    }
    match counted_at(context, place, budget) {
        Ok(value) => Ok(number_of(&value)),
        Err(stop) => Err(stop),
    }
}

/// What a node of numbers evaluates to, whose first operand has been answered.
#[cycle(evaluate)]
#[inline(always)]
fn numeric_at<B: Counting>(
    context: &EvalContext<'_, '_, '_>,
    place: usize,
    first: Result<Option<i64>, EvalStop>,
    budget: &mut B,
) -> Result<Option<i64>, EvalStop>
    requires stands { PartStands context.now place }
    requires numeric { IsClassAt context.now.list WalkClass.Numeric place }
    requires first { CountedNumber context.now (place + 1) first }
    ensures answers { CountedNumber context.now place result }
    ensures spent { SpendsRest context.now place (B.left budget.old) (stopped_by first) (B.left budget.new)
        (stopped_by result) }
{
    context.ends_once();
    trees_have_one_type();
    operands_lie_within_promotion();
    let first = match first {
        Ok(first) => first,
        Err(stop) => return Err(stop),
    };
    let node = context.node(place);
    match arithmetic_operator(node.kind) {
        Some(operator) => calculated_at(context, place, operator, first, budget),
        None => number_stop(negated(&node.edm_type, first)),
    }
}

/// What an arithmetic operator evaluates to.
#[cycle(evaluate)]
#[inline(always)]
fn calculated_at<B: Counting>(
    context: &EvalContext<'_, '_, '_>,
    place: usize,
    operator: ArithmeticOperator,
    left: Option<i64>,
    budget: &mut B,
) -> Result<Option<i64>, EvalStop>
    requires stands { PartStands context.now place }
    requires here { HasOperator context.now.list place (BinaryOperator.Arithmetic operator) }
    requires left { AnswersNumber context.now (place + 1) (Ok left) }
    ensures answers { CountedNumber context.now place result }
    ensures spent { SpendsRest context.now place (B.left budget.old) None (B.left budget.new) (stopped_by result) }
{
    context.ends_once();
    trees_have_one_type();
    operands_lie_within_promotion();
    let node = context.node(place);
    match number_operand_at(context, right_of(context, place), budget) {
        Ok(right) => number_stop(calculated(operator, &node.edm_type, left, right)),
        Err(stop) => Err(stop),
    }
}
