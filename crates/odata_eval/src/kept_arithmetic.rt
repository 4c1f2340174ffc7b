//! Comparisons of arithmetic over stored numbers: what most filters have of it, without a call and without a fault.
ghost use Rattle.std.specs.Prelude.{◌+◌, IfSome, Ok, Some};
ghost use Rattle.filter_context.specs.declared.walk_class.WalkClass.{WalkClass as Class};
ghost use Rattle.filter_context.specs.private.Place.{HasOperator, IsClassAt, PartStands};
ghost use Rattle.odata_eval.specs.private.WalkAnswer.{AnswersNumber, AnswersTruth};

use super::eval_context::EvalContext;
use super::kept_operands::found_number_at;
use super::walk_operand::{arithmetic_operator, right_of, spine_bottom};
use filter_context::WalkClass;
use odata_filter_operations::{calculated, compare_numbers};
use odata_functions::operands_lie_within_promotion;
use odata_signatures::trees_have_one_type;
use odata_syntax::{BinaryOperator, ComparisonOperator};

/// Whether a comparison is true whose left operand is arithmetic over stored numbers, and whose right one is a stored
/// number. Such operators, each the first operand of the one before, are applied from the last one on.
#[inline(always)]
pub(crate) fn arithmetic_compared_at(
    context: &EvalContext<'_, '_, '_>,
    place: usize,
    comparison: ComparisonOperator,
) -> Option<bool>
    requires stands { PartStands context.now place }
    requires here { HasOperator context.now.list place (BinaryOperator.Comparison comparison) }
    requires numeric { IsClassAt context.now.list Class.Numeric (place + 1) }
    ensures { IfSome result (λ truth. AnswersTruth context.now place (Ok (Some truth))) }
{
    let right_place = right_of(context, place);
    let Some(right) = found_number_at(context, right_place) else {
        return None;
    };
    let _nodes = context.nodes();
    let top = place + 1;
    let bottom = spine_bottom(context, top + 1, WalkClass::Numeric);
    let Some(first) = found_number_at(context, bottom) else {
        return None;
    };
    let mut number = first;
    let mut at = bottom;
    while top < at {
        at -= 1;
        let Some(next) = calculation_at(context, at, number) else {
            return None;
        };
        number = next;
    }
    Some(compare_numbers(comparison, number, right))
}

/// What an arithmetic operator evaluates to, whose first operand has been answered.
#[inline(always)]
fn calculation_at(
    context: &EvalContext<'_, '_, '_>,
    place: usize,
    left: Option<i64>,
) -> Option<Option<i64>>
    requires stands { PartStands context.now place }
    requires left { AnswersNumber context.now (place + 1) (Ok left) }
    ensures { IfSome result (λ number. AnswersNumber context.now place (Ok number)) }
{
    context.ends_once();
    trees_have_one_type();
    operands_lie_within_promotion();
    let node = context.node(place);
    let Some(operator) = arithmetic_operator(node.kind) else {
        return None;
    };
    let right_place = right_of(context, place);
    let Some(right) = found_number_at(context, right_place) else {
        return None;
    };
    match calculated(operator, &node.edm_type, left, right) {
        Ok(number) => { if number.is_some() { Some(number) } else { None } }
        Err(_) => None,
    }
}
