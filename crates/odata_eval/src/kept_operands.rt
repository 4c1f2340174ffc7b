//! Operands of which no value is made: a step from a value that is kept, the length of a kept text, and kept texts that
//! are searched, of whose lower case only the start.
ghost use Rattle.std.specs.Prelude.{◌≡◌, ◌+◌, ℕ, IfSome, List, Ok, Some};
ghost use Rattle.odata_checked_filter.specs.declared.checked_node.NodeKind.{NodeKind as Kind};
ghost use Rattle.odata_eval.specs.private.KeptOperands.{AnswersCall, AnswersLast, AnswersLowered, AnswersText, IsPathAt};
ghost use Rattle.filter_context.specs.private.Place.{HasCall, HasKind, HasOperator, IsClassAt, OperandStands, PartStands};
ghost use Rattle.odata_eval.specs.private.WalkAnswer.{AnswersKept, AnswersNumber, AnswersTruth};
ghost use Rattle.filter_context.specs.declared.walk_class.WalkClass.{WalkClass as Class};

use super::eval_context::EvalContext;
use super::walk_operand::{right_of, stop_of};
use edm_values::{Datum, Value};
use odata_checked_filter::NodeKind;
use odata_filter_operations::{compare_kept, compare_numbers, datum_of, kept_number};
use odata_functions::{
    comparisons_are_decided, contains, ends_with, lower_starts_with, starts_with, text_length,
};
use odata_signatures::{Function, calls_have_one_type, trees_have_one_type};
use odata_syntax::{BinaryOperator, ComparisonOperator};

/// The value to which a path of at most one step from a property, a literal or a variable leads.
#[inline(always)]
fn kept_at<'e>(context: &EvalContext<'e, '_, '_>, place: usize) -> Option<&'e Value>
    requires { OperandStands context.now place }
    ensures answers { IfSome result (λ value. AnswersKept context.now place value.now) }
    ensures path { IfSome result (λ value. IsPathAt context.now.list place) }
{
    match context.node(place).kind {
        NodeKind::Member { slot } => step_at(context, place, slot),
        _ => found_at(context, place),
    }
}

/// The value of a property, a literal or a variable.
#[inline(always)]
fn found_at<'e>(context: &EvalContext<'e, '_, '_>, place: usize) -> Option<&'e Value>
    requires stands { OperandStands context.now place }
    ensures answers { IfSome result (λ value. AnswersKept context.now place value.now) }
    ensures leaf { IfSome result (λ value. IsClassAt context.now.list Class.Leaf place) }
{
    match context.node(place).kind {
        NodeKind::Variable { level } => Some(context.variable(level)),
        _ => plain_at(context, place),
    }
}

/// The value of a property or a literal, of a context that needs no address.
#[inline(always)]
fn plain_at<'e>(context: &EvalContext<'e, '_, '_>, place: usize) -> Option<&'e Value>
    requires stands { OperandStands context.now place }
    ensures answers { IfSome result (λ value. AnswersKept context.now place value.now) }
    ensures leaf { IfSome result (λ value. IsClassAt context.now.list Class.Leaf place) }
{
    let kind = context.node(place).kind;
    if let NodeKind::Literal { value, .. } = kind {
        return Some(context.literal(value));
    }
    if let NodeKind::Property { slot } = kind {
        return Some(context.property(slot));
    }
    None
}

/// What a kept record has in the slot of a step.
#[inline(always)]
fn step_at<'e>(context: &EvalContext<'e, '_, '_>, place: usize, slot: usize) -> Option<&'e Value>
    requires stands { PartStands context.now place }
    requires here { HasKind context.now.list place (Kind.Member slot) }
    ensures answers { IfSome result (λ value. AnswersKept context.now place value.now) }
    ensures base { IfSome result (λ value. IsClassAt context.now.list Class.Leaf (place + 1)) }
{
    trees_have_one_type();
    let _nodes = context.nodes();
    let Some(base) = found_at(context, place + 1) else {
        return None;
    };
    let fields = match datum_of(base) {
        Datum::Record(fields) => fields,
        _ => return None,
    };
    if slot >= fields.len() {
        return None;
    }
    Some(&fields[slot])
}

/// The kept text to which such a path leads.
#[inline(always)]
fn kept_text_at<'e>(context: &EvalContext<'e, '_, '_>, place: usize) -> Option<&'e str>
    requires { OperandStands context.now place }
    ensures { IfSome result (λ given. AnswersText context.now place given.now) }
{
    let Some(value) = kept_at(context, place) else {
        return None;
    };
    match value {
        Value::Text(text) => Some(text.as_str()),
        _ => None,
    }
}

/// The kept text that is the only argument of a call.
#[inline(always)]
fn only_text_at<'e>(
    context: &EvalContext<'e, '_, '_>,
    place: usize,
    function: Function,
) -> Option<&'e str>
    requires stands { PartStands context.now place }
    requires here { HasCall context.now.list place function }
    ensures { IfSome result (λ given. AnswersCall context.now place function given.now) }
{
    context.ends_once();
    calls_have_one_type();
    let _nodes = context.nodes();
    let own_stop = stop_of(context, place);
    if stop_of(context, place + 1) != own_stop {
        return None;
    }
    kept_text_at(context, place + 1)
}

/// The length of a kept text, where the call asks for that.
#[inline(always)]
fn length_at(
    context: &EvalContext<'_, '_, '_>,
    place: usize,
    function: Function,
) -> Option<Option<i64>>
    requires stands { PartStands context.now place }
    requires here { HasCall context.now.list place function }
    ensures { IfSome result (λ number. AnswersNumber context.now place (Ok number)) }
{
    match function {
        Function::Length => {}
        _ => return None,
    }
    let Some(text) = only_text_at(context, place, function) else {
        return None;
    };
    match text_length(text) {
        Ok(count) => Some(Some(count)),
        Err(_) => None,
    }
}

/// The kept text whose lower case is the value there.
#[inline(always)]
fn lowered_text_at<'e>(context: &EvalContext<'e, '_, '_>, place: usize) -> Option<&'e str>
    requires { OperandStands context.now place }
    ensures { IfSome result (λ given. AnswersLowered context.now place given.now) }
{
    let NodeKind::Call { function } = context.node(place).kind else {
        return None;
    };
    match function {
        Function::ToLower => only_text_at(context, place, function),
        _ => None,
    }
}

/// Whether a kept text contains another kept text, or begins or ends with it, and whether its lower case begins with
/// it, where the call asks for that.
#[inline(never)]
pub(crate) fn text_test_at(
    context: &EvalContext<'_, '_, '_>,
    place: usize,
    function: Function,
) -> Option<bool>
    requires stands { PartStands context.now place }
    requires here { HasCall context.now.list place function }
    ensures { IfSome result (λ truth. AnswersTruth context.now place (Ok (Some truth))) }
{
    let _nodes = context.nodes();
    if let Some(text) = kept_text_at(context, place + 1) {
        let Some(part) = last_text_at(context, place, function) else {
            return None;
        };
        return match function {
            Function::Contains => Some(contains(text, part)),
            Function::StartsWith => Some(starts_with(text, part)),
            Function::EndsWith => Some(ends_with(text, part)),
            _ => None,
        };
    }
    match function {
        Function::StartsWith => {}
        _ => return None,
    }
    let Some(text) = lowered_text_at(context, place + 1) else {
        return None;
    };
    let Some(part) = last_text_at(context, place, function) else {
        return None;
    };
    Some(lower_starts_with(text, part))
}

/// The kept text that is the second and last argument of a call.
#[inline(always)]
fn last_text_at<'e>(
    context: &EvalContext<'e, '_, '_>,
    place: usize,
    function: Function,
) -> Option<&'e str>
    requires stands { PartStands context.now place }
    requires here { HasCall context.now.list place function }
    requires first { (given : List ℕ) × AnswersText context.now (place + 1) given }
    ensures { IfSome result (λ part. AnswersLast context.now place function part.now) }
{
    context.ends_once();
    calls_have_one_type();
    let _nodes = context.nodes();
    let own_stop = stop_of(context, place);
    let second_place = stop_of(context, place + 1);
    if second_place == own_stop {
        return None;
    }
    if stop_of(context, second_place) != own_stop {
        return None;
    }
    kept_text_at(context, second_place)
}

/// The number of a property or a literal.
#[inline(always)]
pub(crate) fn found_number_at(
    context: &EvalContext<'_, '_, '_>,
    place: usize,
) -> Option<Option<i64>>
    requires stands { OperandStands context.now place }
    ensures answers { IfSome result (λ number. AnswersNumber context.now place (Ok number)) }
    ensures leaf { IfSome result (λ number. IsClassAt context.now.list Class.Leaf place) }
{
    let Some(value) = plain_at(context, place) else {
        return None;
    };
    match value {
        Value::Int(_) => Some(kept_number(value)),
        _ => None,
    }
}

/// Whether a comparison is true whose left operand is a step from a kept value, or the length of a kept text. What the
/// kind of the left operand rules out is not called.
#[inline(always)]
pub(crate) fn kept_compared_at(
    context: &EvalContext<'_, '_, '_>,
    place: usize,
    comparison: ComparisonOperator,
) -> Option<bool>
    requires stands { PartStands context.now place }
    requires here { HasOperator context.now.list place (BinaryOperator.Comparison comparison) }
    ensures { IfSome result (λ truth. AnswersTruth context.now place (Ok (Some truth))) }
{
    let _nodes = context.nodes();
    match context.node(place + 1).kind {
        NodeKind::Member { slot } => step_compared_at(context, place, comparison, slot),
        NodeKind::Call { function } => match function {
            Function::Length => length_compared_at(context, place, comparison, function),
            _ => None,
        },
        _ => None,
    }
}

/// The same, where a step from a kept value stands on the left.
#[inline(never)]
fn step_compared_at(
    context: &EvalContext<'_, '_, '_>,
    place: usize,
    comparison: ComparisonOperator,
    slot: usize,
) -> Option<bool>
    requires stands { PartStands context.now place }
    requires here { HasOperator context.now.list place (BinaryOperator.Comparison comparison) }
    requires step { HasKind context.now.list (place + 1) (Kind.Member slot) }
    ensures { IfSome result (λ truth. AnswersTruth context.now place (Ok (Some truth))) }
{
    context.ends_once();
    comparisons_are_decided();
    let right_place = right_of(context, place);
    let Some(left) = step_at(context, place + 1, slot) else {
        return None;
    };
    let Some(right) = kept_at(context, right_place) else {
        return None;
    };
    Some(compare_kept(comparison, left, right))
}

/// The same, where a call stands on the left.
#[inline(never)]
fn length_compared_at(
    context: &EvalContext<'_, '_, '_>,
    place: usize,
    comparison: ComparisonOperator,
    function: Function,
) -> Option<bool>
    requires stands { PartStands context.now place }
    requires here { HasOperator context.now.list place (BinaryOperator.Comparison comparison) }
    requires call { HasCall context.now.list (place + 1) function }
    ensures { IfSome result (λ truth. AnswersTruth context.now place (Ok (Some truth))) }
{
    let right_place = right_of(context, place);
    let Some(left) = length_at(context, place + 1, function) else {
        return None;
    };
    let Some(right) = found_number_at(context, right_place) else {
        return None;
    };
    Some(compare_numbers(comparison, left, right))
}
