//! Plain terms: a Boolean property, and a comparison of a property with a literal.
ghost use Rattle.std.specs.Prelude.{◌+◌, IfSome, Ok, Some};
ghost use Rattle.odata_checked_filter.specs.declared.checked_node.NodeKind.{NodeKind as Kind};
ghost use Rattle.filter_context.specs.private.Place.{HasKind, HasOperator, IsRightOf, OperandStands, PartStands, TruthStands};
ghost use Rattle.odata_eval.specs.private.WalkAnswer.{AnswersTruth};

use super::eval_context::EvalContext;
use odata_checked_filter::NodeKind;
use odata_filter_operations::{compare_kept, kept_truth};
use odata_functions::comparisons_are_decided;
use odata_syntax::{BinaryOperator, ComparisonOperator};

/// The truth value of a Boolean property, where that is not null, and of a comparison of a property with a literal.
#[inline(always)]
pub(crate) fn kept_truth_at(context: &EvalContext<'_, '_, '_>, place: usize) -> Option<bool>
    requires stands { TruthStands context.now place }
    ensures { IfSome result (λ truth. AnswersTruth context.now place (Ok (Some truth))) }
{
    context.ends_once();
    match context.node(place).kind {
        NodeKind::Property { slot } => kept_truth(context.property(slot)),
        NodeKind::Binary { operator } => match operator {
            BinaryOperator::Comparison(comparison) => {
                compared_with_literal(context, place, comparison)
            }
            _ => None,
        },
        _ => None,
    }
}

/// Whether a comparison of a property with a literal is true.
#[inline(always)]
pub(crate) fn compared_with_literal(
    context: &EvalContext<'_, '_, '_>,
    place: usize,
    comparison: ComparisonOperator,
) -> Option<bool>
    requires stands { PartStands context.now place }
    requires here { HasOperator context.now.list place (BinaryOperator.Comparison comparison) }
    ensures { IfSome result (λ truth. AnswersTruth context.now place (Ok (Some truth))) }
{
    context.ends_once();
    comparisons_are_decided();
    let _nodes = context.nodes();
    let slot = match context.node(place + 1).kind {
        NodeKind::Property { slot } => slot,
        _ => return None,
    };
    let left = context.property(slot);
    let right_place = right_of_property(context, place, slot);
    let right = match context.node(right_place).kind {
        NodeKind::Literal { value, .. } => context.literal(value),
        _ => return None,
    };
    Some(compare_kept(comparison, left, right))
}

/// The index of a node's second child, where the first one is a property, which has no children.
#[inline(always)]
fn right_of_property(context: &EvalContext<'_, '_, '_>, place: usize, slot: usize) -> usize
    requires stands { OperandStands context.now (place + 1) }
    requires here { HasKind context.now.list (place + 1) (Kind.Property slot) }
    ensures { IsRightOf context.now.list place result }
{
    let _nodes = context.nodes();
    place + 2
}
