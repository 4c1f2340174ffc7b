//! What stands at an index of a filter's list.
ghost use Rattle.std.specs.Prelude.{◌≡◌, ◌<◌, ◌≤◌, ◌↔◌, ℕ, IfNone, IfSome, IsTrue, length};

use super::eval_context::EvalContext;
use edm_values::Value;
use filter_context::{WalkClass, walk_of_kind};
use odata_checked_filter::NodeKind;
use odata_syntax::{ArithmeticOperator, BinaryOperator, LogicalOperator};

/// What a node is to the walk.
#[derive(Clone, Copy)]
pub(crate) enum WalkOperand<'e> {
    /// A literal, `$it`, `now()`, a variable or a property, with its value.
    Leaf(&'e Value),
    /// A node of truth values: a logical operator or `not`.
    Logical,
    /// A node of numbers: an arithmetic operator or `-`.
    Numeric,
    /// Any other node with operands.
    Eager,
}

ghost use Rattle.filter_context.specs.private.Place.{IsClassAt, IsRightOf, IsStopOf, OperandStands};
ghost use Rattle.odata_eval.specs.private.WalkAnswer.{AnswersKept, IsWalkOperand};

/// The logical operator of a node of this kind. `None` where it has none.
#[inline(always)]
pub(crate) fn logical_operator(kind: NodeKind) -> Option<LogicalOperator>
    ensures some { IfSome result (λ o. kind ≡ NodeKind.Binary (BinaryOperator.Logical o)) }
    ensures none { IfNone result ((o : LogicalOperator) → ¬ (kind ≡ NodeKind.Binary (BinaryOperator.Logical o))) }
{
    match kind {
        NodeKind::Binary { operator } => match operator {
            BinaryOperator::Logical(logical) => Some(logical),
            BinaryOperator::Comparison(_) => None,
            BinaryOperator::Arithmetic(_) => None,
        },
        _ => None,
    }
}

/// The arithmetic operator of a node of this kind. `None` where it has none.
#[inline(always)]
pub(crate) fn arithmetic_operator(kind: NodeKind) -> Option<ArithmeticOperator>
    ensures some { IfSome result (λ o. kind ≡ NodeKind.Binary (BinaryOperator.Arithmetic o)) }
    ensures none { IfNone result ((o : ArithmeticOperator) → ¬ (kind ≡ NodeKind.Binary (BinaryOperator.Arithmetic o))) }
{
    match kind {
        NodeKind::Binary { operator } => match operator {
            BinaryOperator::Arithmetic(arithmetic) => Some(arithmetic),
            BinaryOperator::Logical(_) => None,
            BinaryOperator::Comparison(_) => None,
        },
        _ => None,
    }
}

/// What stands at an index. Most often it is a property, a literal or a variable.
#[inline(always)]
pub(crate) fn walk_operand_at<'e>(
    context: &EvalContext<'e, '_, '_>,
    place: usize,
) -> WalkOperand<'e>
    requires stands { OperandStands context.now place }
    ensures { IsWalkOperand context.now place result }
{
    let kind = context.node(place).kind;
    if let NodeKind::Property { slot } = kind {
        return WalkOperand::Leaf(context.property(slot));
    }
    if let NodeKind::Literal { value, .. } = kind {
        return WalkOperand::Leaf(context.literal(value));
    }
    if let NodeKind::Variable { level } = kind {
        return WalkOperand::Leaf(context.variable(level));
    }
    match walk_of_kind(kind) {
        WalkClass::Leaf => WalkOperand::Leaf(leaf_at(context, place)),
        WalkClass::Logical => WalkOperand::Logical,
        WalkClass::Numeric => WalkOperand::Numeric,
        WalkClass::Eager => WalkOperand::Eager,
    }
}

/// The value of a node without operands. One that is none of the others is `$it`.
fn leaf_at<'e>(context: &EvalContext<'e, '_, '_>, place: usize) -> &'e Value
    requires stands { OperandStands context.now place }
    requires leaf { IsClassAt context.now.list WalkClass.Leaf place }
    ensures { AnswersKept context.now place result.now }
{
    match context.node(place).kind {
        NodeKind::Literal { value, .. } => context.literal(value),
        NodeKind::Now => context.now_value(),
        NodeKind::Property { slot } => context.property(slot),
        NodeKind::Variable { level } => context.variable(level),
        _ => context.value(),
    }
}

/// Whether the walk takes the node at an index so. There is none past the end.
#[inline(always)]
pub(crate) fn is_class_at(context: &EvalContext<'_, '_, '_>, place: usize, class: WalkClass) -> bool
    ensures { IsTrue result ↔ IsClassAt context.now.list class place }
{
    match context.nodes().get(place) {
        Some(node) => walk_of_kind(node.kind) == class,
        None => false,
    }
}

/// The index of the first node from an index on that the walk does not take so. In pre-order these nodes are the left
/// spine of a tree: each but the first is the first operand of the one before.
#[inline(always)]
pub(crate) fn spine_bottom(context: &EvalContext<'_, '_, '_>, top: usize, class: WalkClass) -> usize
    ensures below { top ≤ result }
    ensures spine { (k : ℕ) → k < result → top ≤ k → IsClassAt context.now.list class k }
    ensures bottom { ¬ IsClassAt context.now.list class result }
{
    let count = context.nodes().len();
    let mut place = top;
    while place < count && is_class_at(context, place, class) {
        place += 1;
    }
    place
}

/// The index of a node's second child, where its first one stops.
pub(crate) fn right_of(context: &EvalContext<'_, '_, '_>, place: usize) -> usize
    requires { (right : ℕ) × IsRightOf context.now.list place right }
    ensures { IsRightOf context.now.list place result }
{
    let nodes = context.nodes();
    nodes[place + 1].stop
}

/// The index after a node and its descendants.
pub(crate) fn stop_of(context: &EvalContext<'_, '_, '_>, place: usize) -> usize
    requires { place < length context.now.list.nodes }
    ensures { IsStopOf context.now.list place result }
{
    context.node(place).stop
}
