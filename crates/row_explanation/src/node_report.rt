//! What is reported of single nodes of a filter on an entity.
ghost use Rattle.std.specs.Prelude.{◌≡◌, ◌≢◌, ◌+◌, ◌<◌, IfNone, IfOk, IfSome, false, length, option_map, slice_get, true};
ghost use Rattle.odata_checked_filter.specs.declared.checked_node.NodeKind.{NodeKind as Kind};
ghost use Rattle.odata_eval.specs.NodeOutcome.{IsEvaluation};
ghost use Rattle.odata_filter_operations.specs.declared.eval_fault.EvalFault.{EvalFault as Fault};
ghost use Rattle.odata_syntax.specs.declared.binary_operator.BinaryOperator.{BinaryOperator as Operator};
ghost use Rattle.odata_syntax.specs.declared.binary_operator.LogicalOperator.{LogicalOperator as Logical};
ghost use Rattle.row_explanation.specs.NodeReports.{DecidesHere, UndecidedHere, decides_by};
ghost use Rattle.row_explanation.specs.NodeReports.{IsAfterStop, IsDecidedAround, IsLeftOut, IsReached, IsUndecidedAround, SaysOf};

use edm_values::Datum;
use odata_eval::{EvalFault, Evaluation, evaluate_node};
use odata_syntax::{BinaryOperator, LogicalOperator};
use odata_typing::{Checked, CheckedNode, NodeKind};
use std::alloc::{AllocError, Global};

/// What is reported of a node on an entity.
#[derive(Drop)]
pub enum NodeReport<'e> {
    /// It has this value.
    Value(Datum<'e>),
    /// It has an arithmetic fault.
    Fault(EvalFault),
    /// It lies in the body of an `any` or `all`, and has a value for each member.
    InBody,
    /// It is not evaluated.
    LeftOut,
}

/// The node at an index.
pub(crate) fn node_at<'n>(filter: &'n Checked<'_>, index: usize) -> Option<&'n CheckedNode>
    ensures { option_map (λ found. found.now) result ≡ slice_get filter.entry.now.list.nodes index }
{
    filter.nodes().get(index)
}

/// Whether the fault is that an allocation failed.
pub(crate) fn is_memory(fault: EvalFault) -> bool
    ensures { result ≡ false → fault ≢ Fault.Memory }
{
    matches!(fault, EvalFault::Memory)
}

/// Whether a value of the first operand decides a logical operator.
fn decides_by(operator: LogicalOperator, value: &Datum<'_>) -> bool
    ensures { result ≡ decides_by value.now operator }
{
    match value {
        Datum::Bool(truth) => match operator {
            LogicalOperator::And => !*truth,
            LogicalOperator::Or => *truth,
        },
        _ => false,
    }
}

/// Whether the operand at an index decides its logical operator, which it is the first operand of.
fn decides(
    alloc: Global,
    evaluation: &Evaluation<'_, '_, '_>,
    index: usize,
    operator: LogicalOperator,
) -> Result<bool, AllocError>
    requires is { IsEvaluation evaluation.now.filter.now evaluation.now.entity.now evaluation.now.moment.now
        evaluation.now.moment_value.now }
    ensures decides { IfOk result (λ is. is ≡ true → DecidesHere evaluation.now.entity.now
        evaluation.now.moment.now evaluation.now.filter.now.list index operator) }
    ensures undecided { IfOk result (λ is. is ≡ false → UndecidedHere evaluation.now.entity.now
        evaluation.now.moment.now evaluation.now.filter.now.list index operator) }
{
    let value = match evaluate_node(alloc, evaluation, index) {
        Ok(Some(value)) => value,
        Ok(None) => return Ok(false),
        Err(fault) => {
            if is_memory(fault) {
                return Err(AllocError);
            }
            return Ok(true);
        }
    };
    Ok(decides_by(operator, &value))
}

/// The logical operator of a node; `None` of a node that is none.
fn logical_operator(kind: NodeKind) -> Option<LogicalOperator>
    ensures some { IfSome result (λ operator. kind ≡ Kind.Binary (Operator.Logical operator)) }
    ensures none { IfNone result ((operator : Logical) → kind ≢ Kind.Binary (Operator.Logical operator)) }
{
    match kind {
        NodeKind::Binary { operator } => match operator {
            BinaryOperator::Logical(logical) => Some(logical),
            _ => None,
        },
        _ => None,
    }
}

/// Whether the node lies in the second operand of the logical operator at an index, and the first one decides.
fn is_decided_around(
    alloc: Global,
    evaluation: &Evaluation<'_, '_, '_>,
    outer: usize,
    index: usize,
) -> Result<bool, AllocError>
    requires is { IsEvaluation evaluation.now.filter.now evaluation.now.entity.now evaluation.now.moment.now
        evaluation.now.moment_value.now }
    requires before { outer < index }
    ensures decided { IfOk result (λ is. is ≡ true → IsDecidedAround evaluation.now.entity.now
        evaluation.now.moment.now evaluation.now.filter.now.list outer index) }
    ensures undecided { IfOk result (λ is. is ≡ false → IsUndecidedAround evaluation.now.entity.now
        evaluation.now.moment.now evaluation.now.filter.now.list outer index) }
{
    let node = match node_at(evaluation.filter, outer) {
        Some(node) => node,
        None => return Ok(false),
    };
    let first = match node_at(evaluation.filter, outer + 1) {
        Some(first) => first,
        None => return Ok(false),
    };
    let operator = match logical_operator(node.kind) {
        Some(operator) => operator,
        None => return Ok(false),
    };
    if index < first.stop {
        return Ok(false);
    }
    if node.stop <= index {
        return Ok(false);
    }
    decides(alloc, evaluation, outer + 1, operator)
}

/// Whether evaluation leaves out the node at an index, after a stop or in an operand that is not needed.
fn is_left_out(
    alloc: Global,
    evaluation: &Evaluation<'_, '_, '_>,
    stopped: Option<usize>,
    index: usize,
) -> Result<bool, AllocError>
    requires is { IsEvaluation evaluation.now.filter.now evaluation.now.entity.now evaluation.now.moment.now
        evaluation.now.moment_value.now }
    requires index { index < length evaluation.now.filter.now.list.nodes }
    ensures left_out { IfOk result (λ is. is ≡ true → IsLeftOut evaluation.now.entity.now evaluation.now.moment.now
        evaluation.now.filter.now.list stopped index) }
    ensures reached { IfOk result (λ is. is ≡ false → IsReached evaluation.now.entity.now evaluation.now.moment.now
        evaluation.now.filter.now.list stopped index) }
{
    if is_after_stop(evaluation, stopped, index) {
        return Ok(true);
    }
    for outer in 0..index {
        let is_decided = is_decided_around(alloc, evaluation, outer, index)?;
        if is_decided {
            return Ok(true);
        }
    }
    Ok(false)
}

/// Whether the node stands after the one where evaluation stops.
fn is_after_stop(evaluation: &Evaluation<'_, '_, '_>, stopped: Option<usize>, index: usize) -> bool
    ensures after { result ≡ true → IsAfterStop evaluation.now.filter.now.list stopped index }
    ensures not_after { result ≡ false → IsAfterStop evaluation.now.filter.now.list stopped index → ⊥ }
{
    let Some(at) = stopped else {
        return false;
    };
    match node_at(evaluation.filter, at) {
        Some(node) => node.stop <= index,
        None => false,
    }
}

/// Reports what the node at an index evaluates to on the entity.
///
/// `stopped` is the node where evaluation stops, as [`stop_index`](crate::stop_index) finds it. Not all that is not
/// evaluated is `LeftOut`: the items of an `in` after the one that is equal have their values.
pub fn report_of<'e>(
    alloc: Global,
    evaluation: &Evaluation<'e, '_, '_>,
    stopped: Option<usize>,
    index: usize,
) -> Result<NodeReport<'e>, AllocError>
    requires is { IsEvaluation evaluation.now.filter.now evaluation.now.entity.now evaluation.now.moment.now
        evaluation.now.moment_value.now }
    requires index { index < length evaluation.now.filter.now.list.nodes }
    ensures { IfOk result (SaysOf evaluation.now.entity.now evaluation.now.moment.now
        evaluation.now.filter.now.list stopped index) }
{
    let is_out = is_left_out(alloc, evaluation, stopped, index)?;
    if is_out {
        return Ok(NodeReport::LeftOut);
    }
    match evaluate_node(alloc, evaluation, index) {
        Ok(Some(value)) => Ok(NodeReport::Value(value)),
        Ok(None) => Ok(NodeReport::InBody),
        Err(fault) => {
            if is_memory(fault) {
                return Err(AllocError);
            }
            Ok(NodeReport::Fault(fault))
        }
    }
}
