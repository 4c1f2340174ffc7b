//! Where the evaluation of a filter on an entity stops.
ghost use Rattle.std.specs.Prelude.{◌≡◌, ◌<◌, IfOk, IsSomeAnd, length, slice_get};
ghost use Rattle.odata_eval.specs.NodeOutcome.{IsEvaluation};
ghost use Rattle.row_explanation.specs.NodeReports.{HasFault, IsFaultBelow, IsEvaluationStop};

use crate::node_report::is_memory;
use odata_eval::{Evaluation, evaluate_node};
use odata_typing::Checked;
use std::alloc::{AllocError, Global};

/// Whether the node at an index has an arithmetic fault.
fn has_fault(
    alloc: Global,
    evaluation: &Evaluation<'_, '_, '_>,
    index: usize,
) -> Result<bool, AllocError>
    requires is { IsEvaluation evaluation.now.filter.now evaluation.now.entity.now evaluation.now.moment.now
        evaluation.now.moment_value.now }
    ensures { IfOk result (HasFault evaluation.now.entity.now evaluation.now.moment.now
        evaluation.now.filter.now.list index) }
{
    let fault = match evaluate_node(alloc, evaluation, index) {
        Ok(_) => return Ok(false),
        Err(fault) => fault,
    };
    if is_memory(fault) {
        return Err(AllocError);
    }
    Ok(true)
}

/// The index after the tree of the node at an index.
fn stop_at(filter: &Checked<'_>, index: usize) -> usize
    requires { index < length filter.now.list.nodes }
    ensures { IsSomeAnd (slice_get filter.now.list.nodes index) (λ found. found.stop ≡ result) }
{
    filter.nodes()[index].stop
}

/// The first child of the node at an index that has a fault.
fn fault_below(
    alloc: Global,
    evaluation: &Evaluation<'_, '_, '_>,
    index: usize,
) -> Result<Option<usize>, AllocError>
    requires is { IsEvaluation evaluation.now.filter.now evaluation.now.entity.now evaluation.now.moment.now
        evaluation.now.moment_value.now }
    requires index { index < length evaluation.now.filter.now.list.nodes }
    ensures { IfOk result (IsFaultBelow evaluation.now.entity.now evaluation.now.moment.now
        evaluation.now.filter.now.list index) }
{
    let filter = evaluation.filter;
    let count = filter.nodes().len();
    let stop = stop_at(filter, index);
    let mut next = index + 1;
    for child in index + 1..count {
        if stop <= child {
            return Ok(None);
        }
        // It lies in the tree of a child that has none.
        if child < next {
            continue;
        }
        let is_faulty = has_fault(alloc, evaluation, child)?;
        if is_faulty {
            return Ok(Some(child));
        }
        next = stop_at(filter, child);
    }
    Ok(None)
}

/// Returns the index of the node where evaluation stops with a fault.
///
/// It is found from the first node down, by the first operand that has a fault. The fault is the filter's own. `None`
/// is returned where the filter has a value.
pub fn stop_index(
    alloc: Global,
    evaluation: &Evaluation<'_, '_, '_>,
) -> Result<Option<usize>, AllocError>
    requires is { IsEvaluation evaluation.now.filter.now evaluation.now.entity.now evaluation.now.moment.now
        evaluation.now.moment_value.now }
    ensures { IfOk result (IsEvaluationStop evaluation.now.entity.now evaluation.now.moment.now
        evaluation.now.filter.now.list) }
{
    let is_faulty = has_fault(alloc, evaluation, 0)?;
    if !is_faulty {
        return Ok(None);
    }
    let mut at = 0;
    'down: loop {
        match fault_below(alloc, evaluation, at) {
            Ok(Some(child)) => at = child,
            Ok(None) => return Ok(Some(at)),
            Err(_) => return Err(AllocError),
        }
    }
}
