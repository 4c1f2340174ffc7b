//! What single nodes of a filter evaluate to, for those who ask how a row came by its outcome.
ghost use Rattle.std.specs.Prelude.{◌<◌, ◌+◌};
ghost use Rattle.odata_eval.specs.NodeOutcome.{IsEvaluation, ReportsNode};
ghost use Rattle.odata_eval.specs.private.NodeWays.{LiesFurther, LiesIn, OperandsFrom};

use super::budget::{Unbounded, fault_of};
use super::datum_walk::counted_at;
use super::eval_context::EvalContext;
use super::walk_operand::stop_of;
use edm_entities::Entity;
use edm_values::{Datum, Moment, Value};
use odata_checked_filter::{Checked, NodeKind};
use odata_filter_operations::EvalFault;
use std::alloc::Global;

/// A filter, an entity of its type, and the moment that `now()` stands for, by itself and as a value.
#[derive(Clone, Copy)]
pub struct Evaluation<'e, 'c, 'r> {
    pub filter: &'e Checked<'c>,
    pub entity: &'e Entity<'r>,
    pub moment: &'e Moment,
    pub moment_value: &'e Value,
}

/// The operand, of the node at an index, in whose tree another index lies. `None` where that lies in a body.
fn operand_around(context: &EvalContext<'_, '_, '_>, outer: usize, index: usize) -> Option<usize>
    requires lies { LiesIn context.now outer index }
    requires further { outer < index }
    ensures { LiesFurther context.now outer index result }
{
    match context.node(outer).kind {
        NodeKind::Lambda { .. } => {
            let base = outer + 1;
            if index < stop_of(context, base) {
                Some(base)
            } else {
                None
            }
        }
        _ => operand_in_line(context, outer, index),
    }
}

/// The same of a node that is no lambda operator: all of its children are operands.
fn operand_in_line(context: &EvalContext<'_, '_, '_>, outer: usize, index: usize) -> Option<usize>
    requires operands { OperandsFrom context.now (outer + 1) index }
    requires further { outer < index }
    ensures { LiesFurther context.now outer index result }
{
    let mut child = outer + 1;
    let mut stop = stop_of(context, child);
    while stop <= index {
        child = stop;
        stop = stop_of(context, child);
    }
    Some(child)
}

/// Evaluates the node at an index on the entity, by itself.
///
/// `None` is returned for a node in the body of an `any` or `all`, which has a value for each member, and past the last
/// node. The outcome of the filter is that of node 0. `Memory` is returned only where the node makes texts.
pub fn evaluate_node<'e>(
    alloc: Global,
    evaluation: &Evaluation<'e, '_, '_>,
    index: usize,
) -> Result<Option<Datum<'e>>, EvalFault>
    requires { IsEvaluation evaluation.now.filter.now evaluation.now.entity.now evaluation.now.moment.now
        evaluation.now.moment_value.now }
    ensures { ReportsNode evaluation.now.entity.now evaluation.now.moment.now evaluation.now.filter.now.list index
        result }
{
    let nodes = evaluation.filter.nodes();
    if nodes.len() <= index {
        return Ok(None);
    }
    let context = EvalContext::of(
        alloc,
        evaluation.filter,
        evaluation.entity,
        evaluation.moment,
        evaluation.moment_value,
    );
    context.ends_once();
    context.costs_once();
    let mut outer = 0;
    while outer < index {
        match operand_around(&context, outer, index) {
            Some(operand) => outer = operand,
            None => return Ok(None),
        }
    }
    let mut unbounded = Unbounded;
    match counted_at(&context, index, &mut unbounded) {
        Ok(value) => Ok(Some(value)),
        Err(stop) => Err(fault_of(stop)),
    }
}
