//! How deeply a filter nests. Its conditions are written by a call within a call for each level, so that is looked at
//! before any is.
ghost use Rattle.std.specs.Prelude.{◌≡◌, ◌<◌, ◌↔◌, ◌++◌, IfOk, IsTrue, OnOk, Some, filter, length, nat_lt, slice_get};
ghost use Rattle.odata_checked_filter.specs.declared.checked_node.NodeKind.{NodeKind};
ghost use Rattle.odata_syntax.specs.declared.binary_operator.BinaryOperator.{BinaryOperator};
ghost use Rattle.odata_sql.specs.Nesting.{ExceedsLevels, goes_on, level_stop, most_levels, nests};

use odata_checked_filter::{CheckedNode, NodeKind};
use odata_syntax::{BinaryOperator, LogicalOperator};
use std::alloc::{AllocError, Global};

/// In how many levels a node may stand. A level takes some 1.5 KB of stack, and 256 KiB are to suffice.
fn most_levels() -> usize
    ensures { result ≡ most_levels }
{
    100
}

/// Whether some node stands in more levels than that. All nodes are gone through once.
pub(crate) fn exceeds_levels(alloc: Global, nodes: &[CheckedNode]) -> Result<bool, AllocError>
    ensures { IfOk result (λ exceeds. IsTrue exceeds ↔ ExceedsLevels nodes.now) }
{
    // Where the levels stop that the node before stands in, and that node itself.
    let mut around = Vec::new(alloc);
    let mut before = NodeKind::It;
    for at in 0..nodes.len() {
        forget_stopped(&mut around, at);
        if most_levels() < around.len() {
            return Ok(true);
        }
        let node = node_at(nodes, at);
        let kind = node.kind;
        push_level(&mut around, before, &node)?;
        before = kind;
    }
    Ok(false)
}

fn node_at(nodes: &[CheckedNode], at: usize) -> CheckedNode
    requires { at < length nodes.now }
    ensures { slice_get nodes.now at ≡ Some result }
{
    nodes[at]
}

/// Pushes where a node stops that comes after one of such a kind, if it is a level.
fn push_level(
    around: &mut Vec<usize>,
    before: NodeKind,
    node: &CheckedNode,
) -> Result<(), AllocError>
    ensures { OnOk result (around.new.items ≡ around.old.items ++ level_stop before (Some node.now)) }
{
    if nests(node.kind) && !goes_on(before, node.kind) {
        around.push(node.stop)?;
    }
    Ok(())
}

/// Of the levels that stop there, those in which the node at an index stands.
fn forget_stopped(around: &mut Vec<usize>, at: usize)
    ensures { around.new.items ≡ filter (λ stop. nat_lt at stop) around.old.items }
{
    around.retain(|stop| at < *stop);
}

/// Whether a node counts as a level: names, literals, the steps of a path and `now()` do not.
fn nests(kind: NodeKind) -> bool
    ensures { result ≡ nests kind }
{
    match kind {
        NodeKind::Literal { .. } => false,
        NodeKind::It => false,
        NodeKind::Property { .. } => false,
        NodeKind::Variable { .. } => false,
        NodeKind::Member { .. } => false,
        NodeKind::Count => false,
        NodeKind::AnyItem => false,
        NodeKind::Now => false,
        _ => true,
    }
}

/// Whether a node is the first operand of the node before it, in a chain of `not`, of `and` or of `or`.
fn goes_on(before: NodeKind, kind: NodeKind) -> bool
    ensures { result ≡ goes_on before kind }
{
    match before {
        NodeKind::Not => match kind {
            NodeKind::Not => true,
            _ => false,
        },
        NodeKind::Binary { operator } => match operator {
            BinaryOperator::Logical(connective) => is_connective(kind, connective),
            _ => false,
        },
        _ => false,
    }
}

/// Whether it is that connective.
fn is_connective(kind: NodeKind, connective: LogicalOperator) -> bool
    ensures { result ≡ goes_on (NodeKind.Binary (BinaryOperator.Logical connective)) kind }
{
    match kind {
        NodeKind::Binary { operator } => match operator {
            BinaryOperator::Logical(found) => match connective {
                LogicalOperator::And => match found {
                    LogicalOperator::And => true,
                    LogicalOperator::Or => false,
                },
                LogicalOperator::Or => match found {
                    LogicalOperator::And => false,
                    LogicalOperator::Or => true,
                },
            },
            _ => false,
        },
        _ => false,
    }
}
