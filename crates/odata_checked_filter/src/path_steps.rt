//! The steps of a path in a list. In pre-order they stand in a row before what the path begins with, the last step
//! first, so a path of any length is walked by counting.
ghost use Rattle.std.specs.Prelude.{◌≡◌, ◌<◌, ◌≤◌, ◌↔◌, ℕ, IsTrue};
ghost use Rattle.odata_checked_filter.specs.private.PathSteps.{IsStepAt, is_step};

use super::checked_node::NodeKind;
use super::node_list::NodeList;

/// The first node from one on that is not a step of a path: what a path begins with whose last step is `top`.
pub(crate) fn path_base(list: &NodeList, top: usize) -> usize
    ensures below { top ≤ result }
    ensures steps { (k : ℕ) → k < result → top ≤ k → IsStepAt list.now k }
    ensures base { ¬ IsStepAt list.now result }
{
    let count = list.nodes().len();
    let mut index = top;
    while index < count && is_step_at(list, index) {
        index += 1;
    }
    index
}

/// Whether a step of a path stands there. There is none past the end.
fn is_step_at(list: &NodeList, index: usize) -> bool
    ensures { IsTrue result ↔ IsStepAt list.now index }
{
    match list.nodes().get(index) {
        Some(node) => is_step(node.kind),
        None => false,
    }
}

fn is_step(kind: NodeKind) -> bool
    ensures { result ≡ is_step kind }
{
    match kind {
        NodeKind::Member { .. } => true,
        _ => false,
    }
}
