//! How many lambda operators stand in one another.
ghost use Rattle.std.specs.Prelude.{◌≡◌, ◌≤◌, ◌+◌, List};
ghost use Rattle.odata_syntax.specs.Tree.{Tree};
ghost use Rattle.odata_checked_filter.specs.private.LambdaLines.{AreInLine, IsLine, deepest_of, kind_is_lambda};

use super::checked_node::{CheckedNode, NodeKind};
use super::node_list::NodeList;

/// The greatest number of lambda operators that stand in one another among the nodes from one index up to another. All
/// nodes are gone through once. What stands in a lambda operator is gone through by a further call, so as many calls
/// wait as operators stand in one another, however deep other nodes do.
pub(crate) fn deepest(list: &NodeList, from: usize, stop: usize) -> usize
    requires { IsLine list.now from stop }
    ensures depth { (trees : List Tree) → AreInLine list.now from stop trees → result ≡ deepest_of trees }
    ensures small { result + from ≤ stop }
{
    let mut depth = 0;
    let mut place = from;
    while place < stop {
        let node = list.node(place);
        if is_lambda(&node) {
            let inside = deepest(list, place + 1, node.stop);
            depth = depth.max(inside + 1);
            place = node.stop;
        } else {
            place += 1;
        }
    }
    depth
}

/// Whether the node is a lambda operator with a body.
pub(crate) fn is_lambda(node: &CheckedNode) -> bool
    ensures { result ≡ kind_is_lambda node.now.kind }
{
    match node.kind {
        NodeKind::Lambda { .. } => true,
        _ => false,
    }
}
