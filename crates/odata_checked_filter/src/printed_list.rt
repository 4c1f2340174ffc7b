//! A list of nodes as the printer asks for its nodes.
use super::checked_node::NodeKind;
use super::node_list::NodeList;
use odata_syntax::{AfterFirst, NodeShape, PrintedTree};

/// A node is its index; items are the index of the first one, and the one after the last.
impl PrintedTree for NodeList {
    ghost use Rattle.odata_checked_filter.specs.private.PrintedList.{trees_in};

    type Node = usize;

    type Items = (usize, usize);

    ghost trees = { trees_in };

    #[inline(always)]
    fn shape<'t>(&'t self, node: usize) -> NodeShape<'t, usize, (usize, usize)> {
        let count = self.nodes().len();
        prove!(node < count);
        let first = node + 1;
        let found = self.node(node);
        match found.kind {
            NodeKind::Literal { kind, .. } => NodeShape::Literal {
                kind,
                spelling: self.text(node),
            },
            NodeKind::It => NodeShape::It,
            NodeKind::Property { .. } | NodeKind::Variable { .. } => NodeShape::Name {
                name: self.text(node),
            },
            NodeKind::Now => NodeShape::Call {
                name: "now",
                arguments: (first, found.stop),
            },
            NodeKind::Call { function } => NodeShape::Call {
                name: function.signature().name,
                arguments: (first, found.stop),
            },
            NodeKind::Neg => NodeShape::Neg { operand: first },
            NodeKind::Not => NodeShape::Not { operand: first },
            NodeKind::Member { .. } => NodeShape::Joined {
                first,
                rest: AfterFirst::Member {
                    name: self.text(node),
                },
            },
            NodeKind::Count => NodeShape::Joined {
                first,
                rest: AfterFirst::Count,
            },
            NodeKind::AnyItem => NodeShape::Joined {
                first,
                rest: AfterFirst::AnyItem,
            },
            NodeKind::Lambda { quantifier } => NodeShape::Joined {
                first,
                rest: AfterFirst::Lambda {
                    quantifier,
                    variable: self.text(node),
                    body: self.node(first).stop,
                },
            },
            NodeKind::Binary { operator } => NodeShape::Joined {
                first,
                rest: AfterFirst::Binary {
                    operator,
                    right: self.node(first).stop,
                },
            },
            NodeKind::Has => NodeShape::Joined {
                first,
                rest: AfterFirst::Has {
                    right: self.node(first).stop,
                },
            },
            NodeKind::InList => NodeShape::Joined {
                first,
                rest: AfterFirst::InList {
                    items: (self.node(first).stop, found.stop),
                },
            },
            NodeKind::InPath => NodeShape::Joined {
                first,
                rest: AfterFirst::InPath {
                    path: self.node(first).stop,
                },
            },
        }
    }

    #[inline(always)]
    fn split_items(&self, items: (usize, usize)) -> Option<(usize, (usize, usize))> {
        let (first, stop) = items;
        if first < stop {
            Some((first, (self.node(first).stop, stop)))
        } else {
            None
        }
    }
}
