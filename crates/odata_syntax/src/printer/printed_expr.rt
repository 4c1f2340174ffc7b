//! An expression as the printer asks for its nodes.
use super::printed_tree::{AfterFirst, NodeShape, PrintedTree};
use crate::{Expr, Node, Quantifier};

impl<'e> PrintedTree for &'e Expr {
    ghost use Rattle.odata_syntax.specs.TreeView.{trees_of_nodes};

    type Node = &'e Node;

    type Items = &'e [Node];

    ghost trees = { λ expr. trees_of_nodes };

    fn shape<'t>(&'t self, node: &'e Node) -> NodeShape<'t, &'e Node, &'e [Node]> {
        match node {
            Node::Lit { kind, text, .. } => NodeShape::Literal {
                kind: *kind,
                spelling: text,
            },
            Node::It { .. } => NodeShape::It,
            Node::Name { name, .. } => NodeShape::Name { name },
            Node::Neg { operand, .. } => NodeShape::Neg { operand },
            Node::Not { operand, .. } => NodeShape::Not { operand },
            Node::Call {
                name,
                arguments,
                ..
            } => NodeShape::Call { name, arguments },
            Node::Member { base, name, .. } => NodeShape::Joined {
                first: base,
                rest: AfterFirst::Member { name },
            },
            Node::Count { base, .. } => NodeShape::Joined {
                first: base,
                rest: AfterFirst::Count,
            },
            Node::Any { base, lambda, .. } => match lambda {
                None => NodeShape::Joined {
                    first: base,
                    rest: AfterFirst::AnyItem,
                },
                Some((variable, body)) => NodeShape::Joined {
                    first: base,
                    rest: AfterFirst::Lambda {
                        quantifier: Quantifier::Any,
                        variable,
                        body,
                    },
                },
            },
            Node::All {
                base,
                variable,
                body,
                ..
            } => NodeShape::Joined {
                first: base,
                rest: AfterFirst::Lambda {
                    quantifier: Quantifier::All,
                    variable,
                    body,
                },
            },
            Node::Binary {
                operator,
                left,
                right,
                ..
            } => NodeShape::Joined {
                first: left,
                rest: AfterFirst::Binary {
                    operator: *operator,
                    right,
                },
            },
            Node::Has { left, right, .. } => NodeShape::Joined {
                first: left,
                rest: AfterFirst::Has { right },
            },
            Node::InList { left, items, .. } => NodeShape::Joined {
                first: left,
                rest: AfterFirst::InList { items },
            },
            Node::InPath { left, path, .. } => NodeShape::Joined {
                first: left,
                rest: AfterFirst::InPath { path },
            },
        }
    }

    fn split_items(&self, items: &'e [Node]) -> Option<(&'e Node, &'e [Node])> {
        items.split_first()
    }
}
