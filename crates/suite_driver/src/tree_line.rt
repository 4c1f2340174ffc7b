//! The nodes of a tree, in one line.
use odata_syntax::{BinaryOperator, Node};
use std::alloc::AllocError;

/// What a node is, with its name or its variable in the middle; of a literal and of an operator by name nothing.
fn label(node: &Node) -> (&'static str, &str, &'static str) {
    match node {
        Node::It { .. } => ("$it", "", ""),
        Node::Name { name, .. } => ("", name.as_str(), ""),
        Node::Member { name, .. } => ("/", name.as_str(), ""),
        Node::Count { .. } => ("/$count", "", ""),
        Node::Neg { .. } => ("-", "", ""),
        Node::Not { .. } => ("not", "", ""),
        Node::Has { .. } => ("has", "", ""),
        Node::InList { .. } => ("in ()", "", ""),
        Node::InPath { .. } => ("in", "", ""),
        Node::Call { name, .. } => ("", name.as_str(), "()"),
        Node::Any { lambda, .. } => match lambda {
            None => ("/any()", "", ""),
            Some((variable, _)) => ("/any(", variable.as_str(), ":)"),
        },
        Node::All { variable, .. } => ("/all(", variable.as_str(), ":)"),
        Node::Lit { .. } | Node::Binary { .. } => ("", "", ""),
    }
}

/// Appends what a node is; of an operator its name, without that of its group.
fn push_label(line: &mut String, node: &Node) -> Result<(), AllocError> {
    match node {
        Node::Lit { kind, .. } => write!(line, "{kind:?}"),
        Node::Binary { operator, .. } => match operator {
            BinaryOperator::Logical(logical) => write!(line, "{logical:?}"),
            BinaryOperator::Comparison(comparison) => write!(line, "{comparison:?}"),
            BinaryOperator::Arithmetic(arithmetic) => write!(line, "{arithmetic:?}"),
        },
        _ => {
            let (before, name, after) = label(node);
            write!(line, "{before}{name}{after}")
        }
    }
}

/// Appends what a node is, and where it stands.
fn push_one(line: &mut String, node: &Node) -> Result<(), AllocError> {
    if !line.is_empty() {
        line.push_str(", ")?;
    }
    push_label(line, node)?;
    write!(line, " {}", node.span())
}

/// Appends a node and those beneath it, a parent before its children, these in their order.
#[cycle(push)]
pub(crate) fn push_tree(line: &mut String, node: &Node) -> Result<(), AllocError> {
    push_one(line, node)?;
    match node {
        Node::Lit { .. } | Node::It { .. } | Node::Name { .. } => Ok(()),
        Node::Member { base, .. } => push_tree(line, base),
        Node::Count { base, .. } => push_tree(line, base),
        Node::Neg { operand, .. } => push_tree(line, operand),
        Node::Not { operand, .. } => push_tree(line, operand),
        Node::Binary { left, right, .. } => {
            push_tree(line, left)?;
            push_tree(line, right)
        }
        Node::Has { left, right, .. } => {
            push_tree(line, left)?;
            push_tree(line, right)
        }
        Node::InPath { left, path, .. } => {
            push_tree(line, left)?;
            push_tree(line, path)
        }
        Node::InList { left, items, .. } => {
            push_tree(line, left)?;
            push_trees(line, items)
        }
        Node::Call { arguments, .. } => push_trees(line, arguments),
        Node::Any { base, lambda, .. } => match lambda {
            None => push_tree(line, base),
            Some((_, body)) => {
                push_tree(line, base)?;
                push_tree(line, body)
            }
        },
        Node::All { base, body, .. } => {
            push_tree(line, base)?;
            push_tree(line, body)
        }
    }
}

#[cycle(push)]
fn push_trees(line: &mut String, nodes: &[Node]) -> Result<(), AllocError> {
    for node in nodes {
        push_tree(line, node)?;
    }
    Ok(())
}
