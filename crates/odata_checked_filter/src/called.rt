//! Which functions the nodes of a list call.
ghost use Rattle.std.specs.Prelude.{◌≡◌};
ghost use Rattle.std.specs.List.{list_any};
ghost use Rattle.odata_checked_filter.specs.private.Called.{function_makes_text, kind_is_now, kind_makes_text};

use super::checked_node::{CheckedNode, NodeKind};
use odata_signatures::Function;

/// Whether a function makes a text.
fn makes_text(function: Function) -> bool
    ensures { result ≡ function_makes_text function }
{
    match function {
        Function::Concat | Function::ToLower | Function::ToUpper => true,
        _ => false,
    }
}

/// Whether a node calls a function that makes a text.
fn is_maker(node: &CheckedNode) -> bool
    ensures { result ≡ kind_makes_text node.now.kind }
{
    match node.kind {
        NodeKind::Call { function } => makes_text(function),
        _ => false,
    }
}

/// Whether a node calls `now`.
fn is_now(node: &CheckedNode) -> bool
    ensures { result ≡ kind_is_now node.now.kind }
{
    match node.kind {
        NodeKind::Now => true,
        _ => false,
    }
}

/// Whether one of the nodes calls a function that makes a text.
pub(crate) fn any_maker(nodes: &[CheckedNode]) -> bool
    ensures { result ≡ list_any (λ node. kind_makes_text node.kind) nodes.now }
{
    nodes.iter().any(|node| is_maker(node))
}

/// Whether one of the nodes calls `now`.
pub(crate) fn any_now(nodes: &[CheckedNode]) -> bool
    ensures { result ≡ list_any (λ node. kind_is_now node.kind) nodes.now }
{
    nodes.iter().any(|node| is_now(node))
}
