//! The call that a fault of a filter is in.
use crate::edit::part;
use crate::syntax_tree::next_around;
use odata_syntax::{SyntaxKind, SyntaxNode};

/// The name of the innermost function whose call has the node among its arguments, as the filter writes it.
pub fn called_function<'t>(text: &'t str, nodes: &[SyntaxNode], index: usize) -> Option<&'t str> {
    let span = nodes.get(index)?.span;
    let around = next_around(nodes, index.checked_add(1)?, span)?;
    let call = nodes.get(around)?;
    match call.kind {
        SyntaxKind::Call => Some(part(text, call.text)),
        _ => None,
    }
}
