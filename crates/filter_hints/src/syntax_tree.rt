//! Nodes of a parsed filter, by where they stand. Each node stands after its children.
use odata_syntax::{SyntaxKind, SyntaxNode};
use odata_text::Span;

/// The index of the outermost node that takes just these bytes.
pub fn node_with(nodes: &[SyntaxNode], span: Span) -> Option<usize> {
    nodes.iter().rposition(|node| node.span == span)
}

/// The index of the last child of a node that has children.
pub fn last_child(index: usize) -> Option<usize> {
    index.checked_sub(1)
}

/// The index of the first of the two children of a node.
pub fn first_of_two(nodes: &[SyntaxNode], index: usize) -> Option<usize> {
    let last = nodes.get(last_child(index)?)?;
    last.place.first.checked_sub(1)
}

/// The index of the child before another child of the same node.
pub fn child_before(nodes: &[SyntaxNode], child: usize) -> Option<usize> {
    nodes.get(child)?.place.first.checked_sub(1)
}

/// Whether a span lies within another one.
fn lies_within(inner: Span, outer: Span) -> bool {
    outer.start <= inner.start && inner.stop <= outer.stop
}

/// The index of the next node from one on that takes all the bytes of a span.
pub fn next_around(nodes: &[SyntaxNode], from: usize, span: Span) -> Option<usize> {
    let later = nodes.get(from..)?;
    let steps = later.iter().position(|node| lies_within(span, node.span))?;
    from.checked_add(steps)
}

/// Of a lambda expression the spans of its collection and its body.
pub fn lambda_parts(nodes: &[SyntaxNode], index: usize) -> Option<(Span, Span)> {
    let lambda = nodes.get(index)?;
    match lambda.kind {
        SyntaxKind::Lambda(_) => {}
        _ => return None,
    }
    let body = nodes.get(last_child(index)?)?;
    let collection = nodes.get(first_of_two(nodes, index)?)?;
    Some((collection.span, body.span))
}

/// The index of the next lambda expression from a node on that has these bytes in its body.
pub fn next_lambda(nodes: &[SyntaxNode], from: usize, span: Span) -> Option<usize> {
    let later = nodes.get(from..)?;
    let steps = later.iter().position(|node| {
        matches!(node.kind, SyntaxKind::Lambda(_)) && lies_within(span, node.span)
    })?;
    from.checked_add(steps)
}
