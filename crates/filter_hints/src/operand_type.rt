//! The type of a part of a filter: what the checker says of a small filter over it, within the same lambda expressions.
use crate::edit::part;
use crate::filter_of::FilterOf;
use crate::syntax_tree::lambda_parts;
use crate::type_words::type_name;
use csdl_schema::Schema;
use odata_syntax::SyntaxNode;
use odata_text::Span;
use odata_typing::{Checked, EdmType, check};
use std::alloc::{AllocError, Global};

/// A filter made to ask for the type of a part of it.
#[derive(Drop)]
struct Probe {
    text: String,
    asked: Span,
}

fn shifted(span: Span, bytes: usize) -> Span {
    Span {
        start: span.start.saturating_add(bytes),
        stop: span.stop.saturating_add(bytes),
    }
}

/// The probe within a lambda expression over that collection.
fn within(
    alloc: Global,
    collection: &str,
    variable: &str,
    probe: &Probe,
) -> Result<Probe, AllocError> {
    let before = format!(in alloc; "{collection}/any({variable}:")?;
    let text = format!(in alloc; "{}{})", before.as_str(), probe.text.as_str())?;
    Ok(Probe {
        text,
        asked: shifted(probe.asked, before.len()),
    })
}

/// The probe within the lambda expressions that have the node in their bodies.
fn in_scope(
    alloc: Global,
    filter: &str,
    nodes: &[SyntaxNode],
    span: Span,
    probe: Probe,
) -> Result<Probe, AllocError> {
    let mut probe = probe;
    for index in 0..nodes.len() {
        let Some((collection, body)) = lambda_parts(nodes, index) else {
            continue;
        };
        let Some(lambda) = nodes.get(index) else {
            continue;
        };
        if body.start <= span.start && span.stop <= body.stop {
            probe = within(
                alloc,
                part(filter, collection),
                part(filter, lambda.text),
                &probe,
            )?;
        }
    }
    Ok(probe)
}

/// The type of the node of a filter that takes those bytes.
fn type_at(checked: &Checked<'_>, span: Span) -> Option<EdmType> {
    let node = (0..checked.node_count()).find(|node| checked.span_of(*node) == Some(span))?;
    checked.type_of(node)
}

/// What the checker says of the probe.
fn probed(alloc: Global, filter: &FilterOf<'_>, probe: &Probe) -> Option<EdmType> {
    if !filter.schema.holds(filter.id) {
        return None;
    }
    match check(alloc, filter.schema, filter.id, &probe.text) {
        Ok(checked) => type_at(&checked, probe.asked),
        Err(_) => None,
    }
}

/// Whether the checker takes `eq` between two nodes of the filter.
pub fn are_comparable(
    alloc: Global,
    filter: &FilterOf<'_>,
    nodes: &[SyntaxNode],
    pair: (usize, usize),
) -> Result<bool, AllocError> {
    let (Some(left), Some(right)) = (nodes.get(pair.0), nodes.get(pair.1)) else {
        return Ok(false);
    };
    let text = filter.report.text;
    let equal = Probe {
        text: format!(in alloc;
            "({}) eq ({})",
            part(text, left.span),
            part(text, right.span)
        )?,
        asked: left.span,
    };
    let probe = in_scope(alloc, text, nodes, left.span, equal)?;
    if filter.schema.holds(filter.id) {
        Ok(check(alloc, filter.schema, filter.id, &probe.text).is_ok())
    } else {
        Ok(false)
    }
}

/// A comparison of the operand with null.
fn compared(alloc: Global, operand: &str) -> Result<Probe, AllocError> {
    Ok(Probe {
        text: format!(in alloc; "({operand}) eq null")?,
        asked: Span {
            start: 0,
            stop: operand.len().saturating_add(2),
        },
    })
}

/// A question for the number of an operand's members.
fn counted(alloc: Global, operand: &str) -> Result<Probe, AllocError> {
    Ok(Probe {
        text: format!(in alloc; "{operand}/$count eq 0")?,
        asked: Span {
            start: 0,
            stop: operand.len(),
        },
    })
}

/// The type of an operand, by its name as the standard writes it.
#[derive(Drop)]
pub struct OperandType {
    pub name: String,
    pub is_collection: bool,
}

fn named_type(
    alloc: Global,
    schema: &Schema,
    edm_type: EdmType,
) -> Result<OperandType, AllocError> {
    Ok(OperandType {
        name: type_name(alloc, schema, edm_type)?,
        is_collection: edm_type.is_collection(),
    })
}

/// The type that the checker gives the probe, if it gives one.
fn probed_type(
    alloc: Global,
    filter: &FilterOf<'_>,
    probe: &Probe,
) -> Result<Option<OperandType>, AllocError> {
    match probed(alloc, filter, probe) {
        Some(found) => Ok(Some(named_type(alloc, filter.schema, found)?)),
        None => Ok(None),
    }
}

/// The type of a node of the filter, if it has one and can be compared or counted.
pub fn operand_type(
    alloc: Global,
    filter: &FilterOf<'_>,
    nodes: &[SyntaxNode],
    index: usize,
) -> Result<Option<OperandType>, AllocError> {
    let Some(node) = nodes.get(index) else {
        return Ok(None);
    };
    let text = filter.report.text;
    let operand = part(text, node.span);
    let probe = in_scope(alloc, text, nodes, node.span, compared(alloc, operand)?)?;
    match probed_type(alloc, filter, &probe)? {
        Some(found) => Ok(Some(found)),
        None => {
            let probe = in_scope(alloc, text, nodes, node.span, counted(alloc, operand)?)?;
            probed_type(alloc, filter, &probe)
        }
    }
}
