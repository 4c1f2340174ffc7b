//! What to write where an operator does not take its operands.
use crate::edit::{Edit, part};
use crate::filter_of::FilterOf;
use crate::hint::Hint;
use crate::listed_items::list_advice;
use crate::operand_type::{OperandType, operand_type};
use crate::quoted_value::{SPELLINGS, respelling};
use crate::syntax_tree::{first_of_two, last_child, next_around};
use crate::trial::mends;
use crate::wanted_operands::{Operands, wanted_in_words};
use odata_syntax::{SyntaxKind, SyntaxNode};
use odata_text::Span;
use std::alloc::{AllocError, Global};

/// The edit in another spelling of a literal that mends the filter, if there is one.
fn mending_literal(
    alloc: Global,
    filter: &FilterOf<'_>,
    node: &SyntaxNode,
) -> Result<Option<Edit>, AllocError> {
    for way in SPELLINGS {
        if let Some(edit) = respelling(alloc, filter.report.text, node, way)? {
            if mends(alloc, filter, &edit)? {
                return Ok(Some(edit));
            }
        }
    }
    Ok(None)
}

/// The part of the filter with an edit in it made.
fn part_edited(
    alloc: Global,
    filter: &str,
    whole: Span,
    edit: &Edit,
) -> Result<String, AllocError> {
    let before = Span {
        start: whole.start,
        stop: edit.span.start,
    };
    let after = Span {
        start: edit.span.stop,
        stop: whole.stop,
    };
    Ok(format!(in alloc;
        "{}{}{}",
        part(filter, before),
        edit.text.as_str(),
        part(filter, after)
    )?)
}

/// The types of both operands, in words.
pub fn types_in_words(
    alloc: Global,
    left: &Option<OperandType>,
    right: &Option<OperandType>,
) -> Result<Option<Hint>, AllocError> {
    match (left, right) {
        (Some(left), Some(right)) => {
            let text = format!(in alloc;
                "They are of types {} and {}.",
                left.name.as_str(),
                right.name.as_str()
            )?;
            Ok(Some(Hint::plain(alloc, text)))
        }
        _ => Ok(None),
    }
}

/// What to write for one of the two operands, in words.
fn literal_in_words(
    alloc: Global,
    filter: &FilterOf<'_>,
    whole: Span,
    operand: &SyntaxNode,
) -> Result<Option<Hint>, AllocError> {
    match mending_literal(alloc, filter, operand)? {
        Some(edit) => {
            let text = part_edited(alloc, filter.report.text, whole, &edit)?;
            let words = format!(in alloc; "Write {}.", text.as_str())?;
            Ok(Some(Hint::with_edit(alloc, words, Edit { span: whole, text })?))
        }
        None => Ok(None),
    }
}

/// Both sentences with the edits of the second one, or the one there is.
pub fn joined(
    alloc: Global,
    first: Option<Hint>,
    second: Option<Hint>,
) -> Result<Option<Hint>, AllocError> {
    match (first, second) {
        (Some(first), Some(second)) => Ok(Some(Hint {
            text: format!(in alloc; "{} {}", first.text.as_str(), second.text.as_str())?,
            edits: second.edits,
        })),
        (Some(only), None) | (None, Some(only)) => Ok(Some(only)),
        (None, None) => Ok(None),
    }
}

/// Of an operator between two operands.
fn two_operands(
    alloc: Global,
    filter: &FilterOf<'_>,
    nodes: &[SyntaxNode],
    index: usize,
) -> Result<Option<Hint>, AllocError> {
    let (Some(left), Some(right)) = (first_of_two(nodes, index), last_child(index)) else {
        return Ok(None);
    };
    let (Some(first), Some(last)) = (nodes.get(left), nodes.get(right)) else {
        return Ok(None);
    };
    let left_type = operand_type(alloc, filter, nodes, left)?;
    let right_type = operand_type(alloc, filter, nodes, right)?;
    let types = types_in_words(alloc, &left_type, &right_type)?;
    let mended = match literal_in_words(alloc, filter, filter.report.span, last)? {
        Some(mended) => Some(mended),
        None => literal_in_words(alloc, filter, filter.report.span, first)?,
    };
    let fitting = match mended {
        Some(mended) => Some(mended),
        None => {
            let operands = Operands {
                left,
                right,
                left_type,
                right_type,
            };
            wanted_in_words(alloc, filter, nodes, index, &operands)?
        }
    };
    joined(alloc, types, fitting)
}

/// Of an operator before its one operand: of which type that is, and which is wanted.
fn one_operand(
    alloc: Global,
    filter: &FilterOf<'_>,
    nodes: &[SyntaxNode],
    index: usize,
    wanted: &str,
) -> Result<Option<Hint>, AllocError> {
    let Some(operand) = last_child(index) else {
        return Ok(None);
    };
    match operand_type(alloc, filter, nodes, operand)? {
        Some(found) => {
            let text = format!(in alloc; "It is of type {}. {wanted}", found.name.as_str())?;
            Ok(Some(Hint::plain(alloc, text)))
        }
        None => Ok(None),
    }
}

/// Of `not` before an operand that is no truth value.
fn not_operand(
    alloc: Global,
    filter: &FilterOf<'_>,
    nodes: &[SyntaxNode],
    index: usize,
) -> Result<Option<Hint>, AllocError> {
    match negated(alloc, filter, nodes, index)? {
        Some(negated) => Ok(Some(negated)),
        None => one_operand(alloc, filter, nodes, index, "It has to be a condition."),
    }
}

/// The comparison that begins with the operand of `not`, in parentheses, if that mends the filter.
fn negated(
    alloc: Global,
    filter: &FilterOf<'_>,
    nodes: &[SyntaxNode],
    index: usize,
) -> Result<Option<Hint>, AllocError> {
    let (Some(operand), Some(after)) = (last_child(index), index.checked_add(1)) else {
        return Ok(None);
    };
    let (Some(operand), Some(around)) = (
        nodes.get(operand),
        next_around(nodes, after, filter.report.span),
    ) else {
        return Ok(None);
    };
    let Some(comparison) = nodes.get(around) else {
        return Ok(None);
    };
    let meant = Span {
        start: operand.span.start,
        stop: comparison.span.stop,
    };
    let edit = Edit {
        span: meant,
        text: format!(in alloc; "({})", part(filter.report.text, meant))?,
    };
    if mends(alloc, filter, &edit)? {
        let words = format!(in alloc; "Write not {}.", edit.text.as_str())?;
        Ok(Some(Hint::with_edit(alloc, words, edit)?))
    } else {
        Ok(None)
    }
}

/// What to say after the sentence about an operator that does not take its operands.
pub fn operand_advice(
    alloc: Global,
    filter: &FilterOf<'_>,
    nodes: &[SyntaxNode],
    index: usize,
) -> Result<Option<Hint>, AllocError> {
    let Some(node) = nodes.get(index) else {
        return Ok(None);
    };
    match node.kind {
        SyntaxKind::Binary(_) | SyntaxKind::Has | SyntaxKind::InPath => {
            two_operands(alloc, filter, nodes, index)
        }
        SyntaxKind::InList => list_advice(alloc, filter, nodes, index),
        SyntaxKind::Not => not_operand(alloc, filter, nodes, index),
        SyntaxKind::Neg => one_operand(alloc, filter, nodes, index, "It has to be a number."),
        _ => Ok(None),
    }
}
