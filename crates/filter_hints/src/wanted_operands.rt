//! What an operator takes, where no other spelling of a literal fits.
use crate::edit::{Edit, part};
use crate::filter_of::FilterOf;
use crate::hint::Hint;
use crate::operand_type::{OperandType, are_comparable};
use crate::trial::mends;
use crate::unknown_property::over_members;
use odata_syntax::{BinaryOperator, LiteralKind, SyntaxKind, SyntaxNode};
use std::alloc::{AllocError, Global};

/// The two operands of an operator, by their indexes, and their types.
#[derive(Drop)]
pub struct Operands {
    pub left: usize,
    pub right: usize,
    pub left_type: Option<OperandType>,
    pub right_type: Option<OperandType>,
}

/// Whether it is the type of that name.
fn is_named(found: &Option<OperandType>, name: &str) -> bool {
    match found {
        Some(found) => found.name.as_str() == name,
        None => false,
    }
}

/// Whether it is a collection.
fn is_collection(found: &Option<OperandType>) -> bool {
    match found {
        Some(found) => found.is_collection,
        None => false,
    }
}

/// The date of a moment that is compared with a date, if that mends the filter.
fn date_of(
    alloc: Global,
    filter: &FilterOf<'_>,
    nodes: &[SyntaxNode],
    operands: &Operands,
) -> Result<Option<Hint>, AllocError> {
    let moment = if is_named(&operands.left_type, "Edm.DateTimeOffset") {
        operands.left
    } else {
        operands.right
    };
    let Some(node) = nodes.get(moment) else {
        return Ok(None);
    };
    let edit = Edit {
        span: node.span,
        text: format!(in alloc; "date({})", part(filter.report.text, node.span))?,
    };
    if mends(alloc, filter, &edit)? {
        let words = format!(in alloc; "Write {}.", edit.text.as_str())?;
        Ok(Some(Hint::with_edit(alloc, words, edit)?))
    } else {
        Ok(None)
    }
}

/// Of a collection that is compared: its members are, or it is asked whether it has any.
fn collection_compared(
    alloc: Global,
    filter: &FilterOf<'_>,
    base: &SyntaxNode,
    right: &SyntaxNode,
) -> Result<Option<Hint>, AllocError> {
    match right.kind {
        SyntaxKind::Lit(LiteralKind::Null) => {
            let collection = part(filter.report.text, base.span);
            let words = format!(in alloc;
                "A collection is never null: {collection}/any() says whether it has members."
            )?;
            Ok(Some(Hint::plain(alloc, words)))
        }
        _ => over_members(alloc, filter, base.span, filter.report.span),
    }
}

/// Of a comparison.
fn compared(
    alloc: Global,
    filter: &FilterOf<'_>,
    nodes: &[SyntaxNode],
    operands: &Operands,
) -> Result<Option<Hint>, AllocError> {
    if is_collection(&operands.left_type) {
        return match (nodes.get(operands.left), nodes.get(operands.right)) {
            (Some(base), Some(right)) => collection_compared(alloc, filter, base, right),
            _ => Ok(None),
        };
    }
    if are_comparable(alloc, filter, nodes, (operands.left, operands.right))? {
        let words = String::from_str(alloc, "They have no order: eq, ne and in compare them.")?;
        return Ok(Some(Hint::plain(alloc, words)));
    }
    date_of(alloc, filter, nodes, operands)
}

/// What is said of an operator that takes one kind of operands.
fn kind_in_words(kind: SyntaxKind) -> Option<&'static str> {
    match kind {
        SyntaxKind::Binary(BinaryOperator::Logical(_)) => Some("Both have to be conditions."),
        SyntaxKind::Binary(BinaryOperator::Arithmetic(_)) => Some("Both have to be numbers."),
        SyntaxKind::Has => Some("Both have to be of one enumeration."),
        _ => None,
    }
}

/// What the operator of that node takes, in words.
pub fn wanted_in_words(
    alloc: Global,
    filter: &FilterOf<'_>,
    nodes: &[SyntaxNode],
    index: usize,
    operands: &Operands,
) -> Result<Option<Hint>, AllocError> {
    let Some(node) = nodes.get(index) else {
        return Ok(None);
    };
    match (node.kind, kind_in_words(node.kind)) {
        (_, Some(words)) => {
            let words = String::from_str(alloc, words)?;
            Ok(Some(Hint::plain(alloc, words)))
        }
        (SyntaxKind::Binary(_), None) => compared(alloc, filter, nodes, operands),
        _ => Ok(None),
    }
}
