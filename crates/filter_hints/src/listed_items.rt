//! What to write where `in` does not take the items of its list.
use crate::edit::{Edit, edited, part};
use crate::filter_of::FilterOf;
use crate::hint::Hint;
use crate::operand_type::{are_comparable, operand_type};
use crate::operand_types::{joined, types_in_words};
use crate::quoted_value::{SPELLINGS, Spelling, respelling};
use crate::syntax_tree::{child_before, last_child};
use crate::trial::mends;
use odata_syntax::SyntaxNode;
use odata_text::Span;
use std::alloc::{AllocError, Global};

/// At most so many items are looked at, to keep sentences cheap.
const LOOKED_AT: usize = 16;

/// The index of the operand before a list that has items.
fn listed_operand(nodes: &[SyntaxNode], index: usize) -> Option<usize> {
    let mut child = last_child(index)?;
    for _ in 0..nodes.get(index)?.count {
        child = child_before(nodes, child)?;
    }
    Some(child)
}

/// The index of the operand before a list, and of the first item that cannot be compared with it.
pub fn unfit_item(
    alloc: Global,
    filter: &FilterOf<'_>,
    nodes: &[SyntaxNode],
    index: usize,
) -> Result<Option<(usize, usize)>, AllocError> {
    let (Some(operand), Some(list), Some(last)) = (
        listed_operand(nodes, index),
        nodes.get(index),
        last_child(index),
    ) else {
        return Ok(None);
    };
    let mut item = last;
    let mut found = None;
    for before in (0..list.count).rev() {
        if before < LOOKED_AT && !are_comparable(alloc, filter, nodes, (operand, item))? {
            found = Some((operand, item));
        }
        match child_before(nodes, item) {
            Some(previous) => item = previous,
            None => break,
        }
    }
    Ok(found)
}

/// The filter's text with each literal of a list in another spelling.
fn respelled_items(
    alloc: Global,
    filter: &str,
    nodes: &[SyntaxNode],
    index: usize,
    way: Spelling,
) -> Result<String, AllocError> {
    let mut text = String::from_str(alloc, filter)?;
    let mut child = last_child(index);
    for _ in 0..nodes.get(index).map_or(0, |list| list.count) {
        let Some(item) = child else {
            break;
        };
        if let Some(node) = nodes.get(item) {
            if let Some(edit) = respelling(alloc, filter, node, way)? {
                if let Some(next) = edited(alloc, &text, &edit)? {
                    text = next;
                }
            }
        }
        child = child_before(nodes, item);
    }
    Ok(text)
}

/// The edit that makes of a filter another text, which differs within that part.
fn edit_between(alloc: Global, filter: &str, other: &str, whole: Span) -> Result<Edit, AllocError> {
    let after = filter.len().saturating_sub(whole.stop);
    let changed = Span {
        start: whole.start,
        stop: other.len().saturating_sub(after),
    };
    Ok(Edit {
        span: whole,
        text: String::from_str(alloc, part(other, changed))?,
    })
}

/// The list with its literals in another spelling, in words, if that mends the filter.
fn list_in_words(
    alloc: Global,
    filter: &FilterOf<'_>,
    nodes: &[SyntaxNode],
    index: usize,
) -> Result<Option<Hint>, AllocError> {
    let Some(list) = nodes.get(index) else {
        return Ok(None);
    };
    if LOOKED_AT < list.count {
        return Ok(None);
    }
    for way in SPELLINGS {
        let text = filter.report.text;
        let other = respelled_items(alloc, text, nodes, index, way)?;
        let edit = edit_between(alloc, text, &other, list.span)?;
        if mends(alloc, filter, &edit)? {
            let words = format!(in alloc; "Write {}.", edit.text.as_str())?;
            return Ok(Some(Hint::with_edit(alloc, words, edit)?));
        }
    }
    Ok(None)
}

/// What to say after the sentence about a list that `in` does not take: the type of the operand and of the first item
/// that does not fit, and the list that fits.
pub fn list_advice(
    alloc: Global,
    filter: &FilterOf<'_>,
    nodes: &[SyntaxNode],
    index: usize,
) -> Result<Option<Hint>, AllocError> {
    let Some((operand, item)) = unfit_item(alloc, filter, nodes, index)? else {
        return Ok(None);
    };
    let first = operand_type(alloc, filter, nodes, operand)?;
    let second = operand_type(alloc, filter, nodes, item)?;
    let types = types_in_words(alloc, &first, &second)?;
    joined(alloc, types, list_in_words(alloc, filter, nodes, index)?)
}
