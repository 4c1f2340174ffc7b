//! What to say of a node without a type.
use crate::advised_sentence::Advice;
use crate::edit::part;
use crate::filter_of::FilterOf;
use crate::hint::Hint;
use crate::operand_type::operand_type;
use crate::operand_types::operand_advice;
use crate::standard_names::{FUNCTIONS, is_unsupported_function};
use crate::syntax_tree::node_with;
use crate::unknown_enumeration::enumeration_advice;
use crate::unknown_property::{near_in_words, property_advice};
use crate::unread_property::unread_advice;
use near_names::NearNames;
use odata_syntax::{SyntaxNode, parse_text};
use std::alloc::{AllocError, Global};

/// What to say after the sentence, if anything.
fn after(more: Option<Hint>) -> Advice {
    match more {
        Some(more) => Advice::After(more),
        None => Advice::None,
    }
}

/// Of a call of no function.
fn function_advice(
    alloc: Global,
    filter: &FilterOf<'_>,
    nodes: &[SyntaxNode],
    index: usize,
) -> Result<Advice, AllocError> {
    let Some(call) = nodes.get(index) else {
        return Ok(Advice::None);
    };
    let name = part(filter.report.text, call.text);
    if is_unsupported_function(name) {
        let sentence = format!(in alloc; "The function '{name}' of OData is not supported here.")?;
        return Ok(Advice::Instead(Hint::plain(alloc, sentence)));
    }
    let mut near = NearNames::new(name);
    for function in FUNCTIONS {
        near.offer(function);
    }
    for function in FUNCTIONS {
        near.offer_longer(function);
    }
    Ok(after(near_in_words(alloc, &near, call.text)?))
}

/// Of a filter that is neither true nor false: its type.
fn whole_advice(
    alloc: Global,
    filter: &FilterOf<'_>,
    nodes: &[SyntaxNode],
) -> Result<Advice, AllocError> {
    let Some(root) = nodes.len().checked_sub(1) else {
        return Ok(Advice::None);
    };
    match operand_type(alloc, filter, nodes, root)? {
        Some(found) => {
            let text = format!(in alloc; "It is of type {}.", found.name.as_str())?;
            Ok(Advice::After(Hint::plain(alloc, text)))
        }
        None => Ok(Advice::None),
    }
}

/// Of the node that takes the fault's bytes.
fn node_advice(
    alloc: Global,
    filter: &FilterOf<'_>,
    nodes: &[SyntaxNode],
    index: usize,
) -> Result<Advice, AllocError> {
    match filter.report.number {
        1 => property_advice(alloc, filter, nodes, index),
        2 => function_advice(alloc, filter, nodes, index),
        5 => Ok(after(operand_advice(alloc, filter, nodes, index)?)),
        10 => enumeration_advice(alloc, filter, nodes, index),
        11 => {
            let more = unread_advice(alloc, filter, nodes, index)?;
            Ok(Advice::After(Hint::plain(alloc, more)))
        }
        _ => Ok(Advice::None),
    }
}

/// What to say of a node without a type.
pub fn typing_advice(alloc: Global, filter: &FilterOf<'_>) -> Result<Advice, AllocError> {
    let Ok(list) = parse_text(alloc, filter.report.text) else {
        return Ok(Advice::None);
    };
    let nodes = list.nodes();
    if filter.report.number == 12 {
        return whole_advice(alloc, filter, nodes);
    }
    match node_with(nodes, filter.report.span) {
        Some(index) => node_advice(alloc, filter, nodes, index),
        None => Ok(Advice::None),
    }
}
