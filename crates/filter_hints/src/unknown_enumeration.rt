//! What to write for a literal that names no member of an enumeration.
use crate::advised_sentence::Advice;
use crate::edit::{Edit, part};
use crate::filter_of::FilterOf;
use crate::hint::Hint;
use crate::listed_items::unfit_item;
use crate::operand_type::{OperandType, operand_type};
use crate::syntax_tree::{first_of_two, last_child};
use crate::unknown_property::near_in_words;
use csdl_schema::{EnumId, PropertyKind};
use near_names::NearNames;
use odata_syntax::{LiteralKind, SyntaxKind, SyntaxNode};
use odata_text::Span;
use std::alloc::{AllocError, Global};

/// At most so many members are listed.
const LISTED: usize = 8;

/// At most so many members are compared with a mistyped one, so that a great enumeration makes no sentence dear.
const COMPARED: usize = 1_024;

/// The names of the first members, with commas between them.
fn members_in_words(
    alloc: Global,
    filter: &FilterOf<'_>,
    id: EnumId,
) -> Result<String, AllocError> {
    let mut names = String::new(alloc);
    for index in 0..LISTED {
        if let Some((name, _)) = filter.schema.enum_member(id, index) {
            if !names.is_empty() {
                names.push_str(", ")?;
            }
            names.push_str(name)?;
        }
    }
    if LISTED < filter.schema.enum_members(id) {
        names.push_str(", ..")?;
    }
    Ok(names)
}

/// What stands between the quotes of a literal, and the literal in the filter.
#[derive(Clone, Copy)]
struct Quoted<'t> {
    before: &'t str,
    value: &'t str,
    span: Span,
}

/// The member that is nearest to what a literal has, and all members.
fn member_advice(
    alloc: Global,
    filter: &FilterOf<'_>,
    id: EnumId,
    literal: &Quoted<'_>,
) -> Result<Hint, AllocError> {
    let mut near = NearNames::new(literal.value);
    for index in 0..filter.schema.enum_members(id).min(COMPARED) {
        if let Some((name, _)) = filter.schema.enum_member(id, index) {
            near.offer(name);
        }
    }
    let members = members_in_words(alloc, filter, id)?;
    let name = filter.schema.enum_name(id).unwrap_or("the enumeration");
    let Some(member) = near.first() else {
        let words = format!(in alloc; "The members of {name} are {}.", members.as_str())?;
        return Ok(Hint::plain(alloc, words));
    };
    let words = format!(in alloc;
        "Did you mean '{member}'? The members of {name} are {}.",
        members.as_str()
    )?;
    let text = format!(in alloc; "{}'{member}'", literal.before)?;
    let span = literal.span;
    Hint::with_edit(alloc, words, Edit { span, text })
}

/// The enumerations of the filtered type whose names are near.
fn near_enumerations<'n>(filter: &FilterOf<'n>, name: &'n str) -> NearNames<'n> {
    let mut near = NearNames::new(name);
    for slot in 0..filter.schema.slots(filter.id) {
        match filter.schema.property(filter.id, slot).kind {
            PropertyKind::Enum(id) => near.offer(filter.schema.enum_name(id).unwrap_or("")),
            _ => {}
        }
    }
    near
}

/// Of a literal with the name of its enumeration before the quotes.
fn named_literal(alloc: Global, filter: &FilterOf<'_>, span: Span) -> Result<Advice, AllocError> {
    let Some((name, rest)) = part(filter.report.text, span).split_once('\'') else {
        return Ok(Advice::None);
    };
    match filter.schema.enum_named(name) {
        Some(id) => {
            let literal = Quoted {
                before: name,
                value: rest.strip_suffix('\'').unwrap_or(rest),
                span,
            };
            Ok(Advice::After(member_advice(alloc, filter, id, &literal)?))
        }
        None => unknown_name(alloc, filter, name, span.start),
    }
}

/// Of a name of no enumeration, which begins at that offset.
fn unknown_name(
    alloc: Global,
    filter: &FilterOf<'_>,
    name: &str,
    start: usize,
) -> Result<Advice, AllocError> {
    let sentence = format!(in alloc; "The schema has no enumeration '{name}'.")?;
    let span = Span {
        start,
        stop: start.saturating_add(name.len()),
    };
    match near_in_words(alloc, &near_enumerations(filter, name), span)? {
        Some(question) => Ok(Advice::Instead(Hint {
            text: format!(in alloc; "{} {}", sentence.as_str(), question.text.as_str())?,
            edits: question.edits,
        })),
        None => Ok(Advice::Instead(Hint::plain(alloc, sentence))),
    }
}

/// Of a literal that is compared with a value of that type.
fn literal_beside(
    alloc: Global,
    filter: &FilterOf<'_>,
    literal: &SyntaxNode,
    other: &OperandType,
) -> Result<Option<Hint>, AllocError> {
    match filter.schema.enum_named(&other.name) {
        Some(id) => {
            let literal = Quoted {
                before: "",
                value: part(filter.report.text, literal.span).trim_matches('\''),
                span: literal.span,
            };
            Ok(Some(member_advice(alloc, filter, id, &literal)?))
        }
        None => Ok(None),
    }
}

/// Of a text that is compared with an enumeration.
fn text_beside(
    alloc: Global,
    filter: &FilterOf<'_>,
    nodes: &[SyntaxNode],
    pair: (usize, usize),
) -> Result<Option<Hint>, AllocError> {
    let (own, other) = pair;
    let Some(literal) = nodes.get(own) else {
        return Ok(None);
    };
    match operand_type(alloc, filter, nodes, other)? {
        Some(other) => literal_beside(alloc, filter, literal, &other),
        None => Ok(None),
    }
}

/// Of the two operands of a comparison or of `has`.
fn compared(
    alloc: Global,
    filter: &FilterOf<'_>,
    nodes: &[SyntaxNode],
    index: usize,
) -> Result<Advice, AllocError> {
    let (Some(left), Some(right)) = (first_of_two(nodes, index), last_child(index)) else {
        return Ok(Advice::None);
    };
    let found = match text_beside(alloc, filter, nodes, (right, left))? {
        Some(found) => Some(found),
        None => text_beside(alloc, filter, nodes, (left, right))?,
    };
    Ok(match found {
        Some(more) => Advice::After(more),
        None => Advice::None,
    })
}

/// Of the items of a list after `in`.
fn listed(
    alloc: Global,
    filter: &FilterOf<'_>,
    nodes: &[SyntaxNode],
    index: usize,
) -> Result<Advice, AllocError> {
    let Some((operand, item)) = unfit_item(alloc, filter, nodes, index)? else {
        return Ok(Advice::None);
    };
    Ok(match text_beside(alloc, filter, nodes, (item, operand))? {
        Some(more) => Advice::After(more),
        None => Advice::None,
    })
}

/// What to say of a literal that has no value in its enumeration.
pub fn enumeration_advice(
    alloc: Global,
    filter: &FilterOf<'_>,
    nodes: &[SyntaxNode],
    index: usize,
) -> Result<Advice, AllocError> {
    match nodes.get(index).map(|node| node.kind) {
        Some(SyntaxKind::Lit(LiteralKind::EnumLit)) => {
            named_literal(alloc, filter, filter.report.span)
        }
        Some(SyntaxKind::Binary(_) | SyntaxKind::Has) => compared(alloc, filter, nodes, index),
        Some(SyntaxKind::InList) => listed(alloc, filter, nodes, index),
        _ => Ok(Advice::None),
    }
}
