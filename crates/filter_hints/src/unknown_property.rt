//! What to write for a name that is no property.
use crate::advised_sentence::Advice;
use crate::called_function::called_function;
use crate::edit::{Edit, part};
use crate::filter_of::FilterOf;
use crate::hint::Hint;
use crate::operand_type::{OperandType, operand_type};
use crate::standard_names::is_unsupported_function;
use crate::syntax_tree::{lambda_parts, last_child, next_around, node_with};
use crate::trial::mends;
use crate::words_around::first_operand_end;
use csdl_schema::{Schema, TypeId};
use near_names::NearNames;
use odata_syntax::{SyntaxKind, SyntaxNode};
use odata_text::Span;
use std::alloc::{AllocError, Global};

/// How many paths are looked for beside a name.
const BESIDE: usize = 4;

/// The names of a type that are near to a mistyped one.
fn near_properties<'n>(schema: &'n Schema, id: TypeId, name: &'n str) -> NearNames<'n> {
    let mut near = NearNames::new(name);
    for slot in 0..schema.slots(id) {
        near.offer(schema.slot_name(id, slot));
    }
    near
}

/// A question whether one of the names was meant where the mistyped one stands.
pub fn near_in_words(
    alloc: Global,
    near: &NearNames<'_>,
    span: Span,
) -> Result<Option<Hint>, AllocError> {
    let text = match (near.at(0), near.at(1), near.at(2)) {
        (Some(one), Some(two), Some(three)) => {
            format!(in alloc; "Did you mean '{one}', '{two}' or '{three}'?")?
        }
        (Some(one), Some(two), None) => format!(in alloc; "Did you mean '{one}' or '{two}'?")?,
        (Some(one), None, _) => format!(in alloc; "Did you mean '{one}'?")?,
        (None, _, _) => return Ok(None),
    };
    let mut hint = Hint::plain(alloc, text);
    for index in 0..3 {
        if let Some(name) = near.at(index) {
            let text = String::from_str(alloc, name)?;
            hint.edits.push(Edit { span, text })?;
        }
    }
    Ok(Some(hint))
}

/// The edit, if it mends the filter.
fn mended(alloc: Global, filter: &FilterOf<'_>, edit: Edit) -> Result<Option<Edit>, AllocError> {
    if mends(alloc, filter, &edit)? {
        Ok(Some(edit))
    } else {
        Ok(None)
    }
}

/// A name after the variable of a lambda expression around it, if that mends the filter.
fn after_a_variable(
    alloc: Global,
    filter: &FilterOf<'_>,
    nodes: &[SyntaxNode],
    span: Span,
) -> Result<Option<Edit>, AllocError> {
    let text = filter.report.text;
    for index in 0..nodes.len() {
        let (Some((_, body)), Some(lambda)) = (lambda_parts(nodes, index), nodes.get(index)) else {
            continue;
        };
        if body.start <= span.start && span.stop <= body.stop {
            let path = format!(in alloc; "{}/{}", part(text, lambda.text), part(text, span))?;
            let found = mended(alloc, filter, Edit { span, text: path })?;
            if found.is_some() {
                return Ok(found);
            }
        }
    }
    Ok(None)
}

/// Whether the operator or the call around a name has a path with a type too: a text alone would be compared with
/// another.
fn is_beside_a_path(
    alloc: Global,
    filter: &FilterOf<'_>,
    nodes: &[SyntaxNode],
    span: Span,
) -> Result<bool, AllocError> {
    let Some((first, stop)) = node_with(nodes, span).and_then(|name| tree_around(nodes, name))
    else {
        return Ok(false);
    };
    let mut asked = 0;
    for index in first..stop {
        let is_asked = nodes.get(index).map_or(false, |node| is_path(node.kind));
        if is_asked && asked < BESIDE {
            asked += 1;
            if operand_type(alloc, filter, nodes, index)?.is_some() {
                return Ok(true);
            }
        }
    }
    Ok(false)
}

/// Whether a node is a path, or begins one.
fn is_path(kind: SyntaxKind) -> bool {
    matches!(kind, SyntaxKind::Name | SyntaxKind::It | SyntaxKind::Member)
}

/// The indexes of the first node of the tree of the next node around, and of that node.
fn tree_around(nodes: &[SyntaxNode], index: usize) -> Option<(usize, usize)> {
    let span = nodes.get(index)?.span;
    let around = next_around(nodes, index.checked_add(1)?, span)?;
    Some((nodes.get(around)?.place.first, around))
}

/// The name as a text, if that mends the filter.
fn as_a_text(
    alloc: Global,
    filter: &FilterOf<'_>,
    nodes: &[SyntaxNode],
    span: Span,
) -> Result<Option<Edit>, AllocError> {
    if !is_beside_a_path(alloc, filter, nodes, span)? {
        return Ok(None);
    }
    let text = format!(in alloc; "'{}'", part(filter.report.text, span))?;
    mended(alloc, filter, Edit { span, text })
}

/// Of a name at the start of a path.
fn first_name(
    alloc: Global,
    filter: &FilterOf<'_>,
    nodes: &[SyntaxNode],
    span: Span,
) -> Result<Option<Hint>, AllocError> {
    if let Some(path) = after_a_variable(alloc, filter, nodes, span)? {
        let words = format!(in alloc; "Write {}.", path.text.as_str())?;
        return Ok(Some(Hint::with_edit(alloc, words, path)?));
    }
    let near = near_properties(filter.schema, filter.id, part(filter.report.text, span));
    if let Some(question) = near_in_words(alloc, &near, span)? {
        return Ok(Some(question));
    }
    let Some(quoted) = as_a_text(alloc, filter, nodes, span)? else {
        return Ok(None);
    };
    let words = format!(in alloc;
        "Texts stand between apostrophes: write {}.",
        quoted.text.as_str()
    )?;
    Ok(Some(Hint::with_edit(alloc, words, quoted)?))
}

/// Whether what follows a collection is a name for how many members it has.
fn asks_for_size(rest: &str) -> bool {
    let end = first_operand_end(rest);
    matches!(
        rest.get(..end),
        Some("/count" | "/Count" | "/length" | "/size")
    )
}

/// A step over a collection: a lambda expression in place of the path, if that mends the filter.
pub fn over_members(
    alloc: Global,
    filter: &FilterOf<'_>,
    base: Span,
    whole: Span,
) -> Result<Option<Hint>, AllocError> {
    let text = filter.report.text;
    let rest = Span {
        start: base.stop,
        stop: whole.stop,
    };
    let lambda = format!(in alloc; "{}/any(x:x{})", part(text, base), part(text, rest))?;
    let span = Span {
        start: base.start,
        stop: whole.stop,
    };
    let collection = part(text, base);
    match mended(alloc, filter, Edit { span, text: lambda })? {
        Some(lambda) => {
            let words = format!(in alloc;
                "'{collection}' is a collection: write {}.",
                lambda.text.as_str()
            )?;
            Ok(Some(Hint::with_edit(alloc, words, lambda)?))
        }
        None => {
            let words = if asks_for_size(part(text, rest)) {
                format!(in alloc;
                    "'{collection}' is a collection: {collection}/$count says how many members it has."
                )?
            } else {
                format!(in alloc; "'{collection}' is a collection: any and all look into it.")?
            };
            Ok(Some(Hint::plain(alloc, words)))
        }
    }
}

/// Of a step from the members of a collection; the node around it is rewritten with it.
fn step_over_members(
    alloc: Global,
    filter: &FilterOf<'_>,
    nodes: &[SyntaxNode],
    steps: (usize, usize),
) -> Result<Option<Hint>, AllocError> {
    let (index, at) = steps;
    let (Some(node), Some(base)) = (nodes.get(index), nodes.get(at)) else {
        return Ok(None);
    };
    let whole = match next_around(nodes, index.saturating_add(1), node.span) {
        Some(around) => nodes.get(around).map_or(node.span, |it| it.span),
        None => node.span,
    };
    over_members(alloc, filter, base.span, whole)
}

/// Of a step from a base of that type.
fn step_from(
    alloc: Global,
    filter: &FilterOf<'_>,
    nodes: &[SyntaxNode],
    steps: (usize, usize),
    base: &OperandType,
) -> Result<Option<Hint>, AllocError> {
    if base.is_collection {
        return step_over_members(alloc, filter, nodes, steps);
    }
    match (filter.schema.type_named(&base.name), nodes.get(steps.0)) {
        (Some(id), Some(node)) => {
            let name = part(filter.report.text, node.text);
            near_in_words(alloc, &near_properties(filter.schema, id, name), node.text)
        }
        _ => Ok(None),
    }
}

/// Of a step from a base.
fn step(
    alloc: Global,
    filter: &FilterOf<'_>,
    nodes: &[SyntaxNode],
    index: usize,
) -> Result<Option<Hint>, AllocError> {
    let Some(at) = last_child(index) else {
        return Ok(None);
    };
    match operand_type(alloc, filter, nodes, at)? {
        Some(base) => step_from(alloc, filter, nodes, (index, at), &base),
        None => Ok(None),
    }
}

/// What to say of a name that is no property.
pub fn property_advice(
    alloc: Global,
    filter: &FilterOf<'_>,
    nodes: &[SyntaxNode],
    index: usize,
) -> Result<Advice, AllocError> {
    if let Some(function) = called_function(filter.report.text, nodes, index) {
        if is_unsupported_function(function) {
            let sentence = format!(in alloc;
                "The function '{function}' of OData is not supported here."
            )?;
            return Ok(Advice::Instead(Hint::plain(alloc, sentence)));
        }
    }
    let more = match nodes.get(index).map(|node| node.kind) {
        Some(SyntaxKind::Name) => first_name(alloc, filter, nodes, filter.report.span)?,
        Some(SyntaxKind::Member) => step(alloc, filter, nodes, index)?,
        _ => None,
    };
    Ok(match more {
        Some(more) => Advice::After(more),
        None => Advice::None,
    })
}
