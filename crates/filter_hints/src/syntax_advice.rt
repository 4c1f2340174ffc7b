//! What to say of a text that is no expression.
use crate::advised_sentence::Advice;
use crate::edit::{Edit, part};
use crate::filter_of::FilterOf;
use crate::hint::Hint;
use crate::standard_names::{is_function, is_infix_operator};
use crate::trial::mends;
use crate::typed_literal::typed_literal;
use crate::unread_property::unread_in_words;
use crate::words_around::{first_operand_end, last_word, open_parenthesis};
use csdl_schema::PropertyKind;
use fault_sentences::FaultClass;
use odata_text::Span;
use std::alloc::{AllocError, Global};

/// A text up to the fault, the faulty part of it, and what follows.
#[derive(Clone, Copy)]
struct Around<'t> {
    before: &'t str,
    token: &'t str,
    after: &'t str,
}

fn text_around<'t>(text: &'t str, span: Span) -> Around<'t> {
    Around {
        before: text.get(..span.start).unwrap_or(""),
        token: part(text, span),
        after: text.get(span.stop..).unwrap_or(""),
    }
}

/// At the end of the text: what is still open.
fn at_end(alloc: Global, around: &Around<'_>) -> Result<Option<String>, AllocError> {
    let word = part(around.before, last_word(around.before));
    if is_infix_operator(word) || word.eq_ignore_ascii_case("not") {
        return Ok(Some(format!(in alloc; "An operand is missing after '{word}'.")?));
    }
    match open_parenthesis(around.before) {
        Some(offset) => Ok(Some(format!(in alloc;
            "The parenthesis at byte {offset} is not closed."
        )?)),
        None => Ok(None),
    }
}

/// An operator at the beginning of the text or of a parenthesis.
fn without_left_operand(alloc: Global, around: &Around<'_>) -> Result<Option<String>, AllocError> {
    let span = last_word(around.before);
    let word = part(around.before, span);
    let lead = around.before.get(..span.start).unwrap_or("").trim_end();
    if is_infix_operator(word) && (lead.is_empty() || lead.ends_with('(')) {
        Ok(Some(format!(in alloc; "'{word}' has nothing before it.")?))
    } else {
        Ok(None)
    }
}

/// A function written between its arguments.
fn infix_function(
    alloc: Global,
    filter: &FilterOf<'_>,
    around: &Around<'_>,
) -> Result<Option<Hint>, AllocError> {
    let left = last_word(around.before);
    let end = first_operand_end(around.after);
    let right = around.after.get(..end).unwrap_or("").trim_start();
    let call = format!(in alloc; "{}({},{right})", around.token, part(around.before, left))?;
    let span = Span {
        start: left.start,
        stop: filter.report.span.stop.saturating_add(end),
    };
    let edit = Edit { span, text: call };
    if mends(alloc, filter, &edit)? {
        let words = format!(in alloc; "Write {}.", edit.text.as_str())?;
        Ok(Some(Hint::with_edit(alloc, words, edit)?))
    } else {
        Ok(None)
    }
}

/// A lambda expression without its variable.
fn without_variable(
    alloc: Global,
    filter: &FilterOf<'_>,
    around: &Around<'_>,
) -> Result<Option<Hint>, AllocError> {
    let first = last_word(around.before);
    let word = part(around.before, first);
    let variable = match word.split_once('/') {
        Some((variable, _)) => variable,
        None => word,
    };
    let edit = Edit {
        span: Span {
            start: first.start,
            stop: first.start,
        },
        text: format!(in alloc; "{variable}:")?,
    };
    if mends(alloc, filter, &edit)? {
        let words = format!(in alloc;
            "any and all name a variable first, before a colon: put {} before {word}.",
            edit.text.as_str()
        )?;
        Ok(Some(Hint::with_edit(alloc, words, edit)?))
    } else {
        Ok(None)
    }
}

/// Whether the text ends with the opening of `any` or `all`, before its last word.
fn opens_lambda(before: &str) -> bool {
    let lead = before
        .get(..last_word(before).start)
        .unwrap_or("")
        .trim_end();
    lead.ends_with("/any(") || lead.ends_with("/all(")
}

/// A word where an operator is wanted: another operator, or none before it.
fn operator_advice(alloc: Global, around: &Around<'_>) -> Result<Option<String>, AllocError> {
    let word = around.token;
    if word.eq_ignore_ascii_case("like") {
        let text = "Use contains, startswith or endswith, as in contains(Name,'a').";
        return Ok(Some(String::from_str(alloc, text)?));
    }
    if word.eq_ignore_ascii_case("divby") {
        let text = "The operator divby is not supported; div divides whole numbers.";
        return Ok(Some(String::from_str(alloc, text)?));
    }
    without_left_operand(alloc, around)
}

/// Words without an edit about a token that cannot stand there.
fn plain_advice(alloc: Global, around: &Around<'_>) -> Result<Option<String>, AllocError> {
    if around.token.is_empty() {
        at_end(alloc, around)
    } else if around.token == ")" && open_parenthesis(around.before).is_none() {
        Ok(Some(String::from_str(alloc, "No parenthesis is open there.")?))
    } else {
        operator_advice(alloc, around)
    }
}

/// The words as a hint that suggests no edit.
fn plain_hint(alloc: Global, words: Option<String>) -> Option<Hint> {
    match words {
        Some(words) => Some(Hint::plain(alloc, words)),
        None => None,
    }
}

/// Of a token that cannot stand there.
fn unexpected(
    alloc: Global,
    filter: &FilterOf<'_>,
    around: &Around<'_>,
) -> Result<Option<Hint>, AllocError> {
    if !around.token.is_empty() && opens_lambda(around.before) {
        without_variable(alloc, filter, around)
    } else if is_function(around.token) {
        infix_function(alloc, filter, around)
    } else if around.token.starts_with('\'') {
        typed_literal(alloc, filter, around.before)
    } else {
        Ok(plain_hint(alloc, plain_advice(alloc, around)?))
    }
}

/// Of a number with a fraction: a property beside it whose type is not supported.
fn beside_unread(
    alloc: Global,
    filter: &FilterOf<'_>,
    around: &Around<'_>,
) -> Result<Option<String>, AllocError> {
    let operator = last_word(around.before);
    let lead = around.before.get(..operator.start).unwrap_or("");
    let name = part(lead, last_word(lead));
    let Some(slot) = filter.schema.slot(filter.id, name) else {
        return Ok(None);
    };
    match filter.schema.property(filter.id, slot).kind {
        PropertyKind::Opaque => match unread_in_words(alloc, filter.schema, filter.id, name)? {
            Some(more) => Ok(Some(format!(in alloc;
                "Property '{name}' has a type that is not supported either. {}",
                more.as_str()
            )?)),
            None => Ok(None),
        },
        _ => Ok(None),
    }
}

/// What to say of a text without tokens, or of tokens without a tree.
pub fn syntax_advice(alloc: Global, filter: &FilterOf<'_>) -> Result<Advice, AllocError> {
    let around = text_around(filter.report.text, filter.report.span);
    let more = match (filter.report.class, filter.report.number) {
        (FaultClass::Syntax, 1) => unexpected(alloc, filter, &around)?,
        (FaultClass::Text, 3) => plain_hint(alloc, beside_unread(alloc, filter, &around)?),
        _ => None,
    };
    Ok(match more {
        Some(more) => Advice::After(more),
        None => Advice::None,
    })
}
