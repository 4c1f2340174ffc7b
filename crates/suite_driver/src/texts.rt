//! What is read of texts without a schema: tokens, trees, canonical texts, queries, identifiers; and texts made of them.
use crate::literals::{push_instant, push_literal_after};
use crate::moments::{push_order, push_parts};
use crate::paths::push_set;
use crate::question::Question;
use crate::tree_line::push_tree;
use odata_functions::{concat, to_lower, to_upper};
use odata_queries::filter_of_query;
use odata_syntax::{Expr, SyntaxFault, normal, parse, print};
use odata_text::{TextFault, Token, is_identifier, tokens, tokens_are_spelled};
use std::alloc::{AllocError, Global};

fn push_token(out: &mut String, token: &Token<'_>) -> Result<(), AllocError> {
    if !out.is_empty() {
        out.push_str(", ")?;
    }
    write!(out, "{:?} {}", token.kind, token.span)
}

/// Appends the tokens of a text, as `Word 0..2, Int 3..4`, or its refusal.
fn push_tokens(out: &mut String, alloc: Global, text: &str) -> Result<(), AllocError> {
    match &tokens(alloc, text) {
        Ok(found) => {
            for token in found {
                push_token(out, token)?;
            }
            Ok(())
        }
        Err(fault) => write!(out, "refused {fault}"),
    }
}

/// The tree of a text that has tokens, or the fault of its tokens.
fn parsed(alloc: Global, text: &str) -> Result<Result<Expr, SyntaxFault>, TextFault> {
    let found = tokens(alloc, text)?;
    tokens_are_spelled();
    Ok(parse(alloc, found.as_slice(), text.len()))
}

/// Appends the canonical text of an expression, and that of its normal form where it is another one.
fn push_canonical(out: &mut String, alloc: Global, expr: &Expr) -> Result<(), AllocError> {
    let text = print(alloc, expr)?;
    let form = normal(alloc, expr)?;
    let again = print(alloc, &form)?;
    out.push_str(text.as_str())?;
    if text.as_str() == again.as_str() {
        Ok(())
    } else {
        write!(out, ", but {again} of its normal form")
    }
}

/// Appends what is asked of an expression: its tree, its canonical text, or that it is one.
fn push_expression(
    out: &mut String,
    alloc: Global,
    expr: &Expr,
    word: &str,
) -> Result<(), AllocError> {
    match word {
        "tree" => push_tree(out, expr.root()),
        "text" => push_canonical(out, alloc, expr),
        _ => out.push_str("accepted"),
    }
}

/// Appends the same of the expression that a text is, or the text's refusal.
fn push_parsed(out: &mut String, alloc: Global, text: &str, word: &str) -> Result<(), AllocError> {
    match &parsed(alloc, text) {
        Ok(Ok(expr)) => push_expression(out, alloc, expr, word),
        Ok(Err(fault)) => write!(out, "refused {fault}"),
        Err(fault) => write!(out, "refused {fault}"),
    }
}

/// Appends a query's filter after the word, `no filter`, or the refusal.
fn push_query(out: &mut String, alloc: Global, query: &[u8]) -> Result<(), AllocError> {
    match &filter_of_query(alloc, query) {
        Ok(Some(filter)) => write!(out, "filter {filter}"),
        Ok(None) => out.push_str("no filter"),
        Err(fault) => write!(out, "refused {fault}"),
    }
}

/// Appends a text that is made of others.
fn push_made(out: &mut String, alloc: Global, question: &Question<'_>) -> Result<(), AllocError> {
    let made = match question.word {
        "concat" => concat(alloc, question.text, question.second)?,
        "lower" => to_lower(alloc, question.text)?,
        _ => to_upper(alloc, question.text)?,
    };
    out.push_str(made.as_str())
}

/// Appends the answer to a question without a schema, and returns whether it is one.
pub(crate) fn push_of_text(
    out: &mut String,
    alloc: Global,
    question: &Question<'_>,
) -> Result<bool, AllocError> {
    let text = question.text;
    match question.word {
        "tokens" => push_tokens(out, alloc, text)?,
        "tree" | "text" | "expression" => push_parsed(out, alloc, text, question.word)?,
        "query" => push_query(out, alloc, question.bytes)?,
        "identifier" => write!(out, "{}", is_identifier(text))?,
        "literal" => push_literal_after(out, alloc, question)?,
        "instant" => push_instant(out, text)?,
        "order" => push_order(out, text, question.second)?,
        "parts" => push_parts(out, text, question.second)?,
        "paths" => push_set(out, alloc, text)?,
        "concat" | "lower" | "upper" => push_made(out, alloc, question)?,
        _ => return Ok(false),
    }
    Ok(true)
}
