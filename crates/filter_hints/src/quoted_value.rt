//! Literals that fit another type once they are written otherwise.
use crate::edit::{Edit, part};
use odata_syntax::{LiteralKind, SyntaxKind, SyntaxNode};
use std::alloc::{AllocError, Global};

/// The ways in which a literal may be meant.
#[derive(Clone, Copy)]
pub enum Spelling {
    /// Without its quotes.
    Unquoted,
    /// Between quotes.
    Quoted,
    /// A date as the moment at which it begins in UTC.
    Midnight,
    /// A date between quotes, likewise.
    UnquotedMidnight,
    /// A moment as its date.
    Day,
    /// 1 and 0 as truth values.
    Truth,
}

/// All of them, the likeliest first.
pub const SPELLINGS: [Spelling; 6] = [
    Spelling::Unquoted,
    Spelling::Midnight,
    Spelling::UnquotedMidnight,
    Spelling::Day,
    Spelling::Truth,
    Spelling::Quoted,
];

/// The truth value that a number stands for elsewhere.
fn truth_value(literal: &str) -> Option<&'static str> {
    match literal {
        "1" => Some("true"),
        "0" => Some("false"),
        _ => None,
    }
}

/// The literal in the same letters.
fn copied(alloc: Global, literal: Option<&str>) -> Result<Option<String>, AllocError> {
    match literal {
        Some(literal) => Ok(Some(String::from_str(alloc, literal)?)),
        None => Ok(None),
    }
}

/// The text of a literal without its quotes.
fn unquoted(literal: &str) -> Option<&str> {
    literal.strip_prefix('\'')?.strip_suffix('\'')
}

/// The literal in that other spelling; `None` of a literal of a kind for which it makes no sense.
fn respelled(
    alloc: Global,
    kind: LiteralKind,
    literal: &str,
    way: Spelling,
) -> Result<Option<String>, AllocError> {
    let text = match (way, kind) {
        (Spelling::Unquoted, LiteralKind::Str) => return copied(alloc, unquoted(literal)),
        (Spelling::Day, LiteralKind::Moment) => return copied(alloc, literal.get(..10)),
        (Spelling::Truth, LiteralKind::Int) => return copied(alloc, truth_value(literal)),
        (Spelling::UnquotedMidnight, LiteralKind::Str) => match unquoted(literal) {
            Some(inner) => format!(in alloc; "{inner}T00:00:00Z")?,
            None => return Ok(None),
        },
        (Spelling::Midnight, LiteralKind::Date) => format!(in alloc; "{literal}T00:00:00Z")?,
        (Spelling::Quoted, LiteralKind::Int | LiteralKind::Date | LiteralKind::Guid) => {
            format!(in alloc; "'{literal}'")?
        }
        _ => return Ok(None),
    };
    Ok(Some(text))
}

/// The edit that writes a literal of the filter otherwise.
pub fn respelling(
    alloc: Global,
    filter: &str,
    node: &SyntaxNode,
    way: Spelling,
) -> Result<Option<Edit>, AllocError> {
    let SyntaxKind::Lit(kind) = node.kind else {
        return Ok(None);
    };
    match respelled(alloc, kind, part(filter, node.span), way)? {
        Some(text) => Ok(Some(Edit {
            span: node.span,
            text,
        })),
        None => Ok(None),
    }
}
