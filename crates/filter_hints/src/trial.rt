//! Whether an edit mends a filter: it is checked once more.
use crate::edit::{Edit, edited};
use crate::filter_of::FilterOf;
use fault_sentences::FaultClass;
use odata_syntax::SyntaxFault;
use odata_text::{Span, TextFault};
use odata_typing::{Refusal, check};
use std::alloc::{AllocError, Global};

/// Whether the refusal is about types, of a text that is an expression.
fn is_about_types(refusal: &Refusal) -> bool {
    match refusal {
        Refusal::Typing(_) => true,
        _ => false,
    }
}

/// Where a refused text is at fault; `None` if an allocation failed.
fn fault_span(refusal: &Refusal) -> Option<Span> {
    match refusal {
        Refusal::Text(fault) => match fault {
            TextFault::BadCharacter { span }
            | TextFault::UnclosedString { span }
            | TextFault::LeftOutLiteral { span }
            | TextFault::RunOn { span }
            | TextFault::TooLong { span } => Some(*span),
            TextFault::Memory => None,
        },
        Refusal::Syntax(fault) => match fault {
            SyntaxFault::Unexpected { span } | SyntaxFault::TooDeep { span } => Some(*span),
            SyntaxFault::Memory => None,
        },
        Refusal::Typing(fault) => Some(fault.span),
        Refusal::Memory => None,
    }
}

/// Whether the text is a filter up to that offset: accepted, or at fault after it only. One that was an expression must
/// be one still.
fn is_filter_up_to(
    alloc: Global,
    filter: &FilterOf<'_>,
    text: &str,
    offset: usize,
) -> Result<bool, AllocError> {
    if !filter.schema.holds(filter.id) {
        return Ok(false);
    }
    match check(alloc, filter.schema, filter.id, text) {
        Ok(_) => Ok(true),
        Err(refusal) => match fault_span(&refusal) {
            Some(span) => {
                let was_expression = filter.report.class == FaultClass::Typing;
                Ok(offset <= span.start && (is_about_types(&refusal) || !was_expression))
            }
            None => Err(AllocError),
        },
    }
}

/// Whether the edit mends the fault: no fault is left where the edited text is, or before it.
pub fn mends(alloc: Global, filter: &FilterOf<'_>, edit: &Edit) -> Result<bool, AllocError> {
    match edited(alloc, filter.report.text, edit)? {
        Some(text) => {
            let offset = edit.span.start.saturating_add(edit.text.len());
            is_filter_up_to(alloc, filter, &text, offset)
        }
        None => Ok(false),
    }
}
