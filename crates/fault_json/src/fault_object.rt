ghost use Rattle.std.specs.Prelude.{◌≡◌, IfOk, is_some};
ghost use Rattle.fault_sentences.specs.Numbers.{is_known};

use crate::class_names::{class_name, name_of};
use crate::located_fault::{AbsentRow, LocatedFault};
use crate::utf16_span::utf16_span;
use fault_sentences::{FaultClass, Report, fault_sentence};
use filter_hints::{Edit, FilterOf, Hint, advise_with_edits};
use odata_text::Span;
use serde::Serialize;
use serde_json::to_string;
use std::alloc::{AllocError, Global};

/// Two offsets in a text.
#[derive(Drop, Serialize)]
struct Bounds {
    start: usize,
    end: usize,
}

/// What to write instead of a part of the filter.
#[derive(Drop, Serialize)]
struct Suggestion<'t> {
    start: usize,
    end: usize,
    text: &'t str,
}

/// The object of a fault. Each of its members is always there.
#[derive(Drop, Serialize)]
struct FaultObject<'t, 'h, 'f> {
    class: &'static str,
    code: u8,
    name: &'static str,
    text: Option<&'t str>,
    span: Option<Bounds>,
    utf16_span: Option<Bounds>,
    sentence: &'h str,
    suggestions: Vec<Suggestion<'h>>,
    names: Vec<&'t str>,
    number: Option<usize>,
    path: Option<&'t str>,
    file: Option<&'f str>,
    line: Option<u64>,
    column: Option<u64>,
}

fn bounds_of(span: Span) -> Bounds {
    Bounds {
        start: span.start,
        end: span.stop,
    }
}

/// The text of a filter that a fault is of, and where in it.
fn filter_part<'t>(report: &Report<'t>) -> Option<(&'t str, Span)> {
    match report.class {
        FaultClass::Text | FaultClass::Syntax | FaultClass::Typing => {
            Some((report.text, report.span))
        }
        _ => None,
    }
}

/// The names that a fault of a schema or of its types carries.
fn names_of<'t>(alloc: Global, report: &Report<'t>) -> Result<Vec<&'t str>, AllocError> {
    let mut names = Vec::new(alloc);
    let (first, second) = match report.class {
        FaultClass::Schema => (
            report.text.get(..report.span.start).unwrap_or(""),
            report.text.get(report.span.start..).unwrap_or(""),
        ),
        FaultClass::UnknownType => (report.text, ""),
        _ => return Ok(names),
    };
    for name in [first, second] {
        if !name.is_empty() {
            names.push(name)?;
        }
    }
    Ok(names)
}

/// The number that a fault of a query carries.
fn number_of(report: &Report<'_>) -> Option<usize> {
    match report.class {
        FaultClass::Query => Some(report.span.start),
        _ => None,
    }
}

/// The path to the value at fault.
fn path_of<'t>(report: &Report<'t>) -> Option<&'t str> {
    match report.class {
        FaultClass::Row => if report.text.is_empty() {
            None
        } else {
            Some(report.text)
        },
        _ => None,
    }
}

/// The edits as an object has them.
fn suggestions_of<'t>(alloc: Global, edits: &'t [Edit]) -> Result<Vec<Suggestion<'t>>, AllocError> {
    let mut suggestions = Vec::new(alloc);
    for edit in edits {
        suggestions.push(Suggestion {
            start: edit.span.start,
            end: edit.span.stop,
            text: edit.text.as_str(),
        })?;
    }
    Ok(suggestions)
}

/// The sentence about a fault, and the edits that it suggests.
fn hint_of(alloc: Global, fault: &LocatedFault<'_, '_, '_>) -> Result<Option<Hint>, AllocError>
    ensures { IfOk result (λ hint. is_some hint
        ≡ is_known fault.now.report.class fault.now.report.number) }
{
    match fault.filtered {
        Some((schema, id)) => {
            let filter = FilterOf {
                schema,
                id,
                report: &fault.report,
            };
            advise_with_edits(alloc, &filter)
        }
        None => match fault_sentence(alloc, &fault.report)? {
            Some(text) => Ok(Some(Hint {
                text,
                edits: Vec::new(alloc),
            })),
            None => Ok(None),
        },
    }
}

/// The object of a fault with that sentence.
fn object_text(
    alloc: Global,
    fault: &LocatedFault<'_, '_, '_>,
    hint: &Hint,
) -> Result<String, AllocError> {
    let report = &fault.report;
    let part = filter_part(report);
    let object = FaultObject {
        class: class_name(report.class),
        code: report.number,
        name: name_of(report),
        text: part.map(|(text, _)| text),
        span: part.map(|(_, span)| bounds_of(span)),
        utf16_span: part
            .and_then(|(text, span)| utf16_span(text, span))
            .map(bounds_of),
        sentence: hint.text.as_str(),
        suggestions: suggestions_of(alloc, hint.edits.as_slice())?,
        names: names_of(alloc, report)?,
        number: number_of(report),
        path: path_of(report),
        file: fault.file,
        line: fault.line,
        column: fault.column,
    };
    match to_string(alloc, &object) {
        Ok(text) => Ok(text),
        Err(_) => Err(AllocError),
    }
}

/// Returns a fault as one JSON object, without a line feed. Offsets count bytes of the filter's UTF-8 from 0, those of
/// `utf16_span` units of its UTF-16. `None` if the class has no fault of that number.
pub fn fault_json(
    alloc: Global,
    fault: &LocatedFault<'_, '_, '_>,
) -> Result<Option<String>, AllocError>
    ensures { IfOk result (λ object. is_some object
        ≡ is_known fault.now.report.class fault.now.report.number) }
{
    match hint_of(alloc, fault)? {
        Some(hint) => Ok(Some(object_text(alloc, fault, &hint)?)),
        None => Ok(None),
    }
}

/// The object of an absent row with that sentence.
fn absent_object<'h, 'f>(
    alloc: Global,
    row: &AbsentRow<'f>,
    sentence: &'h str,
) -> FaultObject<'h, 'h, 'f> {
    FaultObject {
        class: "no_row",
        code: 0,
        name: "NoRow",
        text: None,
        span: None,
        utf16_span: None,
        sentence,
        suggestions: Vec::new(alloc),
        names: Vec::new(alloc),
        number: None,
        path: None,
        file: row.file,
        line: Some(row.line),
        column: None,
    }
}

/// Returns the sentence about a row that its input does not have. It has no clause: sentences are tested.
pub fn no_row_sentence(alloc: Global, row: &AbsentRow<'_>) -> Result<String, AllocError> {
    Ok(format!(in alloc; "The number of lines is {}.", row.lines)?)
}

/// Returns a row that its input does not have as one JSON object, without a line feed.
///
/// The object has the members of that of [`fault_json`]. It has no clause: what the object says is tested.
pub fn no_row_json(alloc: Global, row: &AbsentRow<'_>) -> Result<String, AllocError> {
    let sentence = no_row_sentence(alloc, row)?;
    match to_string(alloc, &absent_object(alloc, row, sentence.as_str())) {
        Ok(text) => Ok(text),
        Err(_) => Err(AllocError),
    }
}
