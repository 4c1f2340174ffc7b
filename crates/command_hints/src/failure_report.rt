use crate::failed_run::FailedRun;
use crate::file_form::form_advice;
use crate::filtered_type::FilteredType;
use crate::json_place::{JsonPlace, json_place};
use crate::marked_text::marked_text;
use crate::near_types::type_advice;
use crate::reported_fault::{ReportedFault, reported_fault};
use crate::row_hints::{row_advice, rows_form};
use csdl_schema::SchemaFault;
use fault_json::{LocatedFault, fault_json};
use fault_sentences::{FaultClass, Report, fault_sentence};
use filter_hints::{FilterOf, advise};
use odata_filter::{Failure, RunFault};
use std::alloc::{AllocError, Global};

/// Both texts with a space between them, or the first alone.
pub fn with_more(alloc: Global, text: String, more: Option<String>) -> Result<String, AllocError> {
    match more {
        Some(more) => Ok(format!(in alloc; "{} {}", text.as_str(), more.as_str())?),
        None => Ok(text),
    }
}

/// A sentence, and the filter with carets under its fault.
fn filter_hints(
    alloc: Global,
    known: &Option<FilteredType>,
    fault: &ReportedFault,
) -> Result<Option<String>, AllocError> {
    let Some(known) = known else {
        return Ok(None);
    };
    let report = fault.report(known.schema.type_name(known.id));
    let filter = FilterOf {
        schema: &known.schema,
        id: known.id,
        report: &report,
    };
    let Some(sentence) = advise(alloc, &filter)? else {
        return Ok(None);
    };
    let marked = marked_text(alloc, report.text, report.span)?;
    Ok(Some(format!(in alloc; "{}\n{}", sentence.as_str(), marked.as_str())?))
}

/// Of a query without a filter: what follows a `?` may have been meant, or a filter that is no query.
fn hints_without_filter(alloc: Global, query: &str) -> Result<Option<String>, AllocError> {
    let text = if query.contains('?') {
        "The query has no $filter. Give what follows the '?' of the URL alone."
    } else if query.contains('=') {
        "The query has no $filter."
    } else {
        "The query has no $filter. Give a filter that is no query by --filter."
    };
    Ok(Some(String::from_str(alloc, text)?))
}

/// Of a file or a stream.
fn device_hints(alloc: Global, failure: &Failure<'_>) -> Result<Option<String>, AllocError> {
    let text = match failure {
        Failure::RowsFile(_) => "The file cannot be opened or read.",
        Failure::Rows(RunFault::Read { .. }) => "The rows cannot be read on from there.",
        Failure::Rows(RunFault::Write) => "Standard output cannot be written.",
        _ => return Ok(None),
    };
    Ok(Some(String::from_str(alloc, text)?))
}

/// What to say after the sentence about a schema that is no JSON.
fn json_advice(alloc: Global, document: &[u8]) -> Result<Option<String>, AllocError> {
    if let Some(form) = form_advice(document) {
        return Ok(Some(String::from_str(alloc, form)?));
    }
    match json_place(alloc, document) {
        JsonPlace::Xml => Ok(Some(String::from_str(
            alloc,
            "It is XML: recipes/csdl_json.py converts it.",
        )?)),
        JsonPlace::At { line, column } => Ok(Some(format!(in alloc;
            "JSON ends at line {line}, column {column}."
        )?)),
        JsonPlace::None => Ok(None),
    }
}

/// What to say after the sentence about rows, or a row of them.
fn rows_advice(
    alloc: Global,
    run: &FailedRun<'_, '_, '_>,
    report: &Report<'_>,
) -> Result<Option<String>, AllocError> {
    match run.faulty_row() {
        Some(row) => {
            let known = FilteredType::read(alloc, run.document, run.plan.named);
            Ok(Some(row_advice(alloc, &row, known.as_ref(), report)?))
        }
        None => match rows_form(run.row) {
            Some(form) => Ok(Some(String::from_str(alloc, form)?)),
            None => Ok(None),
        },
    }
}

/// What the command line, its schema and its rows show beyond the sentence.
fn known_beyond(
    alloc: Global,
    run: &FailedRun<'_, '_, '_>,
    report: &Report<'_>,
) -> Result<Option<String>, AllocError> {
    match run.failure {
        Failure::Schema(SchemaFault::NotJson) => json_advice(alloc, run.document),
        Failure::UnknownType(name) => type_advice(alloc, run.document, name),
        Failure::NoMoment => Ok(Some(String::from_str(
            alloc,
            "Give it as --now 2020-01-01T00:00:00Z.",
        )?)),
        Failure::Rows(_) => rows_advice(alloc, run, report),
        _ => Ok(None),
    }
}

/// A sentence, and what is known beyond it.
fn plain_hints(
    alloc: Global,
    run: &FailedRun<'_, '_, '_>,
    fault: &ReportedFault,
) -> Result<Option<String>, AllocError> {
    let report = fault.report(None);
    match fault_sentence(alloc, &report)? {
        Some(sentence) => {
            Ok(Some(with_more(alloc, sentence, known_beyond(alloc, run, &report)?)?))
        }
        None => Ok(None),
    }
}

/// Returns why a run failed. It is a sentence, and of a filter its text with carets under the fault. `None` if an
/// allocation failed, and where there is no more to say than the line does. The last line has no line feed. It has no
/// clause: sentences are tested.
pub fn failure_hints(
    alloc: Global,
    run: &FailedRun<'_, '_, '_>,
) -> Result<Option<String>, AllocError> {
    let Some(fault) = reported_fault(alloc, run)? else {
        return device_hints(alloc, run.failure);
    };
    match run.failure {
        Failure::NoOption => hints_without_filter(alloc, run.plan.query.unwrap_or("")),
        Failure::Refused(_) => filter_hints(
            alloc,
            &FilteredType::read(alloc, run.document, run.plan.named),
            &fault,
        ),
        _ => plain_hints(alloc, run, &fault),
    }
}

/// Where a fault of JSON is, as an object has it.
fn line_and_column(alloc: Global, run: &FailedRun<'_, '_, '_>) -> (Option<u64>, Option<u64>) {
    match run.failure {
        Failure::Schema(SchemaFault::NotJson) => match json_place(alloc, run.document) {
            JsonPlace::At { line, column } => (Some(line), Some(column)),
            _ => (None, None),
        },
        _ => (run.line(), None),
    }
}

/// The object of a fault of a filter of that type.
fn refused_json(
    alloc: Global,
    fault: &ReportedFault,
    known: &FilteredType,
) -> Result<Option<String>, AllocError> {
    let located = LocatedFault {
        report: fault.report(known.schema.type_name(known.id)),
        filtered: Some((&known.schema, known.id)),
        file: None,
        line: None,
        column: None,
    };
    fault_json(alloc, &located)
}

/// The object of another fault.
fn plain_json(
    alloc: Global,
    run: &FailedRun<'_, '_, '_>,
    fault: &ReportedFault,
) -> Result<Option<String>, AllocError> {
    let (line, column) = line_and_column(alloc, run);
    let located = LocatedFault {
        report: fault.report(None),
        filtered: None,
        file: run.file(),
        line,
        column,
    };
    fault_json(alloc, &located)
}

/// Returns the JSON object of a run's failure, as [`fault_json`] makes it, without a line feed. `None` of a failure of
/// a device or of memory. It has no clause: what the object says is tested.
pub fn failure_json(
    alloc: Global,
    run: &FailedRun<'_, '_, '_>,
) -> Result<Option<String>, AllocError> {
    let Some(fault) = reported_fault(alloc, run)? else {
        return Ok(None);
    };
    match run.failure {
        Failure::Refused(_) => match &FilteredType::read(alloc, run.document, run.plan.named) {
            Some(known) => refused_json(alloc, &fault, known),
            None => plain_json(alloc, run, &fault),
        },
        _ => plain_json(alloc, run, &fault),
    }
}
