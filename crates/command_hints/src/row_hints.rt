//! What to say of a row at fault beyond the sentence: its line, the value found, the type wanted.
use crate::faulty_row::FaultyRow;
use crate::file_form::form_advice;
use crate::filtered_type::FilteredType;
use crate::json_place::{JsonPlace, json_place};
use crate::row_value::{shown_value, wanted_type};
use fault_sentences::{FaultClass, Report};
use std::alloc::{AllocError, Global};

/// Which row it is.
fn row_in_words(alloc: Global, row: &FaultyRow<'_>) -> Result<String, AllocError> {
    let what = if row.is_entity { "entity" } else { "line" };
    let number = row.number;
    match (row.file, row.part) {
        (Some(file), Some(part)) => Ok(format!(in alloc;
            "{what} {number} of part {}/{} of {file}",
            part.number, part.count
        )?),
        (Some(file), None) => Ok(format!(in alloc; "{what} {number} of {file}")?),
        (None, _) => Ok(format!(in alloc; "{what} {number} of standard input")?),
    }
}

/// The value that a row has at a path, if the row is available.
fn found_value(
    alloc: Global,
    row: &FaultyRow<'_>,
    path: &str,
) -> Result<Option<String>, AllocError> {
    match row.text {
        Some(text) => shown_value(alloc, text, path),
        None => Ok(None),
    }
}

/// The type that is wanted at a path.
fn type_at(
    alloc: Global,
    known: Option<&FilteredType>,
    path: &str,
) -> Result<Option<String>, AllocError> {
    match known {
        Some(known) => wanted_type(alloc, &known.schema, known.id, path),
        None => Ok(None),
    }
}

/// Of a row, what is found where what is wanted.
fn value_advice(
    alloc: Global,
    row: &str,
    found: Option<String>,
    wanted: Option<String>,
) -> Result<String, AllocError> {
    match (found, wanted) {
        (Some(found), Some(wanted)) => Ok(format!(in alloc;
            "In {row} there is {} where {} is wanted.",
            found.as_str(),
            wanted.as_str()
        )?),
        (Some(found), None) => Ok(format!(in alloc; "In {row} it is {}.", found.as_str())?),
        (None, Some(wanted)) => Ok(format!(in alloc;
            "The row is {row}; the type is {}.",
            wanted.as_str()
        )?),
        (None, None) => Ok(format!(in alloc; "The row is {row}.")?),
    }
}

/// What a line that is no JSON shows: what its file is, or where JSON ends in it.
fn line_advice(alloc: Global, line: &[u8]) -> Result<String, AllocError> {
    if let Some(form) = form_advice(line) {
        return Ok(format!(in alloc; " {form}")?);
    }
    match json_place(alloc, line) {
        JsonPlace::At { column, .. } => Ok(format!(in alloc; " JSON ends at column {column}.")?),
        _ => Ok(String::new(alloc)),
    }
}

/// Of a line that is no JSON.
fn json_advice(alloc: Global, row: &str, text: Option<&[u8]>) -> Result<String, AllocError> {
    match text {
        Some(line) => {
            let more = line_advice(alloc, line)?;
            Ok(format!(in alloc; "The row is {row}.{}", more.as_str())?)
        }
        None => Ok(format!(in alloc; "The row is {row}.")?),
    }
}

/// What the bytes of rows show, if these are available.
pub fn rows_form(rows: Option<&[u8]>) -> Option<&'static str> {
    form_advice(rows?)
}

/// What to say after the sentence about a row.
pub fn row_advice(
    alloc: Global,
    row: &FaultyRow<'_>,
    known: Option<&FilteredType>,
    report: &Report<'_>,
) -> Result<String, AllocError> {
    let words = row_in_words(alloc, row)?;
    match report.class {
        FaultClass::Row => {
            let found = found_value(alloc, row, report.text)?;
            let wanted = type_at(alloc, known, report.text)?;
            value_advice(alloc, words.as_str(), found, wanted)
        }
        FaultClass::Json => json_advice(alloc, words.as_str(), row.text),
        _ => match rows_form(row.text) {
            Some(form) => Ok(format!(in alloc; "The row is {}. {form}", words.as_str())?),
            None => Ok(format!(in alloc; "The row is {}.", words.as_str())?),
        },
    }
}
