//! The fault of a row that a run passes over.
use crate::failure_report::with_more;
use crate::faulty_row::FaultyRow;
use crate::filtered_type::FilteredType;
use crate::row_hints::row_advice;
use fault_json::{LocatedFault, fault_json};
use fault_sentences::{FaultClass, Report, fault_sentence};
use odata_filter::{BadRow, FaultKind, Numbered, fault_name, row_fault_path};
use odata_text::Span;
use std::alloc::{AllocError, Global};

/// The class of a fault, its number there, and the path of the value at fault.
fn class_number_path(fault: &BadRow) -> (FaultClass, u8, &str) {
    match fault {
        BadRow::NotJson => (FaultClass::Json, 0, ""),
        BadRow::NoEntity(fault) => (
            FaultClass::Row,
            fault.number(),
            row_fault_path(fault).unwrap_or(""),
        ),
        BadRow::NoValue(fault) => (FaultClass::Evaluation, fault.number(), ""),
    }
}

/// What is known of a row's fault.
fn report_of(fault: &BadRow) -> Report<'_> {
    let (class, number, text) = class_number_path(fault);
    Report {
        class,
        number,
        span: Span { start: 0, stop: 0 },
        text,
        type_name: None,
    }
}

/// Returns the name of a row's fault, as its line has it; none if an allocation failed. It has no clause: names are
/// tested.
pub fn bad_row_name(fault: &BadRow) -> &'static str {
    let found = match fault {
        BadRow::NotJson => Some("Json"),
        BadRow::NoEntity(fault) => fault_name(FaultKind::Row, fault.number()),
        BadRow::NoValue(fault) => fault_name(FaultKind::Evaluation, fault.number()),
    };
    found.unwrap_or("")
}

/// Returns what [`failure_hints`](crate::failure_hints) says of a row's fault, without a line feed.
///
/// `None` if an allocation failed when the row was judged. It has no clause: sentences are tested.
pub fn bad_row_sentence(
    alloc: Global,
    fault: &BadRow,
    row: &FaultyRow<'_>,
    known: Option<&FilteredType>,
) -> Result<Option<String>, AllocError> {
    let report = report_of(fault);
    match fault_sentence(alloc, &report)? {
        Some(sentence) => {
            let more = row_advice(alloc, row, known, &report)?;
            Ok(Some(with_more(alloc, sentence, Some(more))?))
        }
        None => Ok(None),
    }
}

/// Returns the JSON object of a row's fault, without a line feed. `None` if an allocation failed when the row was
/// judged. It has no clause: what the object says is tested.
pub fn bad_row_json(
    alloc: Global,
    fault: &BadRow,
    file: Option<&str>,
    line: u64,
) -> Result<Option<String>, AllocError> {
    let located = LocatedFault {
        report: report_of(fault),
        filtered: None,
        file,
        line: Some(line),
        column: None,
    };
    fault_json(alloc, &located)
}
