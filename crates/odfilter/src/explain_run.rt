//! One row explained: what each node of the filter evaluates to.
use crate::fault_lines::{report, report_memory};
use crate::numbered_line::{FoundLine, numbered_line};
use crate::plan_run::{plan_over, source_of};
use crate::progress::Progress;
use crate::recent_rows::Keeping;
use crate::reports::{are_hints_wanted, write_object};
use crate::run_end::report_end;
use crate::streams::NotedRows;
use command_hints::{
    AbsentRow, accepted_json, explained_row, explains_rows, no_row_json, no_row_sentence,
};
use odata_filter::command_line::{Format, Plan, RunRequest, Verb};
use odata_filter::{Failure, RunFault};
use std::alloc::AllocError;
use std::io::ErrorKind;

/// Whether a row is to be explained, and not the filter alone.
pub fn explains_row(request: &RunRequest<'_>) -> bool {
    match request.plan.verb {
        Verb::Explain => request.row.is_some() || !request.rows.is_empty(),
        Verb::Check | Verb::Filter => false,
    }
}

/// The number of the row's line: the first without `--row`. `None` where the text is no number from 1.
fn row_number(request: &RunRequest<'_>) -> Option<u64> {
    let Some(text) = request.row else {
        return Some(1);
    };
    match text.parse::<u64>() {
        Ok(0) => None,
        Ok(number) => Some(number),
        Err(_) => None,
    }
}

/// The line of that number among the rows that the plan names.
fn row_of<'p>(
    progress: &Progress<'_>,
    plan: &Plan<'p>,
    number: u64,
) -> Result<FoundLine, Failure<'p>> {
    let rt = progress.rt;
    progress.recent.begin(Keeping::Lines);
    let source = match source_of(rt, plan, None) {
        Ok(source) => source,
        Err(error) if error.kind() == ErrorKind::OutOfMemory => {
            return Err(Failure::Rows(RunFault::Memory { line: 0 }));
        }
        Err(_) => return Err(Failure::RowsFile(plan.rows.unwrap_or("rows"))),
    };
    let rows = NotedRows {
        source,
        recent: &progress.recent,
    };
    match numbered_line(rt.alloc(), rows, number) {
        Ok(found) => Ok(found),
        Err(fault) => Err(Failure::Rows(fault)),
    }
}

/// Reports that there are not so many rows, and to a person how many lines there are. Returns the exit status.
fn report_no_row(rt: &HostRuntime, request: &RunRequest<'_>, row: &AbsentRow<'_>) -> u8 {
    let said = match request.format {
        Format::Json => no_row_json(rt.alloc(), row),
        Format::Text => {
            let number = row.line;
            let status = report(rt, format_args!("row {number} NoRow"), 4);
            if !are_hints_wanted(rt, request.hints) {
                return status;
            }
            no_row_sentence(rt.alloc(), row)
        }
    };
    match said {
        Ok(said) => report(rt, said.as_str(), 4),
        Err(AllocError) => report_memory(rt),
    }
}

/// Writes the lines of an explanation, or the object that has them. Returns the exit status.
fn write_lines(
    rt: &HostRuntime,
    request: &RunRequest<'_>,
    plan: &Plan<'_>,
    document: &[u8],
    lines: &str,
) -> u8 {
    match request.format {
        Format::Text => match print!(rt; "{lines}") {
            Ok(()) => 0,
            Err(_) => report(rt, "write", 5),
        },
        Format::Json => match accepted_json(rt.alloc(), plan, document, Some(lines)) {
            Ok(Some(object)) => write_object(rt, object.as_str(), 0),
            Ok(None) => 0,
            Err(AllocError) => report_memory(rt),
        },
    }
}

/// Explains the row of that number. Returns the exit status; `None` where the filter is not accepted.
fn explain_line<'p>(
    request: &RunRequest<'_>,
    plan: &Plan<'p>,
    document: &[u8],
    progress: &Progress<'_>,
) -> Option<u8> {
    let rt = progress.rt;
    let Some(number) = row_number(request) else {
        return Some(report(rt, "usage row is not a number from 1", 2));
    };
    let row = match row_of(progress, plan, number) {
        Ok(FoundLine::Line(row)) => row,
        Ok(FoundLine::Lines(lines)) => {
            let row = AbsentRow {
                file: plan.rows,
                line: number,
                lines,
            };
            return Some(report_no_row(rt, request, &row));
        }
        Err(failure) => return Some(report_end(progress, request, plan, document, failure)),
    };
    match explained_row(rt.alloc(), plan, document, number, row.as_slice()) {
        Ok(Some(lines)) => Some(write_lines(rt, request, plan, document, lines.as_str())),
        Ok(None) => None,
        Err(failure) => Some(report_end(progress, request, plan, document, failure)),
    }
}

/// Explains a row of the plan's file by its filter. Returns the exit status; `None` where the moment is none or the
/// filter is not accepted, before any row is read: a run without rows reports that.
#[inline(never)]
pub fn explain_one(
    request: &RunRequest<'_>,
    document: &[u8],
    progress: &Progress<'_>,
) -> Option<u8> {
    let rt = progress.rt;
    let plan = plan_over(&request.plan, request.plan.rows.unwrap_or("-"));
    match explains_rows(rt.alloc(), &plan, document) {
        Ok(true) => explain_line(request, &plan, document, progress),
        Ok(false) => None,
        Err(AllocError) => Some(report_memory(rt)),
    }
}
