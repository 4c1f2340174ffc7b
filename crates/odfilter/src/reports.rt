//! What is said of a run beside its lines: to a person, and as JSON to a program.
use crate::fault_lines::{report, report_memory};
use crate::recent_rows::RecentRows;
use command_hints::{FailedRun, accepted_json, failure_hints, failure_json, type_warnings};
use odata_filter::command_line::{Format, Hints, Plan, RunRequest, Verb};
use odata_filter::{Ended, Failure, Part, RunFault};
use std::alloc::AllocError;
use std::io::IsTerminal;

/// A plan that was carried out over one file of rows or a part of it, and how that ended.
#[derive(Clone, Copy)]
pub struct PlanRun<'r, 'p> {
    pub plan: &'r Plan<'p>,
    pub part: Option<Part>,
    pub document: &'r [u8],
    /// What it has read last: nothing where it reads no rows.
    pub recent: &'r RecentRows,
    pub ended: &'r Ended<'p>,
}

/// Whether sentences for people are wanted.
pub fn are_hints_wanted(rt: &HostRuntime, hints: Hints) -> bool {
    match hints {
        Hints::Auto => rt.stderr().is_terminal(),
        Hints::Always => true,
        Hints::Never => false,
    }
}

/// Whether sentences for people follow the lines of a run.
pub fn says_why(rt: &HostRuntime, request: &RunRequest<'_>) -> bool {
    match request.format {
        Format::Text => are_hints_wanted(rt, request.hints),
        Format::Json => false,
    }
}

/// A copy of the row at fault, or of rows that are no collection, if these are available.
fn faulty_row(run: &PlanRun<'_, '_>, failure: &Failure<'_>) -> Option<Vec<u8>> {
    match failure {
        Failure::Rows(
            RunFault::Row { line, .. } | RunFault::Json { line } | RunFault::LineTooLong { line },
        ) => run.recent.row(*line),
        Failure::Rows(RunFault::NotACollection) => Some(run.recent.taken()),
        _ => None,
    }
}

/// Says to a person why a run failed. A program reads the line that the run has written alone.
fn say_why<'r, 'p>(rt: &HostRuntime, run: &PlanRun<'r, 'p>, failure: &'r Failure<'p>) {
    let row = faulty_row(run, failure);
    let failed = FailedRun {
        plan: run.plan,
        part: run.part,
        document: run.document,
        failure,
        row: row.as_deref(),
    };
    match failure_hints(rt.alloc(), &failed) {
        Ok(Some(hints)) => {
            let _ = eprintln!(rt; "{}", hints.as_str());
        }
        Ok(None) => {}
        Err(_) => {}
    }
}

/// Says to a person why the run failed, if that is wanted.
#[inline(never)]
pub fn report_hints(rt: &HostRuntime, hints: Hints, run: &PlanRun<'_, '_>) {
    match &run.ended.failure {
        Some(failure) => if are_hints_wanted(rt, hints) {
            say_why(rt, run, failure);
        },
        None => {}
    }
}

/// Says to a person which properties have a type that is none, after a run whose filter was accepted. Returns its
/// status.
#[inline(never)]
pub fn report_warnings(
    rt: &HostRuntime,
    request: &RunRequest<'_>,
    document: &[u8],
    status: u8,
) -> u8 {
    if !matches!(status, 0 | 4) || !says_why(rt, request) {
        return status;
    }
    match type_warnings(rt.alloc(), &request.plan, document) {
        Ok(Some(lines)) => report(rt, lines.as_str(), status),
        Ok(None) => status,
        Err(_) => status,
    }
}

/// Reports that the schema file cannot be read, and says so to a person. Returns the exit status.
pub fn report_unread(rt: &HostRuntime, hints: Hints, name: &str) -> u8 {
    let status = report(rt, format_args!("read {name}"), 5);
    if are_hints_wanted(rt, hints) {
        report(rt, "The file cannot be opened or read.", status)
    } else {
        status
    }
}

/// Writes an object to standard output, with the status of the run.
pub fn write_object(rt: &HostRuntime, object: &str, status: u8) -> u8 {
    match println!(rt; "{object}") {
        Ok(()) => status,
        Err(_) => report(rt, "write", 5),
    }
}

/// Writes the object of an accepted filter.
fn report_accepted(rt: &HostRuntime, plan: &Plan<'_>, document: &[u8]) -> u8 {
    match accepted_json(rt.alloc(), plan, document, None) {
        Ok(Some(object)) => write_object(rt, object.as_str(), 0),
        Ok(None) => 0,
        Err(AllocError) => report_memory(rt),
    }
}

/// Writes the object of a failure: that of a refusal is an answer of a verb that reads no rows. What has no object is a
/// line.
fn report_failure<'r, 'p>(rt: &HostRuntime, run: &PlanRun<'r, 'p>, failure: &'r Failure<'p>) -> u8 {
    let status = failure.status();
    let failed = FailedRun {
        plan: run.plan,
        part: run.part,
        document: run.document,
        failure,
        row: None,
    };
    match failure_json(rt.alloc(), &failed) {
        Ok(Some(object)) => match run.plan.verb {
            Verb::Check | Verb::Explain if status == 1 => write_object(rt, object.as_str(), status),
            _ => report(rt, object.as_str(), status),
        },
        Ok(None) => report(rt, format_args!("{failure}"), status),
        Err(AllocError) => report_memory(rt),
    }
}

/// Reports as JSON how a run ended, and returns the exit status.
#[inline(never)]
pub fn report_as_json(rt: &HostRuntime, run: &PlanRun<'_, '_>) -> u8 {
    match (&run.ended.failure, run.plan.verb) {
        (Some(failure), _) => report_failure(rt, run, failure),
        (None, Verb::Check | Verb::Explain) => report_accepted(rt, run.plan, run.document),
        (None, Verb::Filter) => run.ended.status,
    }
}
