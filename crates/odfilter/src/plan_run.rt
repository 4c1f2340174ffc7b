//! A plan carried out, over the files that it names.
use crate::counted_run::count_rows;
use crate::explain_run::{explain_one, explains_row};
use crate::fault_lines::report_memory;
use crate::items_run::write_entities;
use crate::line_prefix::LinePrefix;
use crate::progress::Progress;
use crate::recent_rows::Keeping;
use crate::reports::{PlanRun, report_as_json, report_hints, report_unread, report_warnings};
use crate::streams::{Faults, Rows, Source, Written};
use odata_filter::command_line::{Format, Plan, RunRequest, Verb};
use odata_filter::{Part, ReadAllError, part_of, read_whole, run_to_failure};
use std::alloc::AllocError;
use std::fs::File;
use std::io;
use std::io::{ErrorKind, Read, Stderr, Stdout};

/// More of a schema file than this is of no use: one byte past the largest document.
const SCHEMA_BYTES: u64 = 1_048_577;

/// The bytes of the schema file, as many as matter.
pub fn schema_bytes(rt: &HostRuntime, name: &str) -> Result<Vec<u8>, ReadAllError> {
    match File::open(rt, name) {
        Ok(file) => read_whole(rt.alloc(), &mut file.take(SCHEMA_BYTES)),
        Err(error) if error.kind() == ErrorKind::OutOfMemory => Err(ReadAllError::Memory),
        Err(_) => Err(ReadAllError::Read),
    }
}

/// Where the rows come from that the plan names, or one part of its file.
pub fn source_of(rt: &HostRuntime, plan: &Plan<'_>, part: Option<Part>) -> io::Result<Source> {
    let Some(name) = plan.rows else {
        return Ok(Source::Stdin(rt.stdin()));
    };
    let file = File::open(rt, name)?;
    match part {
        Some(part) => Ok(Source::Part(part_of(rt.alloc(), file, part)?)),
        None => Ok(Source::File(file)),
    }
}

/// The rows that the plan names, or one part of its file; `None` if that cannot be opened, or has no parts.
pub fn rows_of<'p, 'r>(
    rt: &HostRuntime,
    plan: &Plan<'_>,
    part: Option<Part>,
    progress: &'p Progress<'r>,
) -> Result<Option<Rows<'p, 'r>>, AllocError> {
    match source_of(rt, plan, part) {
        Ok(source) => Ok(Some(Rows { source, progress })),
        Err(error) if error.kind() == ErrorKind::OutOfMemory => Err(AllocError),
        Err(_) => Ok(None),
    }
}

/// Standard output for the rows that are kept, and for what is found of a filter unless that is written as JSON. Runs
/// that count rows or write entities write to another type: so the loop over lines here has all of a step in itself.
fn output_of(rt: &HostRuntime, request: &RunRequest<'_>) -> Written<'static, Stdout> {
    match (request.format, request.plan.verb) {
        (Format::Json, Verb::Check | Verb::Explain) => Written::Nothing,
        _ => Written::Stream(rt.stdout()),
    }
}

/// Standard error for lines about faults, each after its prefix, unless these are written as JSON.
pub fn faults_of<'p>(
    rt: &HostRuntime,
    request: &RunRequest<'_>,
    plan: &Plan<'p>,
) -> Written<'p, Stderr> {
    match request.format {
        Format::Json => Written::Nothing,
        Format::Text => Written::After(LinePrefix::of(request, plan), rt.stderr()),
    }
}

/// The file of that name, or none for `-`, which is standard input.
fn file_named(name: &str) -> Option<&str> {
    if name == "-" {
        return None;
    }
    Some(name)
}

/// The plan over a file of rows, or over standard input for `-`.
pub fn plan_over<'p>(plan: &Plan<'p>, file: &'p str) -> Plan<'p> {
    Plan {
        verb: plan.verb,
        schema: plan.schema,
        named: plan.named,
        filter: plan.filter,
        query: plan.query,
        rows: file_named(file),
        now: plan.now,
        collection: plan.collection,
    }
}

/// Opens the rows that the plan names, and carries it out over the bytes of its schema file.
fn carry_out_over(
    rt: &HostRuntime,
    request: &RunRequest<'_>,
    plan: &Plan<'_>,
    document: &[u8],
    progress: &Progress<'_>,
) -> u8 {
    let mut out = output_of(rt, request);
    let mut err = Faults {
        progress,
        written: faults_of(rt, request, plan),
    };
    progress.recent.begin(if plan.collection {
        Keeping::Document
    } else {
        Keeping::Lines
    });
    let Ok(rows) = rows_of(rt, plan, request.part, progress) else {
        return report_memory(rt);
    };
    let ended = run_to_failure(rt.alloc(), plan, document, rows, &mut out, &mut err);
    progress.clear();
    let run = PlanRun {
        plan,
        part: request.part,
        document,
        recent: &progress.recent,
        ended: &ended,
    };
    match request.format {
        Format::Text => {
            report_hints(rt, request.hints, &run);
            ended.status
        }
        Format::Json => report_as_json(rt, &run),
    }
}

/// Carries the plan out over the rows that it names.
fn carry_out_one(
    rt: &HostRuntime,
    request: &RunRequest<'_>,
    plan: &Plan<'_>,
    document: &[u8],
    progress: &Progress<'_>,
) -> u8 {
    if request.items {
        write_entities(request, plan, document, progress)
    } else {
        carry_out_over(rt, request, plan, document, progress)
    }
}

/// Carries the plan out over each file of rows, up to the first that fails.
fn carry_out_each<'r>(rt: &'r HostRuntime, request: &RunRequest<'r>, document: &[u8]) -> u8 {
    let progress = Progress::begin(rt, request);
    if explains_row(request) {
        if let Some(status) = explain_one(request, document, &progress) {
            return status;
        }
    }
    if request.count || request.skip_faulty {
        return count_rows(rt, request, document, &progress);
    }
    if request.rows.is_empty() {
        return carry_out_one(rt, request, &request.plan, document, &progress);
    }
    for file in request.rows.as_slice() {
        let plan = plan_over(&request.plan, *file);
        let status = carry_out_one(rt, request, &plan, document, &progress);
        if status != 0 {
            return status;
        }
    }
    0
}

/// Reads the schema file and carries the plan out. What reports a failure comes after what a run calls, in the program
/// too, and so stays out of memory.
pub fn carry_out(rt: &HostRuntime, request: &RunRequest<'_>) -> u8 {
    let name = request.plan.schema;
    match schema_bytes(rt, name) {
        Ok(document) => {
            let status = carry_out_each(rt, request, document.as_slice());
            report_warnings(rt, request, document.as_slice(), status)
        }
        Err(ReadAllError::Memory) => report_memory(rt),
        Err(ReadAllError::Read) => report_unread(rt, request.hints, name),
    }
}
