//! The types of a schema, listed.
use crate::fault_lines::{report, report_memory};
use crate::plan_run::schema_bytes;
use crate::recent_rows::RecentRows;
use crate::reports::{PlanRun, report_as_json, report_hints, report_unread};
use odata_filter::command_line::{Format, Plan, TypesRequest, Verb};
use odata_filter::{Ended, Failure, ReadAllError};
use std::alloc::AllocError;
use type_listing::TypeListing;

/// Writes a text and LF to standard output, unless it is empty; whether that took it.
fn is_written(rt: &HostRuntime, text: &str) -> bool {
    text.is_empty() || println!(rt; "{text}").is_ok()
}

/// Writes a type, and then what is wrong with its properties; whether standard output took it.
fn write_type(
    rt: &HostRuntime,
    listing: &TypeListing,
    format: Format,
    index: usize,
) -> Result<bool, AllocError> {
    let alloc = rt.alloc();
    match format {
        Format::Json => Ok(is_written(rt, &listing.json(alloc, index)?)),
        Format::Text => {
            let is_well = is_written(rt, &listing.text(alloc, index)?);
            let warnings = listing.warnings(alloc, index)?;
            if !warnings.is_empty() {
                let _ = report(rt, warnings.as_str(), 0);
            }
            Ok(is_well)
        }
    }
}

/// Writes each type of a listing, and returns the status.
fn write_types(rt: &HostRuntime, listing: &TypeListing, format: Format) -> u8 {
    for index in 0..listing.len() {
        match write_type(rt, listing, format, index) {
            Ok(true) => {}
            Ok(false) => return report(rt, "write", 5),
            Err(AllocError) => return report_memory(rt),
        }
    }
    0
}

/// Reports why a document has no listing, and returns the status.
fn report_schema_fault<'p>(
    rt: &HostRuntime,
    request: &TypesRequest<'p>,
    document: &[u8],
    failure: Failure<'p>,
) -> u8 {
    let status = failure.status();
    let plan = Plan {
        verb: Verb::Check,
        schema: request.schema,
        named: "",
        filter: None,
        query: None,
        rows: None,
        now: None,
        collection: false,
    };
    let ended = Ended {
        status,
        failure: Some(failure),
    };
    let recent = RecentRows::new(rt.alloc(), false);
    let run = PlanRun {
        plan: &plan,
        part: None,
        document,
        recent: &recent,
        ended: &ended,
    };
    match (request.format, &ended.failure) {
        (Format::Text, Some(failure)) => {
            let _ = report(rt, failure, status);
            report_hints(rt, request.hints, &run);
            status
        }
        _ => report_as_json(rt, &run),
    }
}

/// Reads the schema file and lists its types. Returns the exit status.
#[inline(never)]
pub fn list_types(rt: &HostRuntime, request: &TypesRequest<'_>) -> u8 {
    let document = match schema_bytes(rt, request.schema) {
        Ok(document) => document,
        Err(ReadAllError::Memory) => return report_memory(rt),
        Err(ReadAllError::Read) => return report_unread(rt, request.hints, request.schema),
    };
    match TypeListing::read(rt.alloc(), document.as_slice()) {
        Ok(listing) => write_types(rt, &listing, request.format),
        Err(fault) => {
            report_schema_fault(rt, request, document.as_slice(), Failure::Schema(fault))
        }
    }
}
