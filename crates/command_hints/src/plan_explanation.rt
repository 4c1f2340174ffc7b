//! A row, explained by the filter of a plan.
use crate::filter_of_plan::{plan_filter, read_schema};
use command_plan::command_line::Plan;
use edm_entities::{RowFault as EntityFault, TextFault};
use edm_values::{Moment, read_moment};
use odata_filter::{Failure, RunFault};
use odata_typing::Checked;
use row_explanation::{RowFault, explain_row};
use std::alloc::{AllocError, Global};

/// The moment of a filter that does not ask for one.
const ANY_MOMENT: &str = "0001-01-01T00:00:00Z";

/// Returns whether the plan can explain a row.
///
/// Its filter has to be accepted, and its moment to be one or absent. It has no clause: where it returns false, a run
/// over no rows reports the fault.
pub fn explains_rows(alloc: Global, plan: &Plan<'_>, document: &[u8]) -> Result<bool, AllocError> {
    if let Some(text) = plan.now {
        if read_moment(text).is_none() {
            return Ok(false);
        }
    }
    let Some(schema) = read_schema(alloc, document)? else {
        return Ok(false);
    };
    Ok(plan_filter(alloc, &schema, plan)?.is_some())
}

/// The moment of a plan for its filter.
pub(crate) fn moment_of<'p>(plan: &Plan<'p>, filter: &Checked<'_>) -> Result<Moment, Failure<'p>> {
    match plan.now {
        Some(text) => read_moment(text).ok_or(Failure::NotAMoment),
        None => if filter.uses_now() {
            Err(Failure::NoMoment)
        } else {
            read_moment(ANY_MOMENT).ok_or(Failure::NoMoment)
        },
    }
}

/// Why a line is no entity.
fn entity_fault(line: u64, fault: TextFault) -> RunFault {
    match fault {
        TextFault::NotJson => RunFault::Json { line },
        TextFault::NoEntity(fault) => if matches!(fault, EntityFault::Memory) {
            RunFault::Memory { line }
        } else {
            RunFault::Row { line, fault }
        },
    }
}

/// Why a line has no explanation.
fn row_failure<'p>(line: u64, fault: RowFault) -> Failure<'p> {
    match fault {
        RowFault::NoEntity(fault) => Failure::Rows(entity_fault(line, fault)),
        RowFault::Memory => Failure::Rows(RunFault::Memory { line }),
    }
}

/// The row of a line, explained by a filter of the plan.
fn explained<'p>(
    alloc: Global,
    plan: &Plan<'p>,
    filter: &Checked<'_>,
    line: u64,
    row: &[u8],
) -> Result<String, Failure<'p>> {
    let moment = moment_of(plan, filter)?;
    match explain_row(alloc, filter, &moment, row) {
        Ok(lines) => Ok(lines),
        Err(fault) => Err(row_failure(line, fault)),
    }
}

/// The row of a line, explained by the plan's filter; `None` where that is not accepted.
fn explained_by_plan<'p>(
    alloc: Global,
    plan: &Plan<'p>,
    document: &[u8],
    line: u64,
    row: &[u8],
) -> Result<Option<Result<String, Failure<'p>>>, AllocError> {
    let Some(schema) = read_schema(alloc, document)? else {
        return Ok(None);
    };
    match plan_filter(alloc, &schema, plan)? {
        Some(filter) => Ok(Some(explained(alloc, plan, &filter, line, row))),
        None => Ok(None),
    }
}

/// Explains the outcome of the plan's filter on a row, one JSON object, on the line of that number.
///
/// `None` is returned where the filter is not accepted. It has no clause: `row_explanation` promises what is reported
/// of each node.
pub fn explained_row<'p>(
    alloc: Global,
    plan: &Plan<'p>,
    document: &[u8],
    line: u64,
    row: &[u8],
) -> Result<Option<String>, Failure<'p>> {
    match explained_by_plan(alloc, plan, document, line, row) {
        Ok(Some(Ok(lines))) => Ok(Some(lines)),
        Ok(Some(Err(failure))) => Err(failure),
        Ok(None) => Ok(None),
        Err(AllocError) => Err(Failure::Rows(RunFault::Memory { line })),
    }
}
