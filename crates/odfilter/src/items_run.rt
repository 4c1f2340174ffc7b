//! Runs over a collection whose kept entities are written, a line each.
use crate::plan_run::rows_of;
use crate::progress::Progress;
use crate::recent_rows::Keeping;
use crate::row_faults::RowFaults;
use crate::run_end::report_end;
use crate::streams::{Rows, Source};
use command_hints::filter_plan_page;
use odata_filter::command_line::{Plan, RunRequest};
use odata_filter::{Failure, RunFault, run_past_faults};
use std::alloc::AllocError;
use std::io::Cursor;

/// Carries the plan out over no rows: so a fault of it is reported before any are read.
fn run_over_none<'p>(
    faults: &mut RowFaults<'_, '_>,
    plan: &Plan<'p>,
    document: &[u8],
) -> Result<(), Failure<'p>> {
    let rt = faults.rt;
    faults.progress.recent.begin(Keeping::Lines);
    let none = Rows {
        source: Source::Held(Cursor::new(Vec::new(rt.alloc()))),
        progress: faults.progress,
    };
    match run_past_faults(
        rt.alloc(),
        plan,
        document,
        Some(none),
        &mut rt.stdout(),
        faults,
    ) {
        Ok(_) => Ok(()),
        Err(failure) => Err(failure),
    }
}

/// A failure of a run over a page. A file that cannot be read is reported by its name.
fn of_page<'p>(plan: &Plan<'p>, failure: Failure<'p>) -> Failure<'p> {
    match (failure, plan.rows) {
        (Failure::Rows(RunFault::Read { .. }), Some(name)) => Failure::RowsFile(name),
        (other, _) => other,
    }
}

/// Writes the kept entities of the rows, a page that is read in pieces.
fn write_kept<'p>(
    faults: &mut RowFaults<'_, '_>,
    plan: &Plan<'p>,
    document: &[u8],
) -> Result<(), Failure<'p>> {
    let rt = faults.rt;
    run_over_none(faults, plan, document)?;
    faults.progress.recent.begin(Keeping::Document);
    let page = match rows_of(rt, plan, None, faults.progress) {
        Ok(Some(rows)) => rows,
        Ok(None) => return Err(Failure::RowsFile(plan.rows.unwrap_or("rows"))),
        Err(AllocError) => return Err(Failure::Rows(RunFault::Memory { line: 0 })),
    };
    match filter_plan_page(rt.alloc(), plan, document, page, &mut rt.stdout()) {
        Ok(_) => Ok(()),
        Err(failure) => Err(of_page(plan, failure)),
    }
}

/// Carries out a plan of a collection whose kept entities are written. Returns the exit status.
#[inline(never)]
pub fn write_entities(
    request: &RunRequest<'_>,
    plan: &Plan<'_>,
    document: &[u8],
    progress: &Progress<'_>,
) -> u8 {
    let mut faults = RowFaults::none(request, None, progress);
    let ended = write_kept(&mut faults, plan, document);
    progress.clear();
    match ended {
        Ok(()) => 0,
        Err(failure) => report_end(progress, request, plan, document, failure),
    }
}
