//! Runs whose rows are counted, or that pass over rows at fault.
use crate::fault_lines::{report, report_memory};
use crate::line_prefix::LinePrefix;
use crate::plan_run::{plan_over, rows_of};
use crate::progress::Progress;
use crate::recent_rows::Keeping;
use crate::reports::are_hints_wanted;
use crate::row_faults::RowFaults;
use crate::run_end::report_end;
use command_hints::FilteredType;
use odata_filter::command_line::{Format, Plan, RunRequest};
use odata_filter::{Tally, run_past_faults};

/// What a run keeps of its files so far.
#[derive(Drop)]
struct Counted<'p, 'r> {
    faults: RowFaults<'p, 'r>,
    tally: Tally,
}

/// Carries the plan out over one file of rows.
fn count_file<'r>(
    rt: &'r HostRuntime,
    request: &RunRequest<'r>,
    plan: &Plan<'r>,
    document: &[u8],
    counted: &mut Counted<'_, 'r>,
) -> u8 {
    counted.faults.file = plan.rows;
    counted.faults.prefix = LinePrefix::of(request, plan);
    let progress = counted.faults.progress;
    progress.recent.begin(Keeping::Lines);
    let Ok(rows) = rows_of(rt, plan, request.part, progress) else {
        return report_memory(rt);
    };
    let mut out = rt.stdout();
    match run_past_faults(
        rt.alloc(),
        plan,
        document,
        rows,
        &mut out,
        &mut counted.faults,
    ) {
        Ok(tally) => {
            counted.tally.rows = counted.tally.rows.saturating_add(tally.rows);
            counted.tally.kept = counted.tally.kept.saturating_add(tally.kept);
            0
        }
        Err(failure) => report_end(progress, request, plan, document, failure),
    }
}

/// Carries the plan out over each file of rows, up to the first that fails.
fn count_files<'r>(
    rt: &'r HostRuntime,
    request: &RunRequest<'r>,
    document: &[u8],
    counted: &mut Counted<'_, 'r>,
) -> u8 {
    if request.rows.is_empty() {
        return count_file(rt, request, &request.plan, document, counted);
    }
    for file in request.rows.as_slice() {
        let plan = plan_over(&request.plan, *file);
        let status = count_file(rt, request, &plan, document, counted);
        if status != 0 {
            return status;
        }
    }
    0
}

/// How many rows had each fault: `: Missing 1, Json 2`, or as members of an object.
fn counts_text(rt: &HostRuntime, counted: &Counted<'_, '_>, format: Format) -> Option<String> {
    let alloc = rt.alloc();
    let mut text = String::new(alloc);
    for (name, count) in counted.faults.counts.as_slice() {
        let one = match (format, text.is_empty()) {
            (Format::Text, true) => format!(in alloc; ": {name} {count}"),
            (Format::Text, false) => format!(in alloc; ", {name} {count}"),
            (Format::Json, true) => format!(in alloc; "\"{name}\":{count}"),
            (Format::Json, false) => format!(in alloc; ",\"{name}\":{count}"),
        };
        text.push_str(one.ok()?.as_str()).ok()?;
    }
    Some(text)
}

/// What stands before the counts: which part of a file they are of.
fn counts_prefix(request: &RunRequest<'_>) -> LinePrefix<'static> {
    match request.part {
        Some(part) => LinePrefix::Part(part),
        None => LinePrefix::Nothing,
    }
}

/// Writes how many rows there were, how many were kept, and how many had each fault.
fn write_counts(rt: &HostRuntime, request: &RunRequest<'_>, counted: &Counted<'_, '_>) {
    let Tally { rows, kept } = counted.tally;
    let total = counted.faults.total();
    let prefix = counts_prefix(request);
    let _ = match (counts_text(rt, counted, request.format), request.format) {
        (Some(each), Format::Text) => {
            report(
                rt,
                format_args!(
                    "{prefix}rows {rows}, kept {kept}, faulty {total}{}",
                    each.as_str()
                ),
                0,
            )
        }
        (Some(each), Format::Json) => {
            let members = each.as_str();
            report(
                rt,
                format_args!("{{\"rows\":{rows},\"kept\":{kept},\"faulty\":{{{members}}}}}"),
                0,
            )
        }
        (None, _) => report_memory(rt),
    };
}

/// The type of the rows, if a person hears of those that are passed over.
fn known_type(rt: &HostRuntime, request: &RunRequest<'_>, document: &[u8]) -> Option<FilteredType> {
    if request.skip_faulty && are_hints_wanted(rt, request.hints) {
        FilteredType::read(rt.alloc(), document, request.plan.named)
    } else {
        None
    }
}

/// Carries out a plan whose rows are counted, or of which those at fault are passed over. Returns the exit status: 4 if
/// any was.
#[inline(never)]
pub fn count_rows<'r>(
    rt: &'r HostRuntime,
    request: &RunRequest<'r>,
    document: &[u8],
    progress: &Progress<'r>,
) -> u8 {
    let known = known_type(rt, request, document);
    let mut counted = Counted {
        faults: RowFaults::none(request, known.as_ref(), progress),
        tally: Tally { rows: 0, kept: 0 },
    };
    let status = count_files(rt, request, document, &mut counted);
    progress.clear();
    if status != 0 {
        return status;
    }
    if request.count {
        write_counts(rt, request, &counted);
    }
    if 0 < counted.faults.total() { 4 } else { 0 }
}
