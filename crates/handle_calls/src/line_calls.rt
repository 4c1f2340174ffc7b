//! Rows in memory, a line each, and those that a filter keeps.
ghost use Rattle.std.specs.Prelude.{◌≡◌, None, Some};
ghost use Rattle.handle_calls.specs.RowCalls.{IsRunAt, IsRunOver, stop_within};
ghost use Rattle.handle_calls.specs.RowReports.{FiltersBy, FiltersLines, ReportsStop, ReportsTally};

use crate::judge_calls::keep_fault;
use call_handles::{
    Answer, Fault, FilterHandle, Handle, JudgeHandle, measured, moment_for, report_fault,
    write_text,
};
use edm_values::Moment;
use filter_runs::{RunFault, filter_slice};
use line_filter::{RunStop, Tally};
use odata_typing::Checked;
use row_judges::{BadRow, BoundedFault, BoundedJudge};
use std::alloc::Global;

/// The result of a run over rows, and the lines that it kept.
#[derive(Drop)]
struct Run {
    outcome: Result<Tally, Fault>,
    kept: Vec<u8>,
}

/// A run over rows at a moment. In memory nothing can fail but rows and allocations.
fn run_plain(alloc: Global, checked: &Checked<'_>, now: &Moment, rows: &[u8]) -> Run
    ensures { IsRunAt checked.now now.now None rows.now result.outcome result.kept.items }
{
    let mut kept = Vec::new(alloc);
    let outcome = match filter_slice(alloc, checked, now, rows, &mut kept) {
        Ok(tally) => Ok(tally),
        Err(RunFault::Json { line }) => Err(Fault::Json { line }),
        Err(RunFault::Row { line, fault }) => Err(Fault::Row { line, fault }),
        Err(RunFault::Arithmetic { line, fault }) => Err(Fault::Evaluation { line, fault }),
        Err(RunFault::LineTooLong { line }) => Err(Fault::LineTooLong { line }),
        Err(_) => {
            kept.clear();
            Err(Fault::Memory)
        }
    };
    Run { outcome, kept }
}

/// The same, each row within a bound on its cost.
fn run_within(alloc: Global, checked: &Checked<'_>, now: &Moment, most: u64, rows: &[u8]) -> Run
    ensures { IsRunAt checked.now now.now (Some most) rows.now result.outcome result.kept.items }
{
    let mut kept = Vec::new(alloc);
    let by = BoundedJudge {
        checked,
        moment: now,
        most,
    };
    match by.filter_lines(alloc, rows, &mut kept) {
        Ok(tally) => Run {
            outcome: Ok(tally),
            kept,
        },
        Err(RunStop::Fault { line, fault }) => Run {
            outcome: Err(line_fault(line, fault)),
            kept,
        },
        Err(RunStop::TooLong { line }) => Run {
            outcome: Err(Fault::LineTooLong { line }),
            kept,
        },
        Err(_) => Run {
            outcome: Err(Fault::Memory),
            kept: Vec::new(alloc),
        },
    }
}

/// The fault of a line of this number.
fn line_fault(line: u64, why: BoundedFault) -> Fault
    ensures { stop_within result ≡ Some (RunStop.Fault line why) }
{
    match why {
        BoundedFault::Row(bad) => match bad {
            BadRow::NotJson => Fault::Json { line },
            BadRow::NoEntity(fault) => Fault::Row { line, fault },
            BadRow::NoValue(fault) => Fault::Evaluation { line, fault },
        },
        BoundedFault::TooCostly => Fault::TooCostly { line },
    }
}

/// A run over rows, at the judge's moment and within its bound.
fn run_over(held: &FilterHandle, judge: &JudgeHandle, rows: &[u8]) -> Run
    ensures { IsRunOver held.now judge.now.moment judge.now.bound rows.now result.outcome result.kept.items }
{
    let alloc = judge.reader.allocator();
    let checked = held.checked();
    match moment_for(&checked, judge.moment) {
        Ok(now) => match judge.bound {
            Some(most) => run_within(alloc, &checked, &now, most, rows),
            None => run_plain(alloc, &checked, &now, rows),
        },
        Err(fault) => Run {
            outcome: Err(fault),
            kept: Vec::new(alloc),
        },
    }
}

/// Reports how many rows a run kept, with their lines, or how large a buffer these need.
fn report_tally(tally: &Tally, kept: &[u8], buffer: &mut [u8], answer: &mut Answer) -> u32
    ensures { ReportsTally tally.now kept.now buffer.old buffer.new answer.new result }
{
    if !write_text(buffer, kept) {
        return report_fault(&Fault::TooSmall { wanted: kept.len() }, answer);
    }
    *answer = measured(kept.len());
    answer.rows = tally.rows;
    answer.kept = tally.kept;
    0
}

/// Reports where a run stopped, with the lines that it kept before, if the buffer takes them.
fn report_stop(fault: &Fault, kept: &[u8], buffer: &mut [u8], answer: &mut Answer) -> u32
    ensures { ReportsStop fault.now kept.now buffer.old buffer.new answer.new result }
{
    write_text(buffer, kept);
    *answer = fault.answer();
    answer.length = kept.len();
    fault.status()
}

/// Judges rows, a line each, and reports what became of them.
fn report_kept_lines(
    held: &FilterHandle,
    judge: &mut JudgeHandle,
    rows: &[u8],
    buffer: &mut [u8],
    answer: &mut Answer,
) -> u32
    ensures { FiltersBy held.now judge.old judge.new rows.now buffer.old buffer.new answer.new result }
{
    let Run { outcome, kept } = run_over(held, judge, rows);
    match outcome {
        Ok(tally) => {
            judge.last = None;
            report_tally(&tally, &kept, buffer, answer)
        }
        Err(fault) => {
            let status = report_stop(&fault, &kept, buffer, answer);
            keep_fault(fault, judge);
            status
        }
    }
}

/// Judges rows by handles, where they are a filter and a judge.
pub(crate) fn report_rows(
    filter: &Handle,
    handle: &mut Handle,
    rows: &[u8],
    buffer: &mut [u8],
    answer: &mut Answer,
) -> u32
    ensures { FiltersLines filter.now handle.old handle.new rows.now buffer.old buffer.new answer.new result }
{
    match (filter, handle) {
        (Handle::Filter(held), Handle::Judge(judge)) => report_kept_lines(
            held, judge, rows, buffer, answer,
        ),
        _ => report_fault(&Fault::OtherKind, answer),
    }
}
