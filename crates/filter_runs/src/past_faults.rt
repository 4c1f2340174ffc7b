//! Rows that are filtered past those at fault.
ghost use Rattle.std.specs.Prelude.{IfErr, IfOk, IfSome};
ghost use Rattle.line_filter.specs.Growth.{Writes};
ghost use Rattle.line_filter.specs.LineItems.{lines};
ghost use Rattle.line_filter.specs.PastFaults.{KeepsPastFaults, past_faults};
ghost use Rattle.row_judges.specs.RowJudgment.{JudgesRow, rows_of};
ghost use Rattle.filter_runs.specs.RunStops.{StopsBy};

use crate::run_fault::{RunFault, run_fault};
use edm_values::Moment;
use line_filter::{LineReader, PastFaults, TakesFaults, Tally, Unlogged};
use odata_typing::Checked;
use row_judges::{BadRow, RowLineJudge};
use std::alloc::Global;
use std::io::{Read, Write};

/// A filter at a moment.
#[derive(Clone, Copy)]
pub struct FilterAt<'a, 's> {
    pub checked: &'a Checked<'s>,
    pub now: &'a Moment,
}

/// Filters as [`filter_lines`](crate::filter_lines) does, past rows at fault. Kept rows are written, each unchanged and
/// followed by LF; the tally counts rows at fault as rows. A row at fault that `faults` does not pass over ends the run,
/// and so does a line that is too long.
pub fn filter_past_faults<R: Read + Drop, W: Write, P: TakesFaults<BadRow>>(
    alloc: Global,
    filter: &FilterAt<'_, '_>,
    rows: R,
    out: &mut W,
    faults: &mut P,
) -> Result<Tally, RunFault>
    ensures kept { IfOk result (λ tally. IfSome (R.remaining rows) (λ bytes.
        Writes (W.contents out.old) (W.contents out.new) (λ text.
        KeepsPastFaults (rows_of filter.entry.now.checked.now filter.entry.now.now.now bytes) text tally))) }
    ensures stops { IfErr result (λ fault. IfSome (R.remaining rows) (λ bytes.
        Writes (W.contents out.old) (W.contents out.new) (λ text. StopsBy
        (lines (past_faults (JudgesRow filter.entry.now.checked.now filter.entry.now.now.now)) bytes) text fault))) }
{
    let mut judge = PastFaults {
        judge: RowLineJudge::new(alloc, filter.checked, filter.now),
        faults,
    };
    let mut reader = LineReader::new(alloc, rows);
    match line_filter::filter_past_faults::<R, Unlogged, RowLineJudge<'_, '_>, P, W, Unlogged>(
        alloc,
        &mut judge,
        &mut reader,
        out,
    ) {
        Ok(tally) => Ok(tally),
        Err(stop) => Err(run_fault(stop)),
    }
}
