//! The run of a plan past the rows at fault.
ghost use Rattle.std.specs.Prelude.{◌≡◌, ℕ, List, option_map, IfErr, IfOk};
ghost use Rattle.line_filter.specs.LineItems.{lines};
ghost use Rattle.line_filter.specs.PastFaults.{KeepsPastFaults, past_faults};
ghost use Rattle.odata_filter.specs.FailureStatus.{status_of};
ghost use Rattle.odata_filter.specs.Run.{IsPlanFilter, OverRows, streams};
ghost use Rattle.filter_runs.specs.RunStops.{StopsBy};
ghost use Rattle.odata_filter.specs.RunsPastFaults.{FailsPastFaults, FiltersPastFaults};
ghost use Rattle.odata_filter.specs.private.RunFailures.{EndsOver, GivesMoment, status_of_end};
ghost use Rattle.row_judges.specs.RowJudgment.{JudgesRow, rows_of};

use super::failure::Failure;
use super::rows::{Asked, moment_for};
use super::runner::{checked_plan, entity_type, planned_moment};
use command_plan::command_line::Plan;
use csdl_schema::Schema;
use filter_runs::{FilterAt, RunFault, filter_past_faults};
use line_filter::{TakesFaults, Tally};
use row_judges::BadRow;
use std::alloc::Global;
use std::io::{Read, Write};

/// The rows that the filter keeps past those at fault. `None` says that there are no rows.
fn lines_past_faults<R: Read + Drop, W: Write, P: TakesFaults<BadRow>>(
    alloc: Global,
    filter: &FilterAt<'_, '_>,
    rows: Option<R>,
    out: &mut W,
    faults: &mut P,
) -> Result<Tally, Option<RunFault>>
    ensures done { IfOk result (λ tally. OverRows
        (streams (option_map (λ r. R.remaining r) rows) (W.contents out.old) (W.contents out.new))
        (λ bytes text.
        KeepsPastFaults (rows_of filter.entry.now.checked.now filter.entry.now.now.now bytes) text tally)) }
    ensures failed { IfErr result (λ end. EndsOver (λ bytes. StopsBy
        (lines (past_faults (JudgesRow filter.entry.now.checked.now filter.entry.now.now.now)) bytes)) end
        (streams (option_map (λ r. R.remaining r) rows) (W.contents out.old) (W.contents out.new))) }
{
    match rows {
        Some(rows) => match filter_past_faults(alloc, filter, rows, out, faults) {
            Ok(tally) => Ok(tally),
            Err(fault) => Err(Some(fault)),
        },
        None => Err(None),
    }
}

/// The failure of a run that ended so.
fn failure_of<'p>(plan: &Plan<'p>, end: Option<RunFault>) -> Failure<'p>
    ensures { status_of result ≡ status_of_end end }
{
    match end {
        Some(fault) => Failure::Rows(fault),
        None => Failure::RowsFile(plan.rows.unwrap_or("rows")),
    }
}

/// The same, where the moment for the filter is there.
fn rows_past_faults<'p, R: Read + Drop, W: Write, P: TakesFaults<BadRow>>(
    alloc: Global,
    asked: &Asked<'_, '_, 'p>,
    rows: Option<R>,
    out: &mut W,
    faults: &mut P,
) -> Result<Tally, Failure<'p>>
    requires { GivesMoment asked.now.plan.now asked.now.given }
    ensures done { (document : List ℕ) → IsPlanFilter asked.entry.now.plan.now document asked.entry.now.checked.now
        → IfOk result (FiltersPastFaults asked.entry.now.plan.now document
        (streams (option_map (λ r. R.remaining r) rows) (W.contents out.old) (W.contents out.new))) }
    ensures failed { (document : List ℕ) → IsPlanFilter asked.entry.now.plan.now document asked.entry.now.checked.now
        → IfErr result (λ failure. FailsPastFaults (status_of failure) asked.entry.now.plan.now document
        (streams (option_map (λ r. R.remaining r) rows) (W.contents out.old) (W.contents out.new))) }
{
    let now = moment_for(asked.checked, asked.given)?;
    let filter = FilterAt {
        checked: asked.checked,
        now: &now,
    };
    match lines_past_faults(alloc, &filter, rows, out, faults) {
        Ok(tally) => Ok(tally),
        Err(end) => Err(failure_of(asked.plan, end)),
    }
}

/// Carries out a plan over lines, past rows at fault, and counts. Which of them it passes over `faults` says. The verb
/// and the collection of the plan are not looked at; nothing is reported.
pub fn run_past_faults<'p, R: Read + Drop, W: Write, P: TakesFaults<BadRow>>(
    alloc: Global,
    plan: &Plan<'p>,
    document: &[u8],
    rows: Option<R>,
    out: &mut W,
    faults: &mut P,
) -> Result<Tally, Failure<'p>>
    ensures done { IfOk result (FiltersPastFaults plan.entry.now document.now
        (streams (option_map (λ r. R.remaining r) rows) (W.contents out.old) (W.contents out.new))) }
    ensures failed { IfErr result (λ failure. FailsPastFaults (status_of failure) plan.entry.now document.now
        (streams (option_map (λ r. R.remaining r) rows) (W.contents out.old) (W.contents out.new))) }
{
    let given = planned_moment(plan)?;
    let schema = match Schema::read(alloc, document) {
        Ok(schema) => schema,
        Err(fault) => return Err(Failure::Schema(fault)),
    };
    let id = entity_type(&schema, plan.named)?;
    let checked = checked_plan(alloc, &schema, id, plan)?;
    let asked = Asked {
        checked: &checked,
        given,
        plan,
    };
    rows_past_faults(alloc, &asked, rows, out, faults)
}
