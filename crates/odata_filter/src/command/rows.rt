//! The rows of a plan, filtered: each a line, or all of them in one collection.
ghost use Rattle.std.specs.Prelude.{◌≡◌, false, true, ℕ, List, None, option_map, IfOk, IfErr};
ghost use Rattle.line_filter.specs.Kept.{Filters};
ghost use Rattle.row_judges.specs.RowJudgment.{rows_of};
ghost use Rattle.odata_checked_filter.specs.Calls.{UsesNow};
ghost use Rattle.odata_checked_filter.specs.Filter.{tree_of_filter};
ghost use Rattle.odata_filter.specs.Run.{BeginsAs, IsPlanFilter, IsReady, OverRows, streams};
ghost use Rattle.filter_runs.specs.RunStops.{StopsBy};
ghost use Rattle.odata_filter.specs.private.RunFailures.{AnswerSays, GivesMoment, IsMomentUnlessAsked, IsUnwritten};
ghost use Rattle.odata_filter.specs.private.RunFailures.{IsReadWhole, StopsOver, status_of};

use super::failure::Failure;
use super::whole_input::{ReadAllError, read_whole};
use command_plan::command_line::{Plan, Verb};
use edm_values::Moment;
use filter_runs::{RunFault, filter_collection, filter_lines};
use jiff::civil;
use line_filter::Tally;
use odata_typing::Checked;
use std::alloc::Global;
use std::io::{Read, Write};

/// A plan, its checked filter, and the moment that it gives, if it gives one.
#[derive(Drop)]
pub(crate) struct Asked<'a, 's, 'p> {
    pub(crate) checked: &'a Checked<'s>,
    pub(crate) given: Option<Moment>,
    pub(crate) plan: &'a Plan<'p>,
}

/// A plan, its checked filter, and the moment for that.
#[derive(Drop)]
struct Ready<'a, 's, 'p> {
    checked: &'a Checked<'s>,
    now: Moment,
    plan: &'a Plan<'p>,
}

/// The moment for a filter: the given one, or the first one of year 1 where the filter does not ask for it.
pub(super) fn moment_for<'p>(
    checked: &Checked<'_>,
    given: Option<Moment>,
) -> Result<Moment, Failure<'p>>
    ensures moment { IfOk result (IsMomentUnlessAsked checked.now given) }
    ensures needed { IfErr result (λ failure. failure ≡ Failure.NoMoment) }
    ensures asks { IfErr result (λ _. UsesNow (tree_of_filter checked.now)) }
    ensures none { IfErr result (λ _. given ≡ None) }
{
    match given {
        Some(moment) => Ok(moment),
        None => if checked.uses_now() {
            Err(Failure::NoMoment)
        } else {
            Moment::new(civil::date(1, 1, 1).at(0, 0, 0, 0), 0).ok_or(Failure::NoMoment)
        },
    }
}

/// The rows of the plan, a line each, by its checked filter.
fn lines_by_filter<'p, R: Read + Drop, W: Write>(
    alloc: Global,
    ready: &Ready<'_, '_, 'p>,
    rows: Option<R>,
    out: &mut W,
) -> Result<Tally, Failure<'p>>
    ensures done { IfOk result (λ tally. OverRows
        (streams (option_map (λ r. R.remaining r) rows) (W.contents out.old) (W.contents out.new))
        (λ bytes text. Filters (rows_of ready.entry.now.checked.now ready.entry.now.now bytes) text tally)) }
    ensures failed { IfErr result (λ failure.
        StopsOver (λ bytes. StopsBy (rows_of ready.entry.now.checked.now ready.entry.now.now bytes)) failure
        (streams (option_map (λ r. R.remaining r) rows) (W.contents out.old) (W.contents out.new))) }
{
    match rows {
        Some(rows) => match filter_lines(alloc, ready.checked, &ready.now, rows, out) {
            Ok(tally) => Ok(tally),
            Err(fault) => Err(Failure::Rows(fault)),
        },
        None => Err(Failure::RowsFile(ready.plan.rows.unwrap_or("rows"))),
    }
}

/// The lines that the filter keeps.
fn filter_by_line<'p, R: Read + Drop, W: Write>(
    alloc: Global,
    ready: &Ready<'_, '_, 'p>,
    rows: Option<R>,
    out: &mut W,
) -> Result<(), Failure<'p>>
    requires { ready.now.plan.now.collection ≡ false }
    ensures says { (document : List ℕ)
        → IsReady ready.entry.now.plan.now document ready.entry.now.checked.now ready.entry.now.now
        → AnswerSays result Verb.Filter ready.entry.now.plan.now document
        (streams (option_map (λ r. R.remaining r) rows) (W.contents out.old) (W.contents out.new)) }
    ensures begins { (document : List ℕ)
        → IsReady ready.entry.now.plan.now document ready.entry.now.checked.now ready.entry.now.now
        → BeginsAs Verb.Filter ready.entry.now.plan.now document
        (streams (option_map (λ r. R.remaining r) rows) (W.contents out.old) (W.contents out.new)) }
{
    lines_by_filter(alloc, ready, rows, out)?;
    Ok(())
}

/// Why the rows were not read whole. A file is reported by its name, and standard input reports line 0.
fn unread<'p>(plan: &Plan<'p>, fault: ReadAllError) -> Failure<'p>
    ensures { IsUnwritten (status_of result) }
{
    match (fault, plan.rows) {
        (ReadAllError::Memory, _) => Failure::Rows(RunFault::Memory { line: 0 }),
        (ReadAllError::Read, Some(name)) => Failure::RowsFile(name),
        (ReadAllError::Read, None) => Failure::Rows(RunFault::Read { line: 0 }),
    }
}

/// All the bytes of the rows.
fn whole_rows<'p, R: Read + Drop>(
    alloc: Global,
    plan: &Plan<'p>,
    rows: Option<R>,
) -> Result<Vec<u8>, Failure<'p>>
    ensures whole { IfOk result (λ bytes. IsReadWhole (option_map (λ r. R.remaining r) rows) bytes.items) }
    ensures unread { IfErr result (λ failure. IsUnwritten (status_of failure)) }
{
    let mut reader = match rows {
        Some(reader) => reader,
        None => return Err(Failure::RowsFile(plan.rows.unwrap_or("rows"))),
    };
    match read_whole(alloc, &mut reader) {
        Ok(bytes) => Ok(bytes),
        Err(fault) => Err(unread(plan, fault)),
    }
}

/// The indexes of the entities that the filter keeps of a collection.
#[inline(never)]
fn filter_by_place<'p, R: Read + Drop, W: Write>(
    alloc: Global,
    ready: &Ready<'_, '_, 'p>,
    rows: Option<R>,
    out: &mut W,
) -> Result<(), Failure<'p>>
    requires { ready.now.plan.now.collection ≡ true }
    ensures says { (document : List ℕ)
        → IsReady ready.entry.now.plan.now document ready.entry.now.checked.now ready.entry.now.now
        → AnswerSays result Verb.Filter ready.entry.now.plan.now document
        (streams (option_map (λ r. R.remaining r) rows) (W.contents out.old) (W.contents out.new)) }
    ensures begins { (document : List ℕ)
        → IsReady ready.entry.now.plan.now document ready.entry.now.checked.now ready.entry.now.now
        → BeginsAs Verb.Filter ready.entry.now.plan.now document
        (streams (option_map (λ r. R.remaining r) rows) (W.contents out.old) (W.contents out.new)) }
{
    let document = whole_rows(alloc, ready.plan, rows)?;
    match filter_collection(alloc, ready.checked, &ready.now, &document, out) {
        Ok(_) => Ok(()),
        Err(fault) => Err(Failure::Rows(fault)),
    }
}

/// The rows that the filter keeps, where the moment for it is there.
fn filter_ready<'p, R: Read + Drop, W: Write>(
    alloc: Global,
    ready: &Ready<'_, '_, 'p>,
    rows: Option<R>,
    out: &mut W,
) -> Result<(), Failure<'p>>
    ensures says { (document : List ℕ)
        → IsReady ready.entry.now.plan.now document ready.entry.now.checked.now ready.entry.now.now
        → AnswerSays result Verb.Filter ready.entry.now.plan.now document
        (streams (option_map (λ r. R.remaining r) rows) (W.contents out.old) (W.contents out.new)) }
    ensures begins { (document : List ℕ)
        → IsReady ready.entry.now.plan.now document ready.entry.now.checked.now ready.entry.now.now
        → BeginsAs Verb.Filter ready.entry.now.plan.now document
        (streams (option_map (λ r. R.remaining r) rows) (W.contents out.old) (W.contents out.new)) }
{
    if !ready.plan.collection {
        return filter_by_line(alloc, ready, rows, out);
    }
    filter_by_place(alloc, ready, rows, out)
}

/// The rows that the filter keeps.
pub(crate) fn filter_rows<'p, R: Read + Drop, W: Write>(
    alloc: Global,
    asked: &Asked<'_, '_, 'p>,
    rows: Option<R>,
    out: &mut W,
) -> Result<(), Failure<'p>>
    requires { GivesMoment asked.now.plan.now asked.now.given }
    ensures says { (document : List ℕ) → IsPlanFilter asked.entry.now.plan.now document asked.entry.now.checked.now
        → AnswerSays result Verb.Filter asked.entry.now.plan.now document
        (streams (option_map (λ r. R.remaining r) rows) (W.contents out.old) (W.contents out.new)) }
    ensures begins { (document : List ℕ) → IsPlanFilter asked.entry.now.plan.now document asked.entry.now.checked.now
        → BeginsAs Verb.Filter asked.entry.now.plan.now document
        (streams (option_map (λ r. R.remaining r) rows) (W.contents out.old) (W.contents out.new)) }
{
    let now = moment_for(asked.checked, asked.given)?;
    let ready = Ready {
        checked: asked.checked,
        now,
        plan: asked.plan,
    };
    filter_ready(alloc, &ready, rows, out)
}
