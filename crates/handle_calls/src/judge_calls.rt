//! Judges, and what a filter says of a row.
ghost use Rattle.std.specs.Prelude.{◌≡◌, ℕ, List, IfOk, MatchResult, None, Some};
ghost use Rattle.edm_values.specs.MomentParts.{MomentParts};
ghost use Rattle.odata_checked_filter.specs.Filter.{Filter};
ghost use Rattle.row_judges.specs.FilterRows.{AreRowsOfFilter};
ghost use Rattle.row_judges.specs.RowAnswer.{ReportsRow};
ghost use Rattle.row_judges.specs.RowCosts.{ReportsRowWithin};
ghost use Rattle.call_handles.specs.Answers.{empty_answer};
ghost use Rattle.call_handles.specs.Outcomes.{IsReported};
ghost use Rattle.handle_calls.specs.RowCalls.{IsJudgeOf, IsMomentOf, IsNewJudge, IsNoJudgeOf, IsNoMemory};
ghost use Rattle.handle_calls.specs.RowCalls.{IsOutcomeAt, IsOutcomeOn, Keeps, last_after, path_kept};
ghost use Rattle.handle_calls.specs.private.JudgeCalls.{row_fault};
ghost use Rattle.handle_calls.specs.RowReports.{JudgesNext, JudgesOne, JudgesOneBy, JudgesOwn, SetsMoment};
ghost use Rattle.handle_calls.specs.RowReports.{SetsMomentOf, ReportsVerdict, verdict_number};

use call_handles::{
    Answer, Fault, FilterHandle, Handle, JudgeHandle, OwnFilter, moment_for, path_of, report_fault,
};
use edm_rows::LayoutReader;
use edm_values::{Moment, read_moment};
use odata_eval::Verdict;
use odata_typing::Checked;
use row_judges::{BadRow, BoundedJudge, FilterRows, judge_row};
use std::alloc::{AllocError, Global};
use std::sync::Arc;

/// A judge that has seen nothing, of that filter or of none.
pub(crate) fn judge_with(alloc: Global, own: Option<Box<OwnFilter>>) -> Result<Handle, Fault>
    ensures { MatchResult result (IsNewJudge own) IsNoMemory }
{
    let judge = JudgeHandle {
        reader: LayoutReader::new(alloc),
        moment: None,
        bound: None,
        last: None,
        own,
    };
    match Box::new(alloc, judge) {
        Ok(judge) => Ok(Handle::Judge(judge)),
        Err(_) => Err(Fault::Memory),
    }
}

/// A filter as a judge has it for its own, which shares all of the filter's handle.
fn own_filter(alloc: Global, held: &FilterHandle) -> Result<Box<OwnFilter>, AllocError>
    ensures { IfOk result (λ own. own.value ≡ held.now) }
{
    let schema = Arc::try_clone(&held.schema)?;
    let rows = FilterRows::shared(alloc, &held.checked(), schema);
    let held = FilterHandle {
        schema: Arc::try_clone(&held.schema)?,
        filter: Arc::try_clone(&held.filter)?,
        layout: Arc::try_clone(&held.layout)?,
    };
    match Box::new(alloc, OwnFilter { held, rows }) {
        Ok(own) => Ok(own),
        Err(_) => Err(AllocError),
    }
}

/// A judge of the filter that a handle is.
pub(crate) fn judge_of(alloc: Global, handle: &Handle) -> Result<Handle, Fault>
    ensures { MatchResult result (IsJudgeOf handle.now) (IsNoJudgeOf handle.now) }
{
    match handle {
        Handle::Filter(held) => match own_filter(alloc, held) {
            Ok(own) => judge_with(alloc, Some(own)),
            Err(_) => Err(Fault::Memory),
        },
        _ => Err(Fault::OtherKind),
    }
}

/// The moment that the bytes spell.
pub(crate) fn moment_of(text: &[u8]) -> Result<Moment, Fault>
    ensures { IsMomentOf text.now result }
{
    match str::from_utf8(text) {
        Ok(text) => match read_moment(text) {
            Some(moment) => Ok(moment),
            None => Err(Fault::NotAMoment),
        },
        Err(_) => Err(Fault::NotUtf8),
    }
}

/// Has the judge take a text for the moment.
fn take_moment(judge: &mut JudgeHandle, text: &[u8]) -> u32
    ensures { SetsMomentOf judge.old judge.new text.now result }
{
    match moment_of(text) {
        Ok(moment) => {
            judge.moment = Some(moment);
            0
        }
        Err(fault) => fault.status(),
    }
}

/// Has a handle that is a judge take a text for the moment.
pub fn put_moment(handle: &mut Handle, text: &[u8]) -> u32
    ensures { SetsMoment handle.old handle.new text.now result }
{
    match handle {
        Handle::Judge(judge) => take_moment(judge, text),
        _ => Fault::OtherKind.status(),
    }
}

/// The fault of a row by itself.
fn row_fault(why: BadRow) -> Fault
    ensures { result ≡ row_fault why }
{
    if why.is_memory() {
        return Fault::Memory;
    }
    match why {
        BadRow::NotJson => Fault::Json { line: 0 },
        BadRow::NoEntity(fault) => Fault::Row { line: 0, fault },
        BadRow::NoValue(fault) => Fault::Evaluation { line: 0, fault },
    }
}

/// What a filter says of a row without a bound, as a call reports it.
fn plain_outcome(reported: Result<Verdict, BadRow>) -> Result<Verdict, Fault>
    ensures { (filter : Filter) → (now : MomentParts) → (row : List ℕ) → ReportsRow filter now row reported
        → IsOutcomeAt filter now None row result }
{
    match reported {
        Ok(verdict) => Ok(verdict),
        Err(why) => Err(row_fault(why)),
    }
}

/// What a filter says of a row within a bound, as a call reports it.
fn bounded_outcome(reported: Result<Option<Verdict>, BadRow>) -> Result<Verdict, Fault>
    ensures { (filter : Filter) → (now : MomentParts) → (row : List ℕ) → (most : ℕ)
        → ReportsRowWithin filter now row most reported → IsOutcomeAt filter now (Some most) row result }
{
    match reported {
        Ok(found) => match found {
            Some(verdict) => Ok(verdict),
            None => Err(Fault::TooCostly { line: 0 }),
        },
        Err(why) => Err(row_fault(why)),
    }
}

/// The verdict on a row, within the judge's bound where it has one, or why there is none.
fn verdict_on(held: &FilterHandle, judge: &mut JudgeHandle, row: &[u8]) -> Result<Verdict, Fault>
    ensures outcome { IsOutcomeOn held.now judge.old.moment judge.old.bound row.now result }
    ensures same { judge.new ≡ judge.old }
{
    let checked = held.checked();
    let now = moment_for(&checked, judge.moment)?;
    match judge.bound {
        Some(most) => {
            let by = BoundedJudge {
                checked: &checked,
                moment: &now,
                most,
            };
            bounded_outcome(by.judge(&held.layout, &mut judge.reader, row))
        }
        None => {
            let reported = judge_row(&checked, &now, &held.layout, &mut judge.reader, row);
            plain_outcome(reported)
        }
    }
}

/// The verdict on a row at a moment by what is stored of the filter's rows, within a bound if there is one.
fn own_outcome(
    rows: &mut FilterRows<'static>,
    checked: &Checked<'_>,
    now: &Moment,
    bound: Option<u64>,
    row: &[u8],
) -> Result<Verdict, Fault>
    requires { AreRowsOfFilter checked.now rows.old }
    ensures outcome { IsOutcomeAt checked.now now.now bound row.now result }
    ensures rows { AreRowsOfFilter checked.now rows.new }
{
    match bound {
        Some(most) => bounded_outcome(rows.judge_within(checked, now, most, row)),
        None => plain_outcome(rows.judge(checked, now, row)),
    }
}

/// The verdict on a row by a judge's own filter, within a bound if there is one, or why there is none.
fn own_verdict(
    own: &mut OwnFilter,
    moment: Option<Moment>,
    bound: Option<u64>,
    row: &[u8],
) -> Result<Verdict, Fault>
    ensures outcome { IsOutcomeOn own.old moment bound row.now result }
    ensures same { own.new ≡ own.old }
{
    let checked = own.held.checked();
    let now = moment_for(&checked, moment)?;
    own_outcome(&mut own.rows, &checked, &now, bound, row)
}

fn verdict_number(verdict: Verdict) -> u32
    ensures { result ≡ verdict_number verdict }
{
    match verdict {
        Verdict::False => 0,
        Verdict::True => 1,
        Verdict::Null => 2,
    }
}

/// Stores a fault in the judge for its path.
pub(crate) fn keep_fault(fault: Fault, judge: &mut JudgeHandle)
    ensures { Keeps judge.old judge.new (last_after judge.old.last fault) }
{
    match fault {
        Fault::Row { fault, .. } => judge.last = Some(fault),
        Fault::MomentNeeded => {}
        _ => judge.last = None,
    }
}

/// Reports a verdict, or why there is none.
fn report_verdict(
    outcome: Result<Verdict, Fault>,
    judge: &mut JudgeHandle,
    answer: &mut Answer,
) -> u32
    ensures { ReportsVerdict outcome judge.old judge.new answer.new result }
{
    match outcome {
        Ok(verdict) => {
            judge.last = None;
            *answer = Answer::empty();
            answer.verdict = verdict_number(verdict);
            0
        }
        Err(fault) => {
            let status = report_fault(&fault, answer);
            keep_fault(fault, judge);
            status
        }
    }
}

/// Judges a row, and reports the verdict, or why there is none.
fn report_row_verdict(
    held: &FilterHandle,
    judge: &mut JudgeHandle,
    row: &[u8],
    answer: &mut Answer,
) -> u32
    ensures { JudgesOneBy held.now judge.old judge.new row.now answer.new result }
{
    let outcome = verdict_on(held, judge, row);
    report_verdict(outcome, judge, answer)
}

/// Judges a row by handles, where they are a filter and a judge.
pub(crate) fn report_row(
    filter: &Handle,
    handle: &mut Handle,
    row: &[u8],
    answer: &mut Answer,
) -> u32
    ensures { JudgesOne filter.now handle.old handle.new row.now answer.new result }
{
    match (filter, handle) {
        (Handle::Filter(held), Handle::Judge(judge)) => report_row_verdict(
            held, judge, row, answer,
        ),
        _ => report_fault(&Fault::OtherKind, answer),
    }
}

/// Judges a row by the judge's own filter, if it has one.
fn report_own_verdict(judge: &mut JudgeHandle, row: &[u8], answer: &mut Answer) -> u32
    ensures { JudgesOwn judge.old.own judge.old judge.new row.now answer.new result }
{
    match &mut judge.own {
        Some(own) => {
            let outcome = own_verdict(own, judge.moment, judge.bound, row);
            report_verdict(outcome, judge, answer)
        }
        None => report_fault(&Fault::OtherKind, answer),
    }
}

/// Judges a row by the filter of a handle that is a judge of one.
pub fn report_next(handle: &mut Handle, row: &[u8], answer: &mut Answer) -> u32
    ensures { JudgesNext handle.old handle.new row.now answer.new result }
{
    match handle {
        Handle::Judge(judge) => report_own_verdict(judge, row, answer),
        _ => report_fault(&Fault::OtherKind, answer),
    }
}

/// The path of the fault that the judge stores, or no text.
pub(crate) fn last_path(judge: &JudgeHandle) -> &str
    ensures { result.now ≡ path_kept judge.now.last }
{
    match &judge.last {
        Some(fault) => path_of(fault),
        None => "",
    }
}
