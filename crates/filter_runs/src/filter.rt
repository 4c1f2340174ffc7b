ghost use Rattle.std.specs.Prelude.{◌≡◌, ◌≢◌, ◌-◌, ◌<◌, ◌^◌, ℕ, length, Err, IfOk, IfErr, IfSome, MatchResult, OnOk};
ghost use Rattle.line_filter.specs.CallLogs.{FailsOnlyAtEnd, FlushesLast, NeverFails, StaysWell};
ghost use Rattle.line_filter.specs.declared.call_log.CallLog.{CallLog};
ghost use Rattle.line_filter.specs.Growth.{Grows, Writes};
ghost use Rattle.line_filter.specs.Kept.{Filters, StopsOn};
ghost use Rattle.line_filter.specs.LineSource.{IsOver, left_of};
ghost use Rattle.filter_runs.specs.DeviceFaults.{LacksRow, ReadsUntilFault, StopsLines, WritesUntilFault, line_after};
ghost use Rattle.row_judges.specs.RowJudgment.{rows_of};
ghost use Rattle.filter_runs.specs.RunStops.{StopsBy};

use crate::run_fault::{RunFault, run_fault};
use edm_values::Moment;
use line_filter::{Input, LineReader, Output, Reads, Tally, Writes, filter_bytes, filter_reader};
use odata_typing::Checked;
use row_judges::RowLineJudge;
use std::alloc::Global;
use std::io::Read;

/// Filters as [`filter_lines`] does, over a borrowed reader of lines and with reported calls.
///
/// It reports which line did not come, and that a device failed only where one did.
pub fn filter_lines_with<R: Read, S: Reads<R>, W, T: Writes<W>>(
    alloc: Global,
    checked: &Checked<'_>,
    now: &Moment,
    rows: &mut LineReader<R>,
    out: &mut W,
) -> Result<Tally, RunFault>
    ensures filters { IfOk result (λ tally. IfSome (left_of R.remaining rows.old) (λ bytes.
        Writes (T.contents out.old) (T.contents out.new)
        (λ text. Filters (rows_of checked.now now.now bytes) text tally))) }
    ensures stops { IfErr result (λ fault. IfSome (left_of R.remaining rows.old) (λ bytes.
        Writes (T.contents out.old) (T.contents out.new)
        (λ text. StopsLines checked.now now.now bytes rows.new.waiting (R.remaining rows.new.reader) text fault))) }
    ensures ended { OnOk result (IsOver rows.new) }
    ensures reads { MatchResult result (λ tally. StaysWell (S.calls rows.old.reader) (S.calls rows.new.reader))
        (λ fault. ReadsUntilFault S.calls R.remaining rows.old rows.new fault) }
    ensures writes { MatchResult result (λ tally. FlushesLast (T.calls out.old) (T.calls out.new))
        (λ fault. WritesUntilFault (T.calls out.old) (T.calls out.new) fault) }
{
    let mut judge = RowLineJudge::new(alloc, checked, now);
    match filter_reader::<R, S, RowLineJudge<'_, '_>, W, T>(alloc, &mut judge, rows, out) {
        Ok(tally) => Ok(tally),
        Err(stop) => Err(run_fault(stop)),
    }
}

/// Reads rows, one JSON object a line, and writes those whose outcome is true. They are unchanged and each followed by
/// LF.
///
/// Lines are judged as they come, and the kept ones are written before more is read. A blank line is skipped. The first
/// faulty line ends the run with `LineTooLong`, `Json`, `Row` or `Arithmetic` and its number, from 1. If a read or an
/// allocation fails, the complete lines are judged first: `Read` has a number one above that of the complete lines, of
/// which the kept ones have been written. A failed write, or a failed last flush, is `Write`.
///
/// `rows` is any reader and `out` any writer. Where one that cannot fail is passed as
/// [`Called`](line_filter::Called), by the strategy that says so, `Read` or `Write` is never returned for it.
pub fn filter_lines<R: Input, W: Output>(
    alloc: Global,
    checked: &Checked<'_>,
    now: &Moment,
    rows: R,
    out: &mut W,
) -> Result<Tally, RunFault>
    ensures filters { IfOk result (λ tally. IfSome (R.Reader.remaining (R.reader rows)) (λ bytes.
        Writes (W.Strategy.contents out.old) (W.Strategy.contents out.new)
        (λ text. Filters (rows_of checked.now now.now bytes) text tally))) }
    ensures stops { IfErr result (λ fault. IfSome (R.Reader.remaining (R.reader rows)) (λ bytes.
        Writes (W.Strategy.contents out.old) (W.Strategy.contents out.new)
        (λ text. StopsBy (rows_of checked.now now.now bytes) text fault))) }
    ensures read { (line : ℕ) → result ≡ Err (RunFault.Read line)
        → IfSome (R.Reader.remaining (R.reader rows)) (λ bytes.
        Writes (W.Strategy.contents out.old) (W.Strategy.contents out.new)
        (λ text. LacksRow checked.now now.now bytes text line)) }
    ensures unread { NeverFails R.Strategy.calls → IfSome (R.Reader.remaining (R.reader rows)) (λ bytes.
        length bytes < 2 ^ 63 - 1 → (line : ℕ) → result ≢ Err (RunFault.Read line)) }
    ensures line { FailsOnlyAtEnd R.Strategy.calls R.Reader.remaining → R.Strategy.calls (R.reader rows) ≡ CallLog.Well
        → IfSome (R.Reader.remaining (R.reader rows)) (λ bytes. length bytes < 2 ^ 63 - 1
        → (line : ℕ) → result ≡ Err (RunFault.Read line) → line ≡ line_after bytes) }
    ensures writes { MatchResult result (λ tally. FlushesLast (W.Strategy.calls out.old) (W.Strategy.calls out.new))
        (λ fault. WritesUntilFault (W.Strategy.calls out.old) (W.Strategy.calls out.new) fault) }
    ensures unwritten { NeverFails W.Strategy.calls → result ≢ Err RunFault.Write }
{
    let mut lines = LineReader::new(alloc, rows.into_reader());
    filter_lines_with::<R::Reader, R::Strategy, W, W::Strategy>(
        alloc, checked, now, &mut lines, out,
    )
}

/// Filters as [`filter_lines`] does, over rows in memory. Kept rows are appended to `out`. It returns neither `Read`
/// nor `Write`. If an allocation for a kept line fails it is `Memory`, by the number of that line.
pub fn filter_slice(
    alloc: Global,
    checked: &Checked<'_>,
    now: &Moment,
    rows: &[u8],
    out: &mut Vec<u8>,
) -> Result<Tally, RunFault>
    ensures filters { IfOk result (λ tally. Grows out.old.items out.new.items
        (λ text. Filters (rows_of checked.now now.now rows.now) text tally)) }
    ensures stops { IfErr result (λ fault. Grows out.old.items out.new.items
        (λ text. StopsBy (rows_of checked.now now.now rows.now) text fault)) }
    ensures unread { IfErr result (λ fault. (line : ℕ) → fault ≢ RunFault.Read line) }
    ensures unwritten { IfErr result (λ fault. fault ≢ RunFault.Write) }
    ensures memory { (line : ℕ) → result ≡ Err (RunFault.Memory line) → Grows out.old.items out.new.items
        (λ text. StopsOn (rows_of checked.now now.now rows.now) text line) }
{
    let mut judge = RowLineJudge::new(alloc, checked, now);
    match filter_bytes(&mut judge, rows, out) {
        Ok(tally) => Ok(tally),
        Err(stop) => Err(run_fault(stop)),
    }
}
