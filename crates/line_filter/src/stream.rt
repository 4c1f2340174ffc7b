//! The loop over the lines of a reader, read as they are needed.
ghost use Rattle.std.specs.Prelude.{◌≡◌, ℕ, ◌+◌, ◌-◌, ◌<◌, ◌^◌, List, [], IfErr, IfOk, IfSome, MatchResult, OnOk, OnErr};
ghost use Rattle.line_filter.specs.CallLogs.{StaysWell, FailsLast};
ghost use Rattle.line_filter.specs.Growth.{Writes, WritesFront};
ghost use Rattle.line_filter.specs.Kept.{StopsWithin};
ghost use Rattle.line_filter.specs.LineItems.{lines, SaysTheSame};
ghost use Rattle.line_filter.specs.LineSource.{left_of, IsOver};
ghost use Rattle.line_filter.specs.LineStreams.{ReadsUntil};
ghost use Rattle.line_filter.specs.private.Giving.{Gives, GivesAgain, bytes_to_come};
ghost use Rattle.line_filter.specs.private.HeldBack.{WritesBut};
ghost use Rattle.line_filter.specs.private.Reading.{IsUnread, ReadsOn};
ghost use Rattle.line_filter.specs.private.Walk.{GoesOn, IsUnwritten, fault_stop};

use super::device::{NotWritten, Reads, Writes};
use super::item_outcome::keep_where;
use super::judge::{Judge, Judgment};
use super::line_outcome::line_outcome;
use super::line_reader::{LineFault, LineReader, Next};
use super::output::{keep, release};
use super::run_stop::RunStop;
use super::tally::Tally;
use std::alloc::Global;
use std::io::Read;

/// Goes to the next line, if there is one. Before each read what is held back is written.
fn next_line<R: Read, S: Reads<R>, W, T: Writes<W>>(
    reader: &mut LineReader<R>,
    out: &mut W,
    held: &mut Vec<u8>,
) -> Result<Next, NotWritten>
    ensures given { IfOk result (Gives R.remaining reader.old reader.new) }
    ensures again { IfOk result (GivesAgain reader.old) }
    ensures ok { OnOk result (WritesBut (T.contents out.old) (T.contents out.new) held.new.items held.old.items) }
    ensures err { OnErr result (WritesFront (T.contents out.old) (T.contents out.new) held.old.items) }
    ensures none_held { OnOk result (IsUnread reader.new → (IsUnread reader.old → held.old.items ≡ [])
        → held.new.items ≡ []) }
    ensures reads { OnOk result (ReadsOn S.calls R.remaining reader.old reader.new) }
    ensures read_well { OnErr result (StaysWell (S.calls reader.old.reader) (S.calls reader.new.reader)) }
    ensures well { OnOk result (StaysWell (T.calls out.old) (T.calls out.new)) }
    ensures failed { OnErr result (FailsLast (T.calls out.old) (T.calls out.new)) }
{
    loop {
        match reader.give() {
            Some(next) => return Ok(next),
            None => {
                release::<W, T>(out, held)?;
                reader.read_more::<S>(held.as_slice());
            }
        }
    }
}

/// What a run returns where the line of this number does not come.
fn fault_stop<F>(fault: LineFault, line: u64) -> RunStop<F>
    ensures { result ≡ fault_stop fault line }
{
    match fault {
        LineFault::TooLong => RunStop::TooLong { line },
        LineFault::Read => RunStop::Read { line },
        LineFault::Memory => RunStop::Memory { line },
    }
}

/// What a run returns where the line of this number is at fault.
fn stop_at<F>(line: u64, fault: F) -> RunStop<F>
    ensures { result ≡ RunStop.Fault line fault }
{
    RunStop::Fault { line, fault }
}

/// Judges the lines one by one as they come, up to the first fault. The end of the kept text may be held back. `Err` is
/// a write that failed; any other stop comes within `Ok`.
fn judge_stream<R: Read, S: Reads<R>, J: Judge, W, T: Writes<W>>(
    judge: &mut J,
    reader: &mut LineReader<R>,
    out: &mut W,
    held: &mut Vec<u8>,
) -> Result<Result<Tally, RunStop<J::Fault>>, NotWritten>
    requires none_held { held.old.items ≡ [] }
    requires few { bytes_to_come reader.old < 2 ^ 64 - 1 }
    ensures ok { IfOk result (λ outcome. IfSome (left_of R.remaining reader.old) (λ bytes. (text : List ℕ)
        × WritesBut (T.contents out.old) (T.contents out.new) held.new.items text
        × GoesOn (J.says judge.old) bytes reader.new.waiting (R.remaining reader.new.reader) text outcome)) }
    ensures ended { IfOk result (λ outcome. OnOk outcome (IsOver reader.new)) }
    ensures err { OnErr result (IfSome (left_of R.remaining reader.old) (λ bytes.
        Writes (T.contents out.old) (T.contents out.new) (StopsWithin (lines (J.says judge.old) bytes)))) }
    ensures reads { IfOk result (λ outcome. MatchResult outcome
        (λ tally. StaysWell (S.calls reader.old.reader) (S.calls reader.new.reader))
        (λ stop. ReadsUntil S.calls R.remaining reader.old reader.new stop)) }
    ensures read_well { OnErr result (StaysWell (S.calls reader.old.reader) (S.calls reader.new.reader)) }
    ensures none_failed { OnOk result (¬ IsUnread reader.new
        → StaysWell (S.calls reader.old.reader) (S.calls reader.new.reader)) }
    ensures none_held { OnOk result (IsUnread reader.new → held.new.items ≡ []) }
    ensures unwritten { IfOk result (λ outcome. IfErr outcome IsUnwritten) }
    ensures well { OnOk result (StaysWell (T.calls out.old) (T.calls out.new)) }
    ensures failed { OnErr result (FailsLast (T.calls out.old) (T.calls out.new)) }
    ensures same { SaysTheSame (J.says judge.old) (J.says judge.new) }
{
    let mut lines = 0;
    let mut tally = Tally { rows: 0, kept: 0 };
    loop {
        match next_line::<R, S, W, T>(reader, out, held)? {
            Next::Line => {}
            Next::End => return Ok(Ok(tally)),
            Next::Fault(fault) => return Ok(Err(fault_stop(fault, lines + 1))),
            Next::Empty => {
                lines += 1;
                continue;
            }
        }
        let line = reader.line();
        match judge.judge_at_front(
            reader.front(),
            line.len(),
            reader.is_line_ascii(),
            lines + 1,
        ) {
            Some(Judgment::Kept) => {
                keep::<W, T>(out, held, line)?;
                lines += 1;
                tally.rows += 1;
                tally.kept += 1;
                continue;
            }
            Some(Judgment::LeftOut) => {
                lines += 1;
                tally.rows += 1;
                continue;
            }
            Some(Judgment::Fault(fault)) => return Ok(Err(stop_at(lines + 1, fault))),
            None => {}
        }
        match line_outcome(judge, line, lines + 1) {
            Ok(one) => {
                keep_where::<W, T>(one.kept == 1, line, out, held)?;
                lines += 1;
                tally.rows += one.rows;
                tally.kept += one.kept;
            }
            Err(stop) => return Ok(Err(stop)),
        }
    }
}

/// Judges the lines as they come up to the first fault, and writes the kept ones. `Err` is a write that failed.
pub fn write_kept_stream<R: Read, S: Reads<R>, J: Judge, W, T: Writes<W>>(
    alloc: Global,
    judge: &mut J,
    reader: &mut LineReader<R>,
    out: &mut W,
) -> Result<Result<Tally, RunStop<J::Fault>>, NotWritten>
    ensures ok { IfOk result (λ outcome. IfSome (left_of R.remaining reader.old) (λ bytes.
        Writes (T.contents out.old) (T.contents out.new)
        (λ text. GoesOn (J.says judge.old) bytes reader.new.waiting (R.remaining reader.new.reader) text outcome))) }
    ensures ended { IfOk result (λ outcome. OnOk outcome (IsOver reader.new)) }
    ensures err { OnErr result (IfSome (left_of R.remaining reader.old) (λ bytes.
        Writes (T.contents out.old) (T.contents out.new) (StopsWithin (lines (J.says judge.old) bytes)))) }
    ensures reads { IfOk result (λ outcome. MatchResult outcome
        (λ tally. StaysWell (S.calls reader.old.reader) (S.calls reader.new.reader))
        (λ stop. ReadsUntil S.calls R.remaining reader.old reader.new stop)) }
    ensures read_well { OnErr result (StaysWell (S.calls reader.old.reader) (S.calls reader.new.reader)) }
    ensures unwritten { IfOk result (λ outcome. IfErr outcome IsUnwritten) }
    ensures well { OnOk result (StaysWell (T.calls out.old) (T.calls out.new)) }
    ensures failed { OnErr result (FailsLast (T.calls out.old) (T.calls out.new)) }
    ensures same { SaysTheSame (J.says judge.old) (J.says judge.new) }
{
    // The call's clause bounds how many lines may come, so the counts of lines and rows cannot overflow.
    let _ = reader.to_come();
    let mut held = Vec::new(alloc);
    let outcome = judge_stream::<R, S, J, W, T>(judge, reader, out, &mut held)?;
    release::<W, T>(out, &mut held)?;
    Ok(outcome)
}
