ghost use Rattle.std.specs.Prelude.{IfOk, IfErr, IfSome, MatchResult, OnOk};
ghost use Rattle.std.specs.Io.KnownBytes.{Keeps};
ghost use Rattle.line_filter.specs.CallLogs.{StaysWell, FlushesLast};
ghost use Rattle.line_filter.specs.Growth.{Writes};
ghost use Rattle.line_filter.specs.Kept.{Filters, StopsHeld, StopsWith};
ghost use Rattle.line_filter.specs.LineItems.{lines, SaysTheSame};
ghost use Rattle.line_filter.specs.LineSource.{left_of, IsOver};
ghost use Rattle.line_filter.specs.LineStreams.{LacksLine, ReadsUntil, WritesUntil};
ghost use Rattle.line_filter.specs.ItemIndexes.{indexed_items};
ghost use Rattle.line_filter.specs.private.Walk.{Closes, Ends};

use super::device::{Reads, Writes};
use super::item_indexes::write_kept_indexes;
use super::judge::{Judge, JudgeItem};
use super::line_reader::LineReader;
use super::run_stop::RunStop;
use super::stream::write_kept_stream;
use super::tally::Tally;
use std::alloc::Global;
use std::io::Read;

/// What a run returns once its items have been judged.
fn finish<F: Drop, W, T: Writes<W>>(
    outcome: Result<Tally, RunStop<F>>,
    out: &mut W,
) -> Result<Tally, RunStop<F>>
    ensures answer { Ends outcome result }
    ensures kept { Keeps (T.contents out.old) (T.contents out.new) }
    ensures calls { Closes outcome result (T.calls out.old) (T.calls out.new) }
{
    let tally = outcome?;
    match T::flush(out) {
        Ok(()) => Ok(tally),
        Err(_) => Err(RunStop::Write),
    }
}

/// Judges each line as it comes and writes those that are kept, unchanged and each followed by LF.
///
/// A line of spaces, tabs and CRs alone is skipped. The first faulty line ends the run with `TooLong`, or with `Fault`
/// and what the judge returned. If a read or an allocation fails, the complete lines are judged first, and then the
/// result is `Read` or `Memory`. `Write` reports a write that fails or takes no byte, and a failed flush; the one flush
/// comes where the run would be `Ok`. An interrupted call has failed. At most 2^63 - 1 bytes are read, 65,536 at a
/// time. Kept lines are written before more is read, or as soon as they are more than 65,536 bytes.
///
/// `S` and `T` say how the devices are called, and what they report of it. A failure is reported only if the device's
/// last call failed, and with the number of the line that did not come.
pub fn filter_reader<R: Read, S: Reads<R>, J: Judge, W, T: Writes<W>>(
    alloc: Global,
    judge: &mut J,
    reader: &mut LineReader<R>,
    out: &mut W,
) -> Result<Tally, RunStop<J::Fault>>
    ensures filters { IfOk result (λ tally. IfSome (left_of R.remaining reader.old) (λ bytes.
        Writes (T.contents out.old) (T.contents out.new)
        (λ text. Filters (lines (J.says judge.old) bytes) text tally))) }
    ensures stops { IfErr result (λ stop. IfSome (left_of R.remaining reader.old) (λ bytes.
        Writes (T.contents out.old) (T.contents out.new) (λ text. StopsWith (lines (J.says judge.old) bytes)
        (LacksLine (J.says judge.old) bytes reader.new.waiting (R.remaining reader.new.reader)) text stop))) }
    ensures ended { OnOk result (IsOver reader.new) }
    ensures reads { MatchResult result (λ tally. StaysWell (S.calls reader.old.reader) (S.calls reader.new.reader))
        (λ stop. ReadsUntil S.calls R.remaining reader.old reader.new stop) }
    ensures writes { MatchResult result (λ tally. FlushesLast (T.calls out.old) (T.calls out.new))
        (λ stop. WritesUntil (T.calls out.old) (T.calls out.new) stop) }
    ensures same { SaysTheSame (J.says judge.old) (J.says judge.new) }
{
    match write_kept_stream::<R, S, J, W, T>(alloc, judge, reader, out) {
        Ok(outcome) => finish::<J::Fault, W, T>(outcome, out),
        Err(_) => Err(RunStop::Write),
    }
}

/// Judges the items of a list one by one, and writes the indexes of those that are kept. They are counted from 0, in
/// decimal and each followed by LF.
///
/// The first faulty item ends the run with `Fault`, whose number is the item's index plus one. `Write` reports a write
/// that fails or takes no byte, and a failed flush. Up to 65,536 bytes are held back before they are written.
pub fn filter_items<J: JudgeItem, W, T: Writes<W>>(
    alloc: Global,
    judge: &J,
    items: &[J::Item],
    out: &mut W,
) -> Result<Tally, RunStop<J::Fault>>
    ensures filters { IfOk result (λ tally. Writes (T.contents out.old) (T.contents out.new)
        (λ text. Filters (indexed_items (J.says judge.now) items.now) text tally)) }
    ensures stops { IfErr result (λ stop. Writes (T.contents out.old) (T.contents out.new)
        (λ text. StopsHeld (indexed_items (J.says judge.now) items.now) text stop)) }
    ensures writes { MatchResult result (λ tally. FlushesLast (T.calls out.old) (T.calls out.new))
        (λ stop. WritesUntil (T.calls out.old) (T.calls out.new) stop) }
{
    match write_kept_indexes::<J, W, T>(alloc, judge, items, out) {
        Ok(outcome) => finish::<J::Fault, W, T>(outcome, out),
        Err(_) => Err(RunStop::Write),
    }
}
