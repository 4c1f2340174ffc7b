//! The loop over the items of a list, of which the kept ones are reported by their indexes.
ghost use Rattle.std.specs.Prelude.{◌≡◌, ℕ, List, [], IfErr, IfOk, OnErr, OnOk};
ghost use Rattle.line_filter.specs.CallLogs.{StaysWell, FailsLast};
ghost use Rattle.line_filter.specs.Growth.{Writes};
ghost use Rattle.line_filter.specs.Kept.{StopsWithin, IsOfItem};
ghost use Rattle.line_filter.specs.ItemIndexes.{IsJudged, indexed_items};
ghost use Rattle.line_filter.specs.private.HeldBack.{WritesBut};
ghost use Rattle.line_filter.specs.private.Walk.{ComesOf, GoesOver};

use super::device::{NotWritten, Writes};
use super::item_outcome::{keep_where, outcome_of};
use super::judge::JudgeItem;
use super::output::release;
use super::run_stop::RunStop;
use super::tally::Tally;
use itoa::Buffer;
use std::alloc::Global;

/// What the item of this number counts, or why the run stops at it.
fn item_outcome<J: JudgeItem>(
    judge: &J,
    item: &J::Item,
    number: u64,
) -> Result<Tally, RunStop<J::Fault>>
    ensures { ComesOf (IsJudged (J.says judge.now) item.now) number result }
{
    match judge.judge_item(item) {
        Ok(judgment) => outcome_of(judgment, number),
        Err(_) => Err(RunStop::Memory { line: number }),
    }
}

/// Judges the items one by one up to the first fault. The end of the kept text may be held back. `Err` is a write that
/// failed; any other stop comes within `Ok`.
fn judge_items<J: JudgeItem, W, T: Writes<W>>(
    judge: &J,
    items: &[J::Item],
    out: &mut W,
    held: &mut Vec<u8>,
) -> Result<Result<Tally, RunStop<J::Fault>>, NotWritten>
    requires { held.old.items ≡ [] }
    ensures ok { IfOk result (λ outcome. (text : List ℕ)
        × WritesBut (T.contents out.old) (T.contents out.new) held.new.items text
        × GoesOver (indexed_items (J.says judge.now) items.now) text outcome) }
    ensures of_item { IfOk result (λ outcome. IfErr outcome IsOfItem) }
    ensures err { OnErr result
        (Writes (T.contents out.old) (T.contents out.new) (StopsWithin (indexed_items (J.says judge.now) items.now))) }
    ensures well { OnOk result (StaysWell (T.calls out.old) (T.calls out.new)) }
    ensures failed { OnErr result (FailsLast (T.calls out.old) (T.calls out.new)) }
{
    let mut index = 0;
    let mut tally = Tally { rows: 0, kept: 0 };
    for item in items {
        match item_outcome(judge, item, index + 1) {
            Ok(one) => {
                let mut buffer = Buffer::new();
                let text = buffer.format(index);
                keep_where::<W, T>(one.kept == 1, text.as_bytes(), out, held)?;
                index += 1;
                tally.rows += one.rows;
                tally.kept += one.kept;
            }
            Err(stop) => return Ok(Err(stop)),
        }
    }
    Ok(Ok(tally))
}

/// Judges the items up to the first fault, and writes the indexes of the kept ones. `Err` is a write that failed.
pub fn write_kept_indexes<J: JudgeItem, W, T: Writes<W>>(
    alloc: Global,
    judge: &J,
    items: &[J::Item],
    out: &mut W,
) -> Result<Result<Tally, RunStop<J::Fault>>, NotWritten>
    ensures ok { IfOk result (λ outcome. Writes (T.contents out.old) (T.contents out.new)
        (λ text. GoesOver (indexed_items (J.says judge.now) items.now) text outcome)) }
    ensures of_item { IfOk result (λ outcome. IfErr outcome IsOfItem) }
    ensures err { OnErr result
        (Writes (T.contents out.old) (T.contents out.new) (StopsWithin (indexed_items (J.says judge.now) items.now))) }
    ensures well { OnOk result (StaysWell (T.calls out.old) (T.calls out.new)) }
    ensures failed { OnErr result (FailsLast (T.calls out.old) (T.calls out.new)) }
{
    let mut held = Vec::new(alloc);
    let outcome = judge_items::<J, W, T>(judge, items, out, &mut held)?;
    release::<W, T>(out, &mut held)?;
    Ok(outcome)
}
