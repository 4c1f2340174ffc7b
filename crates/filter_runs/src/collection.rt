ghost use Rattle.std.specs.Prelude.{◌≡◌, ◌≢◌, Err, IfOk, IfErr, IsSomeAnd, MatchResult, option_map};
ghost use Rattle.serde_json.specs.View.{items_view, view};
ghost use Rattle.line_filter.specs.CallLogs.{FlushesLast, NeverFails};
ghost use Rattle.line_filter.specs.Growth.{Writes};
ghost use Rattle.line_filter.specs.Kept.{Filters, StopsHeld};
ghost use Rattle.filter_runs.specs.Collection.{OfCollection, StopsCollection, array_of};
ghost use Rattle.filter_runs.specs.DeviceFaults.{WritesUntilFault};
ghost use Rattle.filter_runs.specs.RunStops.{run_stop};
ghost use Rattle.filter_runs.specs.declared.run_fault.RunFault.{RunFault};
ghost use Rattle.filter_runs.specs.private.Collection.{IsUnjudgedBy, known_items};
ghost use Rattle.csdl_schema.specs.JsonText.{IsJsonOf};

use crate::known_verdicts::KnownVerdicts;
use crate::run_fault::{RunFault, run_fault};
use edm_values::Moment;
use line_filter::{Output, Tally, Writes, filter_items};
use odata_typing::Checked;
use row_judges::{RowJudge, verdicts_in_place};
use serde_json::Value;
use std::alloc::Global;

/// The array that is the member `value` of a JSON object.
fn array_of(json: &Value) -> Option<&Vec<Value>>
    ensures { option_map (λ items. items_view items.now.items) result ≡ array_of (view json.now) }
{
    json.get("value").and_then(Value::as_array)
}

/// The JSON of a document.
fn read_document(alloc: Global, document: &[u8]) -> Result<Value, RunFault>
    ensures json { IfOk result (λ json. IsJsonOf document.now (view json)) }
    ensures fault { IfErr result (IsUnjudgedBy document.now) }
{
    match Value::from_slice(alloc, document) {
        Ok(json) => Ok(json),
        Err(error) => {
            if error.is_memory() {
                Err(RunFault::Memory { line: 0 })
            } else {
                Err(RunFault::NotACollection)
            }
        }
    }
}

/// Filters as [`filter_collection`] does, by how the writer's calls are reported. It reports that the writer failed
/// only if it did.
pub fn filter_collection_with<W, T: Writes<W>>(
    alloc: Global,
    checked: &Checked<'_>,
    now: &Moment,
    document: &[u8],
    out: &mut W,
) -> Result<Tally, RunFault>
    ensures filters { IfOk result (λ tally. Writes (T.contents out.old) (T.contents out.new)
        (λ text. OfCollection checked.now now.now document.now (λ items. Filters items text tally))) }
    ensures stops { IfErr result (λ fault. Writes (T.contents out.old) (T.contents out.new)
        (λ text. StopsCollection checked.now now.now document.now text fault)) }
    ensures writes { MatchResult result (λ tally. FlushesLast (T.calls out.old) (T.calls out.new))
        (λ fault. WritesUntilFault (T.calls out.old) (T.calls out.new) fault) }
{
    match verdicts_in_place(alloc, checked, now, document) {
        Some(kept) => filter_known::<W, T>(alloc, kept.as_slice(), out),
        None => filter_by_tree::<W, T>(alloc, checked, now, document, out),
    }
}

/// Writes the indexes of the items that are kept, by the verdicts that are known of all of them.
fn filter_known<W, T: Writes<W>>(
    alloc: Global,
    kept: &[bool],
    out: &mut W,
) -> Result<Tally, RunFault>
    ensures filters { IfOk result (λ tally. Writes (T.contents out.old) (T.contents out.new)
        (λ text. Filters (known_items kept.now) text tally)) }
    ensures stops { IfErr result (λ fault. Writes (T.contents out.old) (T.contents out.new)
        (λ text. IsSomeAnd (run_stop fault) (StopsHeld (known_items kept.now) text))) }
    ensures writes { MatchResult result (λ tally. FlushesLast (T.calls out.old) (T.calls out.new))
        (λ fault. WritesUntilFault (T.calls out.old) (T.calls out.new) fault) }
{
    match filter_items::<KnownVerdicts, W, T>(alloc, &KnownVerdicts, kept, out) {
        Ok(tally) => Ok(tally),
        Err(stop) => Err(run_fault(stop)),
    }
}

/// Filters through the tree of the document's JSON.
fn filter_by_tree<W, T: Writes<W>>(
    alloc: Global,
    checked: &Checked<'_>,
    now: &Moment,
    document: &[u8],
    out: &mut W,
) -> Result<Tally, RunFault>
    ensures filters { IfOk result (λ tally. Writes (T.contents out.old) (T.contents out.new)
        (λ text. OfCollection checked.now now.now document.now (λ items. Filters items text tally))) }
    ensures stops { IfErr result (λ fault. Writes (T.contents out.old) (T.contents out.new)
        (λ text. StopsCollection checked.now now.now document.now text fault)) }
    ensures writes { MatchResult result (λ tally. FlushesLast (T.calls out.old) (T.calls out.new))
        (λ fault. WritesUntilFault (T.calls out.old) (T.calls out.new) fault) }
{
    let json = read_document(alloc, document)?;
    let items = match array_of(&json) {
        Some(items) => items,
        None => return Err(RunFault::NotACollection),
    };
    let judge = RowJudge {
        alloc,
        checked,
        moment: now,
    };
    match filter_items::<RowJudge<'_, '_>, W, T>(alloc, &judge, items, out) {
        Ok(tally) => Ok(tally),
        Err(stop) => Err(run_fault(stop)),
    }
}

/// Reads a collection of entities and writes the index of each whose outcome is true. The collection is a JSON object
/// whose member `value` is an array of them; an index is counted from 0, in decimal and followed by LF.
///
/// Its other members are skipped. A document that is not JSON or not such an object is `NotACollection`. The first
/// faulty item ends the run with `Row` or `Arithmetic` and its index plus one. A failed write, or a failed last flush,
/// is `Write`, which is never returned for a writer that is passed as [`Called`](line_filter::Called) by a strategy
/// that says that it cannot fail. `Memory` with 0 for the line reports an allocation that fails while the document is
/// read.
pub fn filter_collection<W: Output>(
    alloc: Global,
    checked: &Checked<'_>,
    now: &Moment,
    document: &[u8],
    out: &mut W,
) -> Result<Tally, RunFault>
    ensures filters { IfOk result (λ tally. Writes (W.Strategy.contents out.old) (W.Strategy.contents out.new)
        (λ text. OfCollection checked.now now.now document.now (λ items. Filters items text tally))) }
    ensures stops { IfErr result (λ fault. Writes (W.Strategy.contents out.old) (W.Strategy.contents out.new)
        (λ text. StopsCollection checked.now now.now document.now text fault)) }
    ensures writes { MatchResult result (λ tally. FlushesLast (W.Strategy.calls out.old) (W.Strategy.calls out.new))
        (λ fault. WritesUntilFault (W.Strategy.calls out.old) (W.Strategy.calls out.new) fault) }
    ensures unwritten { NeverFails W.Strategy.calls → result ≢ Err RunFault.Write }
{
    filter_collection_with::<W, W::Strategy>(alloc, checked, now, document, out)
}
