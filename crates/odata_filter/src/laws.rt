//! Laws of rows, as contracts of functions that do nothing but cite others.
ghost use Rattle.std.specs.Prelude.{◌≡◌, ◌<◌, ℕ, List, Option, Some, length};
ghost use Rattle.serde_json.specs.Data.{Data};
ghost use Rattle.line_filter.specs.declared.call_log.CallLog.{CallLog};
ghost use Rattle.line_filter.specs.declared.line_reader.Course.{Course};
ghost use Rattle.line_filter.specs.declared.line_reader.LineFault.{LineFault};
ghost use Rattle.line_filter.specs.LineSource.{LineSource};
ghost use Rattle.filter_runs.specs.DeviceFaults.{ReadsUntilFault, WritesUntilFault};
ghost use Rattle.line_filter.specs.Kept.{Filters};
ghost use Rattle.line_filter.specs.declared.judge.Judgment.{Judgment};
ghost use Rattle.line_filter.specs.declared.tally.Tally.{Tally};
ghost use Rattle.filter_runs.specs.declared.run_fault.RunFault.{RunFault};
ghost use Rattle.filter_runs.specs.Collection.{OfCollection, StopsCollection};
ghost use Rattle.row_judges.specs.RowJudgment.{JudgesRow, JudgesValue, rows_of};
ghost use Rattle.row_judges.specs.RowsOnce.{AreSameJudgment};
ghost use Rattle.odata_filter.specs.StopsOnce.{AreSameFault, IsOfDocument, IsOfRow};
ghost use Rattle.filter_runs.specs.RunStops.{StopsBy};

use edm_values::Moment;
use line_filter::{SaysOfItems, items_stop_once, lines_stop_once};
use odata_typing::Checked;
use row_judges::{BadRow, RowLineJudge, rows_are_judged_once};
use std::alloc::Global;

/// A filter has one judgment of a line at most. Of `Json`, `Row`, `Arithmetic` and `LineTooLong` at most one holds of
/// rows, at one line, and none where all of them pass. One text is kept, of all rows or of those before the first at
/// fault; all rows have one tally.
pub fn rows_stop_once(alloc: Global, checked: &Checked<'_>, now: &Moment)
    ensures judged { (line : List ℕ) (j k : Judgment BadRow) → JudgesRow checked.now now.now line j
        → JudgesRow checked.now now.now line k → AreSameJudgment j k }
    ensures stopped { (bytes text other : List ℕ) (f g : RunFault) → IsOfRow f → IsOfRow g
        → StopsBy (rows_of checked.now now.now bytes) text f → StopsBy (rows_of checked.now now.now bytes) other g
        → AreSameFault f g × (text ≡ other) }
    ensures filtered { (bytes text other : List ℕ) (tally : Tally) (f : RunFault)
        → Filters (rows_of checked.now now.now bytes) text tally → IsOfRow f
        → StopsBy (rows_of checked.now now.now bytes) other f → ⊥ }
    ensures kept { (bytes text other : List ℕ) (m n : Tally) → Filters (rows_of checked.now now.now bytes) text m
        → Filters (rows_of checked.now now.now bytes) other n → (text ≡ other) × (m ≡ n) }
{
    rows_are_judged_once();
    let judge = RowLineJudge::new(alloc, checked, now);
    lines_stop_once(&judge);
}

/// What a filter says of JSON values at a moment, for the law of collections.
#[derive(Drop)]
struct SaidOfValues<'c, 's> {
    checked: &'c Checked<'s>,
    moment: &'c Moment,
}

impl SaysOfItems for SaidOfValues<'_, '_> {
    type Fault = BadRow;

    ghost Item = { Data };

    ghost says = { λ said json. JudgesValue said.checked.now said.moment.now json };
}

/// A filter has one judgment of a JSON value at most. Of `NotACollection`, `Row` and `Arithmetic` at most one holds of
/// a document, at one item, and none where it is a collection all of whose items pass. One text is kept, of all items
/// or of those before the first at fault; all items have one tally.
pub fn collections_stop_once(checked: &Checked<'_>, now: &Moment)
    ensures judged { (json : Data) (j k : Judgment BadRow) → JudgesValue checked.now now.now json j
        → JudgesValue checked.now now.now json k → AreSameJudgment j k }
    ensures stopped { (document text other : List ℕ) (f g : RunFault) → IsOfDocument f → IsOfDocument g
        → StopsCollection checked.now now.now document text f → StopsCollection checked.now now.now document other g
        → AreSameFault f g × (text ≡ other) }
    ensures filtered { (document text other : List ℕ) (tally : Tally) (f : RunFault)
        → OfCollection checked.now now.now document (λ items. Filters items text tally) → IsOfDocument f
        → StopsCollection checked.now now.now document other f → ⊥ }
    ensures kept { (document text other : List ℕ) (m n : Tally)
        → OfCollection checked.now now.now document (λ items. Filters items text m)
        → OfCollection checked.now now.now document (λ items. Filters items other n) → (text ≡ other) × (m ≡ n) }
{
    rows_are_judged_once();
    let said = SaidOfValues {
        checked,
        moment: now,
    };
    items_stop_once(&said);
}

/// `Write` is not said of a writer that reports that it never fails. Of such a reader `Read` is said only where it had
/// as many bytes as may be read, or where it had been said before.
pub fn unfailing_devices_never_fail<R>()
    ensures write { ¬ (WritesUntilFault CallLog.Unfailing CallLog.Unfailing RunFault.Write) }
    ensures read { (remaining : R → Option (List ℕ)) (old new : LineSource R) (bytes : List ℕ) (line : ℕ)
        → ReadsUntilFault (λ reader. CallLog.Unfailing) remaining old new (RunFault.Read line)
        → remaining old.reader ≡ Some bytes → length bytes < old.unread
        → old.course ≡ Course.Failed LineFault.Read }
{}
