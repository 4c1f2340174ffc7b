//! The outcome of a filter on a row: of its evaluation, of a run over the row, and of the row judged by itself.
ghost use Rattle.std.specs.Prelude.{◌≡◌};
ghost use Rattle.csdl_schema.specs.ExpansionView.{paths_in};
ghost use Rattle.csdl_schema.specs.PathSet.{Covers};
ghost use Rattle.row_judges.specs.FilterRows.{AreRowsOfFilter};

use crate::paths::names_of;
use csdl_schema::Expansion;
use edm_entities::Entity;
use edm_rows::{HeldSchema, LayoutReader};
use edm_values::Moment;
use odata_eval::{EvalFault, Verdict, evaluate};
use odata_filter::{
    BadRow, FaultKind, FilterRows, Numbered, fault_name, filter_slice, judge_row, row_layout_of,
};
use odata_typing::Checked;
use serde_json::Value;
use std::alloc::{AllocError, Global};

/// A line, the moment at which it is judged, and how often it is evaluated.
#[derive(Clone, Copy)]
pub(crate) struct OnRow<'a> {
    pub line: &'a [u8],
    pub now: &'a Moment,
    pub times: usize,
}

fn spelled(outcome: Result<Verdict, EvalFault>) -> &'static str {
    match outcome {
        Ok(Verdict::True) => "true",
        Ok(Verdict::False) => "false",
        Ok(Verdict::Null) => "null",
        Err(fault) => fault_name(FaultKind::Evaluation, fault.number()).unwrap_or("memory"),
    }
}

/// The one outcome of so many evaluations.
fn evaluated(
    alloc: Global,
    checked: &Checked<'_>,
    entity: &Entity<'_>,
    on: OnRow<'_>,
) -> &'static str
    requires one_schema { checked.now.schema ≡ entity.now.schema }
    requires one_type { checked.now.filtered ≡ entity.now.type_id }
    requires covers { Covers (paths_in entity.now.expansion) (paths_in checked.now.expansion) }
{
    let mut said = "not evaluated";
    for time in 0..on.times {
        let found = spelled(evaluate(alloc, checked, entity, on.now));
        if time > 0 && found != said {
            return "another outcome";
        }
        said = found;
    }
    said
}

/// Appends the outcome of evaluations on a JSON value with that expanded, or why it is no entity with it.
fn push_of_json(
    out: &mut String,
    checked: &Checked<'_>,
    expansion: &Expansion,
    json: &Value,
    on: OnRow<'_>,
) -> Result<(), AllocError> {
    let alloc = *out.allocator();
    let (schema, id) = (checked.schema(), checked.filtered_type());
    if !expansion.covers(checked.expansion()) {
        return out.push_str("less is expanded than is needed");
    }
    match &Entity::expanded_from_json(alloc, schema, id, expansion, json) {
        Ok(entity) => out.push_str(evaluated(alloc, checked, entity, on)),
        Err(fault) => write!(out, "{fault}"),
    }
}

/// Appends the outcome of evaluations on a line with that expanded.
fn push_evaluated(
    out: &mut String,
    alloc: Global,
    checked: &Checked<'_>,
    expansion: &Expansion,
    on: OnRow<'_>,
) -> Result<(), AllocError> {
    match &Value::from_slice(alloc, on.line) {
        Ok(json) => push_of_json(out, checked, expansion, json, on),
        Err(error) => out.push_str(if error.is_memory() { "memory" } else { "Json" }),
    }
}

/// Appends the outcome of an evaluation on a line with a path more expanded than the filter needs.
pub(crate) fn push_expanded(
    out: &mut String,
    alloc: Global,
    checked: &Checked<'_>,
    path: &str,
    on: OnRow<'_>,
) -> Result<(), AllocError> {
    let mut more = checked.expansion().copy(alloc)?;
    more.add(names_of(alloc, path)?.as_slice())?;
    let once = OnRow {
        line: on.line,
        now: on.now,
        times: 1,
    };
    push_evaluated(out, alloc, checked, &more, once)
}

/// What stands where a run writes, before it does.
const FRONT: &[u8] = b"front\n";

/// What a run over a line wrote after that.
fn written(kept: &[u8], line: &[u8]) -> &'static str {
    let Some(text) = kept.strip_prefix(FRONT) else {
        return "another text";
    };
    if text.is_empty() {
        "nothing"
    } else if text.strip_suffix(b"\n") == Some(line) {
        "it"
    } else {
        "another text"
    }
}

/// Appends how many rows a run over a line kept and judged, or its fault, and what it wrote.
fn push_run(
    out: &mut String,
    alloc: Global,
    checked: &Checked<'_>,
    on: OnRow<'_>,
) -> Result<(), AllocError> {
    let mut kept = Vec::from_slice(alloc, FRONT)?;
    match &filter_slice(alloc, checked, on.now, on.line, &mut kept) {
        Ok(tally) => write!(out, "{} of {}", tally.kept, tally.rows)?,
        Err(fault) => write!(out, "{fault}")?,
    }
    write!(out, ", {}", written(kept.as_slice(), on.line))
}

/// Appends what is reported about a row by itself.
fn push_verdict(out: &mut String, said: &Result<Verdict, BadRow>) -> Result<(), AllocError> {
    match said {
        Ok(verdict) => out.push_str(spelled(Ok(*verdict))),
        Err(why) => write!(out, "{why}"),
    }
}

/// Appends what is reported about a line that is judged by itself, by a reader of any filter's rows.
fn push_by_itself(
    out: &mut String,
    alloc: Global,
    checked: &Checked<'_>,
    on: OnRow<'_>,
) -> Result<(), AllocError> {
    let layout = row_layout_of(alloc, checked, HeldSchema::Borrowed(checked.schema()));
    let mut reader = LayoutReader::new(alloc);
    push_verdict(
        out,
        &judge_row(checked, on.now, &layout, &mut reader, on.line),
    )
}

/// What is reported about a row by itself, in a word; of one without a verdict the fault of the evaluation, unless the
/// row is at fault.
fn word_of(said: &Result<Verdict, BadRow>) -> &'static str {
    match said {
        Ok(verdict) => spelled(Ok(*verdict)),
        Err(BadRow::NoValue(fault)) => spelled(Err(*fault)),
        Err(why) => if why.is_memory() { "memory" } else { "a fault" },
    }
}

/// The one word of a line that is judged once more by what is kept from row to row, and so many times after that; of a
/// row at fault once alone.
fn again(rows: &mut FilterRows<'_>, checked: &Checked<'_>, on: OnRow<'_>) -> &'static str
    requires { AreRowsOfFilter checked.now rows.old }
{
    let said = word_of(&rows.judge(checked, on.now, on.line));
    if said == "a fault" || said == "memory" {
        return said;
    }
    for _ in 0..on.times {
        let found = word_of(&rows.judge(checked, on.now, on.line));
        if found != said {
            return if found == "memory" {
                found
            } else {
                "another answer"
            };
        }
    }
    said
}

/// Appends what is reported about a line that is judged by what is kept from row to row of the filter, and a word about
/// it judged again.
fn push_by_rows(
    out: &mut String,
    alloc: Global,
    checked: &Checked<'_>,
    on: OnRow<'_>,
) -> Result<(), AllocError> {
    let mut rows = FilterRows::new(alloc, checked);
    push_verdict(out, &rows.judge(checked, on.now, on.line))?;
    out.push_str(", ")?;
    out.push_str(again(&mut rows, checked, on))
}

/// Appends the outcome on a line by each way, a line each: of evaluations, of a run, of the row by itself, and by what
/// is kept from row to row.
pub(crate) fn push_outcome(
    out: &mut String,
    alloc: Global,
    checked: &Checked<'_>,
    on: OnRow<'_>,
) -> Result<(), AllocError> {
    push_evaluated(out, alloc, checked, checked.expansion(), on)?;
    out.push_str("\n")?;
    push_run(out, alloc, checked, on)?;
    out.push_str("\n")?;
    push_by_itself(out, alloc, checked, on)?;
    out.push_str("\n")?;
    push_by_rows(out, alloc, checked, on)
}
