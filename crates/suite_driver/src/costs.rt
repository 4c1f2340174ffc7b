//! What a filter costs on a row.
use crate::outcomes::OnRow;
use edm_rows::{HeldSchema, LayoutReader};
use odata_eval::Verdict;
use odata_filter::{BadRow, BoundedJudge, FilterRows, row_layout_of};
use odata_typing::Checked;
use std::alloc::{AllocError, Global};

/// The most that a filter costs where that is asked.
const MOST: u64 = 100_000;

/// Appends what is reported about a row within a bound.
fn push_within(out: &mut String, said: &Result<Option<Verdict>, BadRow>) -> Result<(), AllocError> {
    match said {
        Ok(Some(verdict)) => write!(out, ", {verdict:?}"),
        Ok(None) => out.push_str(", none"),
        Err(why) => write!(out, ", {why}"),
    }
}

/// The least bound within which a line has an answer.
fn least_bound(alloc: Global, checked: &Checked<'_>, on: OnRow<'_>) -> u64 {
    let layout = row_layout_of(alloc, checked, HeldSchema::Borrowed(checked.schema()));
    let mut reader = LayoutReader::new(alloc);
    for most in 0..MOST {
        let by = BoundedJudge {
            checked,
            moment: on.now,
            most,
        };
        if !matches!(by.judge(&layout, &mut reader, on.line), Ok(None)) {
            return most;
        }
    }
    MOST
}

/// Appends what is reported about a line within a bound by a reader of any filter's rows.
fn push_by_itself(
    out: &mut String,
    alloc: Global,
    checked: &Checked<'_>,
    on: OnRow<'_>,
    most: u64,
) -> Result<(), AllocError> {
    let layout = row_layout_of(alloc, checked, HeldSchema::Borrowed(checked.schema()));
    let mut reader = LayoutReader::new(alloc);
    let by = BoundedJudge {
        checked,
        moment: on.now,
        most,
    };
    push_within(out, &by.judge(&layout, &mut reader, on.line))
}

/// Appends the same of a line that is judged twice by what is kept from row to row of the filter.
fn push_by_rows(
    out: &mut String,
    alloc: Global,
    checked: &Checked<'_>,
    on: OnRow<'_>,
    most: u64,
) -> Result<(), AllocError> {
    let mut rows = FilterRows::new(alloc, checked);
    push_within(out, &rows.judge_within(checked, on.now, most, on.line))?;
    push_within(out, &rows.judge_within(checked, on.now, most, on.line))
}

/// Appends the least bound within which the row has an answer, and what is reported within it by three ways; then by
/// two of them within one less.
pub(crate) fn push_cost(
    out: &mut String,
    alloc: Global,
    checked: &Checked<'_>,
    on: OnRow<'_>,
) -> Result<(), AllocError> {
    let most = least_bound(alloc, checked, on);
    write!(out, "{most}")?;
    push_by_itself(out, alloc, checked, on, most)?;
    push_by_rows(out, alloc, checked, on, most)?;
    if most > 0 {
        push_by_rows(out, alloc, checked, on, most - 1)?;
    }
    Ok(())
}
