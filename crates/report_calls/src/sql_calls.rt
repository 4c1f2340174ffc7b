//! A filter as conditions of SQL.
ghost use Rattle.call_handles.specs.declared.call_fault.Fault.{Fault};
ghost use Rattle.call_handles.specs.declared.handle.Handle.{Handle};
ghost use Rattle.std.specs.Prelude.{◌≡◌, Ok, Err, MatchResult, string_bytes, true, false};
ghost use Rattle.odata_sql.specs.JsonText.{IsTextOf};
ghost use Rattle.odata_sql.specs.Refusals.{HasColumns};
ghost use Rattle.sql_tree.specs.TableModel.{storage_in};
ghost use Rattle.report_calls.specs.SqlCalls.{HasConditions, HasSql, HasTableSql};
ghost use Rattle.report_calls.specs.SqlCalls.{IsNoConditions, IsNoNow, IsNoSql, IsNoTableSql, IsNowBy, IsSqlOf};

use call_handles::{Fault, Handle, moment_for};
use edm_values::{Moment, read_moment};
use odata_sql::{Conditions, SqlFault, columns_suffice, conditions_json, translate};
use odata_typing::Checked;
use sql_tables::{are_known, columns_of, form_of, split_first_line};
use sql_tree::{Dialect, Storage};
use std::alloc::Global;

/// Conditions with their dialect.
#[derive(Drop)]
pub(crate) struct Translated {
    pub(crate) dialect: Dialect,
    pub(crate) conditions: Conditions,
}

/// The conditions of a filter.
fn conditions_over(
    alloc: Global,
    checked: &Checked<'_>,
    storage: Storage<'_>,
    dialect: Dialect,
    now: &Moment,
) -> Result<Conditions, Fault>
    requires { HasColumns checked.now.list.nodes (storage_in storage) }
    ensures { MatchResult result (λ found. HasConditions checked.now (storage_in storage.entry) dialect now.now found)
        (IsNoConditions checked.now (storage_in storage.entry) dialect now.now) }
{
    match translate(alloc, checked, storage, dialect, now) {
        Ok(found) => Ok(found),
        // `NoColumn` never comes: what the filter names has its column, as `requires` says.
        Err(SqlFault::Nul) | Err(SqlFault::NoColumn) => Err(Fault::Unsayable),
        Err(SqlFault::TooDeep) => Err(Fault::TooDeep),
        Err(SqlFault::Memory) => Err(Fault::Memory),
    }
}

/// The conditions where the row is one of JSON, in the column of that name or in `doc`.
fn document_conditions(
    alloc: Global,
    checked: &Checked<'_>,
    name: &str,
    dialect: Dialect,
    now: &Moment,
) -> Result<Conditions, Fault>
    ensures { MatchResult result (λ found. HasTableSql checked.now dialect false name.now now.now found)
        (IsNoTableSql checked.now dialect false name.now now.now) }
{
    if name.is_empty() {
        return conditions_over(alloc, checked, Storage::Document("doc"), dialect, now);
    }
    conditions_over(alloc, checked, Storage::Document(name), dialect, now)
}

/// The conditions where each property has a column, by lines about those with another name.
fn column_conditions(
    alloc: Global,
    checked: &Checked<'_>,
    lines: &str,
    dialect: Dialect,
    now: &Moment,
) -> Result<Conditions, Fault>
    ensures { MatchResult result (λ found. HasTableSql checked.now dialect true lines.now now.now found)
        (IsNoTableSql checked.now dialect true lines.now now.now) }
{
    let schema = checked.schema();
    let id = checked.filtered_type();
    if !are_known(schema, id, lines) {
        return Err(Fault::UnknownColumn);
    }
    let Ok(columns) = columns_of(alloc, schema, id, lines) else {
        return Err(Fault::Memory);
    };
    columns_suffice();
    let _nodes = checked.nodes();
    conditions_over(
        alloc,
        checked,
        Storage::Columns(columns.as_slice()),
        dialect,
        now,
    )
}

/// The moment of a line; where it is empty, any for a filter that does not ask for one.
fn line_moment(checked: &Checked<'_>, line: &str) -> Result<Moment, Fault>
    ensures { MatchResult result (IsNowBy checked.now line.now) (IsNoNow checked.now line.now) }
{
    if line.is_empty() {
        return moment_for(checked, None);
    }
    match read_moment(line) {
        Some(now) => Ok(now),
        None => Err(Fault::NotAMoment),
    }
}

/// What was found, with its dialect.
fn in_dialect(dialect: Dialect, found: Result<Conditions, Fault>) -> Result<Translated, Fault>
    ensures { MatchResult result (λ it. (it.dialect ≡ dialect) × (found ≡ Ok it.conditions))
        (λ fault. found ≡ Err fault) }
{
    match found {
        Ok(conditions) => Ok(Translated {
            dialect,
            conditions,
        }),
        Err(fault) => Err(fault),
    }
}

/// The conditions of a filter, by a form and lines about the table.
fn conditions_by(
    alloc: Global,
    checked: &Checked<'_>,
    form: u32,
    how: &str,
) -> Result<Translated, Fault>
    ensures { MatchResult result (λ it. HasSql (Handle.Filter checked.now) form how.now it.dialect it.conditions)
        (IsNoSql (Handle.Filter checked.now) form how.now) }
{
    let Some((dialect, by_columns)) = form_of(form) else {
        return Err(Fault::UnknownNumber);
    };
    let (line, names) = split_first_line(how);
    let now = line_moment(checked, line)?;
    if by_columns {
        in_dialect(
            dialect,
            column_conditions(alloc, checked, names, dialect, &now),
        )
    } else {
        in_dialect(
            dialect,
            document_conditions(alloc, checked, names, dialect, &now),
        )
    }
}

/// The conditions of the filter that a handle is, by a form and the bytes of lines about the table.
pub(crate) fn conditions_of(
    alloc: Global,
    handle: &Handle,
    form: u32,
    how: &[u8],
) -> Result<Translated, Fault>
    ensures { MatchResult result (λ it. HasSql handle.now form how.now it.dialect it.conditions)
        (IsNoSql handle.now form how.now) }
{
    match handle {
        Handle::Filter(held) => match str::from_utf8(how) {
            Ok(how) => {
                let checked = held.checked();
                conditions_by(alloc, &checked, form, how)
            }
            Err(_) => Err(Fault::NotUtf8),
        },
        _ => Err(Fault::OtherKind),
    }
}

/// Conditions as JSON.
fn json_text(alloc: Global, found: &Translated) -> Result<String, Fault>
    ensures { MatchResult result (λ text. IsTextOf found.now.dialect found.now.conditions (string_bytes text))
        (λ fault. fault ≡ Fault.Memory) }
{
    match conditions_json(alloc, &found.conditions, found.dialect) {
        Ok(text) => Ok(text),
        Err(_) => Err(Fault::Memory),
    }
}

/// The conditions of the filter that a handle is, as JSON.
pub(crate) fn sql_of(alloc: Global, handle: &Handle, form: u32, how: &[u8]) -> Result<String, Fault>
    ensures { MatchResult result (λ text. IsSqlOf handle.now form how.now (string_bytes text))
        (IsNoSql handle.now form how.now) }
{
    match conditions_of(alloc, handle, form, how) {
        Ok(found) => json_text(alloc, &found),
        Err(fault) => Err(fault),
    }
}
