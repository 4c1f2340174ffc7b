//! The texts of positions in JSON.
ghost use Rattle.std.specs.Prelude.{◌≡◌, ◌++◌, OnOk, string_bytes};
ghost use Rattle.std.specs.List.{AllByRecursion};
ghost use Rattle.sql_tree.specs.PathText.{IsBaseOf, IsPathOf, IsStepOf, arrow_text, arrows_text, base_text, dot_text, dots_text};
ghost use Rattle.sql_tree.specs.PathText.{extracted_text, json_text, members_text, scalar_arrows, step_name, value_text};
ghost use Rattle.sql_tree.specs.TableModel.{table_in};

use super::dialect::Dialect;
use super::json_path::{Base, Path, Step};
use super::storage::{Storage, Table, write_column, write_document};
use std::alloc::AllocError;

/// Writes where a path begins.
fn write_base(
    out: &mut String,
    dialect: Dialect,
    table: &Table<'_>,
    base: Base,
) -> Result<(), AllocError>
    requires { IsBaseOf (table_in table.now) base }
    ensures { OnOk result (string_bytes out.new ≡ string_bytes out.old ++ base_text dialect (table_in table.now) base) }
{
    match base {
        Base::Document => write_document(out, table),
        Base::Column { slot } => write_column(out, table, slot),
        Base::Member { level } => match dialect {
            Dialect::PostgreSql => write!(out, "m{level}.v"),
            Dialect::Sqlite => write!(out, "m{level}.value"),
        },
    }
}

/// The name of the property to which a step leads, an identifier.
fn name_of<'s>(table: &Table<'s>, step: &Step) -> &'s str
    requires { IsStepOf (table_in table.now) step.now }
    ensures { result.now ≡ step_name (table_in table.now) step.now }
{
    table.schema.slot_name(step.owner, step.slot)
}

/// Writes a step as PostgreSQL has it, after an arrow.
fn write_arrow(
    out: &mut String,
    table: &Table<'_>,
    step: &Step,
    arrow: &str,
) -> Result<(), AllocError>
    requires { IsStepOf (table_in table.now) step.now }
    ensures { OnOk result (string_bytes out.new
        ≡ string_bytes out.old ++ arrow_text (table_in table.now) arrow.now step.now) }
{
    out.push(' ')?;
    out.push_str(arrow)?;
    out.push_str(" '")?;
    out.push_str(name_of(table, step))?;
    out.push_str("'::text")
}

/// Writes steps as PostgreSQL has them.
fn write_arrows(out: &mut String, table: &Table<'_>, steps: &[Step]) -> Result<(), AllocError>
    requires { AllByRecursion (IsStepOf (table_in table.now)) steps.now }
    ensures { OnOk result (string_bytes out.new ≡ string_bytes out.old ++ arrows_text (table_in table.now) steps.now) }
{
    for step in steps {
        write_arrow(out, table, step, "->")?;
    }
    Ok(())
}

/// Writes steps of which the last leads to a text.
fn write_scalar_arrows(
    out: &mut String,
    table: &Table<'_>,
    steps: &[Step],
) -> Result<(), AllocError>
    requires { AllByRecursion (IsStepOf (table_in table.now)) steps.now }
    ensures { OnOk result
        (string_bytes out.new ≡ string_bytes out.old ++ scalar_arrows (table_in table.now) steps.now) }
{
    match steps.split_last() {
        Some((last, before)) => {
            write_arrows(out, table, before)?;
            write_arrow(out, table, last, "->>")
        }
        None => out.push_str(" #>> '{}'::text[]"),
    }
}

/// Writes steps as SQLite's functions take them, each after a dot.
fn write_dots(out: &mut String, table: &Table<'_>, steps: &[Step]) -> Result<(), AllocError>
    requires { AllByRecursion (IsStepOf (table_in table.now)) steps.now }
    ensures { OnOk result (string_bytes out.new ≡ string_bytes out.old ++ dots_text (table_in table.now) steps.now) }
{
    for step in steps {
        write_dot(out, table, step)?;
    }
    Ok(())
}

fn write_dot(out: &mut String, table: &Table<'_>, step: &Step) -> Result<(), AllocError>
    requires { IsStepOf (table_in table.now) step.now }
    ensures { OnOk result (string_bytes out.new ≡ string_bytes out.old ++ dot_text (table_in table.now) step.now) }
{
    out.push_str(".\"")?;
    out.push_str(name_of(table, step))?;
    out.push('"')
}

/// Writes the JSON at a path, which is SQL's null where there is none or null.
pub(crate) fn write_json(
    out: &mut String,
    dialect: Dialect,
    table: &Table<'_>,
    path: &Path,
) -> Result<(), AllocError>
    requires { IsPathOf (table_in table.now) path.now }
    ensures { OnOk result
        (string_bytes out.new ≡ string_bytes out.old ++ json_text dialect (table_in table.now) path.now) }
{
    match dialect {
        Dialect::PostgreSql => {
            out.push_str("NULLIF(")?;
            write_base(out, dialect, table, path.base)?;
            write_arrows(out, table, path.steps.as_slice())?;
            out.push_str(", 'null'::jsonb)")
        }
        Dialect::Sqlite => write_extracted(out, table, path),
    }
}

/// Writes what SQLite's JSON has at a path: a value of SQL, or a text of JSON.
fn write_extracted(out: &mut String, table: &Table<'_>, path: &Path) -> Result<(), AllocError>
    requires { IsPathOf (table_in table.now) path.now }
    ensures { OnOk result (string_bytes out.new
        ≡ string_bytes out.old ++ extracted_text (table_in table.now) path.now.base path.now.steps.items) }
{
    let steps = path.steps.as_slice();
    if steps.is_empty() {
        return write_base(out, Dialect::Sqlite, table, path.base);
    }
    out.push_str("json_extract(")?;
    write_base(out, Dialect::Sqlite, table, path.base)?;
    out.push_str(", '$")?;
    write_dots(out, table, steps)?;
    out.push_str("')")
}

/// Writes the text of the primitive value at a path in PostgreSQL.
fn write_scalar(out: &mut String, table: &Table<'_>, path: &Path) -> Result<(), AllocError>
    requires { IsPathOf (table_in table.now) path.now }
    ensures { OnOk result
        (string_bytes out.new ≡ string_bytes out.old ++ value_text Dialect.PostgreSql (table_in table.now) path.now) }
{
    out.push('(')?;
    write_base(out, Dialect::PostgreSql, table, path.base)?;
    write_scalar_arrows(out, table, path.steps.as_slice())?;
    out.push(')')
}

/// Writes the primitive value at a path, as its text in PostgreSQL.
pub(crate) fn write_value(
    out: &mut String,
    dialect: Dialect,
    table: &Table<'_>,
    path: &Path,
) -> Result<(), AllocError>
    requires { IsPathOf (table_in table.now) path.now }
    ensures { OnOk result
        (string_bytes out.new ≡ string_bytes out.old ++ value_text dialect (table_in table.now) path.now) }
{
    match dialect {
        Dialect::PostgreSql => write_scalar(out, table, path),
        Dialect::Sqlite => write_extracted(out, table, path),
    }
}

/// Writes the members of the collection at a path, as a table.
pub(crate) fn write_members(
    out: &mut String,
    dialect: Dialect,
    table: &Table<'_>,
    path: &Path,
    level: usize,
) -> Result<(), AllocError>
    requires { IsPathOf (table_in table.now) path.now }
    ensures { OnOk result
        (string_bytes out.new ≡ string_bytes out.old ++ members_text dialect (table_in table.now) path.now level) }
{
    match dialect {
        Dialect::PostgreSql => {
            out.push_str("jsonb_array_elements(")?;
            write_json(out, dialect, table, path)?;
            write!(out, ") WITH ORDINALITY AS m{level}(v, o)")
        }
        Dialect::Sqlite => {
            out.push_str("json_each(")?;
            write_json(out, dialect, table, path)?;
            write!(out, ") AS m{level}")
        }
    }
}
