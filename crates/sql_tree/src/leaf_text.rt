//! The texts of nodes without children.
ghost use Rattle.std.specs.Prelude.{◌≡◌, ◌<◌, ◌++◌, OnOk, slice_get, string_bytes};
ghost use Rattle.csdl_schema.specs.EnumerationText.{members_in};
ghost use Rattle.csdl_schema.specs.SchemaModel.{enumeration_at};
ghost use Rattle.sql_tree.specs.LeafText.{count_text, fault_text, field_text, missing_text, names_text};
ghost use Rattle.sql_tree.specs.LeafText.{null_text, number_text, numbers_text, parameter_text, piece_number_text};
ghost use Rattle.sql_tree.specs.LeafText.{enumeration_text, postgres_type, primitive_text, some_cases, truth_text};
ghost use Rattle.sql_tree.specs.PathText.{IsPathOf};
ghost use Rattle.sql_tree.specs.TableModel.{table_in};
ghost use Rattle.sql_tree.specs.private.LeafText.{case_piece, name_piece, number_piece};

use super::dialect::Dialect;
use super::json_path::Path;
use super::path_text::{write_json, write_value};
use super::sql_node::{Carrier, Digit, FieldType, SqlType};
use super::storage::Table;
use csdl_schema::{EnumId, Schema};
use edm_values::Prim;
use odata_functions::ArithFault;
use std::alloc::AllocError;

/// Writes a parameter by its index, counted from 0.
pub(crate) fn write_parameter(
    out: &mut String,
    dialect: Dialect,
    place: usize,
    value_type: SqlType,
) -> Result<(), AllocError>
    requires { place < 18446744073709551615 }
    ensures { OnOk result (string_bytes out.new ≡ string_bytes out.old ++ parameter_text dialect place value_type) }
{
    let number = place + 1;
    match dialect {
        Dialect::PostgreSql => {
            let name = postgres_type(value_type);
            write!(out, "${number}::{name}")
        }
        Dialect::Sqlite => write!(out, "?{number}"),
    }
}

/// The name of a type in PostgreSQL.
fn postgres_type(value_type: SqlType) -> &'static str
    ensures { result.now ≡ postgres_type value_type }
{
    match value_type {
        SqlType::Truth => "boolean",
        SqlType::Whole => "bigint",
        SqlType::Text => "text",
        SqlType::Date => "date",
        SqlType::Moment => "text",
        SqlType::Instant => "numeric",
        SqlType::Guid => "uuid",
        SqlType::Member => "bigint",
    }
}

pub(crate) fn write_null(
    out: &mut String,
    dialect: Dialect,
    value_type: SqlType,
) -> Result<(), AllocError>
    ensures { OnOk result (string_bytes out.new ≡ string_bytes out.old ++ null_text dialect value_type) }
{
    match dialect {
        Dialect::PostgreSql => {
            let name = postgres_type(value_type);
            write!(out, "NULL::{name}")
        }
        Dialect::Sqlite => out.push_str("NULL"),
    }
}

pub(crate) fn write_truth(out: &mut String, value: bool) -> Result<(), AllocError>
    ensures { OnOk result (string_bytes out.new ≡ string_bytes out.old ++ truth_text value) }
{
    out.push_str(if value { "TRUE" } else { "FALSE" })
}

pub(crate) fn write_number(out: &mut String, value: Digit) -> Result<(), AllocError>
    ensures { OnOk result (string_bytes out.new ≡ string_bytes out.old ++ number_text value) }
{
    out.push_str(match value {
        Digit::Zero => "(0)",
        Digit::One => "(1)",
        Digit::Two => "(2)",
        Digit::Three => "(3)",
        Digit::Seven => "(7)",
    })
}

pub(crate) fn write_fault(
    out: &mut String,
    dialect: Dialect,
    carrier: Carrier,
    fault: ArithFault,
) -> Result<(), AllocError>
    ensures { OnOk result (string_bytes out.new ≡ string_bytes out.old ++ fault_text dialect carrier fault) }
{
    out.push_str(match (dialect, carrier, fault) {
        (Dialect::PostgreSql, Carrier::Number, ArithFault::Overflow) => "'NaN'::numeric",
        (Dialect::PostgreSql, Carrier::Number, ArithFault::DivideByZero) => "'Infinity'::numeric",
        (Dialect::PostgreSql, Carrier::Text, ArithFault::Overflow) => "'O'::text",
        (Dialect::PostgreSql, Carrier::Text, ArithFault::DivideByZero) => "'D'::text",
        (Dialect::Sqlite, _, ArithFault::Overflow) => "x'03'",
        (Dialect::Sqlite, _, ArithFault::DivideByZero) => "x'04'",
    })
}

/// Writes whether there is null at a path.
pub(crate) fn write_missing(
    out: &mut String,
    dialect: Dialect,
    table: &Table<'_>,
    path: &Path,
) -> Result<(), AllocError>
    requires { IsPathOf (table_in table.now) path.now }
    ensures { OnOk result (string_bytes out.new
        ≡ string_bytes out.old ++ missing_text dialect (table_in table.now) path.now) }
{
    out.push('(')?;
    write_json(out, dialect, table, path)?;
    out.push_str(" IS NULL)")
}

/// Writes how many members a collection has.
pub(crate) fn write_count(
    out: &mut String,
    dialect: Dialect,
    table: &Table<'_>,
    path: &Path,
) -> Result<(), AllocError>
    requires { IsPathOf (table_in table.now) path.now }
    ensures { OnOk result (string_bytes out.new
        ≡ string_bytes out.old ++ count_text dialect (table_in table.now) path.now) }
{
    out.push_str(match dialect {
        Dialect::PostgreSql => "jsonb_array_length(",
        Dialect::Sqlite => "json_array_length(",
    })?;
    write_json(out, dialect, table, path)?;
    out.push(')')
}

/// Writes the primitive value at a path, or the number that an enumeration's text there stands for.
pub(crate) fn write_field(
    out: &mut String,
    dialect: Dialect,
    table: &Table<'_>,
    path: &Path,
    value_type: FieldType,
) -> Result<(), AllocError>
    requires { IsPathOf (table_in table.now) path.now }
    ensures { OnOk result (string_bytes out.new
        ≡ string_bytes out.old ++ field_text dialect (table_in table.now) path.now value_type) }
{
    match value_type {
        FieldType::Prim(prim) => write_primitive(out, dialect, table, path, prim),
        FieldType::Enum(id) => match dialect {
            Dialect::PostgreSql => write_postgres_number(out, table, path, id),
            Dialect::Sqlite => write_sqlite_number(out, table, path, id),
        },
    }
}

fn write_primitive(
    out: &mut String,
    dialect: Dialect,
    table: &Table<'_>,
    path: &Path,
    prim: Prim,
) -> Result<(), AllocError>
    requires { IsPathOf (table_in table.now) path.now }
    ensures { OnOk result (string_bytes out.new
        ≡ string_bytes out.old ++ primitive_text dialect (table_in table.now) path.now prim) }
{
    match (dialect, prim) {
        (Dialect::PostgreSql, Prim::Bool) => {
            write_value(out, dialect, table, path)?;
            out.push_str("::boolean")
        }
        (Dialect::PostgreSql, Prim::Date) => {
            write_value(out, dialect, table, path)?;
            out.push_str("::date")
        }
        (Dialect::PostgreSql, Prim::Guid) => {
            write_value(out, dialect, table, path)?;
            out.push_str("::uuid")
        }
        (Dialect::PostgreSql, Prim::String | Prim::DateTimeOffset) => {
            write_value(out, dialect, table, path)
        }
        (Dialect::PostgreSql, _) => {
            write_value(out, dialect, table, path)?;
            out.push_str("::bigint")
        }
        (Dialect::Sqlite, Prim::Guid) => {
            out.push_str("lower(")?;
            write_value(out, dialect, table, path)?;
            out.push(')')
        }
        (Dialect::Sqlite, _) => write_value(out, dialect, table, path),
    }
}

/// Writes the names of an enumeration's members between quotes, with commas between them.
fn write_names(out: &mut String, schema: &Schema, id: EnumId) -> Result<(), AllocError>
    ensures { OnOk result (string_bytes out.new
        ≡ string_bytes out.old ++ names_text (members_in (enumeration_at schema.now id))) }
{
    for place in 0..schema.enum_members(id) {
        write_name_at(out, schema, id, place)?;
    }
    Ok(())
}

fn write_name_at(
    out: &mut String,
    schema: &Schema,
    id: EnumId,
    place: usize,
) -> Result<(), AllocError>
    ensures { OnOk result (string_bytes out.new ≡ string_bytes out.old
        ++ name_piece place (slice_get (members_in (enumeration_at schema.now id)) place)) }
{
    match schema.enum_member(id, place) {
        Some((name, _)) => {
            out.push_str(if place == 0 { "'" } else { ", '" })?;
            out.push_str(name)?;
            out.push('\'')
        }
        None => Ok(()),
    }
}

/// Writes their numbers, with commas between them.
fn write_numbers(out: &mut String, schema: &Schema, id: EnumId) -> Result<(), AllocError>
    ensures { OnOk result (string_bytes out.new
        ≡ string_bytes out.old ++ numbers_text (members_in (enumeration_at schema.now id))) }
{
    for place in 0..schema.enum_members(id) {
        write_number_at(out, schema, id, place)?;
    }
    Ok(())
}

fn write_number_at(
    out: &mut String,
    schema: &Schema,
    id: EnumId,
    place: usize,
) -> Result<(), AllocError>
    ensures { OnOk result (string_bytes out.new ≡ string_bytes out.old
        ++ number_piece place (slice_get (members_in (enumeration_at schema.now id)) place)) }
{
    match schema.enum_member(id, place) {
        Some((_, number)) => {
            out.push_str(if place == 0 { "" } else { ", " })?;
            write!(out, "{number}")
        }
        None => Ok(()),
    }
}

/// Writes a call that looks the pieces of the text up in arrays of the members' names and numbers.
fn write_postgres_number(
    out: &mut String,
    table: &Table<'_>,
    path: &Path,
    id: EnumId,
) -> Result<(), AllocError>
    requires { IsPathOf (table_in table.now) path.now }
    ensures { OnOk result (string_bytes out.new ≡ string_bytes out.old
        ++ enumeration_text Dialect.PostgreSql (table_in table.now) path.now (enumeration_at table.now.schema.now id)) }
{
    out.push_str("odf.enumeration_number(")?;
    write_value(out, Dialect::PostgreSql, table, path)?;
    out.push_str(", ARRAY[")?;
    write_names(out, table.schema, id)?;
    out.push_str("]::text[], ARRAY[")?;
    write_numbers(out, table.schema, id)?;
    out.push_str("]::bigint[])")
}

/// Writes a case for each member.
fn write_cases(out: &mut String, schema: &Schema, id: EnumId) -> Result<(), AllocError>
    ensures { OnOk result (string_bytes out.new
        ≡ string_bytes out.old ++ some_cases (members_in (enumeration_at schema.now id))) }
{
    let count = schema.enum_members(id);
    if count == 0 {
        return out.push_str(" WHEN NULL THEN NULL");
    }
    for place in 0..count {
        write_case_at(out, schema, id, place)?;
    }
    Ok(())
}

fn write_case_at(
    out: &mut String,
    schema: &Schema,
    id: EnumId,
    place: usize,
) -> Result<(), AllocError>
    ensures { OnOk result (string_bytes out.new
        ≡ string_bytes out.old ++ case_piece (slice_get (members_in (enumeration_at schema.now id)) place)) }
{
    match schema.enum_member(id, place) {
        Some((name, number)) => write!(out, " WHEN '{name}' THEN {number}"),
        None => Ok(()),
    }
}

/// Writes the number of one piece of a text, which goes by `p`.
fn write_piece_number(out: &mut String, schema: &Schema, id: EnumId) -> Result<(), AllocError>
    ensures { OnOk result (string_bytes out.new
        ≡ string_bytes out.old ++ piece_number_text (members_in (enumeration_at schema.now id))) }
{
    out.push_str("CASE p")?;
    write_cases(out, schema, id)?;
    out.push_str(" ELSE CAST(p AS integer) END")
}

/// Writes a sub-select of the number of one member's name, or of the numbers of the text's pieces joined bit by bit.
fn write_sqlite_number(
    out: &mut String,
    table: &Table<'_>,
    path: &Path,
    id: EnumId,
) -> Result<(), AllocError>
    requires { IsPathOf (table_in table.now) path.now }
    ensures { OnOk result (string_bytes out.new ≡ string_bytes out.old
        ++ enumeration_text Dialect.Sqlite (table_in table.now) path.now (enumeration_at table.now.schema.now id)) }
{
    if !table.schema.enum_is_flags(id) {
        out.push_str("(SELECT ")?;
        write_piece_number(out, table.schema, id)?;
        out.push_str(" FROM (SELECT trim(")?;
        write_value(out, Dialect::Sqlite, table, path)?;
        return out.push_str(", ' ') AS p))");
    }
    out.push_str("(WITH RECURSIVE w(n, i, a) AS (SELECT 0, 0, '[\"' || replace(")?;
    write_value(out, Dialect::Sqlite, table, path)?;
    out.push_str(", ',', '\",\"') || '\"]' UNION ALL SELECT n | (SELECT ")?;
    write_piece_number(out, table.schema, id)?;
    out.push_str(
        " FROM (SELECT trim(json_extract(a, '$[' || i || ']'), ' ') AS p)), i + 1, a FROM w ",
    )?;
    out.push_str(
        "WHERE i < json_array_length(a)) SELECT CASE WHEN a IS NOT NULL THEN n END FROM w ORDER BY i DESC LIMIT 1)",
    )
}
