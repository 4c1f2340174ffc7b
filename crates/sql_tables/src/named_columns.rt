//! The columns that lines name.
ghost use Rattle.std.specs.Prelude.{◌≡◌, ℕ, IfOk, List, MatchOption, map};
ghost use Rattle.csdl_schema.specs.SchemaModel.{properties_at};
ghost use Rattle.sql_tables.specs.Columns.{AreColumns, IsAbout, IsColumnOf};
ghost use Rattle.sql_tables.specs.Lines.{lines_of};

use csdl_schema::{Schema, TypeId};
use std::alloc::{AllocError, Global};

/// The column that a line names for a property, if it does.
pub(crate) fn named_column<'l>(line: &'l str, property: &str) -> Option<&'l str>
    ensures { MatchOption result ((other : List ℕ) → ¬ IsAbout property.now line.now other)
        (λ column. IsAbout property.now line.now column.now) }
{
    match line.strip_prefix(property) {
        Some(rest) => rest.strip_prefix('='),
        None => None,
    }
}

/// The column of a property: what the first line about it names, else the property's own name.
fn column_for<'l>(lines: &'l str, property: &'l str) -> &'l str
    ensures { IsColumnOf property.now (lines_of lines.now) result.now }
{
    let mut rest = lines;
    while let Some((line, after)) = rest.split_once('\n') {
        match named_column(line, property) {
            Some(column) => return column,
            None => {}
        }
        rest = after;
    }
    match named_column(rest, property) {
        Some(column) => column,
        None => property,
    }
}

/// The columns of a type's properties, by slot.
pub fn columns_of<'s>(
    alloc: Global,
    schema: &'s Schema,
    id: TypeId,
    lines: &'s str,
) -> Result<Vec<&'s str>, AllocError>
    ensures { IfOk result (λ names. AreColumns (properties_at schema.now id) (lines_of lines.now)
        (map (λ name. name.now) names.items)) }
{
    let mut names = Vec::new(alloc);
    for slot in 0..schema.slots(id) {
        names.push(column_for(lines, schema.slot_name(id, slot)))?;
    }
    Ok(names)
}
