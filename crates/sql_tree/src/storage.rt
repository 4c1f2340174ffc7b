ghost use Rattle.std.specs.Prelude.{◌≡◌, ◌<◌, ◌++◌, OnOk, Some, length, slice_get, string_bytes};
ghost use Rattle.sql_tree.specs.TableModel.{HasColumn, HasDocument, column_name, column_text, document_text};
ghost use Rattle.sql_tree.specs.TableModel.{storage_in, table_in};

use super::quoted_name::write_name;
use csdl_schema::{Schema, TypeId};
use std::alloc::AllocError;

/// How a table keeps the entities of a type.
#[derive(Clone, Copy)]
pub enum Storage<'n> {
    /// A column for each slot of the type, by its name.
    Columns(&'n [&'n str]),
    /// One column, by its name, that has the whole entity as JSON.
    Document(&'n str),
}

/// A table of entities of a type of a schema.
#[derive(Clone, Copy)]
pub struct Table<'s> {
    pub schema: &'s Schema,
    pub row_type: TypeId,
    pub storage: Storage<'s>,
}

/// Writes the column in which a slot is kept.
pub(crate) fn write_column(
    out: &mut String,
    table: &Table<'_>,
    slot: usize,
) -> Result<(), AllocError>
    requires { HasColumn (storage_in table.now.storage) slot }
    ensures { OnOk result (string_bytes out.new ≡ string_bytes out.old ++ column_text (table_in table.now) slot) }
{
    out.push_str("t.")?;
    write_name(out, column_of(table, slot))
}

/// The name of the column in which a slot is kept: its own, or that of the whole entity.
fn column_of<'s>(table: &Table<'s>, slot: usize) -> &'s str
    requires { HasColumn (storage_in table.now.storage) slot }
    ensures { result.now ≡ column_name (storage_in table.now.storage) slot }
{
    match table.storage {
        Storage::Columns(names) => column_at(names, slot),
        Storage::Document(name) => name,
    }
}

/// The name of a slot's own column.
fn column_at<'n>(names: &[&'n str], slot: usize) -> &'n str
    requires { slot < length names.now }
    ensures { slice_get names.now slot ≡ Some result }
{
    names[slot]
}

/// Writes the column of the whole entity, if there is one.
pub(crate) fn write_document(out: &mut String, table: &Table<'_>) -> Result<(), AllocError>
    requires { HasDocument (storage_in table.now.storage) }
    ensures { OnOk result (string_bytes out.new ≡ string_bytes out.old ++ document_text (table_in table.now)) }
{
    let Storage::Document(name) = table.storage else {
        return Ok(());
    };
    out.push_str("t.")?;
    write_name(out, name)
}
