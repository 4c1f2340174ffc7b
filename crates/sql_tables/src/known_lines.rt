//! Lines that are about a property.
ghost use Rattle.std.specs.Prelude.{◌↔◌, IsTrue};
ghost use Rattle.csdl_schema.specs.SchemaModel.{properties_at};
ghost use Rattle.sql_tables.specs.Columns.{AreKnown, IsKnown};
ghost use Rattle.sql_tables.specs.Lines.{lines_of};

use crate::named_columns::named_column;
use csdl_schema::{Schema, TypeId};

/// Whether a line is about a property of the type.
fn is_known(schema: &Schema, id: TypeId, line: &str) -> bool
    ensures { IsTrue result ↔ IsKnown (properties_at schema.now id) line.now }
{
    for slot in 0..schema.slots(id) {
        if named_column(line, schema.slot_name(id, slot)).is_some() {
            return true;
        }
    }
    line.is_empty()
}

/// Whether each line is.
pub fn are_known(schema: &Schema, id: TypeId, lines: &str) -> bool
    ensures { IsTrue result ↔ AreKnown (properties_at schema.now id) (lines_of lines.now) }
{
    let mut rest = lines;
    while let Some((line, after)) = rest.split_once('\n') {
        if !is_known(schema, id, line) {
            return false;
        }
        rest = after;
    }
    is_known(schema, id, rest)
}
