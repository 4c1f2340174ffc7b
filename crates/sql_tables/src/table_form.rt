//! The form of a table.
ghost use Rattle.std.specs.Prelude.{◌≡◌};
ghost use Rattle.sql_tables.specs.Forms.{form_numbered};

use sql_tree::Dialect;

/// The dialect of a form, and whether each property has a column.
pub fn form_of(form: u32) -> Option<(Dialect, bool)>
    ensures { result ≡ form_numbered form }
{
    match form {
        0 => Some((Dialect::PostgreSql, true)),
        1 => Some((Dialect::PostgreSql, false)),
        2 => Some((Dialect::Sqlite, true)),
        3 => Some((Dialect::Sqlite, false)),
        _ => None,
    }
}
