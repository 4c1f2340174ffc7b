//! A law, on a function that only cites another.
ghost use Rattle.odata_sql.specs.Refusals.{ColumnsSuffice};

use odata_signatures::trees_have_one_type;

/// A law: a table with a column for each property of the row has what a filter names.
/// So `translate` never answers `NoColumn` over it.
pub fn columns_suffice()
    ensures { ColumnsSuffice }
{
    trees_have_one_type();
}
