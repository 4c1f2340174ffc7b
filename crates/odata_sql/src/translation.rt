//! The three conditions of a filter.
ghost use Rattle.std.specs.Prelude.{◌≡◌, ◌↔◌, Err, IfErr, IfOk, IfNone, IfSome};
ghost use Rattle.sql_tree.specs.TableModel.{storage_in, table_in};
ghost use Rattle.odata_sql.specs.Conditions.{FaultsIt, IsItsCode, KeepsIt};
ghost use Rattle.odata_sql.specs.Translation.{CanFault, NeverFaults, Says, table_of};
ghost use Rattle.odata_sql.specs.Nesting.{ExceedsLevels};
ghost use Rattle.odata_sql.specs.Refusals.{HasColumns, IsNulFree, IsTooDeep, fewest_nodes, most_symbols};
ghost use Rattle.odata_sql.specs.declared.sql_fault.SqlFault.{SqlFault};
ghost use Rattle.odata_sql.specs.private.Refused.{IsRefused, IsRefusedTree};
ghost use Rattle.odata_sql.specs.private.ShapedTrees.{IsOfShape, IsTextOfShape};
ghost use Rattle.odata_ranges.specs.Faults.{AreReportedFrom};
ghost use Rattle.sql_draft.specs.Translated.{IsTranslated};

use super::columns::has_columns;
use super::nesting::exceeds_levels;
use super::nul_free::is_nul_free;
use super::sql_fault::SqlFault;
use edm_entities::what_fits_has_its_type;
use edm_values::Moment;
use odata_checked_filter::Checked;
use odata_meaning::typed_trees_end_once_on_entities;
use odata_ranges::{entities_are_kept, ranges_of};
use odata_signatures::trees_have_one_type;
use odata_syntax::ComparisonOperator;
use sql_draft::{Draft, SqlContext};
use sql_forms::{put_code, put_keeps};
use sql_meaning::trees_have_one_meaning;
use sql_tree::{
    Dialect, Digit, Parameter, SqlNode, SqlTree, SqlType, Storage, Table, names_what_is,
    parser_depth, print,
};
use std::alloc::Global;

/// How many symbols of its parser an expression may take: SQLite keeps 100 of them and PostgreSQL 10,000, some of them
/// for the statement around it. PostgreSQL's texts take up to an eighth more than the count says.
fn most_symbols(dialect: Dialect) -> usize
    ensures { result ≡ most_symbols dialect }
{
    match dialect {
        Dialect::PostgreSql => 8_000,
        Dialect::Sqlite => 88,
    }
}

/// How many nodes a filter has at least that is too deep. Nothing nests more than minus signs before one another: eleven
/// symbols each.
fn fewest_nodes(dialect: Dialect) -> usize
    ensures { result ≡ fewest_nodes dialect }
{
    match dialect {
        Dialect::PostgreSql => 700,
        Dialect::Sqlite => 9,
    }
}

/// An expression of SQL over the rows of a table that goes by `t`.
/// Its parameters are numbered from 1.
#[derive(Drop)]
pub struct Statement {
    pub text: String,
    pub parameters: Vec<Parameter>,
}

/// What a filter says of the rows of a table.
#[derive(Drop)]
pub struct Conditions {
    /// A number: 0 for false, 1 for true, 2 for null, 3 for Overflow and 4 for DivideByZero.
    pub outcome: Statement,
    /// A condition that is true exactly where the outcome is true.
    pub keep: Statement,
    /// A condition that is true exactly where the outcome is a fault. `None` where no row can have one.
    pub fault: Option<Statement>,
}

/// The text of a tree of a filter of so many nodes, and its parameters.
fn statement_of(
    alloc: Global,
    tree: SqlTree,
    table: &Table<'_>,
    dialect: Dialect,
    size: usize,
) -> Result<Statement, SqlFault>
    requires { IsOfShape tree }
    ensures text { IfOk result (λ s. IsTextOfShape dialect (table_in table.now) tree s.text) }
    ensures parameters { IfOk result (λ s. s.parameters ≡ tree.parameters) }
    ensures refused { IfErr result (IsRefusedTree dialect tree size) }
{
    if !names_what_is(&tree, table) {
        // Never so: `has_columns` has looked for what the filter names.
        return Err(SqlFault::Memory);
    }
    if most_symbols(dialect) < parser_depth(alloc, &tree)? {
        if fewest_nodes(dialect) <= size {
            return Err(SqlFault::TooDeep);
        }
        // Never so: trees of smaller filters nest less deeply.
        return Err(SqlFault::Memory);
    }
    let text = print(alloc, &tree, table, dialect)?;
    Ok(Statement {
        text,
        parameters: tree.parameters,
    })
}

/// What a filter says of the rows of a table that keeps entities of its type, in a dialect. `now` is the moment that
/// `now()` stands for.
pub fn translate(
    alloc: Global,
    checked: &Checked<'_>,
    storage: Storage<'_>,
    dialect: Dialect,
    now: &Moment,
) -> Result<Conditions, SqlFault>
    ensures outcome { IfOk result (λ c. Says checked.now now.now dialect
        (table_of checked.now (storage_in storage.entry)) c.outcome IsItsCode) }
    ensures keep { IfOk result (λ c. Says checked.now now.now dialect
        (table_of checked.now (storage_in storage.entry)) c.keep KeepsIt) }
    ensures fault { IfOk result (λ c. IfSome c.fault (λ statement. Says checked.now now.now dialect
        (table_of checked.now (storage_in storage.entry)) statement FaultsIt)) }
    ensures no_fault { IfOk result (λ c. IfNone c.fault (NeverFaults checked.now now.now)) }
    ensures can_fault { IfOk result (λ c. IfSome c.fault (λ _. CanFault checked.now)) }
    ensures nul { result ≡ Err SqlFault.Nul ↔ ¬ IsNulFree checked.now (storage_in storage.entry) }
    ensures no_column { result ≡ Err SqlFault.NoColumn ↔ (IsNulFree checked.now (storage_in storage.entry)
        × ¬ HasColumns checked.now.list.nodes (storage_in storage.entry)) }
    ensures too_deep { result ≡ Err SqlFault.TooDeep → IsTooDeep checked.now now.now dialect }
    ensures levels { IfOk result (λ _. ¬ ExceedsLevels checked.now.list.nodes) }
{
    if !is_nul_free(checked, storage) {
        return Err(SqlFault::Nul);
    }
    if !has_columns(checked, storage) {
        return Err(SqlFault::NoColumn);
    }
    if exceeds_levels(alloc, checked.nodes())? {
        return Err(SqlFault::TooDeep);
    }
    entities_are_kept();
    what_fits_has_its_type();
    let (_civil, _offset, _nodes) = (now.civil(), now.offset_minutes(), checked.nodes());
    let ranges = ranges_of(alloc, checked)?;
    let context = SqlContext {
        checked,
        ranges: ranges.as_slice(),
        storage,
        moment: now,
    };
    let table = Table {
        schema: checked.schema(),
        row_type: checked.filtered_type(),
        storage,
    };
    Ok(Conditions {
        outcome: outcome_of(alloc, &context, &table, dialect)?,
        keep: keep_of(alloc, &context, &table, dialect)?,
        fault: fault_of(alloc, &context, &table, dialect)?,
    })
}

/// The code of the outcome.
fn outcome_of(
    alloc: Global,
    context: &SqlContext<'_, '_>,
    table: &Table<'_>,
    dialect: Dialect,
) -> Result<Statement, SqlFault>
    requires translated { IsTranslated context.now }
    requires stored { table_in table.now ≡ table_of context.now.checked.now (storage_in context.now.storage) }
    ensures ok { IfOk result (λ s. Says context.now.checked.now context.now.moment.now dialect
        (table_in table.now) s IsItsCode) }
    ensures refused { IfErr result (IsRefused context.now.checked.now context.now.moment.now dialect IsItsCode) }
{
    trees_have_one_type();
    trees_have_one_meaning();
    let mut code = Draft::new(alloc);
    put_code(context, &mut code, 0)?;
    let size = context.checked.node_count();
    statement_of(alloc, code.tree, table, dialect, size)
}

/// The condition that keeps a row.
fn keep_of(
    alloc: Global,
    context: &SqlContext<'_, '_>,
    table: &Table<'_>,
    dialect: Dialect,
) -> Result<Statement, SqlFault>
    requires translated { IsTranslated context.now }
    requires stored { table_in table.now ≡ table_of context.now.checked.now (storage_in context.now.storage) }
    ensures ok { IfOk result (λ s. Says context.now.checked.now context.now.moment.now dialect
        (table_in table.now) s KeepsIt) }
    ensures refused { IfErr result (IsRefused context.now.checked.now context.now.moment.now dialect KeepsIt) }
{
    trees_have_one_type();
    trees_have_one_meaning();
    let mut draft = Draft::new(alloc);
    put_keeps(context, &mut draft, 0)?;
    let size = context.checked.node_count();
    statement_of(alloc, draft.tree, table, dialect, size)
}

/// The condition of a fault, where there can be one.
fn fault_of(
    alloc: Global,
    context: &SqlContext<'_, '_>,
    table: &Table<'_>,
    dialect: Dialect,
) -> Result<Option<Statement>, SqlFault>
    requires translated { IsTranslated context.now }
    requires reported { AreReportedFrom context.now.checked.now 0 context.now.ranges.now }
    requires stored { table_in table.now ≡ table_of context.now.checked.now (storage_in context.now.storage) }
    ensures some { IfOk result (λ found. IfSome found (λ s. Says context.now.checked.now context.now.moment.now dialect
        (table_in table.now) s FaultsIt)) }
    ensures none { IfOk result (λ found. IfNone found (NeverFaults context.now.checked.now context.now.moment.now)) }
    ensures can { IfOk result (λ found. IfSome found (λ _. CanFault context.now.checked.now)) }
    ensures refused { IfErr result (IsRefused context.now.checked.now context.now.moment.now dialect FaultsIt) }
{
    typed_trees_end_once_on_entities();
    trees_have_one_type();
    trees_have_one_meaning();
    if !context.may_fault(0) {
        return Ok(None);
    }
    let mut draft = Draft::new(alloc);
    draft.put(SqlNode::Compare {
        operator: ComparisonOperator::Ge,
        value_type: SqlType::Whole,
    })?;
    put_code(context, &mut draft, 0)?;
    draft.put_number(Digit::Three)?;
    let size = context.checked.node_count();
    Ok(Some(statement_of(alloc, draft.tree, table, dialect, size)?))
}
