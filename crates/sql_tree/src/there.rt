//! Whether what a tree names is there.
ghost use Rattle.std.specs.Prelude.{◌≡◌, ◌↔◌, IsSomeAnd, IsTrue, slice_get};
ghost use Rattle.std.specs.List.{AllByRecursion};
ghost use Rattle.sql_tree.specs.PathText.{IsBaseOf, IsPathOf, IsStepOf};
ghost use Rattle.sql_tree.specs.Shapes.{IsShaped, IsThere};
ghost use Rattle.sql_tree.specs.TableModel.{HasColumn, HasDocument, storage_in, table_in};
ghost use Rattle.sql_tree.specs.Term.{Term, nodes_of};
ghost use Rattle.sql_tree.specs.TreeText.{IsWhole};
ghost use Rattle.sql_tree.specs.declared.dialect.Dialect.{Dialect};

use super::json_path::{Base, Path, Step};
use super::sql_node::SqlNode;
use super::storage::{Storage, Table};
use super::tree::SqlTree;

/// Whether the columns and paths that the nodes of a tree name are there in a table.
/// Then the tree can be printed, if its nodes are those of one tree of SQL.
pub fn names_what_is(tree: &SqlTree, table: &Table<'_>) -> bool
    ensures there { IsTrue result
        ↔ AllByRecursion (IsThere (table_in table.now) tree.now.paths.items) tree.now.nodes.items }
    ensures whole { IsTrue result → (dialect : Dialect) (t : Term) → tree.now.nodes.items ≡ nodes_of t → IsShaped t
        → IsWhole dialect (table_in table.now) tree.now.paths.items t }
{
    are_there(tree, table, tree.nodes.as_slice())
}

/// Whether what each of these nodes names is there.
fn are_there(tree: &SqlTree, table: &Table<'_>, nodes: &[SqlNode]) -> bool
    ensures { IsTrue result ↔ AllByRecursion (IsThere (table_in table.now) tree.now.paths.items) nodes.now }
{
    for node in nodes {
        if !is_there(tree, table, *node) {
            return false;
        }
    }
    true
}

/// Whether what a node names is there, and what it counts is something and fits.
fn is_there(tree: &SqlTree, table: &Table<'_>, node: SqlNode) -> bool
    ensures { IsTrue result ↔ IsThere (table_in table.now) tree.now.paths.items node }
{
    match node {
        SqlNode::Parameter { place, .. } => place < usize::MAX,
        SqlNode::Column { slot } => has_column(table, slot),
        SqlNode::Field { path, .. } => has_path(tree, table, path),
        SqlNode::IsMissing { path } => has_path(tree, table, path),
        SqlNode::Count { path } => has_path(tree, table, path),
        SqlNode::Exists { path, .. } => has_path(tree, table, path),
        SqlNode::Least { path, .. } => has_path(tree, table, path),
        SqlNode::Let { level, count } => 0 < count && count < usize::MAX - level,
        SqlNode::Among { count, .. } => 0 < count && count < usize::MAX,
        _ => true,
    }
}

/// Whether there is a path of that number, which can be followed.
fn has_path(tree: &SqlTree, table: &Table<'_>, number: usize) -> bool
    ensures { IsTrue result ↔ IsSomeAnd (slice_get tree.now.paths.items number) (IsPathOf (table_in table.now)) }
{
    match tree.paths.get(number) {
        Some(path) => is_path(table, path),
        None => false,
    }
}

fn is_path(table: &Table<'_>, path: &Path) -> bool
    ensures { IsTrue result ↔ IsPathOf (table_in table.now) path.now }
{
    is_base(table, path.base) && are_steps(table, path.steps.as_slice())
}

fn is_base(table: &Table<'_>, base: Base) -> bool
    ensures { IsTrue result ↔ IsBaseOf (table_in table.now) base }
{
    match base {
        Base::Document => has_document(table),
        Base::Column { slot } => has_column(table, slot),
        Base::Member { .. } => true,
    }
}

fn has_document(table: &Table<'_>) -> bool
    ensures { IsTrue result ↔ HasDocument (storage_in table.now.storage) }
{
    match table.storage {
        Storage::Columns(_) => false,
        Storage::Document(_) => true,
    }
}

fn has_column(table: &Table<'_>, slot: usize) -> bool
    ensures { IsTrue result ↔ HasColumn (storage_in table.now.storage) slot }
{
    match table.storage {
        Storage::Columns(names) => slot < names.len(),
        Storage::Document(_) => false,
    }
}

/// Whether the type of each step has its slot.
fn are_steps(table: &Table<'_>, steps: &[Step]) -> bool
    ensures { IsTrue result ↔ AllByRecursion (IsStepOf (table_in table.now)) steps.now }
{
    for step in steps {
        if !is_step(table, step) {
            return false;
        }
    }
    true
}

fn is_step(table: &Table<'_>, step: &Step) -> bool
    ensures { IsTrue result ↔ IsStepOf (table_in table.now) step.now }
{
    step.slot < table.schema.slots(step.owner)
}
