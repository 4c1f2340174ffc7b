//! The text of a tree, in one pass over its nodes.
ghost use Rattle.std.specs.Prelude.{◌≡◌, ◌++◌, ℕ, List, IfOk, OnOk, length, reverse, string_bytes};
ghost use Rattle.sql_tree.specs.NodePieces.{node_pieces};
ghost use Rattle.sql_tree.specs.private.PiecesView.{piece_at};
ghost use Rattle.sql_tree.specs.TableModel.{table_in};
ghost use Rattle.sql_tree.specs.TreeText.{CountsFit, NamesWhatIs};
ghost use Rattle.sql_tree.specs.Printed.{IsOfTree, IsTextOf};
ghost use Rattle.sql_tree.specs.declared.sql_node.SqlNode.{SqlNode};
ghost use Rattle.sql_tree.specs.private.SqlPrinter.{Adds, Completed, GoesOn};

use super::dialect::Dialect;
use super::leaf_text::{
    write_count, write_fault, write_field, write_missing, write_null, write_number,
    write_parameter, write_truth,
};
use super::printer_frames::{Frame, arity_of, write_after, write_opening};
use super::sql_node::SqlNode;
use super::storage::{Table, write_column};
use super::tree::SqlTree;
use std::alloc::{AllocError, Global};

/// The text of a tree in a dialect, over the rows of a table that goes by `t`. The tree's parameters are numbered from
/// 1.
pub fn print(
    alloc: Global,
    tree: &SqlTree,
    table: &Table<'_>,
    dialect: Dialect,
) -> Result<String, AllocError>
    requires { IsOfTree dialect (table_in table.now) tree.now }
    ensures { IfOk result (IsTextOf dialect (table_in table.now) tree.now) }
{
    let mut out = String::new(alloc);
    let mut frames = Vec::new(alloc);
    for node in tree.nodes.as_slice().iter() {
        if arity_of(dialect, node) == 0 {
            write_leaf(&mut out, dialect, table, tree, *node)?;
            close_finished(&mut out, dialect, table, tree, &mut frames)?;
        } else {
            write_opening(&mut out, dialect, table, tree, *node)?;
            frames.push(Frame {
                node: *node,
                done: 0,
            })?;
        }
    }
    Ok(out)
}

/// Writes what follows a child that has ended, and the end of each node of which it was the last.
fn close_finished(
    out: &mut String,
    dialect: Dialect,
    table: &Table<'_>,
    tree: &SqlTree,
    frames: &mut Vec<Frame>,
) -> Result<(), AllocError>
    requires { (nodes : List SqlNode) × (text : List ℕ)
        × Completed dialect (table_in table.now) tree.now.paths.items (reverse frames.old.items) nodes text }
    ensures { (nodes : List SqlNode) (text : List ℕ)
        → Completed dialect (table_in table.now) tree.now.paths.items (reverse frames.old.items) nodes text
        → OnOk result (Adds (string_bytes out.old) (string_bytes out.new) text
        (GoesOn dialect (table_in table.now) tree.now.paths.items (reverse frames.new.items) nodes)) }
{
    while let Some(frame) = frames.pop() {
        let arity = arity_of(dialect, &frame.node);
        let done = frame.done + 1;
        let next = Frame {
            node: frame.node,
            done,
        };
        write_after(out, dialect, table, tree, &next)?;
        if done < arity {
            frames.push(next)?;
            return Ok(());
        }
    }
    Ok(())
}

/// Writes a node without children.
fn write_leaf(
    out: &mut String,
    dialect: Dialect,
    table: &Table<'_>,
    tree: &SqlTree,
    node: SqlNode,
) -> Result<(), AllocError>
    requires one { length (node_pieces dialect (table_in table.now) tree.now.paths.items node) ≡ 1 }
    requires named { NamesWhatIs (table_in table.now) tree.now.paths.items node }
    requires fit { CountsFit node }
    ensures { OnOk result (string_bytes out.new ≡ string_bytes out.old
        ++ piece_at (node_pieces dialect (table_in table.now) tree.now.paths.items node) 0) }
{
    match node {
        SqlNode::Parameter { place, value_type } => write_parameter(
            out, dialect, place, value_type,
        ),
        SqlNode::Null { value_type } => write_null(out, dialect, value_type),
        SqlNode::Truth { value } => write_truth(out, value),
        SqlNode::Number { value } => write_number(out, value),
        SqlNode::Column { slot } => write_column(out, table, slot),
        SqlNode::Field { path, value_type } => {
            write_field(out, dialect, table, &tree.paths[path], value_type)
        }
        SqlNode::IsMissing { path } => write_missing(out, dialect, table, &tree.paths[path]),
        SqlNode::Count { path } => write_count(out, dialect, table, &tree.paths[path]),
        SqlNode::Bound { level } => write!(out, "b{level}"),
        SqlNode::Fault { carrier, fault } => write_fault(out, dialect, carrier, fault),
        _ => Ok(()),
    }
}
