//! A node that waits for the rest of its children.
ghost use Rattle.std.specs.Prelude.{◌≡◌, ◌<◌, ◌+◌, ◌^◌, ◌++◌, OnOk, length, string_bytes};
ghost use Rattle.sql_tree.specs.FixedPieces.{collation};
ghost use Rattle.sql_tree.specs.NodePieces.{decision_text, decisions_text, let_pieces, list_pieces, node_pieces};
ghost use Rattle.sql_tree.specs.NodePieces.{pieces_for_codes};
ghost use Rattle.sql_tree.specs.private.PiecesView.{piece_at};
ghost use Rattle.sql_tree.specs.TableDigits.{arity_of_table};
ghost use Rattle.sql_tree.specs.TableModel.{table_in};
ghost use Rattle.sql_tree.specs.TreeText.{CountsFit, NamesWhatIs};
ghost use Rattle.sql_tree.specs.private.PrinterFrames.{HasArity};

use super::dialect::Dialect;
use super::look_up::LookUp;
use super::node_pieces::pieces_of;
use super::path_text::write_members;
use super::sql_node::SqlNode;
use super::storage::Table;
use super::tree::SqlTree;
use odata_syntax::Quantifier;
use std::alloc::AllocError;

/// A node, and how many of its children have been written.
#[derive(Clone, Copy)]
pub(crate) struct Frame {
    pub(crate) node: SqlNode,
    pub(crate) done: usize,
}

/// How many children a node has.
pub(crate) fn arity_of(dialect: Dialect, node: &SqlNode) -> usize
    ensures { HasArity dialect node.now result }
{
    match pieces_of(dialect, *node) {
        Some(pieces) => pieces.arity,
        None => match *node {
            SqlNode::LookUp { table } => table.arity(),
            SqlNode::Let { count, .. } => count.saturating_add(1),
            SqlNode::Among { count, .. } => count.saturating_add(1),
            SqlNode::Decided { .. } => 1,
            SqlNode::Exists { .. } => 1,
            SqlNode::Least { .. } => 1,
            _ => 0,
        },
    }
}

/// Writes what a node has before its first child.
pub(crate) fn write_opening(
    out: &mut String,
    dialect: Dialect,
    table: &Table<'_>,
    tree: &SqlTree,
    node: SqlNode,
) -> Result<(), AllocError>
    requires some { 1 < length (node_pieces dialect (table_in table.now) tree.now.paths.items node) }
    requires named { NamesWhatIs (table_in table.now) tree.now.paths.items node }
    ensures { OnOk result (string_bytes out.new ≡ string_bytes out.old
        ++ piece_at (node_pieces dialect (table_in table.now) tree.now.paths.items node) 0) }
{
    match node {
        SqlNode::LookUp { table } => write_table(out, dialect, table),
        SqlNode::Let { .. } => out.push_str("(SELECT "),
        SqlNode::Exists { path, level } => {
            out.push_str("(EXISTS (SELECT 1 FROM ")?;
            write_members(out, dialect, table, &tree.paths[path], level)?;
            out.push_str(" WHERE ")
        }
        SqlNode::Least { .. } => out.push_str("(SELECT min("),
        SqlNode::Among { .. } => out.push('('),
        SqlNode::Decided { .. } => out.push_str("(CASE "),
        _ => match pieces_of(dialect, node) {
            Some(pieces) => out.push_str(pieces.front),
            None => Ok(()),
        },
    }
}

/// Writes what a node has after so many of its children, one at least.
pub(crate) fn write_after(
    out: &mut String,
    dialect: Dialect,
    table: &Table<'_>,
    tree: &SqlTree,
    frame: &Frame,
) -> Result<(), AllocError>
    requires some { 0 < frame.now.done }
    requires few { frame.now.done
        < length (node_pieces dialect (table_in table.now) tree.now.paths.items frame.now.node) }
    requires named { NamesWhatIs (table_in table.now) tree.now.paths.items frame.now.node }
    requires fit { CountsFit frame.now.node }
    ensures { OnOk result (string_bytes out.new ≡ string_bytes out.old
        ++ piece_at (node_pieces dialect (table_in table.now) tree.now.paths.items frame.now.node) frame.now.done) }
{
    match frame.node {
        SqlNode::LookUp { table } => write_looked(out, dialect, table, frame.done),
        SqlNode::Let { level, count } => write_binding(out, dialect, level, count, frame.done),
        SqlNode::Exists { .. } => out.push_str("))"),
        SqlNode::Among { count, value_type } => {
            let collated = value_type.is_collated(dialect);
            write_item(out, dialect, collated, count, frame.done)
        }
        SqlNode::Decided { quantifier, level } => write_decisions(out, dialect, quantifier, level),
        SqlNode::Least { path, level } => {
            out.push_str(") FROM ")?;
            write_members(out, dialect, table, &tree.paths[path], level)?;
            out.push(')')
        }
        node => match pieces_of(dialect, node) {
            Some(pieces) => out.push_str(pieces.after(frame.done)),
            None => Ok(()),
        },
    }
}

/// Writes what a `Let` has after its body or one of its values. In PostgreSQL an offset keeps the planner from putting
/// the values instead of the body as often as it has them.
fn write_binding(
    out: &mut String,
    dialect: Dialect,
    level: usize,
    count: usize,
    done: usize,
) -> Result<(), AllocError>
    requires some { 0 < done }
    requires few { done < length (let_pieces dialect level count) }
    requires fit { level + count + 1 < 2 ^ 64 }
    ensures { OnOk result (string_bytes out.new
        ≡ string_bytes out.old ++ piece_at (let_pieces dialect level count) done) }
{
    if done == 1 {
        return out.push_str(" FROM (SELECT ");
    }
    let bound = level + (done - 2);
    write!(out, " AS b{bound}")?;
    if done <= count {
        return out.push_str(", ");
    }
    match dialect {
        Dialect::PostgreSql => write!(out, " OFFSET 0) AS s{level})"),
        Dialect::Sqlite => write!(out, ") AS s{level})"),
    }
}

/// Writes what a list has after its left side or one of its items.
fn write_item(
    out: &mut String,
    dialect: Dialect,
    collated: bool,
    count: usize,
    done: usize,
) -> Result<(), AllocError>
    requires some { 0 < done }
    requires few { done < length (list_pieces dialect collated count) }
    ensures { OnOk result (string_bytes out.new
        ≡ string_bytes out.old ++ piece_at (list_pieces dialect collated count) done) }
{
    if done == 1 {
        write_collation(out, dialect, collated)?;
        return out.push_str(" IN (");
    }
    out.push_str(if done <= count { ", " } else { "))" })
}

fn write_collation(out: &mut String, dialect: Dialect, collated: bool) -> Result<(), AllocError>
    ensures { OnOk result (string_bytes out.new ≡ string_bytes out.old ++ collation dialect collated) }
{
    if !collated {
        return Ok(());
    }
    out.push_str(match dialect {
        Dialect::PostgreSql => " COLLATE \"C\"",
        Dialect::Sqlite => " COLLATE BINARY",
    })
}

/// Writes what comes of each code that decides at a member.
fn write_decisions(
    out: &mut String,
    dialect: Dialect,
    quantifier: Quantifier,
    level: usize,
) -> Result<(), AllocError>
    ensures { OnOk result (string_bytes out.new ≡ string_bytes out.old ++ decisions_text dialect quantifier level) }
{
    match quantifier {
        Quantifier::Any => write_decision(out, dialect, level, 1, 1)?,
        Quantifier::All => {
            write_decision(out, dialect, level, 0, 0)?;
            write_decision(out, dialect, level, 2, 0)?;
        }
    }
    write_decision(out, dialect, level, 3, 3)?;
    write_decision(out, dialect, level, 4, 4)?;
    out.push_str(" END)")
}

/// Writes what comes of one code.
fn write_decision(
    out: &mut String,
    dialect: Dialect,
    level: usize,
    code: u8,
    decided: u8,
) -> Result<(), AllocError>
    ensures { OnOk result (string_bytes out.new ≡ string_bytes out.old ++ decision_text dialect level code decided) }
{
    match dialect {
        Dialect::PostgreSql => write!(out, " WHEN {code} THEN (m{level}.o - 1) * 8 + {decided}"),
        Dialect::Sqlite => write!(out, " WHEN {code} THEN m{level}.key * 8 + {decided}"),
    }
}

/// Writes a table and what stands before its first code. In PostgreSQL it is a text, and an offset in one is an integer
/// of 32 bits.
fn write_table(out: &mut String, dialect: Dialect, table: LookUp) -> Result<(), AllocError>
    ensures { OnOk result (string_bytes out.new
        ≡ string_bytes out.old ++ piece_at (pieces_for_codes dialect table (arity_of_table table)) 0) }
{
    let digits = table.digits();
    write!(out, "CAST(substr('{digits}'")?;
    out.push_str(match dialect {
        Dialect::PostgreSql => "::text, CAST(",
        Dialect::Sqlite => ", ",
    })?;
    out.push_str(if table.arity() == 2 { "5 * " } else { "" })
}

/// Writes what a table has after one of its codes.
fn write_looked(
    out: &mut String,
    dialect: Dialect,
    table: LookUp,
    done: usize,
) -> Result<(), AllocError>
    requires some { 0 < done }
    requires few { done < length (pieces_for_codes dialect table (arity_of_table table)) }
    ensures { OnOk result (string_bytes out.new
        ≡ string_bytes out.old ++ piece_at (pieces_for_codes dialect table (arity_of_table table)) done) }
{
    if done < table.arity() {
        return out.push_str(" + ");
    }
    out.push_str(match dialect {
        Dialect::PostgreSql => " + 1 AS integer), 1) AS integer)",
        Dialect::Sqlite => " + 1, 1) AS integer)",
    })
}
