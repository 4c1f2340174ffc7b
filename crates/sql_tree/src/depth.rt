//! How deeply an engine's parser nests at a text: it keeps the symbols of all that is not ended yet. They are counted
//! as SQLite has them.
ghost use Rattle.std.specs.Prelude.{◌≡◌, ◌<◌, ◌-◌, ◌^◌, ◌∷◌, ℕ, List, IfOk, min, reverse};
ghost use Rattle.sql_tree.specs.ParserDepth.{after_first, kept_of_function, kept_of_node, kept_of_range, kept_symbols, own_of_field, own_of_function, own_symbols, symbols_of};
ghost use Rattle.sql_tree.specs.Printed.{IsListOf};
ghost use Rattle.sql_tree.specs.TableModel.{TableModel};
ghost use Rattle.sql_tree.specs.Term.{Term, Terms, term};
ghost use Rattle.sql_tree.specs.TreeText.{IsWhole};
ghost use Rattle.sql_tree.specs.declared.dialect.Dialect.{Dialect};
ghost use Rattle.sql_tree.specs.declared.json_path.Path.{Path};
ghost use Rattle.sql_tree.specs.private.Depths.{AreDepths, joined};

use super::dialect::Dialect;
use super::printer_frames::arity_of;
use super::sql_node::{FieldType, SqlFunction, SqlNode};
use super::tree::SqlTree;
use edm_values::Prim;
use std::alloc::{AllocError, Global};

/// How many symbols the parser keeps at a time for the text of a tree. If they are more, the greatest number.
pub fn parser_depth(alloc: Global, tree: &SqlTree) -> Result<usize, AllocError>
    ensures { IfOk result (λ depth. (table : TableModel) (t : Term) → IsListOf Dialect.Sqlite table tree.now t
        → depth ≡ min (symbols_of t) (2 ^ 64 - 1)) }
{
    // Those of each tree that begins after a node: the next one comes last.
    let mut depths: Vec<usize> = Vec::new(alloc);
    let nodes = tree.nodes.as_slice();
    let mut at = nodes.len();
    while 0 < at {
        at -= 1;
        let depth = depth_with_children(&mut depths, nodes[at]);
        depths.push(depth)?;
    }
    Ok(take_depth(&mut depths))
}

/// The symbols of a tree by its first node and those of its children, which are taken away.
fn depth_with_children(depths: &mut Vec<usize>, node: SqlNode) -> usize
    ensures { (table : TableModel) (paths : List Path) (children rest : Terms)
        → IsWhole Dialect.Sqlite table paths (term node children)
        → AreDepths (reverse depths.old.items) (joined children rest)
        → (result ≡ min (symbols_of (term node children)) (2 ^ 64 - 1)) × AreDepths (reverse depths.new.items) rest }
{
    let mut deepest = own_symbols(node);
    for done in 0..arity_of(Dialect::Sqlite, &node) {
        let depth = take_depth(depths);
        deepest = deepest.max(kept_symbols(node, done).saturating_add(depth));
    }
    deepest
}

/// Takes the last number away; 0 if there is none.
fn take_depth(depths: &mut Vec<usize>) -> usize
    ensures { (depth : ℕ) (below : List ℕ) → reverse depths.old.items ≡ depth ∷ below
        → (result ≡ depth) × (reverse depths.new.items ≡ below) }
{
    match depths.pop() {
        Some(depth) => depth,
        None => 0,
    }
}

/// The symbols of a node itself at its deepest, its children apart.
fn own_symbols(node: SqlNode) -> usize
    ensures { result ≡ own_symbols node }
{
    match node {
        SqlNode::Field { value_type, .. } => own_of_field(value_type),
        SqlNode::Exists { .. } => 17,
        SqlNode::Least { .. } => 16,
        SqlNode::Count { .. } => 9,
        SqlNode::IsMissing { .. } => 7,
        SqlNode::Function { function } => own_of_function(function),
        _ => 3,
    }
}

fn own_of_field(value_type: FieldType) -> usize
    ensures { result ≡ own_of_field value_type }
{
    match value_type {
        FieldType::Prim(Prim::Guid) => 9,
        FieldType::Prim(_) => 8,
        FieldType::Enum(_) => 37,
    }
}

fn own_of_function(function: SqlFunction) -> usize
    ensures { result ≡ own_of_function function }
{
    match function {
        SqlFunction::Instant => 32,
        SqlFunction::OffsetMinutes => 21,
        SqlFunction::Second => 18,
        SqlFunction::StartsWith => 18,
        SqlFunction::EndsWith => 19,
        SqlFunction::RestFrom => 14,
        SqlFunction::PartFrom => 14,
        SqlFunction::Trim => 14,
        _ => 8,
    }
}

/// The symbols that are kept of a node while a child of it is read, after so many others. They are the same from the
/// third child on.
fn kept_symbols(node: SqlNode, others: usize) -> usize
    ensures { result ≡ kept_symbols node others }
{
    kept_of_node(node, others.min(2))
}

fn kept_of_node(node: SqlNode, done: usize) -> usize
    requires { done < 3 }
    ensures { result ≡ kept_of_node node done }
{
    match node {
        SqlNode::Case => after_first(done, 4, 7 - done),
        SqlNode::Coalesce => 3 + 2 * done,
        SqlNode::LookUp { .. } => 9,
        SqlNode::Let { .. } => after_first(done, 5, 11),
        SqlNode::Exists { .. } => 8,
        SqlNode::Least { .. } => 8,
        SqlNode::Unfault { .. } => 6,
        SqlNode::Within { prim } => kept_of_range(prim),
        SqlNode::Among { .. } => after_first(done, 1, 6),
        SqlNode::HasBits => 3 + done,
        SqlNode::Function { function } => kept_of_function(function, done),
        SqlNode::Not => 2,
        SqlNode::TruthCode => 2,
        SqlNode::FaultCode { .. } => 2,
        SqlNode::FaultOfCode { .. } => 2,
        SqlNode::Decided { .. } => 2,
        _ => 1 + 2 * done,
    }
}

fn kept_of_range(prim: Prim) -> usize
    ensures { result ≡ kept_of_range prim }
{
    match prim {
        Prim::Int64 => 5,
        _ => 1,
    }
}

fn kept_of_function(function: SqlFunction, done: usize) -> usize
    requires { done < 3 }
    ensures { result ≡ kept_of_function function done }
{
    match function {
        SqlFunction::Concat => 1 + 2 * done,
        SqlFunction::Contains => 4 + 2 * done,
        SqlFunction::IndexOf => 4 + 2 * done,
        SqlFunction::Length => 3,
        SqlFunction::Trim => 3,
        SqlFunction::ToLower => 3,
        SqlFunction::ToUpper => 3,
        SqlFunction::DateOfMoment => 3,
        SqlFunction::RestFrom => 3 + 8 * done,
        SqlFunction::PartFrom => after_first(done, 3, 11),
        SqlFunction::StartsWith => 11,
        SqlFunction::EndsWith => 11,
        SqlFunction::Second => 11,
        SqlFunction::OffsetMinutes => 11,
        SqlFunction::Instant => 11,
        _ => 5,
    }
}

fn after_first(done: usize, first: usize, later: usize) -> usize
    ensures { result ≡ after_first done first later }
{
    match done {
        0 => first,
        _ => later,
    }
}
