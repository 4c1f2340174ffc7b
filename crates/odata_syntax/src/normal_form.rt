//! The normal form of a tree (OData ABNF 4.01, section 7).

ghost use Rattle.std.specs.Prelude.{◌≡◌, ◌∷◌, ◌++◌, IfOk, OnOk, string_bytes};
ghost use Rattle.odata_syntax.specs.NormalForm.{IsNormalForm};
ghost use Rattle.odata_syntax.specs.Tree.{Tree, shape_of};
ghost use Rattle.odata_syntax.specs.TreeView.{tree_of};
ghost use Rattle.odata_syntax.specs.private.Forests.{forest_trees};
ghost use Rattle.odata_syntax.specs.private.NormalForm.{IsMade, IsNormalText, IsReady, all_wanted, children_wanted};
ghost use Rattle.odata_syntax.specs.private.NormalForm.{item_count, over, shape_kind, wanted, whole};

use crate::parser::Forest;
use crate::printer::write_literal;
use crate::syntax_list::SyntaxKind;
use crate::{Expr, Node, Quantifier};
use odata_text::literals_have_one_spelling;
use std::alloc::{AllocError, Global};

/// What is still to be made.
#[derive(Clone, Copy, Debug)]
enum Task<'t> {
    /// The normal form of a node.
    Whole { node: &'t Node },
    /// Those of nodes, the first one first.
    Items { nodes: &'t [Node] },
    /// That of a node, over those of its children.
    Over { node: &'t Node },
}

/// Returns the expression with each literal in its canonical spelling. Each node keeps its span. Pending work is on an
/// explicit stack, so nothing recurses, however deep the tree is.
pub fn normal(alloc: Global, expr: &Expr) -> Result<Expr, AllocError>
    ensures { IfOk result (λ normal. IsNormalForm (tree_of expr.now) (tree_of normal)) }
{
    literals_have_one_spelling();
    let mut forest = Forest {
        alloc,
        trees: Vec::new(alloc),
    };
    let mut pending = Vec::new(alloc);
    pending.push(Task::Whole { node: expr.root() })?;
    while let Some(task) = pending.pop() {
        make(task, &mut forest, &mut pending)?;
    }
    let root = forest.child()?;
    Ok(Expr::new(root))
}

/// Makes a normal form over those of the children, or puts on the stack what has to be made first.
fn make<'t>(
    task: Task<'t>,
    forest: &mut Forest,
    pending: &mut Vec<Task<'t>>,
) -> Result<(), AllocError>
    requires { (root : Tree) × IsReady (wanted task ∷ all_wanted pending.old.items) (forest_trees forest.old) root }
    ensures { OnOk result (IsMade (wanted task.entry ∷ all_wanted pending.old.items) (forest_trees forest.old)
        (all_wanted pending.new.items) (forest_trees forest.new)) }
{
    match task {
        Task::Whole { node } => begin(node, pending),
        Task::Items { nodes } => {
            let Some((first, rest)) = nodes.split_first() else {
                return Ok(());
            };
            pending.push(Task::Items { nodes: rest })?;
            begin_one(first, pending)
        }
        Task::Over { node } => {
            let text = normal_text(forest.alloc, node)?;
            let (kind, count) = kind_of(node);
            forest.grow(kind, node.span(), count, text)
        }
    }
}

/// Puts on the stack that a node is made over its children, and that these are made first.
fn begin<'t>(node: &'t Node, pending: &mut Vec<Task<'t>>) -> Result<(), AllocError>
    ensures { OnOk result (all_wanted pending.new.items
        ≡ children_wanted (shape_of (tree_of node.now)) ++ (over (tree_of node.now) ∷ all_wanted pending.old.items)) }
{
    pending.push(Task::Over { node })?;
    match node {
        Node::Lit { .. } => Ok(()),
        Node::It { .. } => Ok(()),
        Node::Name { .. } => Ok(()),
        Node::Member { base, .. } => begin_one(base, pending),
        Node::Count { base, .. } => begin_one(base, pending),
        Node::Neg { operand, .. } => begin_one(operand, pending),
        Node::Not { operand, .. } => begin_one(operand, pending),
        Node::Binary { left, right, .. } => {
            begin_one(right, pending)?;
            begin_one(left, pending)
        }
        Node::Has { left, right, .. } => {
            begin_one(right, pending)?;
            begin_one(left, pending)
        }
        Node::InPath { left, path, .. } => {
            begin_one(path, pending)?;
            begin_one(left, pending)
        }
        Node::InList { left, items, .. } => {
            pending.push(Task::Items { nodes: items })?;
            begin_one(left, pending)
        }
        Node::Call { arguments, .. } => {
            pending.push(Task::Items { nodes: arguments })?;
            Ok(())
        }
        Node::Any { base, lambda, .. } => match lambda {
            None => begin_one(base, pending),
            Some((_variable, body)) => {
                begin_one(body, pending)?;
                begin_one(base, pending)
            }
        },
        Node::All { base, body, .. } => {
            begin_one(body, pending)?;
            begin_one(base, pending)
        }
    }
}

/// Puts on the stack that a node is made.
fn begin_one<'t>(node: &'t Node, pending: &mut Vec<Task<'t>>) -> Result<(), AllocError>
    ensures { OnOk result (all_wanted pending.new.items ≡ whole (tree_of node.now) ∷ all_wanted pending.old.items) }
{
    pending.push(Task::Whole { node })?;
    Ok(())
}

/// The spelling or the name that the normal form of a node keeps; nothing for other nodes.
fn normal_text(alloc: Global, node: &Node) -> Result<String, AllocError>
    ensures { IfOk result (λ text. IsNormalText (shape_of (tree_of node.now)) (string_bytes text)) }
{
    match node {
        Node::Lit { kind, text, .. } => {
            let mut spelling = String::new(alloc);
            write_literal(&mut spelling, *kind, text)?;
            Ok(spelling)
        }
        Node::Name { name, .. } => Ok(name.clone()?),
        Node::Member { name, .. } => Ok(name.clone()?),
        Node::Call { name, .. } => Ok(name.clone()?),
        Node::All { variable, .. } => Ok(variable.clone()?),
        Node::Any { lambda, .. } => match lambda {
            None => Ok(String::new(alloc)),
            Some((variable, _)) => Ok(variable.clone()?),
        },
        Node::It { .. } => Ok(String::new(alloc)),
        Node::Count { .. } => Ok(String::new(alloc)),
        Node::Neg { .. } => Ok(String::new(alloc)),
        Node::Not { .. } => Ok(String::new(alloc)),
        Node::Binary { .. } => Ok(String::new(alloc)),
        Node::Has { .. } => Ok(String::new(alloc)),
        Node::InList { .. } => Ok(String::new(alloc)),
        Node::InPath { .. } => Ok(String::new(alloc)),
    }
}

/// What a node is, and how many items or arguments it has.
fn kind_of(node: &Node) -> (SyntaxKind, usize)
    ensures kind { result.0 ≡ shape_kind (shape_of (tree_of node.now)) }
    ensures items { result.1 ≡ item_count (shape_of (tree_of node.now)) }
{
    match node {
        Node::Lit { kind, .. } => (SyntaxKind::Lit(*kind), 0),
        Node::It { .. } => (SyntaxKind::It, 0),
        Node::Name { .. } => (SyntaxKind::Name, 0),
        Node::Member { .. } => (SyntaxKind::Member, 0),
        Node::Count { .. } => (SyntaxKind::Count, 0),
        Node::Neg { .. } => (SyntaxKind::Neg, 0),
        Node::Not { .. } => (SyntaxKind::Not, 0),
        Node::Binary { operator, .. } => (SyntaxKind::Binary(*operator), 0),
        Node::Has { .. } => (SyntaxKind::Has, 0),
        Node::InList { items, .. } => (SyntaxKind::InList, items.len()),
        Node::InPath { .. } => (SyntaxKind::InPath, 0),
        Node::Call { arguments, .. } => (SyntaxKind::Call, arguments.len()),
        Node::Any { lambda, .. } => match lambda {
            None => (SyntaxKind::AnyItem, 0),
            Some(_) => (SyntaxKind::Lambda(Quantifier::Any), 0),
        },
        Node::All { .. } => (SyntaxKind::Lambda(Quantifier::All), 0),
    }
}
