//! The canonical text of a tree (OData URL Conventions 4.01, section 5.1.1).

ghost use Rattle.std.specs.Prelude.{◌≡◌, ◌++◌, IfOk, map, string_bytes};
ghost use Rattle.odata_syntax.specs.CanonicalText.{IsCanonicalText};
ghost use Rattle.odata_syntax.specs.Tree.{shape_of};
ghost use Rattle.odata_syntax.specs.TreeView.{tree_of};
ghost use Rattle.odata_syntax.specs.private.Printer.{AllHaveTrees, HasTrees, IsReady, Writes, after_first};
ghost use Rattle.odata_syntax.specs.private.Printer.{listed, operand, piece_of, waiting};

mod enumeration_text;
mod literal_text;
mod operator_words;
mod printed_expr;
mod printed_tree;
mod shape_levels;

use crate::level::{BASE, PATH, operator_level};
use crate::{Expr, Quantifier};
pub use literal_text::write_literal;
pub use operator_words::operator_word;
use operator_words::spaced_word;
pub use printed_tree::{AfterFirst, NodeShape, PrintedTree};
use shape_levels::shape_levels;
use std::alloc::{AllocError, Global};

/// What is still to be written.
#[derive(Clone, Copy, Debug)]
pub(crate) enum PrintTask<N, I> {
    /// A node, in parentheses where it binds less tightly than needed.
    Operand { node: N, needed: u8 },
    /// What a node has after its first operand.
    Joint { node: N },
    /// Further items, each after a comma.
    Further { items: I },
    /// The end of a group.
    Close,
}

/// Returns the canonical text of an expression. It has literals in their canonical spellings, words in lower case, and
/// parentheses only where an operand binds less tightly than its position needs.
pub fn print(alloc: Global, expr: &Expr) -> Result<String, AllocError>
    ensures { IfOk result (λ text. IsCanonicalText (tree_of expr.now) (string_bytes text)) }
{
    print_tree(alloc, &expr, expr.root(), 0)
}

/// Returns the canonical text of a node of a tree, as [`print`] does. The text has room for so many bytes from the
/// start. What is still to be written waits on a stack, so nothing recurses, however deep the tree is.
pub fn print_tree<T: PrintedTree>(
    alloc: Global,
    tree: &T,
    root: T::Node,
    room: usize,
) -> Result<String, AllocError>
    requires { (T.trees tree.now).HasTree root }
    ensures { IfOk result (λ text. IsCanonicalText ((T.trees tree.now).tree_of root) (string_bytes text)) }
{
    let mut text = String::with_capacity(alloc, room)?;
    let mut pending = Vec::new(alloc);
    let mut next = Some(PrintTask::Operand {
        node: root,
        needed: 0,
    });
    while let Some(task) = next {
        next = write_task(tree, task, &mut text, &mut pending)?;
    }
    Ok(text)
}

/// Carries out a task, or its beginning, and puts the rest on the stack. Returns the task that is next, the last one of
/// the rest; `None` where nothing is left.
#[inline(always)]
fn write_task<T: PrintedTree>(
    tree: &T,
    task: PrintTask<T::Node, T::Items>,
    text: &mut String,
    pending: &mut Vec<PrintTask<T::Node, T::Items>>,
) -> Result<Option<PrintTask<T::Node, T::Items>>, AllocError>
    requires { HasTrees (T.trees tree.now) task }
    ensures written { IfOk result (λ next. Writes (piece_of (T.trees tree.now) task)
        (string_bytes text.old) (string_bytes text.new) (map (piece_of (T.trees tree.now)) pending.old.items)
        (map (piece_of (T.trees tree.now)) (waiting pending.new.items next))) }
    ensures ready { IfOk result (λ next. AllHaveTrees (T.trees tree.now) pending.old.items
        → IsReady (T.trees tree.now) pending.new.items next) }
{
    match task {
        PrintTask::Operand { node, needed } => write_operand(tree, node, needed, text, pending),
        PrintTask::Joint { node } => write_joint(tree, node, text, pending),
        PrintTask::Further { items } => {
            let Some((first, rest)) = tree.split_items(items) else {
                return Ok(pending.pop());
            };
            text.push(',')?;
            pending.push(PrintTask::Further { items: rest })?;
            Ok(Some(PrintTask::Operand {
                node: first,
                needed: 0,
            }))
        }
        PrintTask::Close => {
            text.push(')')?;
            Ok(pending.pop())
        }
    }
}

/// Writes a literal, a name or `$it`, a sign, or the beginning of a call; of a node that binds less tightly than needed
/// `(`, after which it is next itself.
fn write_operand<T: PrintedTree>(
    tree: &T,
    node: T::Node,
    needed: u8,
    text: &mut String,
    pending: &mut Vec<PrintTask<T::Node, T::Items>>,
) -> Result<Option<PrintTask<T::Node, T::Items>>, AllocError>
    requires { (T.trees tree.now).HasTree node }
    ensures written { IfOk result (λ next. Writes (operand needed ((T.trees tree.now).tree_of node))
        (string_bytes text.old) (string_bytes text.new) (map (piece_of (T.trees tree.now)) pending.old.items)
        (map (piece_of (T.trees tree.now)) (waiting pending.new.items next))) }
    ensures ready { IfOk result (λ next. AllHaveTrees (T.trees tree.now) pending.old.items
        → IsReady (T.trees tree.now) pending.new.items next) }
{
    let shape = tree.shape(node);
    let (own, first_needed) = shape_levels(&shape);
    if own < needed {
        text.push('(')?;
        pending.push(PrintTask::Close)?;
        return Ok(Some(PrintTask::Operand { node, needed: 0 }));
    }
    match &shape {
        NodeShape::Literal { kind, spelling } => {
            write_literal(text, *kind, spelling)?;
            Ok(pending.pop())
        }
        NodeShape::It => {
            text.push_str("$it")?;
            Ok(pending.pop())
        }
        NodeShape::Name { name } => {
            text.push_str(name)?;
            Ok(pending.pop())
        }
        NodeShape::Neg { operand } => {
            text.push_str("- ")?;
            Ok(Some(PrintTask::Operand {
                node: *operand,
                needed: first_needed,
            }))
        }
        NodeShape::Not { operand } => {
            text.push_str("not ")?;
            Ok(Some(PrintTask::Operand {
                node: *operand,
                needed: first_needed,
            }))
        }
        NodeShape::Call { name, arguments } => {
            text.push_str(name)?;
            text.push('(')?;
            pending.push(PrintTask::Close)?;
            put_items(tree, *arguments, pending)
        }
        NodeShape::Joined { first, .. } => {
            pending.push(PrintTask::Joint { node })?;
            Ok(Some(PrintTask::Operand {
                node: *first,
                needed: first_needed,
            }))
        }
    }
}

/// Writes what a node has after its first operand, up to the next one.
fn write_joint<T: PrintedTree>(
    tree: &T,
    node: T::Node,
    text: &mut String,
    pending: &mut Vec<PrintTask<T::Node, T::Items>>,
) -> Result<Option<PrintTask<T::Node, T::Items>>, AllocError>
    requires { (T.trees tree.now).HasTree node }
    ensures written { IfOk result (λ next. Writes (after_first (shape_of ((T.trees tree.now).tree_of node)))
        (string_bytes text.old) (string_bytes text.new) (map (piece_of (T.trees tree.now)) pending.old.items)
        (map (piece_of (T.trees tree.now)) (waiting pending.new.items next))) }
    ensures ready { IfOk result (λ next. AllHaveTrees (T.trees tree.now) pending.old.items
        → IsReady (T.trees tree.now) pending.new.items next) }
{
    let NodeShape::Joined { rest, .. } = tree.shape(node) else {
        return Ok(pending.pop());
    };
    match rest {
        AfterFirst::Member { name } => {
            text.push('/')?;
            text.push_str(name)?;
            Ok(pending.pop())
        }
        AfterFirst::Count => {
            text.push_str("/$count")?;
            Ok(pending.pop())
        }
        AfterFirst::AnyItem => {
            text.push_str("/any()")?;
            Ok(pending.pop())
        }
        AfterFirst::Lambda {
            quantifier,
            variable,
            body,
        } => {
            text.push_str(match quantifier {
                Quantifier::Any => "/any(",
                Quantifier::All => "/all(",
            })?;
            text.push_str(variable)?;
            text.push(':')?;
            pending.push(PrintTask::Close)?;
            Ok(Some(PrintTask::Operand {
                node: body,
                needed: 0,
            }))
        }
        AfterFirst::Binary { operator, right } => {
            text.push_str(spaced_word(operator))?;
            Ok(Some(PrintTask::Operand {
                node: right,
                needed: operator_level(operator) + 1,
            }))
        }
        AfterFirst::Has { right } => {
            text.push_str(" has ")?;
            Ok(Some(PrintTask::Operand {
                node: right,
                needed: BASE,
            }))
        }
        AfterFirst::InPath { path } => {
            text.push_str(" in ")?;
            Ok(Some(PrintTask::Operand {
                node: path,
                needed: PATH,
            }))
        }
        AfterFirst::InList { items } => {
            text.push_str(" in (")?;
            pending.push(PrintTask::Close)?;
            put_items(tree, items, pending)
        }
    }
}

/// Puts items on the stack, of which the first one is next; nothing where there is none.
fn put_items<T: PrintedTree>(
    tree: &T,
    items: T::Items,
    pending: &mut Vec<PrintTask<T::Node, T::Items>>,
) -> Result<Option<PrintTask<T::Node, T::Items>>, AllocError>
    requires { (T.trees tree.now).HaveTrees items }
    ensures listed { IfOk result (λ next. map (piece_of (T.trees tree.now)) (waiting pending.new.items next)
        ≡ map (piece_of (T.trees tree.now)) pending.old.items ++ listed ((T.trees tree.now).trees_of items)) }
    ensures ready { IfOk result (λ next. AllHaveTrees (T.trees tree.now) pending.old.items
        → IsReady (T.trees tree.now) pending.new.items next) }
{
    let Some((first, rest)) = tree.split_items(items) else {
        return Ok(pending.pop());
    };
    pending.push(PrintTask::Further { items: rest })?;
    Ok(Some(PrintTask::Operand {
        node: first,
        needed: 0,
    }))
}
