//! The tree of boxes that a list stands for.
ghost use Rattle.std.specs.Prelude.{◌≡◌, ◌∷◌, ◌≤◌, IfOk, drop, length, map, string_bytes};
ghost use Rattle.odata_syntax.specs.TreeView.{tree_of};
ghost use Rattle.odata_syntax.specs.PostOrder.{IsWholeTree, child_count, last_tree, last_trees, trees_in};
ghost use Rattle.odata_syntax.specs.private.Forests.{forest_trees, kept_text, token_texts};
ghost use Rattle.odata_syntax.specs.private.Forests.{kind_over_one, kind_over_two, text_over_one, text_over_two, trees_grown};

use crate::syntax_list::{SyntaxKind, SyntaxNode};
use crate::{BinaryOperator, Node, Quantifier};
use odata_text::{Span, Token};
use std::alloc::{AllocError, Global};

/// The trees of the nodes so far that are no child yet, the last one last.
#[derive(Drop)]
pub(crate) struct Forest {
    pub(crate) alloc: Global,
    pub(crate) trees: Vec<Node>,
}

/// A node over one tree. A member has its name.
#[derive(Drop)]
enum OverOne {
    Member(String),
    Count,
    Neg,
    Not,
    AnyItem,
}

/// A node over two trees. A lambda operator has the name of its variable.
#[derive(Drop)]
enum OverTwo {
    Binary(BinaryOperator),
    Has,
    InPath,
    Lambda(Quantifier, String),
}

/// The root of the tree of a list, whose texts are those of the tokens.
pub(crate) fn root_of_list(
    alloc: Global,
    nodes: &[SyntaxNode],
    tokens: &[Token<'_>],
) -> Result<Box<Node>, AllocError>
    requires { IsWholeTree nodes.now }
    ensures { IfOk result (λ root. tree_of root.value ≡ last_tree (trees_in (token_texts tokens.now) nodes.now)) }
{
    let mut forest = Forest {
        alloc,
        trees: Vec::new(alloc),
    };
    for node in nodes {
        let text = text_of_node(alloc, node, tokens)?;
        forest.grow(node.kind, node.span, node.count, text)?;
    }
    forest.child()
}

/// What the tree keeps of the text of a node's token: the name of a call in lower case, and nothing of a word.
fn text_of_node(
    alloc: Global,
    node: &SyntaxNode,
    tokens: &[Token<'_>],
) -> Result<String, AllocError>
    ensures { IfOk result (λ text. string_bytes text
        ≡ kept_text node.now.kind (token_texts tokens.now node.now.text)) }
{
    let text = match tokens.get(node.text.start) {
        Some(token) => token.text,
        None => "",
    };
    match node.kind {
        SyntaxKind::Lit(_) => String::from_str(alloc, text),
        SyntaxKind::Name => String::from_str(alloc, text),
        SyntaxKind::Member => String::from_str(alloc, text),
        SyntaxKind::Lambda(_) => String::from_str(alloc, text),
        SyntaxKind::Call => {
            let mut name = String::from_str(alloc, text)?;
            name.make_ascii_lowercase();
            Ok(name)
        }
        _ => Ok(String::new(alloc)),
    }
}

impl Forest {
    /// The last tree, as a child.
    pub(crate) fn child(&mut self) -> Result<Box<Node>, AllocError>
        requires { 1 ≤ length self.old.trees.items }
        ensures { IfOk result (λ child. forest_trees self.old ≡ tree_of child.value ∷ forest_trees self.new) }
    {
        let tree = self.trees.take_last();
        Ok(Box::new(self.alloc, tree)?)
    }

    /// The last so many trees, as items.
    fn items(&mut self, count: usize) -> Result<Vec<Node>, AllocError>
        requires { count ≤ length self.old.trees.items }
        ensures items { IfOk result (λ items. map tree_of items.items ≡ last_trees count (forest_trees self.old)) }
        ensures left { IfOk result (λ _. forest_trees self.new ≡ drop count (forest_trees self.old)) }
    {
        let mut items = Vec::with_capacity(self.alloc, count)?;
        for _ in 0..count {
            items.push(self.trees.take_last())?;
        }
        items.reverse();
        Ok(items)
    }

    /// One more tree.
    #[inline(always)]
    fn put(&mut self, tree: Node) -> Result<(), AllocError>
        ensures { IfOk result (λ _. forest_trees self.new ≡ tree_of tree ∷ forest_trees self.old) }
    {
        self.trees.push(tree)?;
        Ok(())
    }

    /// Puts the tree of a node that keeps this text over the last trees, which it replaces.
    pub(crate) fn grow(
        &mut self,
        kind: SyntaxKind,
        span: Span,
        count: usize,
        text: String,
    ) -> Result<(), AllocError>
        requires { child_count kind count ≤ length self.old.trees.items }
        ensures { IfOk result (λ _. forest_trees self.new
            ≡ trees_grown kind span count (string_bytes text) (forest_trees self.old)) }
    {
        match kind {
            SyntaxKind::Lit(kind) => self.put(Node::Lit { span, kind, text }),
            SyntaxKind::It => self.put(Node::It { span }),
            SyntaxKind::Name => self.put(Node::Name { span, name: text }),
            SyntaxKind::Call => {
                let arguments = self.items(count)?;
                self.put(Node::Call {
                    span,
                    name: text,
                    arguments,
                })
            }
            SyntaxKind::InList => {
                let items = self.items(count)?;
                let left = self.child()?;
                self.put(Node::InList { span, left, items })
            }
            SyntaxKind::Member => self.grow_over_one(span, OverOne::Member(text)),
            SyntaxKind::Count => self.grow_over_one(span, OverOne::Count),
            SyntaxKind::Neg => self.grow_over_one(span, OverOne::Neg),
            SyntaxKind::Not => self.grow_over_one(span, OverOne::Not),
            SyntaxKind::AnyItem => self.grow_over_one(span, OverOne::AnyItem),
            SyntaxKind::Binary(operator) => self.grow_over_two(span, OverTwo::Binary(operator)),
            SyntaxKind::Has => self.grow_over_two(span, OverTwo::Has),
            SyntaxKind::InPath => self.grow_over_two(span, OverTwo::InPath),
            SyntaxKind::Lambda(of) => self.grow_over_two(span, OverTwo::Lambda(of, text)),
        }
    }

    /// The same of a node over one tree.
    fn grow_over_one(&mut self, span: Span, form: OverOne) -> Result<(), AllocError>
        requires { 1 ≤ length self.old.trees.items }
        ensures { IfOk result (λ _. forest_trees self.new
            ≡ trees_grown (kind_over_one form) span 0 (text_over_one form) (forest_trees self.old)) }
    {
        let child = self.child()?;
        match form {
            OverOne::Member(name) => {
                let base = child;
                self.put(Node::Member { span, base, name })
            }
            OverOne::Count => self.put(Node::Count { span, base: child }),
            OverOne::Neg => {
                let operand = child;
                self.put(Node::Neg { span, operand })
            }
            OverOne::Not => {
                let operand = child;
                self.put(Node::Not { span, operand })
            }
            OverOne::AnyItem => {
                let base = child;
                let lambda = None;
                self.put(Node::Any { span, base, lambda })
            }
        }
    }

    /// The same of a node over two trees.
    fn grow_over_two(&mut self, span: Span, form: OverTwo) -> Result<(), AllocError>
        requires { 2 ≤ length self.old.trees.items }
        ensures { IfOk result (λ _. forest_trees self.new
            ≡ trees_grown (kind_over_two form) span 0 (text_over_two form) (forest_trees self.old)) }
    {
        let right = self.child()?;
        let left = self.child()?;
        match form {
            OverTwo::Binary(operator) => self.put(Node::Binary {
                span,
                operator,
                left,
                right,
            }),
            OverTwo::Has => self.put(Node::Has { span, left, right }),
            OverTwo::InPath => {
                let path = right;
                self.put(Node::InPath { span, left, path })
            }
            OverTwo::Lambda(Quantifier::Any, variable) => {
                let base = left;
                let lambda = Some((variable, right));
                self.put(Node::Any { span, base, lambda })
            }
            OverTwo::Lambda(Quantifier::All, variable) => {
                let base = left;
                let body = right;
                self.put(Node::All {
                    span,
                    base,
                    variable,
                    body,
                })
            }
        }
    }
}
